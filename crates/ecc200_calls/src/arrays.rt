//! Arrays of a fixed length, of which only the first numbers mean something.

ghost use Rattle.std.specs.Prelude.{◌≡◌, ◌≤◌, length};
ghost use Rattle.ecc200_calls.specs.Arrays.{over};

/// Writes these bytes over the first ones.
pub(crate) fn put_bytes(all: &mut [u8], bytes: &[u8])
    requires { length bytes.now ≤ length all.old }
    ensures { all.new ≡ over bytes.now all.old }
{
    all[..bytes.len()].copy_from_slice(bytes);
}
