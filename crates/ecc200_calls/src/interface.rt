//! The number of the interface.

ghost use Rattle.std.specs.Prelude.{◌≡◌};

/// Gives the version of the interface: `ECC200_ABI` of the header that declares it.
pub fn abi() -> u16
    ensures { result ≡ 1 }
{
    1
}
