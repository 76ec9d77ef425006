//! Lists of numbers: codewords, or the values of a run.

ghost use Rattle.std.specs.Prelude.{◌+◌, ◌≤◌, length, drop};
ghost use Rattle.dm_words.specs.inner.Scan.Results.{Begins};

/// Gives the number at an index, `None` at the end of the list.
pub(crate) fn number_at(list: &[u8], at: usize) -> Option<u8>
    requires { at ≤ length list.now }
    ensures { Begins result (drop at list.now) (drop (at + 1) list.now) }
{
    list.get(at).copied()
}
