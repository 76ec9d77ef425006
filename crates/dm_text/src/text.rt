//! Texts in a buffer for the most bytes, and where their lines end.

ghost use Rattle.std.specs.Prelude.{◌≡◌, ◌<◌, ◌≤◌, ◌+◌, ◌∷◌, ◌++◌, [], length, take};

use std::marker::Model;

/// The byte that ends a line.
pub(crate) const LF: u8 = b'\n';

/// A text of at most `N` bytes, at the start of a buffer for so many. What stands behind it means nothing, so that
/// nothing is written where it becomes empty: a short text costs nothing for the room of the longest.
#[derive(Drop)]
pub(crate) struct Text<const N: usize> {
    buffer: [u8; N],
    count: usize,
}

impl<const N: usize> Model for Text<N> {
    ghost use Rattle.std.specs.Prelude.{◌≡◌, ◌≤◌, length};
    ghost use Rattle.dm_text.specs.inner.KeptTexts.{KeptText, kept_text};

    ghost Value = { KeptText };

    ghost view = { λ t. kept_text t.count t.buffer };

    ghost invariant = { λ t. (t.count ≤ N) × (length t.buffer ≡ N) };
}

impl<const N: usize> Text<N> {
    /// Begins with no byte.
    pub(crate) fn new() -> Self
        ensures { result.items ≡ [] }
    {
        Text {
            buffer: [0; N],
            count: 0,
        }
    }

    /// Gives how many bytes there are.
    pub(crate) fn len(&self) -> usize
        ensures value { result ≡ length self.now.items }
        ensures fits { result ≤ N }
    {
        self.count
    }

    /// Gives the bytes.
    pub(crate) fn as_slice(&self) -> &[u8]
        ensures value { result.now ≡ self.now.items }
        ensures fits { length result.now ≤ N }
    {
        &self.buffer[..self.count]
    }

    /// Becomes empty.
    pub(crate) fn clear(&mut self)
        ensures { self.new.items ≡ [] }
    {
        self.count = 0;
    }

    /// Keeps only the first `count` bytes.
    pub(crate) fn truncate(&mut self, count: usize)
        requires { count ≤ length self.old.items }
        ensures { self.new.items ≡ take count self.old.items }
    {
        self.count = count;
    }

    /// Appends a byte.
    pub(crate) fn push(&mut self, byte: u8)
        requires { length self.old.items < N }
        ensures { self.new.items ≡ self.old.items ++ byte ∷ [] }
    {
        let count = self.count;
        self.buffer[count] = byte;
        self.count = count + 1;
    }

    /// Appends bytes.
    pub(crate) fn push_all(&mut self, bytes: &[u8])
        requires { length self.old.items + length bytes.now ≤ N }
        ensures { self.new.items ≡ self.old.items ++ bytes.now }
    {
        let start = self.count;
        let end = start + bytes.len();
        let buffer = &mut self.buffer[..];
        buffer[start..end].copy_from_slice(bytes);
        self.count = end;
    }
}
