//! Where the program's bytes come from.

ghost use Rattle.std.specs.Prelude.{◌≡◌, ◌≤◌, ◌<◌, ◌+◌, ◌++◌, ℕ, [], List, Option, MatchResult, IfOk, length, take};
ghost use Rattle.std.specs.Io.KnownBytes.{Consumes, IsAtEnd};
ghost use Rattle.dm_text.specs.Devices.{Counts, consumed_none, consumed_joined};

use crate::device::{Failed, count_failure};
use std::io::Read;

/// Where bytes come from.
///
/// A read returns an error exactly where the device failed in it. A failed read has given no byte; nothing is said of
/// what the source gives after it.
pub trait Source {
    // From the first state to the second the source gave these bytes, as far as it tells them.
    ghost gave: { Self → Self → List ℕ → Type 0 };

    // The source has come to its end.
    ghost ended: { Self → Type 0 };

    // How many calls have failed, up to the most that a `u64` holds.
    ghost failed: { Self → ℕ };

    // From the first state to the second no byte past this one was asked for,
    // counted from the first, as far as the source tells it.
    ghost asked: { Self → Self → ℕ → Type 0 };

    /// Reads bytes to the start of `into`, and says how many. The number 0 is the end of the
    /// input, unless `into` is empty.
    fn read(&mut self, into: &mut [u8]) -> Result<usize, Failed>
        ensures bound { IfOk result (λ n. n ≤ length into.new) }
        ensures bytes { MatchResult result (λ n. gave self.old self.new (take n into.new))
            (λ _. gave self.old self.new []) }
        ensures end { IfOk result (λ n. n ≡ 0 → 0 < length into.new → ended self.new) }
        ensures asked { asked self.old self.new (length into.new) }
        ensures count { Counts (failed self.old) (failed self.new) result };

    /// Gives how many reads have failed. The count stays at `u64::MAX` once it has reached it.
    fn failures(&self) -> u64
        ensures { result ≡ failed self.now };

    // From a state to itself nothing was given.
    ghost gave_none: { (s : Self) → gave s s [] };

    // What was given from one state to a second, and from that to a third, is joined.
    ghost gave_joined: { (a b c : Self) → (x y : List ℕ) → gave a b x → gave b c y
        → gave a c (x ++ y) };

    // From a state to itself nothing was asked for.
    ghost asked_none: { (s : Self) → asked s s 0 };

    // What was asked for from a second state to a third counts on from what was given before.
    ghost asked_joined: { (a b c : Self) → (x : List ℕ) (m n most : ℕ) → gave a b x
        → asked a b m → asked b c n → m ≤ most → length x + n ≤ most → asked a c most };
}

/// A source from any reader of std. Each error of the reader is a failure, `Interrupted` too. It doesn't tell how much
/// is asked for.
#[derive(Drop)]
pub struct FromRead<R: Read + Drop> {
    reader: R,
    failures: u64,
}

impl<R: Read + Drop> FromRead<R> {
    ghost use Rattle.dm_text.specs.Readers.{reader_of};

    /// Gives a source with no failure yet, which reads from `reader`.
    pub fn new(reader: R) -> Self
        ensures reader { reader_of result ≡ reader }
        ensures none { ⟦<FromRead<R> as Source>⟧.failed result ≡ 0 }
    {
        FromRead {
            reader,
            failures: 0,
        }
    }
}

impl<R: Read + Drop> Source for FromRead<R> {
    ghost gave = { λ s t bytes. Consumes (R.remaining s.reader) (R.remaining t.reader) bytes };

    ghost ended = { λ s. IsAtEnd (R.remaining s.reader) };

    ghost failed = { λ s. s.failures };

    ghost asked = { λ s t most. Unit {0} };

    ghost asked_none = { λ s. tt };

    ghost asked_joined = { λ a b c x m n most gave first then within after. tt };

    ghost gave_none = { λ s. consumed_none (R.remaining s.reader) };

    ghost gave_joined = { λ a b c.
        consumed_joined (R.remaining a.reader) (R.remaining b.reader) (R.remaining c.reader) };

    fn read(&mut self, into: &mut [u8]) -> Result<usize, Failed> {
        let outcome = self.reader.read(into);
        count_failure(&mut self.failures, outcome)
    }

    fn failures(&self) -> u64 {
        self.failures
    }
}
