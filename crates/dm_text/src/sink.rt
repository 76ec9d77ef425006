//! Where the program's bytes go.

ghost use Rattle.std.specs.Prelude.{◌≡◌, ◌≤◌, ◌<◌, ◌++◌, [], ℕ, Bool, true, false, List, Option, IfOk, OnOk, OnErr};
ghost use Rattle.std.specs.Prelude.{length};
ghost use Rattle.std.specs.Io.KnownBytes.{Appends, Keeps, WriteAppends};
ghost use Rattle.dm_text.specs.Devices.{AppendsPrefix, Counts, IsFlushedOnce, Marks};

use crate::device::{Failed, count_failure, failure};
use std::io::Write;

/// Where bytes go.
///
/// A call returns an error exactly where the device failed in it; it has then taken no byte.
pub trait Sink {
    // The bytes taken so far, where they are known.
    ghost contents: { Self → Option (List ℕ) };

    // How many calls have failed, up to the most that a `u64` holds.
    ghost failed: { Self → ℕ };

    // Bytes may have been taken that no successful flush has handed on.
    ghost is_pending: { Self → Bool };

    // From the first state to the second there was a flush, successful or not, for each of these numbers; it says how
    // many bytes had been taken in all by then, as far as the sink tells it.
    ghost flushed: { Self → Self → List ℕ → Type 0 };

    /// Takes a prefix of `bytes`, and says how long it is: at least 1, unless `bytes` is empty.
    fn write(&mut self, bytes: &[u8]) -> Result<usize, Failed>
        ensures bound { IfOk result (λ n. n ≤ length bytes.now) }
        ensures some { IfOk result (λ n. 0 < length bytes.now → 0 < n) }
        ensures bytes { WriteAppends (contents self.old) (contents self.new) result bytes.now }
        ensures mark { Marks (is_pending self.old) (is_pending self.new) result (length bytes.now) }
        ensures unflushed { flushed self.old self.new [] }
        ensures count { Counts (failed self.old) (failed self.new) result };

    /// Hands on all that was taken, if it succeeds.
    fn flush(&mut self) -> Result<(), Failed>
        ensures bytes { Keeps (contents self.old) (contents self.new) }
        ensures clear { OnOk result (is_pending self.new ≡ false) }
        ensures kept { OnErr result (is_pending self.new ≡ is_pending self.old) }
        ensures held { IsFlushedOnce (flushed self.old self.new) (contents self.old)
            (contents self.new) }
        ensures count { Counts (failed self.old) (failed self.new) result };

    /// Gives how many writes and flushes have failed. The count stays at `u64::MAX` once it has reached it.
    fn failures(&self) -> u64
        ensures { result ≡ failed self.now };

    /// Whether bytes may have been taken that no flush has handed on.
    fn pending(&self) -> bool
        ensures { result ≡ is_pending self.now };

    // From a state to itself there was no flush.
    ghost flushed_none: { (s : Self) → flushed s s [] };

    // The flushes from one state to a second, and from that to a third, are joined.
    ghost flushed_joined: { (a b c : Self) → (x y : List ℕ) → flushed a b x → flushed b c y
        → flushed a c (x ++ y) };
}

/// A sink from any writer of std. Each error of the writer is a failure, `Interrupted` too, and so is a write of some
/// bytes that takes none of them. It doesn't tell its flushes.
#[derive(Drop)]
pub struct ToWrite<W: Write + Drop> {
    writer: W,
    failures: u64,
    pending: bool,
}

impl<W: Write + Drop> ToWrite<W> {
    ghost use Rattle.dm_text.specs.Readers.{writer_of};

    /// Gives a sink with no failure yet, which writes to `writer`. What the writer took before counts as pending.
    pub fn new(writer: W) -> Self
        ensures writer { writer_of result ≡ writer }
        ensures none { ⟦<ToWrite<W> as Sink>⟧.failed result ≡ 0 }
        ensures pending { ⟦<ToWrite<W> as Sink>⟧.is_pending result ≡ true }
    {
        ToWrite {
            writer,
            failures: 0,
            pending: true,
        }
    }
}

impl<W: Write + Drop> Sink for ToWrite<W> {
    ghost contents = { λ s. W.contents s.writer };

    ghost failed = { λ s. s.failures };

    ghost is_pending = { λ s. s.pending };

    ghost flushed = { λ s t held. Unit {0} };

    ghost flushed_none = { λ s. tt };

    ghost flushed_joined = { λ a b c x y first then. tt };

    fn write(&mut self, bytes: &[u8]) -> Result<usize, Failed> {
        let outcome = self.writer.write(bytes);
        let taken = count_failure(&mut self.failures, outcome)?;
        if bytes.is_empty() {
            return Ok(taken);
        }
        demand_some(&mut self.failures, taken)?;
        self.pending = true;
        Ok(taken)
    }

    fn flush(&mut self) -> Result<(), Failed> {
        let outcome = self.writer.flush();
        count_failure(&mut self.failures, outcome)?;
        self.pending = false;
        Ok(())
    }

    fn failures(&self) -> u64 {
        self.failures
    }

    fn pending(&self) -> bool {
        self.pending
    }
}

/// Counts a write of some bytes as a failure if it took none of them.
fn demand_some(failures: &mut u64, taken: usize) -> Result<(), Failed>
    ensures some { OnOk result (0 < taken) }
    ensures none { OnErr result (taken ≡ 0) }
    ensures count { Counts failures.old failures.new result }
{
    match taken {
        0 => Err(failure(failures)),
        _ => Ok(()),
    }
}

/// Writes all of the bytes, or a prefix of them if the sink fails.
pub(crate) fn put<O: Sink>(sink: &mut O, bytes: &[u8]) -> Result<(), Failed>
    ensures ok { OnOk result (Appends (O.contents sink.old) (O.contents sink.new) bytes.now) }
    ensures err { OnErr result
        (AppendsPrefix (O.contents sink.old) (O.contents sink.new) bytes.now) }
    ensures unflushed { O.flushed sink.old sink.new [] }
    ensures count { Counts (O.failed sink.old) (O.failed sink.new) result }
{
    let mut at = 0;
    while at < bytes.len() {
        let taken = sink.write(&bytes[at..])?;
        at += taken;
    }
    Ok(())
}
