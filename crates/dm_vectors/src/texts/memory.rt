//! A source and a sink in memory, which fail where they are told to.

ghost use Rattle.std.specs.Prelude.{◌≡◌, ◌≤◌, ◌<◌, ◌+◌, ◌++◌, ℕ, [], Some, length, refl};
ghost use Rattle.std.proofs.Common.{sym, ap, ◌∙◌, append_assoc, append-nil, le-add_right};
ghost use Rattle.dm_text.specs.Devices.{HasRisen};
ghost use Rattle.dm_vectors.specs.TestDevices.{given_joined, kept_joined, place_before, place_within};

use arrayvec::ArrayVec;
use dm_text::{Failed, Sink, Source};

/// What a sink has taken. The longest answer that a test writes, a grid of side 104, has 10,921 bytes.
pub(super) type Taken = ArrayVec<u8, 12288>;

/// Counts one more failure.
fn failure(failures: &mut u64) -> Failed
    ensures { HasRisen failures.old failures.new }
{
    *failures = failures.saturating_add(1);
    Failed
}

/// Gives a text in pieces. After a number of reads each further one fails.
#[derive(Drop)]
pub(super) struct TextSource<'a> {
    rest: &'a [u8],
    /// The most bytes of the next read. Where it is 0, one may come.
    piece: usize,
    /// The same for each read after it.
    later: usize,
    good_reads: usize,
    /// How many reads there were, failed ones too.
    pub(super) reads: usize,
    /// How many bytes it has given.
    given: usize,
    /// The last place up to which it was asked for bytes, the first byte's being 1.
    pub(super) reach: usize,
    failures: u64,
}

impl<'a> TextSource<'a> {
    /// Gives all that it is asked for, and doesn't fail.
    pub(super) fn new(text: &'a [u8]) -> Self {
        TextSource::failing(text, usize::MAX, usize::MAX, usize::MAX)
    }

    /// Gives at most `piece` bytes of the text at the first read, and at most `later` bytes at each later one, but at
    /// least 1. The reads after the first `good_reads` fail.
    pub(super) fn failing(text: &'a [u8], piece: usize, later: usize, good_reads: usize) -> Self {
        TextSource {
            rest: text,
            piece,
            later,
            good_reads,
            reads: 0,
            given: 0,
            reach: 0,
            failures: 0,
        }
    }
}

impl<'a> Source for TextSource<'a> {
    ghost gave = { λ s t bytes. (s.rest.now ≡ bytes ++ t.rest.now) × (t.given ≤ s.given + length bytes) };

    ghost ended = { λ s. s.rest.now ≡ [] };

    ghost failed = { λ s. s.failures };

    ghost asked = { λ s t most. (k : ℕ) → s.reach ≤ k → s.given + most ≤ k → t.reach ≤ k };

    ghost gave_none = { λ s. (refl, le-add_right s.given 0) };

    ghost gave_joined = { λ a b c x y first then. (
      first.0 ∙ ap (λ l. x ++ l) then.0 ∙ sym (append_assoc x y c.rest.now),
      given_joined a.given b.given c.given x y first.1 then.1,
    ) };

    ghost asked_none = { λ s k low high. low };

    ghost asked_joined = { λ a b c x m n most gave first then fewer within k low high.
        then k (first k low (place_before a.given m most k fewer high))
        (place_within a.given b.given (length x) n most k gave.1 within high) };

    fn read(&mut self, into: &mut [u8]) -> Result<usize, Failed> {
        self.reads = self.reads.saturating_add(1);
        self.reach = self.reach.max(self.given.saturating_add(into.len()));
        if self.reads > self.good_reads {
            return Err(failure(&mut self.failures));
        }
        let count = self.piece.max(1).min(into.len()).min(self.rest.len());
        into[..count].copy_from_slice(&self.rest[..count]);
        self.rest = &self.rest[count..];
        self.given = self.given.saturating_add(count);
        self.piece = self.later;
        Ok(count)
    }

    fn failures(&self) -> u64 {
        self.failures
    }
}

/// Keeps what it takes, and how much it had taken at each of the first flushes. A write of no byte fails: no run needs
/// one.
#[derive(Drop)]
pub(super) struct MemorySink {
    taken: Taken,
    piece: usize,
    room: usize,
    flush_fails: bool,
    flushes: ArrayVec<usize, 4>,
    failures: u64,
    pending: bool,
}

impl MemorySink {
    /// Takes all that it is given, and doesn't fail.
    pub(super) fn new() -> Self {
        MemorySink::failing(usize::MAX, usize::MAX, false)
    }

    /// Takes at most `piece` bytes a write, fails where it has taken `room`, and at each flush if `flush_fails`.
    pub(super) fn failing(piece: usize, room: usize, flush_fails: bool) -> Self {
        MemorySink {
            taken: Taken::new(),
            piece,
            room,
            flush_fails,
            flushes: ArrayVec::new(),
            failures: 0,
            pending: false,
        }
    }

    /// What it has taken.
    pub(super) fn taken(&self) -> &[u8] {
        self.taken.as_slice()
    }

    /// How many bytes it had taken at each of the first four flushes, failed ones too.
    pub(super) fn flushes(&self) -> &[usize] {
        self.flushes.as_slice()
    }
}

impl Sink for MemorySink {
    ghost contents = { λ s. Some s.taken.items };

    ghost failed = { λ s. s.failures };

    ghost is_pending = { λ s. s.pending };

    ghost flushed = { λ s t held. length t.flushes.items < 4 → t.flushes.items ≡ s.flushes.items ++ held };

    ghost flushed_none = { λ s few. sym (append-nil s.flushes.items) };

    ghost flushed_joined = { λ a b c x y first then.
        kept_joined a.flushes.items b.flushes.items c.flushes.items x y first then };

    fn write(&mut self, bytes: &[u8]) -> Result<usize, Failed> {
        let room = self.room.saturating_sub(self.taken.len());
        let count = self.piece.min(room).min(bytes.len());
        if count == 0 || self.taken.try_extend_from_slice(&bytes[..count]).is_err() {
            return Err(failure(&mut self.failures));
        }
        self.pending = true;
        Ok(count)
    }

    fn flush(&mut self) -> Result<(), Failed> {
        if !self.flushes.is_full() {
            self.flushes.push(self.taken.len());
        }
        if self.flush_fails {
            return Err(failure(&mut self.failures));
        }
        self.pending = false;
        Ok(())
    }

    fn failures(&self) -> u64 {
        self.failures
    }

    fn pending(&self) -> bool {
        self.pending
    }
}
