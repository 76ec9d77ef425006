//! Sources and sinks over readers and writers that fail in each way, and over readers that come to their end.

use crate::claims::holds;
use dm_text::{Failed, FromRead, Sink, Source, ToWrite};
use std::cell::Cell;
use std::io::{self, ErrorKind, Read, Write};

/// A reader and writer that counts its calls. After each `good` reads and writes one fails.
#[derive(Drop)]
pub(super) struct Device<'a> {
    kind: ErrorKind,
    good: u32,
    /// How many reads and writes are good before the next one that fails.
    left: u32,
    /// How many reads find the end. Each later one gives one byte 65.
    ends: u32,
    /// The most bytes that a write takes.
    room: usize,
    flush_fails: bool,
    calls: &'a Cell<u32>,
    flushes: &'a Cell<u32>,
}

impl<'a> Device<'a> {
    /// Fails in this way after each `good` reads and writes. It hasn't come to its end, takes all, and its flushes are
    /// good.
    pub(super) fn new(
        kind: ErrorKind,
        good: u32,
        calls: &'a Cell<u32>,
        flushes: &'a Cell<u32>,
    ) -> Self {
        Device {
            kind,
            good,
            left: good,
            ends: 0,
            room: usize::MAX,
            flush_fails: false,
            calls,
            flushes,
        }
    }

    /// Counts a read or a write, and fails if it is one that does.
    fn call(&mut self) -> io::Result<()> {
        self.calls.set(self.calls.get().saturating_add(1));
        if self.left == 0 {
            self.left = self.good;
            return Err(io::Error::from(self.kind));
        }
        self.left -= 1;
        Ok(())
    }
}

impl<'a> Read for Device<'a> {
    fn read(&mut self, buf: &mut [u8]) -> io::Result<usize> {
        self.call()?;
        if self.ends > 0 {
            self.ends -= 1;
            return Ok(0);
        }
        match buf.first_mut() {
            Some(first) => {
                *first = 65;
                Ok(1)
            }
            None => Ok(0),
        }
    }
}

impl<'a> Write for Device<'a> {
    fn write(&mut self, buf: &[u8]) -> io::Result<usize> {
        self.call()?;
        Ok(buf.len().min(self.room))
    }

    fn flush(&mut self) -> io::Result<()> {
        self.flushes.set(self.flushes.get().saturating_add(1));
        if self.flush_fails {
            return Err(io::Error::from(self.kind));
        }
        Ok(())
    }
}

/// Ways to fail. None of them is special.
static KINDS: [ErrorKind; 8] = [
    ErrorKind::BrokenPipe,
    ErrorKind::WouldBlock,
    ErrorKind::Interrupted,
    ErrorKind::UnexpectedEof,
    ErrorKind::WriteZero,
    ErrorKind::TimedOut,
    ErrorKind::OutOfMemory,
    ErrorKind::Other,
];

/// A read: the length of its buffer, its outcome, and what is then counted: failures and calls of the device.
type AskedRead = (usize, Result<usize, Failed>, u64, u32);

/// Reads of a device, one after another: how many are good before each one that fails, how many find the end, and the
/// reads. At a terminal more bytes may come after the end.
type Reads = (u32, u32, &'static [AskedRead]);

static READS: [Reads; 3] = [
    (
        1,
        0,
        &[
            (4, Ok(1), 0, 1),
            (4, Err(Failed), 1, 2),
            (4, Ok(1), 1, 3),
            (4, Err(Failed), 2, 4),
            (4, Ok(1), 2, 5),
            (4, Err(Failed), 3, 6),
        ],
    ),
    (1, 0, &[(0, Ok(0), 0, 1), (0, Err(Failed), 1, 2)]),
    (
        u32::MAX,
        2,
        &[(4, Ok(0), 0, 1), (4, Ok(0), 0, 2), (4, Ok(1), 0, 3)],
    ),
];

/// Whether a read has this outcome and leaves the source with this count of failures.
fn reads<I: Source>(
    source: &mut I,
    into: &mut [u8],
    outcome: Result<usize, Failed>,
    failures: u64,
) -> bool {
    source.read(into) == outcome && source.failures() == failures
}

/// Whether a read into this many zeros has this outcome, and writes over the first zero if it gives a byte.
fn reads_bytes<I: Source>(source: &mut I, read: AskedRead) -> bool {
    let (length, outcome, failures, _) = read;
    let mut place = [0u8; 4];
    let as_told = reads(source, &mut place[..length.min(4)], outcome, failures);
    let first = if outcome == Ok(1) { 65 } else { 0 };
    as_told && place == [first, 0, 0, 0]
}

/// Whether the reads of a source over a device that fails in this way have their outcomes.
fn have_read_outcomes(kind: ErrorKind, row: &Reads) -> bool {
    let (calls, flushes) = (Cell::new(0), Cell::new(0));
    let mut device = Device::new(kind, row.0, &calls, &flushes);
    device.ends = row.1;
    let mut source = FromRead::new(device);
    let mut is_good = source.failures() == 0;
    for read in row.2 {
        is_good = reads_bytes(&mut source, *read) && calls.get() == read.3 && is_good;
    }
    is_good
}

#[test]
fn reads_of_devices(rt: HostRuntime) {
    for kind in KINDS {
        for row in &READS {
            holds(&rt, have_read_outcomes(kind, row));
        }
    }
}

/// A read from a device that fails at each call in this way is a failure.
fn fails_at(kind: ErrorKind, place: &mut [u8]) -> bool {
    let (calls, flushes) = (Cell::new(0), Cell::new(0));
    let mut source = FromRead::new(Device::new(kind, 0, &calls, &flushes));
    reads(&mut source, place, Err(Failed), 1) && calls.get() == 1
}

/// Two reads from a device that is at its end find it.
fn ends_at(place: &mut [u8]) -> bool {
    let (calls, flushes) = (Cell::new(0), Cell::new(0));
    let mut device = Device::new(ErrorKind::Other, u32::MAX, &calls, &flushes);
    device.ends = 2;
    let mut source = FromRead::new(device);
    reads(&mut source, place, Ok(0), 0) && reads(&mut source, place, Ok(0), 0)
}

#[test]
fn a_read_of_each_length_fails_in_each_way_or_finds_the_end(rt: HostRuntime) {
    let mut place = [0u8; 4096];
    for length in 0..4097usize {
        for kind in KINDS {
            holds(&rt, fails_at(kind, &mut place[..length]));
        }
        holds(&rt, ends_at(&mut place[..length]));
    }
}

/// A write of these bytes, or a flush: its outcome, with 0 for a flush, what is then counted, and whether bytes are
/// then pending. The counts are those of failures, writes and flushes.
type AskedWrite = (
    Option<&'static [u8]>,
    Result<usize, Failed>,
    (u64, u32, u32),
    bool,
);

/// Writes to a device, one after another: how many are good before each one that fails, the most bytes that one takes,
/// whether a flush fails, and the writes and flushes.
type Writes = (u32, usize, bool, &'static [AskedWrite]);

static WRITES: [Writes; 4] = [
    (
        1,
        1,
        false,
        &[
            (Some(b"ab"), Ok(1), (0, 1, 0), true),
            (Some(b"ab"), Err(Failed), (1, 2, 0), true),
            (Some(b"ab"), Ok(1), (1, 3, 0), true),
            (Some(b"ab"), Err(Failed), (2, 4, 0), true),
            (Some(b"ab"), Ok(1), (2, 5, 0), true),
            (Some(b"ab"), Err(Failed), (3, 6, 0), true),
        ],
    ),
    (
        u32::MAX,
        2,
        false,
        &[
            (None, Ok(0), (0, 0, 1), false),
            (Some(b""), Ok(0), (0, 1, 1), false),
            (Some(b"abc"), Ok(2), (0, 2, 1), true),
            (None, Ok(0), (0, 2, 2), false),
            (None, Ok(0), (0, 2, 3), false),
        ],
    ),
    (
        u32::MAX,
        0,
        true,
        &[
            (Some(b"abc"), Err(Failed), (1, 1, 0), true),
            (Some(b""), Ok(0), (1, 2, 0), true),
            (None, Err(Failed), (2, 2, 1), true),
        ],
    ),
    (
        0,
        usize::MAX,
        true,
        &[
            (Some(b"ab"), Err(Failed), (1, 1, 0), true),
            (None, Err(Failed), (2, 1, 1), true),
            (Some(b"ab"), Err(Failed), (3, 2, 1), true),
            (None, Err(Failed), (4, 2, 2), true),
            (Some(b"ab"), Err(Failed), (5, 3, 2), true),
            (None, Err(Failed), (6, 3, 3), true),
            (Some(b""), Err(Failed), (7, 4, 3), true),
        ],
    ),
];

/// Writes these bytes, or flushes.
fn write_or_flush<O: Sink>(sink: &mut O, bytes: Option<&[u8]>) -> Result<usize, Failed> {
    match bytes {
        Some(bytes) => sink.write(bytes),
        None => {
            sink.flush()?;
            Ok(0)
        }
    }
}

/// Whether a sink has this count of failures, and bytes pending or not.
fn has_state<O: Sink>(sink: &O, failures: u64, pending: bool) -> bool {
    sink.failures() == failures && sink.pending() == pending
}

/// Whether the writes and flushes of a sink over a device that fails in this way have their outcomes.
fn have_write_outcomes(kind: ErrorKind, row: &Writes) -> bool {
    let (calls, flushes) = (Cell::new(0), Cell::new(0));
    let mut device = Device::new(kind, row.0, &calls, &flushes);
    device.room = row.1;
    device.flush_fails = row.2;
    let mut sink = ToWrite::new(device);
    let mut is_good = has_state(&sink, 0, true);
    for (bytes, given, counts, pending) in row.3 {
        let (failures, writes, flushed) = *counts;
        is_good = write_or_flush(&mut sink, *bytes) == *given
            && has_state(&sink, failures, *pending)
            && calls.get() == writes
            && flushes.get() == flushed
            && is_good;
    }
    is_good
}

#[test]
fn writes_and_flushes_of_devices(rt: HostRuntime) {
    for kind in KINDS {
        for row in &WRITES {
            holds(&rt, have_write_outcomes(kind, row));
        }
    }
}

/// More bytes than the answers that are written together have.
const MOST_WRITTEN: usize = 33_000;

/// Whether a write of these bytes to a device that takes all is one call that takes them all.
fn takes_all(bytes: &[u8]) -> bool {
    let (calls, flushes) = (Cell::new(0), Cell::new(0));
    let device = Device::new(ErrorKind::Other, u32::MAX, &calls, &flushes);
    let mut sink = ToWrite::new(device);
    sink.write(bytes) == Ok(bytes.len()) && has_state(&sink, 0, true) && calls.get() == 1
}

#[test]
fn a_write_of_each_length_is_taken_whole(rt: HostRuntime) {
    let bytes = [0u8; MOST_WRITTEN];
    for length in 0..MOST_WRITTEN + 1 {
        holds(&rt, takes_all(&bytes[..length]));
    }
}
