//! Runs over devices that fail, and over more input than is to be read.

use super::super::devices::Device;
use super::super::feeds::TWO_GRIDS;
use super::super::memory::{MemorySink, TextSource};
use super::super::worked::{AIM, LETTER};
use super::{SIZES, joined, ran};
use crate::claims::holds;
use dm_symbol::Profile;
use dm_text::{FromRead, RunFault, Sink, Source, Tally, Task, ToWrite};
use std::cell::Cell;
use std::io::{self, ErrorKind, Write};

/// What is written for the two grids.
static OUT: &[u8] = b"123456\nA\n";

/// How many bytes a device moves in a call at the most.
static PIECES: [usize; 3] = [1, 7, 4096];

/// What the devices of a run do.
#[derive(Clone, Copy)]
struct Devices {
    /// The most bytes of the first read.
    first: usize,
    /// The most bytes of each later one.
    later: usize,
    /// How many reads are good. Each one after them fails.
    good_reads: usize,
    /// The most bytes of a write.
    most: usize,
    /// How much the sink takes before its writes fail.
    room: usize,
    flush_fails: bool,
}

/// Devices that move all at once, and don't fail.
static GOOD: Devices = Devices {
    first: usize::MAX,
    later: usize::MAX,
    good_reads: usize::MAX,
    most: usize::MAX,
    room: usize::MAX,
    flush_fails: false,
};

/// Devices that move at most so many bytes in a call, and don't fail.
fn moving(piece: usize) -> Devices {
    Devices {
        first: piece,
        later: piece,
        most: piece,
        ..GOOD
    }
}

/// How a run ends.
#[derive(Clone, Copy)]
struct End<'a> {
    outcome: Result<Tally, RunFault>,
    /// How many reads there were, failed ones too.
    reads: usize,
    /// What the sink has taken.
    written: &'a [u8],
    /// How much it had taken at each flush.
    flushes: &'a [usize],
}

/// How a run ends that has this fault after so many reads.
fn failed(fault: RunFault, reads: usize, written: &[u8]) -> End<'_> {
    End {
        outcome: Err(fault),
        reads,
        written,
        flushes: &[],
    }
}

/// Whether the run of the task over this text, of which at most so many bytes may come, ends so. The source wasn't
/// asked for more than one byte past the limit, and neither device was called again after it failed.
fn run_ends(task: Task, text: &[u8], devices: &Devices, most: u32, end: &End<'_>) -> bool {
    let mut source = TextSource::failing(text, devices.first, devices.later, devices.good_reads);
    let mut sink = MemorySink::failing(devices.most, devices.room, devices.flush_fails);
    let outcome = ran(task, &mut source, &mut sink, most);
    outcome == end.outcome
        && source.reads == end.reads
        && source.reach as u64 <= u64::from(most).saturating_add(1)
        && source.failures() == u64::from(matches!(outcome, Err(RunFault::Read)))
        && sink.taken() == end.written
        && sink.flushes() == end.flushes
        && sink.failures() == u64::from(matches!(outcome, Err(RunFault::Write)))
}

/// Whether a run that reads the two grids ends so.
fn grids_end(devices: &Devices, end: &End<'_>) -> bool {
    run_ends(Task::Read(None), TWO_GRIDS, devices, 1000, end)
}

/// Whether a run that writes grids of the two lines, of which at most so many bytes may come, ends so.
fn lines_end(devices: &Devices, most: u32, end: &End<'_>) -> bool {
    run_ends(Task::Write(Profile::Ascii), TWO_LINES, devices, most, end)
}

/// Whether a run that writes the table ends so. Its source fails at the first read.
fn table_ends(mut devices: Devices, end: &End<'_>) -> bool {
    devices.good_reads = 0;
    run_ends(Task::Table, TWO_GRIDS, &devices, 0, end)
}

#[test]
fn a_read_fails(rt: HostRuntime) {
    for piece in PIECES {
        for good in 0..reads_of(TWO_GRIDS, piece, usize::MAX) {
            let written = if good.saturating_mul(piece) < 111 {
                b"".as_slice()
            } else {
                b"123456\n"
            };
            let mut devices = moving(piece);
            devices.good_reads = good;
            let end = failed(RunFault::Read, good.saturating_add(1), written);
            holds(&rt, grids_end(&devices, &end));
        }
    }
}

/// The number of reads, of `piece` bytes each, that a text takes when at most `most` bytes may come, including the one
/// that meets its end or the byte too many.
fn reads_of(text: &[u8], piece: usize, most: usize) -> usize {
    text.len()
        .min(most)
        .div_ceil(piece.max(1))
        .saturating_add(1)
}

#[test]
fn a_write_fails(rt: HostRuntime) {
    for piece in PIECES {
        for room in 0..OUT.len() {
            let reads = if room < 7 {
                111usize.div_ceil(piece)
            } else {
                reads_of(TWO_GRIDS, piece, usize::MAX)
            };
            let mut devices = moving(piece);
            devices.room = room;
            let end = failed(RunFault::Write, reads, &OUT[..room]);
            holds(&rt, grids_end(&devices, &end));
        }
    }
}

#[test]
fn the_flush_fails(rt: HostRuntime) {
    for piece in PIECES {
        let mut devices = moving(piece);
        devices.flush_fails = true;
        let mut end = failed(RunFault::Write, reads_of(TWO_GRIDS, piece, usize::MAX), OUT);
        end.flushes = &[9];
        holds(&rt, grids_end(&devices, &end));
    }
}

/// How a run ends that answers all, without a read.
fn all_answered<'a>(answered: u64, written: &'a [u8], flushes: &'a [usize]) -> End<'a> {
    End {
        outcome: Ok(Tally {
            answered,
            refused: 0,
        }),
        reads: 0,
        written,
        flushes,
    }
}

/// How many bytes of the two grids may come, how many are then answered, or none where that is too much, and what is
/// written.
static GRID_LIMITS: [(u32, Option<u64>, &[u8]); 6] = [
    (223, Some(2), b"123456\nA\n"),
    (222, Some(2), b"123456\nA\n"),
    (221, None, b"123456\n"),
    (111, None, b"123456\n"),
    (110, None, b""),
    (0, None, b""),
];

/// Whether a run that reads grids from this text in such pieces, of which so many bytes may come, ends so.
fn is_limited(text: &[u8], piece: usize, most: u32, answered: Option<u64>, written: &[u8]) -> bool {
    let flushes = [written.len()];
    let mut end = match answered {
        Some(answered) => all_answered(answered, written, &flushes),
        None => failed(RunFault::TooMuchInput, 0, written),
    };
    end.reads = reads_of(text, piece, most as usize);
    run_ends(Task::Read(None), text, &moving(piece), most, &end)
}

#[test]
fn input_is_limited(rt: HostRuntime) {
    for piece in PIECES {
        for (most, answered, written) in &GRID_LIMITS {
            holds(&rt, is_limited(TWO_GRIDS, piece, *most, *answered, written));
        }
        holds(&rt, is_limited(b"", piece, 0, Some(0), b""));
    }
}

/// Two lines, the last one without its LF.
static TWO_LINES: &[u8] = b"A\nAIM";

#[test]
fn pieces_change_nothing(rt: HostRuntime) {
    let mut end = all_answered(2, OUT, &[9]);
    end.reads = 2;
    holds(&rt, grids_end(&GOOD, &end));
    end.reads = 3;
    let mut devices = GOOD;
    for first in 1..TWO_GRIDS.len() {
        devices.first = first;
        holds(&rt, grids_end(&devices, &end));
    }
}

#[test]
fn a_read_fails_between_lines(rt: HostRuntime) {
    for good in 0..=TWO_LINES.len() {
        let written = if good < 2 { b"".as_slice() } else { LETTER };
        let mut devices = GOOD;
        devices.first = 1;
        devices.later = 1;
        devices.good_reads = good;
        let end = failed(RunFault::Read, good.saturating_add(1), written);
        holds(&rt, lines_end(&devices, 1000, &end));
    }
}

#[test]
fn a_write_fails_within_a_grid(rt: HostRuntime) {
    let written = joined(&[LETTER, AIM]);
    for room in 0..written.len() {
        let reads = if room < 111 { 1 } else { 2 };
        let end = failed(RunFault::Write, reads, &written.as_slice()[..room]);
        let mut devices = GOOD;
        devices.most = 7;
        devices.room = room;
        holds(&rt, lines_end(&devices, 1000, &end));
    }
}

/// How many bytes of the two lines may come, and what is then written.
static LIMITS: [(u32, &[u8]); 3] = [(4, LETTER), (2, LETTER), (1, b"")];

#[test]
fn lines_are_limited(rt: HostRuntime) {
    for (most, written) in &LIMITS {
        let end = failed(RunFault::TooMuchInput, 2, written);
        holds(&rt, lines_end(&GOOD, *most, &end));
    }
}

#[test]
fn the_table_needs_no_source(rt: HostRuntime) {
    let flushes = [SIZES.len()];
    let end = all_answered(0, SIZES, &flushes);
    holds(&rt, table_ends(GOOD, &end));
}

#[test]
fn a_write_of_the_table_fails(rt: HostRuntime) {
    for room in 0..SIZES.len() {
        let end = failed(RunFault::Write, 0, &SIZES[..room]);
        let mut devices = GOOD;
        devices.most = 7;
        devices.room = room;
        holds(&rt, table_ends(devices, &end));
    }
}

#[test]
fn the_flush_of_the_table_fails(rt: HostRuntime) {
    let flushes = [SIZES.len()];
    let mut devices = GOOD;
    devices.most = 7;
    devices.flush_fails = true;
    let mut end = failed(RunFault::Write, 0, SIZES);
    end.flushes = &flushes;
    holds(&rt, table_ends(devices, &end));
}

/// A writer over a sink.
#[derive(Drop)]
struct SinkWriter<'a> {
    sink: &'a mut MemorySink,
}

impl<'a> Write for SinkWriter<'a> {
    fn write(&mut self, buf: &[u8]) -> io::Result<usize> {
        self.sink
            .write(buf)
            .or(Err(io::Error::from(ErrorKind::Interrupted)))
    }

    fn flush(&mut self) -> io::Result<()> {
        self.sink
            .flush()
            .or(Err(io::Error::from(ErrorKind::Interrupted)))
    }
}

#[test]
fn a_reader_fails_at_once(rt: HostRuntime) {
    let (calls, flushes) = (Cell::new(0), Cell::new(0));
    let device = Device::new(ErrorKind::Interrupted, 0, &calls, &flushes);
    let mut source = FromRead::new(device);
    let mut sink = MemorySink::new();
    let outcome = ran(Task::Read(None), &mut source, &mut sink, 1000);
    holds(&rt, outcome == Err(RunFault::Read));
    holds(&rt, source.failures() == 1);
    holds(&rt, sink.taken().is_empty());
    holds(&rt, sink.flushes().is_empty());
}

/// A run over a writer to this sink, whose flush fails, fails once.
fn flush_fails(sink: &mut MemorySink) -> bool {
    let mut sink = ToWrite::new(SinkWriter { sink });
    let mut source = TextSource::new(TWO_GRIDS);
    let outcome = ran(Task::Read(None), &mut source, &mut sink, 1000);
    outcome == Err(RunFault::Write) && sink.failures() == 1
}

#[test]
fn a_writer_fails(rt: HostRuntime) {
    for piece in PIECES {
        let mut kept = MemorySink::failing(piece, usize::MAX, true);
        holds(&rt, flush_fails(&mut kept));
        holds(&rt, kept.taken() == OUT);
        holds(&rt, kept.flushes() == [9].as_slice());
    }
}
