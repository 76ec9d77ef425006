//! Runs over memory: for each task what is written, and how it is counted.

mod failing;
mod grids;
mod messages;
mod profiles;

use super::feeds::TWO_GRIDS;
use super::memory::{MemorySink, Taken, TextSource};
use crate::claims::holds;
use dm_symbol::Profile;
use dm_text::{RunFault, Sink, Source, Tally, Task, run};

/// More bytes than any text of these tests has.
const MOST: u32 = 1 << 30;

/// Appends bytes, and says whether there was room for them.
pub(super) fn push(text: &mut Taken, bytes: &[u8]) -> bool {
    text.try_extend_from_slice(bytes).is_ok()
}

/// These bytes, one after another, as far as there is room.
pub(super) fn joined(parts: &[&[u8]]) -> Taken {
    let mut text = Taken::new();
    for part in parts {
        push(&mut text, part);
    }
    text
}

/// The bytes and an LF.
pub(super) fn ended(line: &[u8]) -> Taken {
    joined(&[line, b"\n"])
}

/// What a run of the task comes to.
pub(super) fn ran<I: Source, O: Sink>(
    task: Task,
    source: &mut I,
    sink: &mut O,
    most: u32,
) -> Result<Tally, RunFault> {
    run(task, source, sink, u64::from(most))
}

/// A task, its text, what it writes, and how many records or lines it answers and refuses.
pub(super) type Run<'a> = (Task, &'a [u8], &'a [u8], u64, u64);

/// Whether the task writes exactly this for its text, with these counts. The sink is flushed once, when it has taken
/// all of it.
pub(super) fn writes(run: Run<'_>) -> bool {
    let (task, text, written, answered, refused) = run;
    let mut sink = MemorySink::new();
    let outcome = ran(task, &mut TextSource::new(text), &mut sink, MOST);
    outcome == Ok(Tally { answered, refused })
        && sink.taken() == written
        && sink.flushes() == [written.len()].as_slice()
}

/// Whether the task writes just this for a text of one record or line, and counts it as refused where this is a
/// refusal.
pub(super) fn answers(task: Task, text: &[u8], written: &[u8]) -> bool {
    let refused = u64::from(written.starts_with(b"\\no "));
    writes((task, text, written, 1u64.saturating_sub(refused), refused))
}

/// The text of a grid of this side, and of the empty line after it, has so many bytes.
pub(super) fn has_side(text: &[u8], side: usize) -> bool {
    text.len()
        == side
            .saturating_mul(side.saturating_add(1))
            .saturating_add(1)
}

/// What the task writes for this text.
fn written_for(task: Task, text: &[u8]) -> Taken {
    let mut sink = MemorySink::new();
    let _counted = ran(task, &mut TextSource::new(text), &mut sink, MOST);
    joined(&[sink.taken()])
}

/// The table of sizes.
static SIZES: &[u8] =
    b"10 1 8 8 3 5 1 2\n12 1 10 10 5 7 1 3\n14 1 12 12 8 10 1 5\n16 1 14 14 12 12 1 6\n18 1 16 16 18 14 1 7\n\
      20 1 18 18 22 18 1 9\n22 1 20 20 30 20 1 10\n24 1 22 22 36 24 1 12\n26 1 24 24 44 28 1 14\n\
      32 4 14 28 62 36 1 18\n36 4 16 32 86 42 1 21\n40 4 18 36 114 48 1 24\n44 4 20 40 144 56 1 28\n\
      48 4 22 44 174 68 1 34\n52 4 24 48 204 84 2 21\n64 16 14 56 280 112 2 28\n72 16 16 64 368 144 4 18\n\
      80 16 18 72 456 192 4 24\n88 16 20 80 576 224 4 28\n96 16 22 88 696 272 4 34\n104 16 24 96 816 336 6 28\n";

/// Runs of a text without records or lines.
static NO_ANSWERS: [Run<'_>; 7] = [
    (Task::Read(None), b"", b"", 0, 0),
    (Task::Check(None), b"", b"", 0, 0),
    (Task::Normal(None, Profile::Ascii), b"", b"", 0, 0),
    (Task::Write(Profile::Ascii), b"", b"", 0, 0),
    (Task::Normal(None, Profile::Shorter), b"", b"", 0, 0),
    (Task::Write(Profile::Shorter), b"", b"", 0, 0),
    (Task::Read(None), b"\n\n", b"", 0, 0),
];

#[test]
fn an_empty_text_has_no_answers(rt: HostRuntime) {
    for run in &NO_ANSWERS {
        holds(&rt, writes(*run));
    }
}

#[test]
fn the_table_is_written(rt: HostRuntime) {
    holds(&rt, writes((Task::Table, b"", SIZES, 0, 0)));
    holds(&rt, writes((Task::Table, TWO_GRIDS, SIZES, 0, 0)));
}
