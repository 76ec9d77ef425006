//! A task done over a source and a sink.

ghost use Rattle.std.specs.Prelude.{◌≡◌, ◌≤◌, ◌<◌, ◌+◌, ◌-◌, ◌^◌, ◌∷◌, ◌++◌, ◌⊎◌, [], ℕ, false, List, MatchResult};
ghost use Rattle.std.specs.Prelude.{IfOk, OnOk, OnErr, IsErrOf, length, max, take};
ghost use Rattle.std.specs.Io.KnownBytes.{Appends};
ghost use Rattle.dm_text.specs.Answers.{Answer as AnAnswer, table_text};
ghost use Rattle.dm_text.specs.Devices.{AppendsPrefix, Counts, HasRisen, IsFlushedOnce};
ghost use Rattle.dm_text.specs.Runs.{IsRun, tally_of, answers_text};
ghost use Rattle.dm_text.specs.inner.AnsweredSoFar.{Advances, AreCounted, HasBegunAnswers, HasBegunLast, HasTakenText};
ghost use Rattle.dm_text.specs.inner.AnsweredSoFar.{IsLastAnswered};

use crate::answer::{Answers, Targets};
use crate::answering::Answering;
use crate::device::Failed;
use crate::gathering::{make_room, put_answers};
use crate::sink::{Sink, put};
use crate::source::Source;
use crate::table::table_text;
use crate::task::{RunFault, Tally, Task};

/// The most bytes that are asked for at once.
const PIECE: usize = 4096;

/// The tally before anything is answered or refused.
const NO_ANSWER: Tally = Tally {
    answered: 0,
    refused: 0,
};

/// Reads all that the source gives, and writes the answer to each record or line, in order; for
/// [`Task::Table`] reads nothing, and writes the table of sizes. Gives how many records or lines were
/// answered, and how many refused.
///
/// It asks for at most `most` bytes, and, only once all of them have come, for one byte more.
/// `Read` and `TooMuchInput` come after the answers to all that was closed by then have been
/// written; where the sink fails, `Write` comes after a prefix of what was to be written.
/// A device that failed isn't tried again. It flushes once, when the end of the input has
/// come and all is written; where that is Ok, the sink's mark of pending bytes is clear.
///
/// The clauses are about the bytes that the source and the sink tell; they
/// say nothing about one that doesn't tell its own.
pub fn run<I: Source, O: Sink>(
    task: Task,
    source: &mut I,
    sink: &mut O,
    most: u64,
) -> Result<Tally, RunFault>
    requires { most < 2 ^ 64 - 1 }
    ensures ends { IsRun task most result
        (I.gave source.old source.new) (I.ended source.new) (I.asked source.old source.new)
        (I.failed source.old) (I.failed source.new)
        (O.contents sink.old) (O.contents sink.new) (O.flushed sink.old sink.new)
        (O.is_pending sink.new) (O.failed sink.old) (O.failed sink.new) }
{
    // The large rooms come first, ahead of all branches: what the program clears at the start anyway is then theirs.
    let mut buffer = [0u8; PIECE];
    let mut answers = Answers::new();
    let Some(mut answering) = Answering::new(task) else {
        return print_table(sink);
    };
    let mut tally = NO_ANSWER;
    let mut left = most;
    let mut targets = Targets::new();
    'pieces: loop {
        let count = match next_piece(source, &mut buffer, left) {
            Ok(0) => {
                return match end(&mut answering, sink, &mut tally, &mut targets, &mut answers) {
                    Ok(()) => Ok(tally),
                    Err(Failed) => Err(RunFault::Write),
                };
            }
            Ok(count) => count,
            Err(Failed) => return Err(RunFault::Read),
        };
        if left == 0 {
            return Err(RunFault::TooMuchInput);
        }
        left -= count as u64;
        let piece = &buffer[..count];
        if let Err(Failed) = answer_piece(
            &mut answering,
            sink,
            &mut tally,
            piece,
            &mut targets,
            &mut answers,
        ) {
            return Err(RunFault::Write);
        }
    }
}

/// Writes the table of sizes.
fn print_table<O: Sink>(sink: &mut O) -> Result<Tally, RunFault>
    ensures tally { IfOk result (λ tally. tally ≡ tally_of []) }
    ensures ok { OnOk result (Appends (O.contents sink.old) (O.contents sink.new) table_text) }
    ensures flushed { OnOk result (O.is_pending sink.new ≡ false) }
    ensures well { OnOk result (O.failed sink.new ≡ O.failed sink.old) }
    ensures err { OnErr result
        (AppendsPrefix (O.contents sink.old) (O.contents sink.new) table_text) }
    ensures failed { OnErr result (HasRisen (O.failed sink.old) (O.failed sink.new)) }
    ensures write { (fault : RunFault) → IsErrOf result fault → fault ≡ RunFault.Write }
    ensures held { OnOk result
        (IsFlushedOnce (O.flushed sink.old sink.new) (O.contents sink.old) (O.contents sink.new)) }
    ensures late { OnErr result
        (O.flushed sink.old sink.new []
        ⊎
        (IsFlushedOnce (O.flushed sink.old sink.new) (O.contents sink.old) (O.contents sink.new)
        × Appends (O.contents sink.old) (O.contents sink.new) table_text)) }
{
    let text = table_text();
    match put_and_flush(sink, text.as_slice()) {
        Ok(()) => Ok(NO_ANSWER),
        Err(Failed) => Err(RunFault::Write),
    }
}

/// Writes all of the bytes, and flushes.
fn put_and_flush<O: Sink>(sink: &mut O, bytes: &[u8]) -> Result<(), Failed>
    ensures ok { OnOk result (Appends (O.contents sink.old) (O.contents sink.new) bytes.now) }
    ensures flushed { OnOk result (O.is_pending sink.new ≡ false) }
    ensures err { OnErr result
        (AppendsPrefix (O.contents sink.old) (O.contents sink.new) bytes.now) }
    ensures held { OnOk result
        (IsFlushedOnce (O.flushed sink.old sink.new) (O.contents sink.old) (O.contents sink.new)) }
    ensures late { OnErr result
        (O.flushed sink.old sink.new []
        ⊎
        (IsFlushedOnce (O.flushed sink.old sink.new) (O.contents sink.old) (O.contents sink.new)
        × Appends (O.contents sink.old) (O.contents sink.new) bytes.now)) }
    ensures count { Counts (O.failed sink.old) (O.failed sink.new) result }
{
    put(sink, bytes)?;
    sink.flush()
}

/// Reads the next bytes of the source to the start of `buffer`, and says how many: no more than may still come, or one
/// if none may. The number 0 is the end of the input.
fn next_piece<I: Source>(
    source: &mut I,
    buffer: &mut [u8; PIECE],
    left: u64,
) -> Result<usize, Failed>
    ensures kept { length buffer.new ≡ PIECE }
    ensures fits { IfOk result (λ n. n ≤ PIECE) }
    ensures few { IfOk result (λ n. n ≤ max left 1) }
    ensures bytes { MatchResult result (λ n. I.gave source.old source.new (take n buffer.new))
        (λ _. I.gave source.old source.new []) }
    ensures end { IfOk result (λ n. n ≡ 0 → I.ended source.new) }
    ensures asked { I.asked source.old source.new (max left 1) }
    ensures count { Counts (I.failed source.old) (I.failed source.new) result }
{
    let most = if left < PIECE as u64 {
        (left as usize).max(1)
    } else {
        PIECE
    };
    source.read(&mut buffer[..most])
}

/// Takes a piece of the text, and writes the answers to what it closes. They are put together in `answers`, which is
/// cleared first; it is written whenever it has no room for a further one, and at the end.
fn answer_piece<O: Sink>(
    answering: &mut Answering,
    sink: &mut O,
    tally: &mut Tally,
    piece: &[u8],
    targets: &mut Targets,
    answers: &mut Answers,
) -> Result<(), Failed>
    requires stands { HasTakenText answering.old }
    requires room { tally.old.answered + tally.old.refused + length piece.now < 2 ^ 64 }
    ensures ok { OnOk result
        ((more : List AnAnswer) × Advances answering.old piece.now more answering.new
        × Appends (O.contents sink.old) (O.contents sink.new) (answers_text more)
        × AreCounted tally.old tally.new more) }
    ensures sum { OnOk result
        (tally.new.answered + tally.new.refused ≤ tally.old.answered + tally.old.refused + length
        piece.now) }
    ensures err { OnErr result
        (HasBegunAnswers answering.old piece.now
        (AppendsPrefix (O.contents sink.old) (O.contents sink.new))) }
    ensures unflushed { O.flushed sink.old sink.new [] }
    ensures count { Counts (O.failed sink.old) (O.failed sink.new) result }
{
    answers.clear();
    let mut rest = piece;
    loop {
        make_room(sink, answers)?;
        let Some(taken) = answering.feed(rest, targets, answers) else {
            return put_answers(sink, answers);
        };
        count_answer(tally, answers.last_is_refusal());
        rest = &rest[taken..];
    }
}

/// Writes the answer to what the end of the text closes, and flushes.
fn end<O: Sink>(
    answering: &mut Answering,
    sink: &mut O,
    tally: &mut Tally,
    targets: &mut Targets,
    answers: &mut Answers,
) -> Result<(), Failed>
    requires stands { HasTakenText answering.old }
    requires room { tally.old.answered + tally.old.refused + 1 < 2 ^ 64 }
    ensures ok { OnOk result
        (IsLastAnswered answering.old (Appends (O.contents sink.old) (O.contents sink.new))
        tally.old tally.new) }
    ensures flushed { OnOk result (O.is_pending sink.new ≡ false) }
    ensures err { OnErr result
        (HasBegunLast answering.old (AppendsPrefix (O.contents sink.old) (O.contents sink.new))) }
    ensures held { OnOk result
        (IsFlushedOnce (O.flushed sink.old sink.new) (O.contents sink.old) (O.contents sink.new)) }
    ensures late { OnErr result
        (O.flushed sink.old sink.new []
        ⊎
        (IsFlushedOnce (O.flushed sink.old sink.new) (O.contents sink.old) (O.contents sink.new)
        × IsLastAnswered answering.old (Appends (O.contents sink.old) (O.contents sink.new))
        tally.old tally.new)) }
    ensures count { Counts (O.failed sink.old) (O.failed sink.new) result }
{
    put_last(answering, sink, tally, targets, answers)?;
    sink.flush()
}

/// Writes the answer to what the end of the text closes.
fn put_last<O: Sink>(
    answering: &mut Answering,
    sink: &mut O,
    tally: &mut Tally,
    targets: &mut Targets,
    answers: &mut Answers,
) -> Result<(), Failed>
    requires stands { HasTakenText answering.old }
    requires room { tally.old.answered + tally.old.refused + 1 < 2 ^ 64 }
    ensures ok { OnOk result
        (IsLastAnswered answering.old (Appends (O.contents sink.old) (O.contents sink.new))
        tally.old tally.new) }
    ensures err { OnErr result
        (HasBegunLast answering.old (AppendsPrefix (O.contents sink.old) (O.contents sink.new))) }
    ensures unflushed { O.flushed sink.old sink.new [] }
    ensures count { Counts (O.failed sink.old) (O.failed sink.new) result }
{
    answers.clear();
    if answering.answer_last(targets, answers) {
        count_answer(tally, answers.last_is_refusal());
        put_answers(sink, answers)
    } else {
        Ok(())
    }
}

/// Counts an answer.
fn count_answer(tally: &mut Tally, refused: bool)
    requires room { tally.old.answered + tally.old.refused + 1 < 2 ^ 64 }
    ensures tally { (answers : List AnAnswer) (answer : AnAnswer) → answer.refused ≡ refused
        → tally.old ≡ tally_of answers → tally.new ≡ tally_of (answers ++ answer ∷ []) }
    ensures sum { tally.new.answered + tally.new.refused ≡ tally.old.answered + tally.old.refused
        + 1 }
{
    if refused {
        tally.refused += 1;
    } else {
        tally.answered += 1;
    }
}
