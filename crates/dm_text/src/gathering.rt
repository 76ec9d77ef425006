//! Answers that are written together.

ghost use Rattle.std.specs.Prelude.{◌≡◌, ◌≤◌, ◌+◌, [], OnOk, OnErr, length};
ghost use Rattle.std.specs.Io.KnownBytes.{Appends};
ghost use Rattle.dm_text.specs.Devices.{AppendsPrefix, Counts};
ghost use Rattle.dm_text.specs.inner.Gathering.{IsPassedOn};

use crate::answer::Answers;
use crate::device::Failed;
use crate::printed::{MOST_ANSWER, MOST_GATHERED};
use crate::sink::{Sink, put};

/// Makes room for a further answer: where there is none, all that is gathered is written.
pub(crate) fn make_room<O: Sink>(sink: &mut O, answers: &mut Answers) -> Result<(), Failed>
    ensures ok { OnOk result
        (IsPassedOn (O.contents sink.old) answers.old.text [] (O.contents sink.new)
        answers.new.text) }
    ensures room { OnOk result (length answers.new.text + MOST_ANSWER ≤ MOST_GATHERED) }
    ensures err { OnErr result
        (AppendsPrefix (O.contents sink.old) (O.contents sink.new) answers.old.text) }
    ensures unflushed { O.flushed sink.old sink.new [] }
    ensures count { Counts (O.failed sink.old) (O.failed sink.new) result }
{
    if answers.has_room() {
        return Ok(());
    }
    put_answers(sink, answers)
}

/// Writes all that is gathered.
pub(crate) fn put_answers<O: Sink>(sink: &mut O, answers: &mut Answers) -> Result<(), Failed>
    ensures ok { OnOk result
        (Appends (O.contents sink.old) (O.contents sink.new) answers.old.text) }
    ensures empty { OnOk result (answers.new.text ≡ []) }
    ensures err { OnErr result
        (AppendsPrefix (O.contents sink.old) (O.contents sink.new) answers.old.text) }
    ensures unflushed { O.flushed sink.old sink.new [] }
    ensures count { Counts (O.failed sink.old) (O.failed sink.new) result }
{
    put(sink, answers.text())?;
    answers.clear();
    Ok(())
}
