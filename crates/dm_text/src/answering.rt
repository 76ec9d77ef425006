//! Records and message lines, answered as their text comes.

ghost use Rattle.std.specs.Prelude.{◌≡◌, ◌∷◌, ◌<◌, ◌≤◌, ◌+◌, [], length, take, IfNone, IfSome};
ghost use Rattle.std.specs.Bool.{OnTrue, OnFalse};
ghost use Rattle.dm_text.specs.Answers.{Answer as AnAnswer};
ghost use Rattle.dm_text.specs.inner.AnsweredSoFar.{EndsAnswered, Advances, IsAnsweredSoFar, HasTakenText, as_task};
ghost use Rattle.dm_text.specs.inner.Gathering.{Gathers};

use crate::answer::{Answers, Targets, answer_line, answer_record};
use crate::grid_feed::GridFeed;
use crate::line_feed::LineFeed;
use crate::printed::{MOST_ANSWER, MOST_GATHERED};
use crate::task::{RecordTask, Task};
use dm_symbol::Profile;

/// Cuts a text that comes in pieces into what its task asks about, and answers each record or line.
#[derive(Drop)]
pub(crate) enum Answering {
    /// Records, with the task that asks about their grids.
    Records(RecordTask, GridFeed),
    /// Message lines, to be written as grids under a profile.
    Lines(Profile, LineFeed),
}

impl Answering {
    /// Begins with the state before any text has come; None where the task has no input.
    pub(crate) fn new(task: Task) -> Option<Self>
        ensures some { IfSome result (λ answering. IsAnsweredSoFar task answering [] []) }
        ensures none { IfNone result (task ≡ Task.Table) }
    {
        match task {
            Task::Read(border) => Some(Answering::of_records(RecordTask::Read(border))),
            Task::Check(border) => Some(Answering::of_records(RecordTask::Check(border))),
            Task::Normal(border, profile) => Some(Answering::of_records(RecordTask::Normal(
                border, profile,
            ))),
            Task::Write(profile) => Some(Answering::Lines(profile, LineFeed::new())),
            Task::Table => None,
        }
    }

    /// Begins with the state before any record has come.
    fn of_records(task: RecordTask) -> Self
        ensures { IsAnsweredSoFar (as_task task) result [] [] }
    {
        Answering::Records(task, GridFeed::new())
    }

    /// Takes the bytes up to and including the first one that closes a record or a line, says how many they are, and
    /// gathers the answer to what they close. None where the piece closes nothing; all of it is taken then.
    pub(crate) fn feed(
        &mut self,
        piece: &[u8],
        targets: &mut Targets,
        answers: &mut Answers,
    ) -> Option<usize>
        requires stands { HasTakenText self.old }
        requires room { length answers.old.text + MOST_ANSWER ≤ MOST_GATHERED }
        ensures open { IfNone result (Advances self.old piece.now [] self.new) }
        ensures same { IfNone result (answers.new ≡ answers.old) }
        ensures some { IfSome result (λ taken. 0 < taken) }
        ensures within { IfSome result (λ taken. taken ≤ length piece.now) }
        ensures closed { IfSome result
            (λ taken. (answer : AnAnswer) × Gathers answers.old answer answers.new
            × Advances self.old (take taken piece.now) (answer ∷ []) self.new) }
    {
        match self {
            Answering::Records(task, feed) => {
                let (taken, found) = feed.feed_to(piece, &mut targets.grid)?;
                answer_record(*task, found, targets, answers);
                Some(taken)
            }
            Answering::Lines(profile, feed) => {
                let taken = feed.take_line(piece)?;
                answer_line(*profile, feed.meaning(), &mut targets.normal, answers);
                feed.begin_line();
                Some(taken)
            }
        }
    }

    /// Whether the end of the text closes a record or a line; if it does, gathers the answer.
    pub(crate) fn answer_last(&mut self, targets: &mut Targets, answers: &mut Answers) -> bool
        requires stands { HasTakenText self.old }
        requires room { length answers.old.text + MOST_ANSWER ≤ MOST_GATHERED }
        ensures none { OnFalse result (EndsAnswered self.old []) }
        ensures same { OnFalse result (answers.new ≡ answers.old) }
        ensures last { OnTrue result
            ((answer : AnAnswer) × Gathers answers.old answer answers.new
            × EndsAnswered self.old (answer ∷ [])) }
    {
        match self {
            Answering::Records(task, feed) => {
                let Some(found) = feed.finish_to(&mut targets.grid) else {
                    return false;
                };
                answer_record(*task, found, targets, answers);
                true
            }
            Answering::Lines(profile, feed) => {
                if feed.is_empty() {
                    return false;
                }
                answer_line(*profile, feed.meaning(), &mut targets.normal, answers);
                true
            }
        }
    }
}
