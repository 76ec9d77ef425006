//! What is written for a record or a line.

ghost use Rattle.std.specs.Prelude.{◌≡◌, ◌↔◌, ◌<◌, ◌≤◌, ◌+◌, ◌∷◌, ◌++◌, [], IsTrue, length};
ghost use Rattle.dm_text.specs.Answers.{Answer as AnAnswer, IsCheckAnswer, IsNormalAnswer, IsReadAnswer};
ghost use Rattle.dm_text.specs.Answers.{IsRecordAnswer, IsWriteAnswer, refusal_in_place_of_grid, check_text};
ghost use Rattle.dm_text.specs.Answers.{grid_answer, border_limit_for, line_answer, refusal_answer};
ghost use Rattle.dm_text.specs.inner.AnsweredSoFar.{as_task};
ghost use Rattle.dm_text.specs.inner.Gathering.{Gathers};
ghost use Rattle.dm_symbol.specs.Outcomes.{outcome};
ghost use Rattle.dm_text.specs.inner.OpenLines.{meaning_by_value};
ghost use Rattle.dm_text.specs.Spellings.{text_of};
ghost use Rattle.dm_text.specs.Refusals.{line_refusal, normal_refusal, read_refusal, record_refusal, too_long_refusal};

use crate::message_line::{LineFault, push_items};
use crate::printed::{
    GatheredText, MOST_ANSWER, MOST_GATHERED, push_decimal, push_grid, push_spaced,
};
use crate::record::RecordFault;
use crate::refusal::{
    push_line_refusal, push_normal_refusal, push_read_refusal, push_record_refusal,
    push_too_long_refusal,
};
use crate::task::RecordTask;
use crate::text::LF;
use arrayvec::ArrayVec;
use dm_symbol::{
    Grid, MOST_GRID_BLOCKS, Message, NormalFault, Profile, ReadFault, Reading, TooLong, normal_to,
    read_to, usual_limit, write_to,
};
use std::marker::Model;

/// More bytes than the longest line of counts has.
const MOST_COUNTS: usize = 160;

/// Answers that are gathered, to be written together: what is written for records or lines, each with its LFs.
#[derive(Drop)]
pub(crate) struct Answers {
    text: GatheredText,
    /// Whether the last answer is a refusal.
    refused: bool,
}

impl Model for Answers {
    ghost use Rattle.dm_text.specs.inner.Gathering.{GatheredAnswers};

    ghost Value = { GatheredAnswers };

    ghost view = { λ a. record { text = a.text.items; refused = a.refused } };
}

impl Answers {
    /// Begins with no answer.
    pub(crate) fn new() -> Answers
        ensures { result.text ≡ [] }
    {
        Answers {
            text: GatheredText::new(),
            refused: false,
        }
    }

    /// Forgets all answers.
    pub(crate) fn clear(&mut self)
        ensures { self.new.text ≡ [] }
    {
        self.text.clear();
    }

    /// Gives what is written for the answers, one after another.
    pub(crate) fn text(&self) -> &[u8]
        ensures { result.now ≡ self.now.text }
    {
        self.text.as_slice()
    }

    /// Whether the last answer is a refusal.
    pub(crate) fn last_is_refusal(&self) -> bool
        ensures { result ≡ self.now.refused }
    {
        self.refused
    }

    /// Whether there is room for a further answer, whatever it is.
    pub(crate) fn has_room(&self) -> bool
        ensures { IsTrue result ↔ (length self.now.text + MOST_ANSWER ≤ MOST_GATHERED) }
    {
        self.text.len() <= MOST_GATHERED - MOST_ANSWER
    }

    // Each of these gathers one more answer; there is room for it.

    /// Gathers the text of a message, as a line.
    fn add_message(&mut self, message: &Message)
        requires { length self.old.text + MOST_ANSWER ≤ MOST_GATHERED }
        ensures { Gathers self.old (line_answer (text_of message.now)) self.new }
    {
        self.refused = false;
        push_items(&mut self.text, message.items());
        self.text.push(LF);
    }

    /// Gathers a line that says how damaged a grid of this side is.
    fn add_counts(&mut self, side: u16, reading: &Reading)
        requires { length self.old.text + MOST_ANSWER ≤ MOST_GATHERED }
        ensures { Gathers self.old (line_answer (check_text side reading.now)) self.new }
    {
        self.refused = false;
        push_counts(&mut self.text, side, reading);
        self.text.push(LF);
    }

    /// Gathers a grid, and an empty line.
    fn add_grid(&mut self, grid: &Grid)
        requires { length self.old.text + MOST_ANSWER ≤ MOST_GATHERED }
        ensures { Gathers self.old (grid_answer grid.now) self.new }
    {
        self.refused = false;
        push_grid(&mut self.text, grid);
        self.text.push(LF);
    }

    /// Gathers the refusal of a record.
    fn refuse_record(&mut self, fault: RecordFault)
        requires { length self.old.text + MOST_ANSWER ≤ MOST_GATHERED }
        ensures { Gathers self.old (refusal_answer (record_refusal fault)) self.new }
    {
        self.refused = true;
        push_record_refusal(&mut self.text, fault);
        self.text.push(LF);
    }

    /// Gathers the refusal of a grid that is not read.
    fn refuse_reading(&mut self, fault: ReadFault)
        requires { length self.old.text + MOST_ANSWER ≤ MOST_GATHERED }
        ensures { Gathers self.old (refusal_answer (read_refusal fault)) self.new }
    {
        self.refused = true;
        push_read_refusal(&mut self.text, fault);
        self.text.push(LF);
    }

    /// Gathers the refusal of a record, and an empty line.
    fn refuse_record_in_place_of_grid(&mut self, fault: RecordFault)
        requires { length self.old.text + MOST_ANSWER ≤ MOST_GATHERED }
        ensures { Gathers self.old (refusal_in_place_of_grid (record_refusal fault)) self.new }
    {
        self.refused = true;
        push_record_refusal(&mut self.text, fault);
        self.text.push_all(b"\n\n");
    }

    /// Gathers the refusal of a grid that has no normal grid, and an empty line.
    fn refuse_normal(&mut self, fault: NormalFault)
        requires { length self.old.text + MOST_ANSWER ≤ MOST_GATHERED }
        ensures { Gathers self.old (refusal_in_place_of_grid (normal_refusal fault)) self.new }
    {
        self.refused = true;
        push_normal_refusal(&mut self.text, fault);
        self.text.push_all(b"\n\n");
    }

    /// Gathers the refusal of a line, and an empty line.
    fn refuse_line(&mut self, fault: LineFault)
        requires { length self.old.text + MOST_ANSWER ≤ MOST_GATHERED }
        ensures { Gathers self.old (refusal_in_place_of_grid (line_refusal fault)) self.new }
    {
        self.refused = true;
        push_line_refusal(&mut self.text, fault);
        self.text.push_all(b"\n\n");
    }

    /// Gathers the refusal of a message that fits no size, and an empty line.
    fn refuse_too_long(&mut self)
        requires { length self.old.text + MOST_ANSWER ≤ MOST_GATHERED }
        ensures { Gathers self.old (refusal_in_place_of_grid too_long_refusal) self.new }
    {
        self.refused = true;
        push_too_long_refusal(&mut self.text);
        self.text.push_all(b"\n\n");
    }
}

/// Targets for the grids and the readings of records and message lines, one after another.
#[derive(Drop)]
pub(crate) struct Targets {
    /// The grid of a record.
    pub(crate) grid: Grid,
    /// The reading of that grid.
    reading: Reading,
    /// The normal grid of the message of a record or of a message line.
    pub(crate) normal: Grid,
}

impl Targets {
    /// Gives targets with a light grid and an empty reading.
    pub(crate) fn new() -> Targets {
        Targets {
            grid: Grid::default(),
            reading: Reading::default(),
            normal: Grid::default(),
        }
    }
}

// The targets have room for the largest grid. So there is one of each for all records and lines, which is handed to
// each of these functions; what stood in them before doesn't matter. The answer is gathered behind the others.

/// Answers a record where grids are read, checked or normalised. Its grid, if it is one, stands in `targets.grid`.
pub(crate) fn answer_record(
    task: RecordTask,
    found: Result<(), RecordFault>,
    targets: &mut Targets,
    answers: &mut Answers,
)
    requires { length answers.old.text + MOST_ANSWER ≤ MOST_GATHERED }
    ensures { (answer : AnAnswer)
        × IsRecordAnswer (as_task task) (outcome found targets.old.grid) answer
        × Gathers answers.old answer answers.new }
{
    match task {
        RecordTask::Read(border) => answer_read(border, found, targets, answers),
        RecordTask::Check(border) => answer_check(border, found, targets, answers),
        RecordTask::Normal(border, profile) => answer_normal(
            border, profile, found, targets, answers,
        ),
    }
}

/// Answers a message line under a profile. Its normal grid is left in `grid`.
pub(crate) fn answer_line(
    profile: Profile,
    line: Result<&Message, LineFault>,
    grid: &mut Grid,
    answers: &mut Answers,
)
    requires { length answers.old.text + MOST_ANSWER ≤ MOST_GATHERED }
    ensures { (answer : AnAnswer)
        × IsWriteAnswer profile (meaning_by_value line.entry) answer
        × Gathers answers.old answer answers.new }
{
    match line {
        Ok(message) => match write_to(profile, message, grid) {
            Ok(()) => answers.add_grid(grid),
            Err(TooLong) => answers.refuse_too_long(),
        },
        Err(fault) => answers.refuse_line(fault),
    }
}

/// Answers a record with the message of its grid.
fn answer_read(
    border: Option<u16>,
    found: Result<(), RecordFault>,
    targets: &mut Targets,
    answers: &mut Answers,
)
    requires { length answers.old.text + MOST_ANSWER ≤ MOST_GATHERED }
    ensures { (answer : AnAnswer)
        × IsReadAnswer border (outcome found targets.old.grid) answer
        × Gathers answers.old answer answers.new }
{
    match found {
        Ok(()) => {
            let limit = border_limit_for(border, &targets.grid);
            match read_to(&targets.grid, limit, &mut targets.reading) {
                Ok(()) => answers.add_message(&targets.reading.message),
                Err(fault) => answers.refuse_reading(fault),
            }
        }
        Err(fault) => answers.refuse_record(fault),
    }
}

/// Answers a record with how damaged its grid is.
fn answer_check(
    border: Option<u16>,
    found: Result<(), RecordFault>,
    targets: &mut Targets,
    answers: &mut Answers,
)
    requires { length answers.old.text + MOST_ANSWER ≤ MOST_GATHERED }
    ensures { (answer : AnAnswer)
        × IsCheckAnswer border (outcome found targets.old.grid) answer
        × Gathers answers.old answer answers.new }
{
    match found {
        Ok(()) => {
            let limit = border_limit_for(border, &targets.grid);
            match read_to(&targets.grid, limit, &mut targets.reading) {
                Ok(()) => answers.add_counts(targets.grid.size().side(), &targets.reading),
                Err(fault) => answers.refuse_reading(fault),
            }
        }
        Err(fault) => answers.refuse_record(fault),
    }
}

/// Answers a record with the normal grid, under a profile, of its grid's message.
fn answer_normal(
    border: Option<u16>,
    profile: Profile,
    found: Result<(), RecordFault>,
    targets: &mut Targets,
    answers: &mut Answers,
)
    requires { length answers.old.text + MOST_ANSWER ≤ MOST_GATHERED }
    ensures { (answer : AnAnswer)
        × IsNormalAnswer border profile (outcome found targets.old.grid) answer
        × Gathers answers.old answer answers.new }
{
    match found {
        Ok(()) => {
            let limit = border_limit_for(border, &targets.grid);
            match normal_to(
                profile,
                &targets.grid,
                limit,
                &mut targets.reading,
                &mut targets.normal,
            ) {
                Ok(()) => answers.add_grid(&targets.normal),
                Err(fault) => answers.refuse_normal(fault),
            }
        }
        Err(fault) => answers.refuse_record_in_place_of_grid(fault),
    }
}

/// Gives the border limit for a grid: the number given, else the usual one of its side.
fn border_limit_for(border: Option<u16>, grid: &Grid) -> u16
    ensures { result ≡ border_limit_for border grid.now.size.side }
{
    match border {
        Some(limit) => limit,
        None => usual_limit(grid.size().side()),
    }
}

/// Appends how damaged a grid of this side is; there is room for the longest such line.
fn push_counts(text: &mut GatheredText, side: u16, reading: &Reading)
    requires { length text.old.items + MOST_COUNTS ≤ MOST_GATHERED }
    ensures text { text.new.items ≡ text.old.items ++ check_text side reading.now }
    ensures room { length text.new.items ≤ length text.old.items + MOST_COUNTS }
{
    text.push_all(b"ok ");
    push_decimal(text, u64::from(side));
    text.push_all(b" border ");
    push_decimal(text, u64::from(reading.border_faults));
    text.push_all(b" corrected ");
    push_spaced(text, &widen(&reading.corrected));
}

/// Gives the same numbers, each in 16 bits.
fn widen(counts: &ArrayVec<u8, MOST_GRID_BLOCKS>) -> ArrayVec<u16, MOST_GRID_BLOCKS>
    ensures { result.items ≡ counts.now.items }
{
    let mut wide = ArrayVec::new();
    for count in counts.as_slice() {
        wide.push(u16::from(*count));
    }
    wide
}
