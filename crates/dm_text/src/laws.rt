//! Laws of the definitions in `specs/`. Each function has an empty body: its contract is the law.

ghost use Rattle.std.specs.Prelude.{◌≡◌, ◌≤◌, ℕ, List, [], Ok, length};
ghost use Rattle.std.specs.List.{concat};
ghost use Rattle.dm_symbol.specs.declared.Item.{Item};
ghost use Rattle.dm_symbol.specs.Grid.{GridView};
ghost use Rattle.dm_symbol.specs.Messages.{IsMessage, most_items};
ghost use Rattle.dm_symbol.specs.Reading.{Reads};
ghost use Rattle.dm_text.specs.Spellings.{text_of};
ghost use Rattle.dm_text.specs.MessageLines.{IsLine};
ghost use Rattle.dm_text.specs.LineFacts.{LineFacts, AreLineFacts};
ghost use Rattle.dm_text.specs.RecordFacts.{RecordFacts, AreRecordFacts};
ghost use Rattle.dm_text.specs.RecordFeeds.{AreRecordsFed, AreRecordsOfText, RecordMeaning};
ghost use Rattle.dm_text.specs.declared.task.Task.{Task};
ghost use Rattle.dm_text.specs.declared.task.Task.TheVariants.{Table};
ghost use Rattle.dm_text.specs.declared.task.Tally.{Tally};
ghost use Rattle.dm_text.specs.Runs.{IsOutSoFar, IsOut};
ghost use Rattle.dm_text.specs.LineFeeds.{AreLinesFed, AreOfText, LineMeaning};

pub mod cuts;

/// The text of a message of at most `MOST_ITEMS` items is read as the message; so the text of what a grid is read as is
/// read as that.
pub fn text_is_read_back()
    ensures message { (message : List Item) → IsMessage message → length message ≤ most_items
        → IsLine (text_of message) (Ok message) }
    ensures read { (grid : GridView) (limit : ℕ) (message : List Item)
        → Reads grid limit message → IsLine (text_of message) (Ok message) }
{}

/// How a text is cut into pieces changes nothing for its message lines: pieces
/// that are fed to a feed in which no line stands open close, and leave open, what
/// their joined text does, and this is the same for all ways to cut that text.
pub fn line_cuts_change_nothing()
    ensures text { (pieces : List (List ℕ)) (meanings : List LineMeaning) (old new : LineFacts)
        → AreLineFacts [] old → AreLinesFed old pieces meanings new
        → AreOfText (concat pieces) meanings new }
    ensures same { (pieces others : List (List ℕ)) (meanings theirs : List LineMeaning)
        (old new end : LineFacts) → AreLineFacts [] old → concat pieces ≡ concat others
        → AreLinesFed old pieces meanings new → AreLinesFed old others theirs end
        → (meanings ≡ theirs) × (new ≡ end) }
{}

/// How a text is cut into pieces changes nothing for its records: pieces that
/// are fed to a feed in which no record stands open close, and leave open, what
/// their joined text does, and this is the same for all ways to cut that text.
pub fn record_cuts_change_nothing()
    ensures text { (pieces : List (List ℕ)) (meanings : List RecordMeaning) (old new : RecordFacts)
        → AreRecordFacts [] old → AreRecordsFed old pieces meanings new
        → AreRecordsOfText (concat pieces) meanings new }
    ensures same { (pieces others : List (List ℕ)) (meanings theirs : List RecordMeaning)
        (old new end : RecordFacts) → AreRecordFacts [] old → concat pieces ≡ concat others
        → AreRecordsFed old pieces meanings new → AreRecordsFed old others theirs end
        → (meanings ≡ theirs) × (new ≡ end) }
{}

/// Only one thing is written for a text as a whole, with one tally, and only one thing for a text that may go on.
pub fn one_text_is_written()
    ensures out { (task : Task) (text a b : List ℕ) (s t : Tally) → IsOut task text a s
        → IsOut task text b t → (a ≡ b) × (s ≡ t) }
    ensures done { (task : Task) (text a b : List ℕ) → IsOutSoFar task text a
        → IsOutSoFar task text b → a ≡ b }
{}

/// Something is written for each text as a whole, with a tally, and for each text that may go on. With what
/// [`one_text_is_written`] says, it is exactly one thing. For the table the text counts as empty.
pub fn each_text_is_written()
    ensures out { (task : Task) (text : List ℕ) → (task ≡ Table → text ≡ [])
        → (out : List ℕ) × (tally : Tally) × IsOut task text out tally }
    ensures done { (task : Task) (text : List ℕ) → (task ≡ Table → text ≡ [])
        → (done : List ℕ) × IsOutSoFar task text done }
{}

/// Each line means exactly one thing: a message, or a fault.
pub fn each_line_means_one_thing()
    ensures some { (line : List ℕ) → (meaning : LineMeaning) × IsLine line meaning }
    ensures one { (line : List ℕ) (a b : LineMeaning) → IsLine line a → IsLine line b → a ≡ b }
{}
