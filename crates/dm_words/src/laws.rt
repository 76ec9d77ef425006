//! Laws of the definitions in `specs/`, and of the limits. Each function has an empty body: its contract is the law.

ghost use Rattle.std.specs.Prelude.{◌≡◌, ℕ, ◌+◌, ◌*◌, ◌≤◌, ◌↔◌, List, length, map};
ghost use Rattle.dm_layout.specs.Sizes.{most_grid_data};
ghost use Rattle.dm_words.specs.declared.extent.Extent.{Extent};
ghost use Rattle.dm_words.specs.declared.item.Item.{Item};
ghost use Rattle.dm_words.specs.declared.c40.set.CodeSet.{CodeSet};
ghost use Rattle.dm_words.specs.declared.c40.set.Shift.{Shift};
ghost use Rattle.dm_words.specs.Messages.{IsMessage, most_data, most_spelled};
ghost use Rattle.dm_words.specs.Rows.{IsTable};
ghost use Rattle.dm_words.specs.Codewords.{codeword_rows};
ghost use Rattle.dm_words.specs.CodeSets.{basic_rows, shifted_rows};
ghost use Rattle.dm_words.specs.Ascii.{ascii, IsAscii};
ghost use Rattle.dm_words.specs.declared.profile.Profile.{Profile};
ghost use Rattle.dm_words.specs.NormalForm.{normal_form, one_segment, shorter};
ghost use Rattle.dm_words.specs.Pads.{padded};
ghost use Rattle.dm_words.specs.Values.{IsRest};
ghost use Rattle.dm_words.specs.Macros.{macro_text};
ghost use Rattle.dm_words.specs.Spells.{Spells};
ghost use Rattle.dm_words.specs.Laws.{AreCodewords, AreRunValues, BeginsNoSpelling};
ghost use Rattle.dm_words.specs.Laws.{AreMacro, SomeSpell};

use crate::limits::{LARGEST_MARKS, LARGEST_ROOM, MESSAGE_ROOM, MOST_ITEMS, MOST_MARKS};
use dm_layout::MOST_GRID_DATA;
use dm_layout::symbols::MOST_DATA;

/// What codewords spell in an extent has at most two items for each codeword, and in the wide extent at most seven
/// more. This bound is met, for each number of codewords.
pub fn spelled_is_few()
    ensures most { (extent : Extent) (words : List ℕ) (m : List Item)
        → Spells extent words m → length m ≤ most_spelled extent (length words) }
    ensures met { (extent : Extent) (count : ℕ)
        → SomeSpell extent count (most_spelled extent count) }
{}

/// In the wide extent, the codewords behind a macro spell the message that has their items between the header and the
/// trailer of the macro. The ASCII form of that text, with pads, spells the same message.
pub fn macro_spells_its_text()
    ensures short { (digit : ℕ) (words : List ℕ) (text : List Item)
        → AreMacro digit words text → Spells Extent.Wide words (macro_text digit text) }
    ensures written_out { (digit count : ℕ) (words : List ℕ) (text : List Item)
        → AreMacro digit words text
        → let written = ascii (macro_text digit text) in length written ≤ count
        → Spells Extent.Wide (padded written count) (macro_text digit text) }
{}

/// The ASCII form of a message, with pads up to any number of codewords that holds it, has that many codewords, and
/// they spell the message in each extent.
pub fn ascii_spells()
    ensures message { (extent : Extent) (m : List Item) (count : ℕ) → IsMessage m
        → length (ascii m) ≤ count → Spells extent (padded (ascii m) count) m }
    ensures count { (m : List Item) (count : ℕ)
        → length (ascii m) ≤ count → length (padded (ascii m) count) ≡ count }
    ensures codewords { (m : List Item) (count : ℕ)
        → IsMessage m → AreCodewords (padded (ascii m) count) }
{}

/// The ASCII form from the left of the message is the one joining of units in which no unit that is one digit stands
/// before a unit that begins with a digit.
pub fn ascii_is_greedy()
    ensures { (m : List Item) (words : List ℕ)
        → IsMessage m → IsAscii m words ↔ (words ≡ ascii m) }
{}

/// The normal form of a message under each profile, with pads up to any number of codewords that holds it and that a
/// size of the table has, has that many codewords, and they spell the message in each extent. A message has at most two
/// items for each codeword of its normal form. The shorter form is never longer than the ASCII form, nor, where the
/// message is bytes alone, than one segment of these bytes.
pub fn normal_form_spells()
    ensures message { (extent : Extent) (profile : Profile) (m : List Item) (count : ℕ)
        → IsMessage m → length (normal_form profile m) ≤ count → count ≤ most_data
        → Spells extent (padded (normal_form profile m) count) m }
    ensures count { (profile : Profile) (m : List Item) (count : ℕ)
        → length (normal_form profile m) ≤ count
        → length (padded (normal_form profile m) count) ≡ count }
    ensures codewords { (profile : Profile) (m : List Item) (count : ℕ)
        → IsMessage m → AreCodewords (padded (normal_form profile m) count) }
    ensures items { (profile : Profile) (m : List Item)
        → length m ≤ 2 * length (normal_form profile m) }
    ensures shorter { (m : List Item) → length (shorter m) ≤ length (ascii m) }
    ensures segment { (bytes : List ℕ)
        → length (shorter (map (λ byte. Item.Byte byte) bytes)) ≤ length (one_segment bytes) }
{}

/// What can follow the last whole spelling of a run is exactly what has no whole spelling as a prefix.
pub fn rest_has_no_spelling()
    ensures { (set : CodeSet) (values : List ℕ)
        → AreRunValues values → IsRest set values ↔ BeginsNoSpelling set values }
{}

/// Each row of the tables has as many codewords or values as meanings, and none of these is in two rows.
pub fn tables_are_sound()
    ensures codewords { IsTable codeword_rows }
    ensures basic { (set : CodeSet) → IsTable (basic_rows set) }
    ensures shifted { (set : CodeSet) (shift : Shift) → IsTable (shifted_rows set shift) }
{}

/// The most data codewords of a square are those of the largest one. What is read of them in the usual extent has two
/// items for each, and a message has room for the most that are read in the wide extent; `LARGEST_ROOM` is room for the
/// most that are read there of a symbol of any shape. `MOST_MARKS` and `LARGEST_MARKS` are one mark for each two data
/// codewords. `MOST_GRID_DATA` and `MOST_DATA` are constants of `dm_layout`, whose laws `constants_are_the_limits` say
/// the same of them.
pub fn limits_are_those_of_the_table()
    ensures data { MOST_GRID_DATA ≡ most_grid_data }
    ensures largest { MOST_DATA ≡ most_data }
    ensures items { MOST_ITEMS ≡ most_spelled Extent.Usual most_grid_data }
    ensures room { MESSAGE_ROOM ≡ most_spelled Extent.Wide most_grid_data }
    ensures largest_room { LARGEST_ROOM ≡ most_spelled Extent.Wide most_data }
    ensures marks { 2 * MOST_MARKS ≡ most_grid_data }
    ensures largest_marks { 2 * LARGEST_MARKS ≡ most_data }
{}
