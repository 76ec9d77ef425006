//! Writing.

ghost use Rattle.std.specs.Prelude.{◌≡◌, ◌<◌, ◌≤◌, ◌⊎◌, All, IsTrue, [], false, length, map};
ghost use Rattle.dm_words.specs.Heads.{IsHead};
ghost use Rattle.dm_words.specs.Contents.{AreMarks, ContentView};
ghost use Rattle.dm_layout.specs.symbols.Sizes.{codeword_count};
ghost use Rattle.dm_symbol.specs.WrittenContent.{AreChosen};
ghost use Rattle.ecc200_calls.specs.Contents.{marks_of};
ghost use Rattle.ecc200_calls.specs.Writings.{IsContentGiven, IsWriteResult, IsWritingGiven};
ghost use Rattle.ecc200_calls.specs.inner.Rooms.{IsRoom};

use crate::fault::Fault;
use crate::how::{How, Wanted, check_how};
use crate::mark::{MarkNumbers, NO_MARK, first_wrong, put_marks_of};
use crate::message::{ItemNumber, first_foreign, put_items_of};
use crate::room::*;
use crate::symbol::{SymbolOut, show_fault, show_symbol};
use dm_layout::symbols::{MOST_DATA, SizeChoice, SymbolIn, SymbolSize, SymbolWordsIn};
use dm_symbol::{Form, Head, Item, Mark, TooLong, WriteOptions, choose_words_to, lay_words_to};

/// Writes the symbol of the content with the items and the marks of these numbers.
pub fn write(items: &[u16], marks: &[MarkNumbers], how: &How, out: &mut SymbolOut) -> u16
    ensures out { IsWriteResult items.now marks.now how.now out.old out.new }
    ensures code { result ≡ out.new.fault.code }
{
    write_by(items, marks, how, out)
}

/// Writes the symbol of the content of these bytes, each of which is an item: what [`write()`] does for the same
/// numbers and no marks.
pub fn write_bytes(bytes: &[u8], how: &How, out: &mut SymbolOut) -> u16
    ensures out { IsWriteResult bytes.now [] how.now out.old out.new }
    ensures code { result ≡ out.new.fault.code }
{
    write_by(bytes, &[], how, out)
}

/// Does so for numbers of any kind.
fn write_by<N: ItemNumber>(
    items: &[N],
    marks: &[MarkNumbers],
    how: &How,
    out: &mut SymbolOut,
) -> u16
    ensures out { IsWriteResult (map N.number items.now) marks.now how.now out.old out.new }
    ensures code { result ≡ out.new.fault.code }
{
    match check_how(*how) {
        Ok(wanted) => write_wanted(items, marks, wanted, out),
        Err(why) => show_fault(out, why),
    }
    out.fault.code
}

/// Shows the symbol of the content of these numbers, or why there is none.
fn write_wanted<N: ItemNumber>(
    items: &[N],
    marks: &[MarkNumbers],
    wanted: Wanted,
    out: &mut SymbolOut,
)
    requires { IsHead wanted.head }
    ensures { IsWritingGiven wanted.form wanted.size wanted.head (map N.number items.now)
        marks.now out.old out.new }
{
    match first_foreign(items) {
        Some(place) => show_fault(
            out,
            Fault::foreign(
                items[place].number(),
                place.min(usize::from(u16::MAX)) as u16,
            ),
        ),
        None => write_items(items, marks, wanted, out),
    }
}

/// Does so where each number stands for an item.
fn write_items<N: ItemNumber>(
    items: &[N],
    marks: &[MarkNumbers],
    wanted: Wanted,
    out: &mut SymbolOut,
)
    requires head { IsHead wanted.head }
    requires items { All (λ item. item ≤ 256) (map N.number items.now) }
    ensures { IsWritingGiven wanted.form wanted.size wanted.head (map N.number items.now)
        marks.now out.old out.new }
{
    match first_wrong(items.len(), marks) {
        Some(place) => show_fault(
            out,
            Fault::wrong_mark(place.min(usize::from(u16::MAX)) as u16),
        ),
        None => write_numbers(items, marks, wanted, out),
    }
}

/// Does so where the marks are right too. A content with more items or marks than any symbol says fits no size.
fn write_numbers<N: ItemNumber>(
    items: &[N],
    marks: &[MarkNumbers],
    wanted: Wanted,
    out: &mut SymbolOut,
)
    requires head { IsHead wanted.head }
    requires items { All (λ item. item ≤ 256) (map N.number items.now) }
    requires marks { AreMarks 0 (length items.now) (marks_of marks.now) }
    ensures { IsWritingGiven wanted.form wanted.size wanted.head (map N.number items.now) marks.now
        out.old out.new }
{
    let Wanted { form, size, head } = wanted;
    let how = WriteOptions { form, size };
    if !may_be_said(items.len(), marks.len()) {
        show_fault(out, Fault::too_long());
    } else if marks.is_empty() {
        in_room!(
            Room::of_items(items.len()),
            write_content_of::<_, ITEMS, 0>(items, marks, how, head, out)
        );
    } else {
        in_room!(
            Room::of_counts(items.len(), marks.len()),
            write_content_of::<_, ITEMS, MARKS>(items, marks, how, head, out)
        );
    }
}

/// Whether some symbol may say so many items and marks.
fn may_be_said(items: usize, marks: usize) -> bool
    ensures few { IsTrue result → (items ≤ LARGEST_ITEMS) × (marks ≤ LARGEST_MARKS) }
    ensures many { result ≡ false → (LARGEST_ITEMS < items) ⊎ (LARGEST_MARKS < marks) }
{
    items <= LARGEST_ITEMS && marks <= LARGEST_MARKS
}

/// Shows the symbol of the content of these numbers, or that it fits no size of the choice, in a room that serves for
/// the content. It stands by itself, so that no other room is left for it on the stack.
#[inline(never)]
fn write_content_of<N: ItemNumber, const ITEMS: usize, const MARKS: usize>(
    items: &[N],
    marks: &[MarkNumbers],
    how: WriteOptions,
    head: Option<Head>,
    out: &mut SymbolOut,
)
    requires head { IsHead head }
    requires items { All (λ item. item ≤ 256) (map N.number items.now) }
    requires room { length items.now ≤ ITEMS }
    requires most { ITEMS ≤ LARGEST_ITEMS }
    requires marks { AreMarks 0 (length items.now) (marks_of marks.now) }
    requires mark_room { length marks.now ≤ MARKS }
    requires few_marks { MARKS ≤ LARGEST_MARKS }
    ensures { IsWritingGiven how.form how.size head (map N.number items.now) marks.now out.old
        out.new }
{
    let mut all_items = [Item::Fnc1; ITEMS];
    let mut all_marks = [NO_MARK; MARKS];
    put_items_of(&mut all_items, items);
    put_marks_of(&mut all_marks, marks, items.len());
    let (items, marks) = (&all_items[..items.len()], &all_marks[..marks.len()]);
    write_content(head, items, marks, how, out);
}

/// Shows the symbol in which a content is written, or that it fits no size of the choice.
#[inline(never)]
pub(crate) fn write_content(
    head: Option<Head>,
    items: &[Item],
    marks: &[Mark],
    how: WriteOptions,
    out: &mut SymbolOut,
)
    requires head { IsHead head }
    requires few { length items.now ≤ LARGEST_ITEMS }
    requires few_marks { length marks.now ≤ LARGEST_MARKS }
    requires in_order { AreMarks 0 (length items.now) marks.now }
    ensures { IsContentGiven how.form how.size
        (record { head = head; items = items.now; marks = marks.now }) out.old out.new }
{
    let mut list = [0; MOST_DATA];
    match choose_words_to(head, items, marks, how, &mut list) {
        Ok(size) => show_chosen(size, &list[..usize::from(size.data_count())], out),
        Err(TooLong) => show_fault(out, Fault::too_long()),
    }
}

/// Shows the symbol of data codewords of a size, in a room that serves for it.
fn show_chosen(size: SymbolSize, list: &[u8], out: &mut SymbolOut)
    requires { length list.now ≡ size.data_count }
    ensures { (form : Form) (choice : SizeChoice) (content : ContentView)
        → AreChosen form choice content size list.now
        → IsContentGiven form choice content out.old out.new }
{
    in_room!(Room::of(size), show_words::<ROWS, WORDS>(size, list, out))
}

/// Does so in this room. It stands by itself, so that no other room is left for it on the stack.
#[inline(never)]
fn show_words<const ROWS: usize, const WORDS: usize>(
    size: SymbolSize,
    list: &[u8],
    out: &mut SymbolOut,
)
    requires count { length list.now ≡ size.data_count }
    requires room { IsRoom ROWS WORDS }
    requires high { size.rows ≤ ROWS }
    requires long { codeword_count size ≤ WORDS }
    ensures { (form : Form) (choice : SizeChoice) (content : ContentView)
        → AreChosen form choice content size list.now
        → IsContentGiven form choice content out.old out.new }
{
    let mut words = SymbolWordsIn::<WORDS>::zeros(size);
    let mut symbol = SymbolIn::<ROWS>::light(size);
    lay_words_to(size, list, &mut words, &mut symbol);
    show_symbol(out, &symbol);
}
