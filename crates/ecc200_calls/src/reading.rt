//! Reading.

ghost use Rattle.std.specs.Prelude.{◌≡◌, ◌≤◌, ◌/◌, length, map};
ghost use Rattle.ecc200_calls.specs.Arrays.{over};
ghost use Rattle.ecc200_calls.specs.Contents.{head_shown, mark_shown};
ghost use Rattle.ecc200_calls.specs.Items.{number_of};
ghost use Rattle.ecc200_calls.specs.Readings.{IsReadResult, IsReadingGiven, dealing_shown, no_reading, reading_shown};
ghost use Rattle.ecc200_calls.specs.Scans.{SoughtResult, usual_limit};
ghost use Rattle.ecc200_calls.specs.inner.Restored.{reading_said};

use crate::answer::{Answer, Said, answer_known};
use crate::fault::{Fault, read_content_fault};
use crate::given::check_given;
use crate::head::{HeadNumbers, head_shown};
use crate::mark::{MarkNumbers, put_marks};
use crate::message::put_items;
use crate::scan::{Scan, Sought, check_scan};
use dm_layout::symbols::MOST_BLOCKS;
use dm_symbol::{BlockReading, ContentReadFault, Dealing, LARGEST_MARKS, LARGEST_ROOM};

/// What a symbol says, and how much of it was wrong. After a fault all but the fault and the arrays is 0.
#[repr(C)]
#[derive(Drop)]
pub struct ReadingOut {
    pub fault: Fault,
    pub rows: u16,
    pub columns: u16,
    pub border_faults: u16,
    pub block_count: u16,
    pub item_count: u16,
    pub mark_count: u16,
    pub identifier: u16,
    pub dealing: u16,
    pub head: HeadNumbers,
    pub corrected: [u8; MOST_BLOCKS],
    pub erased: [u8; MOST_BLOCKS],
    pub left: [u8; MOST_BLOCKS],
    pub marks: [MarkNumbers; LARGEST_MARKS],
    pub items: [u16; LARGEST_ROOM],
}

/// Reads the symbol of these modules, of which these are doubtful, by the numbers of a scan.
pub fn read(modules: &[u8], doubtful: &[u8], scan: &Scan, out: &mut ReadingOut) -> u16
    ensures out { IsReadResult modules.now doubtful.now scan.now out.old out.new }
    ensures code { result ≡ out.new.fault.code }
{
    match check_scan(*scan) {
        Ok(sought) => read_sought(sought, modules, doubtful, out),
        Err(why) => show_fault(out, why),
    }
    out.fault.code
}

/// Gives the number of wrong border modules that are usually accepted in a symbol with these rows and columns.
pub fn usual_limit(rows: u16, columns: u16) -> u16
    ensures value { result ≡ usual_limit rows columns }
    ensures square { rows ≡ columns → result ≡ rows / 4 }
{
    ((u32::from(rows) + u32::from(columns)) / 8) as u16
}

/// Shows what is sought in the symbol of these modules, or why it says nothing.
fn read_sought(sought: Sought, modules: &[u8], doubtful: &[u8], out: &mut ReadingOut)
    ensures { SoughtResult sought modules.now doubtful.now (λ why. out.new ≡ no_reading why out.old)
        (λ symbol doubtful limit. IsReadingGiven sought.extent sought.rows sought.columns symbol
        doubtful limit out.old out.new) }
{
    match check_given(modules, doubtful, sought.rows, sought.columns) {
        Ok(given) => answer_known(&Reading, sought, modules, doubtful, given, out),
        Err(why) => show_fault(out, why),
    }
}

/// That a call gives what a symbol says.
#[derive(Clone, Copy)]
struct Reading;

impl Answer for Reading {
    type Out = ReadingOut;

    ghost IsGiven = { λ reading. IsReadingGiven };

    fn show(&self, said: &Said, out: &mut ReadingOut) {
        show_reading(out, said);
    }

    fn refuse(&self, why: ContentReadFault, out: &mut ReadingOut) {
        show_fault(out, read_content_fault(why));
    }
}

/// Shows a fault in place of a reading.
fn show_fault(out: &mut ReadingOut, why: Fault)
    ensures { out.new ≡ no_reading why out.old }
{
    out.fault = why;
    out.rows = 0;
    out.columns = 0;
    out.border_faults = 0;
    out.block_count = 0;
    out.item_count = 0;
    out.mark_count = 0;
    out.identifier = 0;
    out.dealing = 0;
    out.head = head_shown(None);
}

/// Gives the number of a dealing.
pub(crate) fn dealing_number(dealing: Dealing) -> u16
    ensures { result ≡ dealing_shown dealing }
{
    match dealing {
        Dealing::Standard => 0,
        Dealing::Restarted => 1,
    }
}

/// Shows what a symbol says.
#[inline]
fn show_reading(out: &mut ReadingOut, said: &Said)
    requires items { length said.now.items.now ≤ LARGEST_ROOM }
    requires marks { length said.now.marks.now ≤ LARGEST_MARKS }
    ensures { out.new ≡ reading_shown said.now.size.rows said.now.size.columns (reading_said said.now)
        out.old }
{
    let restored = said.restored;
    let blocks = restored.blocks.as_slice();
    out.fault = Fault::none();
    out.rows = said.size.rows();
    out.columns = said.size.columns();
    out.border_faults = restored.border_faults;
    out.block_count = blocks.len() as u16;
    put_counts(&mut out.corrected, &mut out.erased, &mut out.left, blocks);
    out.identifier = u16::from(said.identifier);
    out.dealing = dealing_number(restored.dealing);
    show_content(out, said);
}

/// Shows the content that a symbol says.
#[inline]
fn show_content(out: &mut ReadingOut, said: &Said)
    requires items { length said.now.items.now ≤ LARGEST_ROOM }
    requires marks { length said.now.marks.now ≤ LARGEST_MARKS }
    ensures { out.new ≡ record out.old {
      head = head_shown said.now.head;
      mark_count = length said.now.marks.now;
      marks = over (map mark_shown said.now.marks.now) out.old.marks;
      item_count = length said.now.items.now;
      items = over (map number_of said.now.items.now) out.old.items;
    } }
{
    let (items, marks) = (said.items, said.marks);
    out.head = head_shown(said.head);
    out.mark_count = marks.len() as u16;
    put_marks(&mut out.marks, marks);
    out.item_count = items.len() as u16;
    put_items(&mut out.items, items);
}

/// Writes the counts of these blocks over the first ones: of wrong codewords, of erased ones, and of the check
/// codewords that are left.
fn put_counts(corrected: &mut [u8], erased: &mut [u8], left: &mut [u8], blocks: &[BlockReading])
    requires corrected_room { length blocks.now ≤ length corrected.old }
    requires erased_room { length blocks.now ≤ length erased.old }
    requires left_room { length blocks.now ≤ length left.old }
    ensures corrected { corrected.new ≡ over (map (λ block. block.corrected) blocks.now) corrected.old }
    ensures erased { erased.new ≡ over (map (λ block. block.erased) blocks.now) erased.old }
    ensures left { left.new ≡ over (map (λ block. block.left) blocks.now) left.old }
{
    for (b, block) in blocks.iter().enumerate() {
        corrected[b] = block.corrected;
        erased[b] = block.erased;
        left[b] = block.left;
    }
}
