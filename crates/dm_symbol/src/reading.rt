//! Reading: the message that a grid says.

ghost use Rattle.std.specs.Prelude.{◌≡◌, ◌≤◌, ◌*◌, ℕ, length, map, OnOk, IfErr};
ghost use Rattle.dm_layout.specs.Sizes.{codeword_count};
ghost use Rattle.dm_words.specs.Outcomes.{outcome};
ghost use Rattle.dm_words.specs.Spells.{Refused, Spells};
ghost use Rattle.dm_symbol.specs.Reading.{IsRead};

use crate::contents::ContentReadFault;
use crate::symbol::dealing::Dealing;
use crate::symbol::reading::{BlockReading, FEW_CODEWORDS, restore};
use arrayvec::ArrayVec;
use dm_layout::{Grid, MOST_GRID_BLOCKS, MOST_GRID_CODEWORDS};
use dm_words::{Extent, MESSAGE_ROOM, MOST_DATA, Message, WordFault, message_to};

/// What a grid says, and how much of it was wrong. The default is the reading of an empty message, with nothing
/// corrected, into which [`read_to`] can read.
#[derive(Clone, Debug, Default, Drop, PartialEq, Eq)]
pub struct Reading {
    /// The message.
    pub message: Message,
    /// For each block, in order, the number of its codewords that were corrected.
    pub corrected: ArrayVec<u8, MOST_GRID_BLOCKS>,
    /// How many modules of the borders have the wrong colour.
    pub border_faults: u16,
}

/// Why a grid is not read.
#[derive(Clone, Copy, Debug, PartialEq, Eq)]
pub enum ReadFault {
    /// More modules of the borders have the wrong colour than the limit allows; this is their number.
    Border(u16),
    /// This block has more errors than can be corrected. It is the first such block; blocks count from 0.
    Block(u8),
    /// The corrected data codewords spell no message.
    Words(WordFault),
}

/// Gives what a grid says in the usual extent: what [`read_to`] leaves.
pub fn read(grid: &Grid, border_limit: u16) -> Result<Reading, ReadFault>
    ensures read { IsRead grid.now border_limit result }
{
    let mut reading = Reading::default();
    match read_to(grid, border_limit, &mut reading) {
        Ok(()) => Ok(reading),
        Err(fault) => Err(fault),
    }
}

/// Reads a grid in the usual extent (ISO/IEC 16022, decode algorithm): refuses it if more than `border_limit` modules
/// of its borders have the wrong colour, corrects the blocks in order, each in up to half as many codewords as it has
/// check codewords, and reads the data codewords, as far as that extent goes. The first of these steps that fails gives
/// the fault. The fixed square isn't looked at, nor is what follows the first pad. The grid is taken to be upright. A
/// grid with more damage may be near the codewords of another message, and is then read as that message.
///
/// After `Ok`, `reading` holds what the grid says, whatever it held before. After `Border` it is as it was, and after
/// another fault it holds some reading. One `Reading` serves any number of grids, and isn't cleared for the largest
/// symbol; room for codewords is, for those of the largest one where the square has more than 288.
pub fn read_to(grid: &Grid, border_limit: u16, reading: &mut Reading) -> Result<(), ReadFault>
    ensures read { IsRead grid.now border_limit (outcome result reading.new) }
    ensures same { (count : ℕ) → result ≡ Err (ReadFault.Border count)
        → reading.new ≡ reading.old }
{
    let size = grid.size();
    let count = usize::from(size.data_count() + size.check_count());
    // To clear room for the largest square takes longer than much of the reading of a small one.
    if count <= FEW_CODEWORDS {
        let mut room = [0; FEW_CODEWORDS];
        read_in(grid, border_limit, &mut room, reading)
    } else {
        let mut room = [0; MOST_GRID_CODEWORDS];
        read_in(grid, border_limit, &mut room, reading)
    }
}

/// Does the same with room for the codewords, of any size.
fn read_in(
    grid: &Grid,
    border_limit: u16,
    room: &mut [u8],
    reading: &mut Reading,
) -> Result<(), ReadFault>
    requires { codeword_count grid.now.size ≤ length room.old }
    ensures read { IsRead grid.now border_limit (outcome result reading.new) }
    ensures same { (count : ℕ) → result ≡ Err (ReadFault.Border count)
        → reading.new ≡ reading.old }
{
    let size = grid.size();
    let mut blocks = ArrayVec::new();
    // By no other is a square of up to 104 rows read.
    let mut dealing = Dealing::Standard;
    match restore(
        &grid.as_symbol().borrowed(),
        None,
        Extent::Usual,
        border_limit,
        room,
        &mut dealing,
        &mut blocks,
        &mut reading.border_faults,
    ) {
        Ok(()) => {}
        Err(ContentReadFault::Border(count)) => return Err(ReadFault::Border(count)),
        Err(ContentReadFault::Block(index)) => return Err(ReadFault::Block(index)),
        Err(ContentReadFault::Words(_)) => unreachable!(),
    }
    let list = &room[..usize::from(size.data_count())];
    match message_said(list, &blocks, reading) {
        Ok(()) => Ok(()),
        Err(fault) => Err(ReadFault::Words(fault)),
    }
}

/// Leaves the message that data codewords spell, and in how many codewords each of these blocks was wrong.
fn message_said(
    words: &[u8],
    blocks: &[BlockReading],
    reading: &mut Reading,
) -> Result<(), WordFault>
    requires short { length words.now ≤ MOST_DATA }
    requires room { 2 * length words.now ≤ MESSAGE_ROOM }
    requires few { length blocks.now ≤ MOST_GRID_BLOCKS }
    ensures spelled { OnOk result (Spells Extent.Usual words.now reading.new.message) }
    ensures corrected { OnOk result (reading.new.corrected.items ≡ map (λ block. block.corrected) blocks.now) }
    ensures refused { IfErr result (λ fault. Refused words.now fault) }
    ensures faults { reading.new.border_faults ≡ reading.old.border_faults }
{
    match message_to(words, &mut reading.message) {
        Ok(()) => {}
        Err(fault) => return Err(fault),
    }
    reading.corrected = corrected_in(blocks);
    Ok(())
}

/// Gives in how many codewords each of these blocks was wrong.
fn corrected_in(blocks: &[BlockReading]) -> ArrayVec<u8, MOST_GRID_BLOCKS>
    requires { length blocks.now ≤ MOST_GRID_BLOCKS }
    ensures { result.items ≡ map (λ block. block.corrected) blocks.now }
{
    let mut counts = ArrayVec::new();
    for block in blocks {
        counts.push(block.corrected);
    }
    counts
}
