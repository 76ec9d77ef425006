//! Writing: the normal grid of a message.

ghost use Rattle.std.specs.Prelude.{◌≡◌, OnErr};
ghost use Rattle.dm_words.specs.Outcomes.{outcome};
ghost use Rattle.dm_symbol.specs.NormalGrid.{IsWritten};

use crate::symbol::writing::complete_in;
use dm_layout::symbols::SymbolWordsIn;
use dm_layout::{Grid, MOST_GRID_CODEWORDS, Size, lay_symbol_to};
use dm_words::{MOST_GRID_DATA, Message, Profile, TooLong, add_pads, normal_words_to};

/// Gives the normal grid of a message under [`Profile::Ascii`]: what [`write_as`] gives for that profile.
pub fn write(message: &Message) -> Result<Grid, TooLong>
    ensures { IsWritten Profile.Ascii message.now result }
{
    write_as(Profile::Ascii, message)
}

/// Gives the normal grid of a message under a profile: the codewords that the profile chooses, pads and check
/// codewords, laid in the smallest symbol that holds them (ISO/IEC 16022, symbol construction). The fault is `TooLong`
/// exactly where no size of the table holds them: where they are, without pads, more than the data codewords of the
/// largest size.
pub fn write_as(profile: Profile, message: &Message) -> Result<Grid, TooLong>
    ensures { IsWritten profile message.now result }
{
    let mut grid = Grid::default();
    match write_to(profile, message, &mut grid) {
        Ok(()) => Ok(grid),
        Err(TooLong) => Err(TooLong),
    }
}

/// Does the same as [`write_as`], profile and all, in a target: after `Ok`, `grid` holds the normal grid, whatever it
/// held before. After `TooLong` it is as it was.
pub fn write_to(profile: Profile, message: &Message, grid: &mut Grid) -> Result<(), TooLong>
    ensures written { IsWritten profile message.now (outcome result grid.new) }
    ensures same { OnErr result (grid.new ≡ grid.old) }
{
    // Room for the codewords of any square. It is made before the first return, so that it is cleared only once.
    let mut words = SymbolWordsIn::<MOST_GRID_CODEWORDS>::zeros(grid.size().symbol());
    let mut list = [0; MOST_GRID_DATA];
    let count = match normal_words_to(profile, message.items(), &mut list) {
        Ok(count) => count,
        Err(TooLong) => return Err(TooLong),
    };
    let Some(size) = Size::for_words(count as u16) else {
        return Err(TooLong);
    };
    let data = &mut list[..usize::from(size.data_count())];
    add_pads(data, count);
    let shape = size.symbol();
    complete_in(words.resize(shape), shape, data);
    lay_symbol_to(&words, grid);
    Ok(())
}
