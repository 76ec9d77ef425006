//! Laws of the definitions of symbols of all sizes. Each function has an empty body: its contract is the law.

ghost use Rattle.dm_symbol.specs.ContentLaws.{LightDoubtReadsContentsAlike, LightDoubtNormalisesContentsAlike};
ghost use Rattle.dm_symbol.specs.SymbolLaws.{NoDoubtIsNearness, NoDoubtCountsAllFaults, LightDoubtShowsAlike};
ghost use Rattle.dm_symbol.specs.SymbolLaws.{OtherDealingRestarts, OtherDealingErases, GridsAreReadAsSymbols};
ghost use Rattle.dm_symbol.specs.SymbolLaws.{GridsHaveTheResultsOfSymbols, NormalGridsAreNormalSymbols};

/// With no module doubtful, blocks are near to codewords as they are without any talk of doubt, and all border faults
/// count.
pub fn no_doubt_changes_nothing()
    ensures near { NoDoubtIsNearness }
    ensures border { NoDoubtCountsAllFaults }
{}

/// Where the modules that are given as doubtful are all light, what reading, normalising and inspecting a symbol gives
/// is what it gives with none given.
pub fn light_doubt_changes_nothing()
    ensures read { LightDoubtReadsContentsAlike }
    ensures normal { LightDoubtNormalisesContentsAlike }
    ensures shown { LightDoubtShowsAlike }
{}

/// By the other dealing of 144 x 144 the check codewords are dealt anew from block 0, and their places are erased so.
pub fn the_other_dealing_restarts()
    ensures blocks { OtherDealingRestarts }
    ensures erased { OtherDealingErases }
{}

/// A grid is read as a message, for every limit, exactly where the modules of the symbol that has its cells are, in the
/// usual extent.
pub fn a_grid_is_read_as_its_modules()
    ensures { GridsAreReadAsSymbols }
{}

/// What reading a grid gives is what reading the symbol with its cells in the usual extent gives, faults and numbers
/// too; and the normal grid of a message is the normal symbol of the content with its items. So squares may be read and
/// written as grids.
pub fn a_grid_has_the_results_of_its_symbol()
    ensures read { GridsHaveTheResultsOfSymbols }
    ensures normal { NormalGridsAreNormalSymbols }
{}
