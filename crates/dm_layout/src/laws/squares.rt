//! Squares are symbols whose rows and columns are alike: what is said of squares is what is said of such symbols.

ghost use Rattle.dm_layout.specs.Sizes.{TableIsOfSquares};
ghost use Rattle.dm_layout.specs.Squares.{SizesAreSquares, GridsAreModules, WordsAreCodewords, HeldAlike, LaidAlike};

/// The sizes are the squares of the table of all symbols whose sides are at most the largest.
pub fn sizes_are_squares()
    ensures table { TableIsOfSquares }
    ensures each { SizesAreSquares }
{}

/// Grids and codewords of squares are well formed exactly if they are so as modules and codewords of symbols.
pub fn squares_are_symbols()
    ensures grids { GridsAreModules }
    ensures words { WordsAreCodewords }
{}

/// A grid holds codewords, and these are laid in it, exactly if the same is so of its modules.
pub fn grids_hold_as_modules_do()
    ensures held { HeldAlike }
    ensures laid { LaidAlike }
{}
