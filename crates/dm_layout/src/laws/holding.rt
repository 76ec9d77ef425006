//! Facts about the definitions of the codewords that a grid holds.

ghost use Rattle.dm_layout.specs.Holds.{EachGridHolds, HeldWordsAreOne, WordsAreLaid, LaidGridIsOne};

/// Each grid holds exactly one list of codewords, whatever stands in its borders and in its fixed square.
pub fn each_grid_holds_codewords()
    ensures some { EachGridHolds }
    ensures one { HeldWordsAreOne }
{}

/// The codewords of a square are laid in exactly one grid.
pub fn codewords_are_laid_in_a_grid()
    ensures some { WordsAreLaid }
    ensures one { LaidGridIsOne }
{}
