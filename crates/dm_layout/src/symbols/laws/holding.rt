//! Facts about the definitions of the codewords that modules hold.

ghost use Rattle.dm_layout.specs.symbols.Holding.{AllModulesHold, HeldWordsAreOne, WordsAreLaid, LaidModulesAreOne};

/// The modules of a symbol hold exactly one list of codewords, whatever stands in their borders and in their fixed
/// square.
pub fn modules_hold_codewords()
    ensures some { AllModulesHold }
    ensures one { HeldWordsAreOne }
{}

/// The codewords of a symbol are laid in the modules of exactly one symbol.
pub fn codewords_are_laid_in_modules()
    ensures some { WordsAreLaid }
    ensures one { LaidModulesAreOne }
{}
