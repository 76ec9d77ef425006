//! Laws of the definitions in `specs/`. Each function has an empty body: its contract is the law.

ghost use Rattle.ecc200_calls.specs.Laws.{MessagesAreGiven, MessagesAreNormalised, MessagesAreWritten};
ghost use Rattle.ecc200_calls.specs.Laws.{ModulesMakeTheSymbol, OneSymbolIsMade};

/// The modules of a symbol, as they are given, make that symbol, and no other; so what reading them gives is what
/// reading the symbol gives.
pub fn modules_make_the_symbol()
    ensures made { ModulesMakeTheSymbol }
    ensures one { OneSymbolIsMade }
{}

/// In the extent `Usual` what is given for a symbol is a message, without a head and marks, or a fault of messages.
pub fn messages_are_given()
    ensures { MessagesAreGiven }
{}

/// What is given for items without a head and marks is what writing their message gives; and in the extent `Usual` what
/// normalising a symbol gives is the normal symbol of a message, or that there is none, or a fault of messages.
pub fn messages_are_written()
    ensures written { MessagesAreWritten }
    ensures normal { MessagesAreNormalised }
{}
