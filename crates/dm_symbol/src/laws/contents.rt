//! Laws of the definitions of contents and of the symbols that say them. Each function has an empty body: its contract
//! is the law.

ghost use Rattle.dm_symbol.specs.ContentLaws.{OneSymbolContent, ReadContentsAreRight, ContentReadResultIsThere};
ghost use Rattle.dm_symbol.specs.ContentLaws.{ContentReadResultIsOne, NormalContentResultIsThere};
ghost use Rattle.dm_symbol.specs.ContentLaws.{NormalContentResultIsOne};
ghost use Rattle.dm_symbol.specs.ContentLaws.{UsualContentsAreMessages, WideReadsTheUsualContent};
ghost use Rattle.dm_symbol.specs.ContentLaws.{AWrittenContentIsThere};
ghost use Rattle.dm_symbol.specs.ContentLaws.{WrittenContentIsRead, WrittenSymbolsTellContents};
ghost use Rattle.dm_symbol.specs.ContentLaws.{NormalContentTwiceIsOnce};
ghost use Rattle.dm_symbol.specs.ContentLaws.{EqualNormalSymbolsMeanEqualContents, AMacroIsItsText};

/// With the same doubtful modules, a symbol is read as at most one content, whatever the extents and the limits; and
/// that content is right.
pub fn one_symbol_content_is_read()
    ensures content { OneSymbolContent }
    ensures right { ReadContentsAreRight }
{}

/// For each extent, limit and doubtful modules, each symbol has one result of reading, and no other; so it has of
/// normalising, under each profile.
pub fn each_symbol_has_a_content_result()
    ensures there { ContentReadResultIsThere }
    ensures one { ContentReadResultIsOne }
    ensures normal_there { NormalContentResultIsThere }
    ensures normal_one { NormalContentResultIsOne }
{}

/// A right content that fits a size of a choice is written in some symbol; so one that fits a square has a normal
/// symbol.
pub fn a_written_content_is_there()
    ensures { AWrittenContentIsThere }
{}

/// The symbol in which a right content is written, in any choice of sizes, is read as that content in each extent in
/// which it can be said and for every limit, with nothing corrected; so is its normal symbol. Such symbols are equal
/// exactly where their contents are.
pub fn written_content_is_read()
    ensures read { WrittenContentIsRead }
    ensures tell { WrittenSymbolsTellContents }
{}

/// Normalising twice under one profile is the same as normalising once, in each second extent in which the content can
/// be said.
pub fn normal_content_twice_is_once()
    ensures { NormalContentTwiceIsOnce }
{}

/// Two symbols that are read, each in its own way, have equal normal symbols under one profile exactly where their
/// contents are equal: where heads, items, and numbers and places of marks are.
pub fn equal_normal_symbols_mean_equal_contents()
    ensures { EqualNormalSymbolsMeanEqualContents }
{}

/// A symbol whose first data codeword is a macro and one that spells the macro's text out, in whatever extent that is
/// read, have equal normal symbols under one profile.
pub fn a_macro_is_its_text()
    ensures { AMacroIsItsText }
{}

/// What is read in the usual extent is a message: it has neither a head nor marks.
pub fn usual_contents_are_messages()
    ensures { UsualContentsAreMessages }
{}

/// What is read as a content in the usual extent has the same result in the wide one.
pub fn wide_reads_the_usual_content()
    ensures { WideReadsTheUsualContent }
{}
