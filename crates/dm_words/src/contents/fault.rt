//! Why codewords say no content.

use crate::fault::WordFault;

/// Why a list of data codewords says no content. A place counts the data codewords of the symbol from 1.
#[derive(Clone, Copy, Debug, PartialEq, Eq)]
pub enum ContentFault {
    /// No part begins where one would. In the wide extent `WordFault::LeftOut` names structured append (233) or reader
    /// programming (234) behind the first place, and a macro (236, 237) that doesn't begin a content.
    Word(WordFault),
    /// No designator stands behind ECI, the codeword 241 at this place.
    Designator(u16),
    /// Structured append, the codeword 233 at this place, which is 1, begins no head.
    Append(u16),
}
