//! Why codewords spell no message, and why a message has no codewords.

/// Why a list of data codewords spells no message. A place counts the data codewords of the symbol from 1.
#[derive(Clone, Copy, Debug, PartialEq, Eq)]
pub enum WordFault {
    /// The codeword at this place is one that ASCII encodation does not use: 0 or 242 to 255.
    Reserved(u16),
    /// This codeword, at this place, begins something that is not read: structured append (233), reader programming
    /// (234), ECI (241), in the usual extent also macro 05 (236), macro 06 (237) and EDIFACT (240), and in the wide
    /// extent a macro behind the first place.
    LeftOut(u8, u16),
    /// An Upper Shift is followed by something other than its character. The place is that of the codeword 235, or in a
    /// run that of the pair that holds the value 30 of the first Upper Shift.
    UpperShift(u16),
    /// The number of a pair of a run is 0 or more than 64000; the place is that of its first codeword.
    Triplet(u16),
    /// A shift is followed by a value without meaning in its set; the place is that of the pair that holds this value.
    Value(u16),
    /// A Base 256 length is missing, has no right second number, or passes the end of the symbol; the place is that of
    /// the latch 231.
    Length(u16),
    /// The character of an Upper Shift does not come; in the wide extent this is no fault at the end of a run. The
    /// place is as for `UpperShift`.
    Unfinished(u16),
}

/// No size has room for the codewords: those of the profile that is asked for, or, where the smallest are asked for,
/// any that spell the message in the extent.
#[derive(Clone, Copy, Debug, PartialEq, Eq)]
pub struct TooLong;
