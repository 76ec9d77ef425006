//! Codewords: what each means in ASCII encodation (ISO/IEC 16022, ASCII encodation), and names for those that other
//! modules write or look for.

ghost use Rattle.std.specs.Prelude.{◌≡◌};
ghost use Rattle.dm_words.specs.Codewords.{codeword_of};
ghost use Rattle.dm_words.specs.inner.Scan.Lone.{IsLone};

use crate::c40::set::CodeSet;

/// The first pad of a symbol, which ends the message. Each further one is randomised by its place.
pub const FIRST_PAD: u8 = 129;

/// The codeword of the two digits 00. Those of the other pairs follow, up to 99.
pub const FIRST_DIGITS: u8 = 130;

/// The latch to Base 256.
pub const BASE256_LATCH: u8 = 231;

/// The codeword of FNC1.
pub const FNC1: u8 = 232;

/// The Upper Shift, which adds 128 to the character that follows.
pub const UPPER_SHIFT: u8 = 235;

/// Macro 05.
pub const MACRO_05: u8 = 236;

/// Macro 06.
pub const MACRO_06: u8 = 237;

/// The unlatch, which ends a run of C40, Text or X12. It has no meaning in ASCII encodation.
pub const UNLATCH: u8 = 254;

/// The factor of both of the standard's randomisings: that of pads, and that of Base 256.
pub const RANDOM_FACTOR: u32 = 149;

/// What a codeword means where ASCII encodation is in force.
#[derive(Clone, Copy)]
pub enum Codeword {
    /// The byte of 0 to 127.
    Character(u8),
    /// The end of the message.
    Pad,
    /// The two digits of a number of 0 to 99.
    Digits(u8),
    /// The latch to C40, Text or X12.
    Latch(CodeSet),
    /// The latch to Base 256.
    Base256,
    /// FNC1.
    Fnc1,
    /// The latch to EDIFACT.
    Edifact,
    /// 128 is added to the character that follows.
    UpperShift,
    /// The macro whose header has the digits 0 and this one, as a character.
    Macro(u8),
    /// The first codeword of something that is not read in any extent.
    LeftOut,
}

/// What a codeword is by itself where ASCII encodation is in force, if it is a whole part.
#[derive(Clone, Copy)]
pub enum Lone {
    /// The byte of 0 to 127.
    Character(u8),
    /// The two digits of a number of 0 to 99.
    Digits(u8),
    /// No part by itself.
    Other,
}

/// Gives what a codeword is by itself. Most codewords are characters or digits, and this asks for nothing else.
pub(crate) fn lone_of(codeword: u8) -> Lone
    ensures { IsLone codeword result }
{
    match codeword {
        1..=128 => Lone::Character(codeword - 1),
        FIRST_DIGITS..=229 => Lone::Digits(codeword - FIRST_DIGITS),
        _ => Lone::Other,
    }
}

/// Gives the meaning of a codeword in ASCII encodation, or `None` where it has none.
pub(crate) fn meaning(codeword: u8) -> Option<Codeword>
    ensures { result ≡ codeword_of codeword }
{
    match codeword {
        1..=128 => Some(Codeword::Character(codeword - 1)),
        FIRST_PAD => Some(Codeword::Pad),
        FIRST_DIGITS..=229 => Some(Codeword::Digits(codeword - FIRST_DIGITS)),
        230 => Some(Codeword::Latch(CodeSet::C40)),
        BASE256_LATCH => Some(Codeword::Base256),
        FNC1 => Some(Codeword::Fnc1),
        UPPER_SHIFT => Some(Codeword::UpperShift),
        MACRO_05 => Some(Codeword::Macro(b'5')),
        MACRO_06 => Some(Codeword::Macro(b'6')),
        238 => Some(Codeword::Latch(CodeSet::X12)),
        239 => Some(Codeword::Latch(CodeSet::Text)),
        240 => Some(Codeword::Edifact),
        233 | 234 | 241 => Some(Codeword::LeftOut),
        _ => None,
    }
}
