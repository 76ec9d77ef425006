//! The rules by which the normal form of a message is chosen.

/// Which codewords are the normal form of a message, that is, its data codewords without pads.
#[derive(Clone, Copy, Debug, PartialEq, Eq)]
pub enum Profile {
    /// ASCII encodation alone (ISO/IEC 16022, ASCII encodation).
    Ascii,
    /// One segment of Base 256 from the first codeword on, where the message has no FNC1 and this takes fewer codewords
    /// than ASCII; else ASCII (ISO/IEC 16022, Base 256 encodation).
    Shorter,
}
