//! Worked grids and lines, with what is written for them.

/// Rows of modules of side 10, what is written where the grid is read, and where it is checked.
pub(super) type Worked = (&'static [u128], &'static [u8], &'static [u8]);

/// The worked grids. Each function that names the table itself takes the prover longer than one that calls this.
pub(super) fn grids() -> &'static [Worked] {
    &GRIDS
}

/// The lines, and what is written for them.
pub(super) fn lines() -> &'static [(&'static [u8], &'static [u8])] {
    &LINES
}

/// The worked grids. But for the first four, all codewords are right. The modules come from another program.
static GRIDS: [Worked; 17] = [
    // Two of the codewords of `123456` are 0.
    (
        &[
            0x2aa, 0x22d, 0x204, 0x219, 0x208, 0x209, 0x3b0, 0x3d9, 0x274, 0x3ff,
        ],
        b"123456\n",
        b"ok 10 border 0 corrected 2\n",
    ),
    // Three of them are 0.
    (
        &[
            0x2aa, 0x20d, 0x204, 0x219, 0x208, 0x209, 0x3b0, 0x399, 0x204, 0x3ff,
        ],
        b"\\no 6 block 0\n",
        b"\\no 6 block 0\n",
    ),
    // The border alone is dark.
    (
        &[
            0x2aa, 0x201, 0x200, 0x201, 0x200, 0x201, 0x200, 0x201, 0x200, 0x3ff,
        ],
        b"\\no 7 reserved 1\n",
        b"\\no 7 reserved 1\n",
    ),
    // The grid of `123456`, its bottom row all light.
    (
        &[
            0x2aa, 0x32d, 0x304, 0x31d, 0x308, 0x20f, 0x3b0, 0x3d9, 0x274, 0x0,
        ],
        b"\\no 5 border 10\n",
        b"\\no 5 border 10\n",
    ),
    // Data codewords 230, 91 and 11.
    (
        &[
            0x2aa, 0x2bb, 0x2e0, 0x2c7, 0x214, 0x277, 0x3de, 0x213, 0x212, 0x3ff,
        ],
        b"AIM\n",
        b"ok 10 border 0 corrected 0\n",
    ),
    // Data codewords 230, 10 and 255.
    (
        &[
            0x2aa, 0x27b, 0x24e, 0x297, 0x294, 0x20f, 0x3d4, 0x2f9, 0x3f0, 0x3ff,
        ],
        b"\\xC1\n",
        b"ok 10 border 0 corrected 0\n",
    ),
    // Data codewords 231, 45 and 65.
    (
        &[
            0x2aa, 0x215, 0x36e, 0x357, 0x23c, 0x3c7, 0x3a4, 0x337, 0x30a, 0x3ff,
        ],
        b"\\x80\n",
        b"ok 10 border 0 corrected 0\n",
    ),
    // Data codewords 231, 44 and 65.
    (
        &[
            0x2aa, 0x21d, 0x37a, 0x33f, 0x254, 0x39f, 0x25c, 0x231, 0x302, 0x3ff,
        ],
        b"\\x80\n",
        b"ok 10 border 0 corrected 0\n",
    ),
    // Data codewords 66, 0 and 129.
    (
        &[
            0x2aa, 0x213, 0x23a, 0x233, 0x250, 0x243, 0x3e4, 0x3d3, 0x304, 0x3ff,
        ],
        b"\\no 7 reserved 2\n",
        b"\\no 7 reserved 2\n",
    ),
    // Data codewords 240, 66 and 129.
    (
        &[
            0x2aa, 0x297, 0x220, 0x2bf, 0x2c6, 0x249, 0x3d8, 0x245, 0x382, 0x3ff,
        ],
        b"\\no 8 left-out 240 1\n",
        b"\\no 8 left-out 240 1\n",
    ),
    // Data codewords 235, 130 and 129.
    (
        &[
            0x2aa, 0x31b, 0x23c, 0x287, 0x3e4, 0x3ab, 0x26c, 0x3d1, 0x202, 0x3ff,
        ],
        b"\\no 9 upper-shift 1\n",
        b"\\no 9 upper-shift 1\n",
    ),
    // Data codewords 230, 250 and 1.
    (
        &[
            0x2aa, 0x391, 0x3e0, 0x29f, 0x27c, 0x26f, 0x264, 0x219, 0x20a, 0x3ff,
        ],
        b"\\no 10 triplet 2\n",
        b"\\no 10 triplet 2\n",
    ),
    // Data codewords 230, 10 and 161.
    (
        &[
            0x2aa, 0x219, 0x24e, 0x2b7, 0x2a4, 0x277, 0x37e, 0x25d, 0x24c, 0x3ff,
        ],
        b"\\no 11 value 2\n",
        b"\\no 11 value 2\n",
    ),
    // Data codewords 231, 47 and 65.
    (
        &[
            0x2aa, 0x21f, 0x35c, 0x3cf, 0x2ac, 0x37f, 0x262, 0x329, 0x30e, 0x3ff,
        ],
        b"\\no 12 length 1\n",
        b"\\no 12 length 1\n",
    ),
    // Data codewords 66, 66 and 231.
    (
        &[
            0x2aa, 0x2f7, 0x232, 0x29b, 0x258, 0x2db, 0x350, 0x3ed, 0x346, 0x3ff,
        ],
        b"\\no 12 length 3\n",
        b"\\no 12 length 3\n",
    ),
    // Data codewords 66, 66 and 235.
    (
        &[
            0x2aa, 0x2bf, 0x218, 0x283, 0x228, 0x2db, 0x2d0, 0x37f, 0x3d4, 0x3ff,
        ],
        b"\\no 13 unfinished 3\n",
        b"\\no 13 unfinished 3\n",
    ),
    // Data codewords 230, 87 and 199.
    (
        &[
            0x2aa, 0x2f7, 0x288, 0x3d7, 0x214, 0x2e7, 0x2a2, 0x2e3, 0x286, 0x3ff,
        ],
        b"\\no 13 unfinished 2\n",
        b"\\no 13 unfinished 2\n",
    ),
];

/// Rows of modules of side 52: a Base 256 segment of 202 bytes of 255, which is all of the data.
pub(super) static LARGE: [u128; 52] = [
    0xaaaaaaaaaaaaa,
    0xe15841ef9a62f,
    0xef35e6bc96070,
    0xea062de7b2b4f,
    0xa632c72d26e6c,
    0xc2ed4af3f1f9f,
    0x8db0893e37374,
    0xdd1f76e05a7b5,
    0xe898dfad4183a,
    0xbda703f4b4381,
    0x893e4928d8c06,
    0xabc334781a09d,
    0xde12402a4a58c,
    0x819f62771f5a5,
    0xeefeb522529da,
    0xf1cffbeec9c21,
    0xce916bbef8e64,
    0x8ce9346d8a64d,
    0x811c863195370,
    0xe84907e3f2d63,
    0xa19d743123be6,
    0xb5f8a8e4e0729,
    0xec22bea02bfd0,
    0xa14d15e45bdb5,
    0xe65cacad1479c,
    0xfffffffffffff,
    0xaaaaaaaaaaaaa,
    0xb27d9fe3d7b4f,
    0xe3d99dab16d22,
    0xee9ca5787c657,
    0xba919026923b4,
    0x9507266647a79,
    0xd7f3f5b62f3c4,
    0xa66eeaf2b4feb,
    0x95666a238b65c,
    0xc74554688f22b,
    0xa0e0f32cc7f38,
    0xb03877ecd1b6f,
    0xeeef683b1fe9e,
    0xddbcb4fcf8c95,
    0xa1624eb910130,
    0xd85c1d670d387,
    0xdb5ff527fbc88,
    0xaa39dd7485ae5,
    0xb7d665a896e5a,
    0xdf9c796d0bc97,
    0x8a8485b33cbf8,
    0xd0c8b1fcd25af,
    0x9f86b4a8c7b02,
    0xbe630fe0f4ad3,
    0x81b7a72988140,
    0xfffffffffffff,
];

/// The normal grid of `123456`, and an empty line.
pub(super) const DIGITS: &[u8] =
    b"1010101010\n1100101101\n1100000100\n1100011101\n1100001000\n1000001111\n1110110000\n1111011001\n1001110100\n\
      1111111111\n\n";

/// The normal grid of `A`, and an empty line.
pub(super) const LETTER: &[u8] =
    b"1010101010\n1101100011\n1000110100\n1001101011\n1001010000\n1001001011\n1101001100\n1100111101\n1100001000\n\
      1111111111\n\n";

/// The normal grid of the empty message, and an empty line.
pub(super) const EMPTY: &[u8] =
    b"1010101010\n1101101001\n1101000010\n1111000101\n1010001000\n1110100001\n1001011010\n1010111101\n1110000000\n\
      1111111111\n\n";

/// The normal grid of `AIM`, and an empty line.
pub(super) const AIM: &[u8] =
    b"1010101010\n1011101111\n1001011000\n1010101011\n1001000000\n1010111011\n1000100100\n1100111101\n1010010010\n\
      1111111111\n\n";

/// The normal grid of byte 128, and an empty line.
pub(super) const RAISED: &[u8] =
    b"1010101010\n1000011101\n1000100000\n1001101111\n1110110100\n1101101011\n1100110000\n1111011011\n1100000000\n\
      1111111111\n\n";

/// Lines, and what is written for them.
static LINES: [(&[u8], &[u8]); 10] = [
    (b"123456", DIGITS),
    (b"A", LETTER),
    (b"", EMPTY),
    (b"AIM", AIM),
    (b"\\x80", RAISED),
    (b"\\x41", LETTER),
    (b"\\q", b"\\no 15 escape 1\n\n"),
    (b"ab\\x4", b"\\no 15 escape 3\n\n"),
    (b"\\x41\\q", b"\\no 15 escape 5\n\n"),
    (b"A\tB", b"\\no 15 escape 2\n\n"),
];
