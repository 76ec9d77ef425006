//! What the wide extent reads beside the usual one: EDIFACT, macros, and an Upper Shift that waits at the end of a run.

use super::lines::are_spelled;
use super::*;

/// What the codewords say in an extent, and the fault of no codeword where there are too many of them.
pub(super) fn content_in(extent: Extent, words: &[u8]) -> Result<Content, ContentFault> {
    if words.len() > MOST_GRID_DATA {
        return Err(ContentFault::Append(0));
    }
    let mut content = Content::new();
    match content_to_as(extent, words, &mut content) {
        Ok(()) => Ok(content),
        Err(fault) => Err(fault),
    }
}

/// Whether the codewords of each row are refused with its fault in an extent.
pub(super) fn are_refused(extent: Extent, rows: &[(&[u8], WordFault)]) -> bool {
    for (words, fault) in rows {
        if content_in(extent, words).err() != Some(ContentFault::Word(*fault)) {
            return false;
        }
    }
    true
}

/// Data codewords and the bytes that they spell in the wide extent: EDIFACT, macros and waiting shifts.
static SPELLED: &[u8] = b"\
240 16 21 1 124 66 129 =DATAA
240 16 21 1 124 129 =DATA{
240 5 240 66 129 =AA
240 4 39 192 67 =ABB
240 4 32 223 68 =ABCC
240 4 32 196 127 67 129 =ABCDB
240 4 32 196 =ABCD
240 4 32 196 66 =ABCDA
240 4 32 196 124 67 =ABCD{B
240 =
240 66 67 =AB
66 240 122 15 192 129 251 147 =A^ ?@ 17
236 66 129 =[)>\x1E05\x1DA\x1E\x04
237 =[)>\x1E06\x1D\x1E\x04
237 240 67 20 114 125 129 7 =[)>\x1E06\x1DP1Q2\x1E\x04
230 87 199 254 66 =AA
239 87 199 =a
";

/// Those of these rows that the usual extent refuses, and its fault.
static REFUSED_USUALLY: [(&[u8], WordFault); 17] = [
    (&[240, 16, 21, 1, 124, 66, 129], WordFault::LeftOut(240, 1)),
    (&[240, 16, 21, 1, 124, 129], WordFault::LeftOut(240, 1)),
    (&[240, 5, 240, 66, 129], WordFault::LeftOut(240, 1)),
    (&[240, 4, 39, 192, 67], WordFault::LeftOut(240, 1)),
    (&[240, 4, 32, 223, 68], WordFault::LeftOut(240, 1)),
    (&[240, 4, 32, 196, 127, 67, 129], WordFault::LeftOut(240, 1)),
    (&[240, 4, 32, 196], WordFault::LeftOut(240, 1)),
    (&[240, 4, 32, 196, 66], WordFault::LeftOut(240, 1)),
    (&[240, 4, 32, 196, 124, 67], WordFault::LeftOut(240, 1)),
    (&[240], WordFault::LeftOut(240, 1)),
    (&[240, 66, 67], WordFault::LeftOut(240, 1)),
    (
        &[66, 240, 122, 15, 192, 129, 251, 147],
        WordFault::LeftOut(240, 2),
    ),
    (&[236, 66, 129], WordFault::LeftOut(236, 1)),
    (&[237], WordFault::LeftOut(237, 1)),
    (
        &[237, 240, 67, 20, 114, 125, 129, 7],
        WordFault::LeftOut(237, 1),
    ),
    (&[230, 87, 199, 254, 66], WordFault::Unfinished(2)),
    (&[239, 87, 199], WordFault::Unfinished(2)),
];

/// Runs of EDIFACT with their latch at each of the last four places of a symbol. Then those behind a whole group, of
/// which the first, the second, the third or the fourth value behind it is an unlatch, or none is where at most two
/// codewords are left, with up to three codewords behind it; and those whose second group is whole.
static EDIFACT_AT_THE_END: &[u8] = b"\
66 67 68 240 =ABC
66 67 240 124 =AB{
66 67 240 4 =AB\x03
66 240 124 66 =A{A
66 240 4 31 =A\x03\x1E
66 240 4 39 =A\x03&
66 240 4 32 =A\x03\x1F
240 124 66 67 =AB
240 4 31 66 =AA=B
240 4 39 192 =AB
240 4 32 223 =ABC
240 4 32 196 124 =ABCD{
240 4 32 196 124 66 =ABCD{A
240 4 32 196 124 66 129 =ABCDA
240 4 32 196 124 66 67 129 =ABCDAB
240 4 32 196 127 =ABCD~
240 4 32 196 127 66 =ABCD~A
240 4 32 196 127 66 129 =ABCDA
240 4 32 196 127 66 67 129 =ABCDAB
240 4 32 196 5 240 =ABCD\x04
240 4 32 196 5 240 66 =ABCDAA
240 4 32 196 5 240 66 129 =ABCDAA
240 4 32 196 5 240 66 67 129 =ABCDAAB
240 4 32 196 5 255 66 =ABCDAA
240 4 32 196 5 255 66 129 =ABCDAA
240 4 32 196 5 255 66 67 129 =ABCDAAB
240 4 32 196 4 39 192 =ABCDAB
240 4 32 196 4 39 192 66 =ABCDABA
240 4 32 196 4 39 192 66 129 =ABCDABA
240 4 32 196 4 39 192 66 67 129 =ABCDABAB
240 4 32 196 4 39 255 =ABCDAB
240 4 32 196 4 39 255 66 =ABCDABA
240 4 32 196 4 39 255 66 129 =ABCDABA
240 4 32 196 4 39 255 66 67 129 =ABCDABAB
240 4 32 196 4 32 223 =ABCDABC
240 4 32 196 4 32 223 66 =ABCDABCA
240 4 32 196 4 32 223 66 129 =ABCDABCA
240 4 32 196 4 32 223 66 67 129 =ABCDABCAB
240 4 32 196 4 32 31 =ABCDAB@
240 4 32 196 4 32 31 66 =ABCDAB@A
240 4 32 196 4 32 31 66 129 =ABCDAB@A
240 4 32 196 4 32 31 66 67 129 =ABCDAB@AB
";

/// The latches to C40, to X12, to Text and to Base 256 at the last places of a symbol, behind a content, and each latch
/// behind a macro. Then runs of C40 and Text that end with an Upper Shift that waits, alone or before a lone shift, in
/// each way in which a run ends.
static LATCHED: &[u8] = b"\
66 230 =A
66 230 91 =AZ
66 230 254 =A
66 230 254 66 =AA
66 230 91 11 =AAIM
66 230 91 11 66 =AAIMA
66 230 91 11 254 =AAIM
66 238 =A
66 238 91 =AZ
66 238 254 =A
66 238 254 66 =AA
66 238 91 11 =AAIM
66 238 91 11 66 =AAIMA
66 238 91 11 254 =AAIM
66 239 =A
66 239 91 =AZ
66 239 254 =A
66 239 254 66 =AA
66 239 91 11 =Aaim
66 239 91 11 66 =AaimA
66 239 91 11 254 =Aaim
66 231 193 =A
66 231 194 88 =A\x01
237 231 194 65 =[)>\x1E06\x1D\xEA\x1E\x04
237 230 91 11 =[)>\x1E06\x1DAIM\x1E\x04
236 238 91 =[)>\x1E05\x1DZ\x1E\x04
237 240 4 32 196 124 =[)>\x1E06\x1DABCD{\x1E\x04
236 129 0 =[)>\x1E05\x1D\x1E\x04
237 240 =[)>\x1E06\x1D\x1E\x04
236 240 124 66 129 =[)>\x1E05\x1DA\x1E\x04
230 87 199 =A
230 87 199 254 =A
230 87 199 66 =AA
230 10 241 =
230 10 241 254 =
230 10 241 66 =A
230 10 241 254 66 =A
239 87 199 254 =a
239 87 199 66 =aA
239 87 199 254 66 =aA
239 10 241 =
239 10 241 254 =
239 10 241 66 =A
239 10 241 254 66 =A
";

#[test]
fn reads_edifact_macros_and_waiting_shifts(rt: HostRuntime) {
    holds(&rt, are_spelled(Extent::Wide, SPELLED));
    holds(&rt, are_refused(Extent::Usual, &REFUSED_USUALLY));
}

#[test]
fn reads_edifact_up_to_the_last_places(rt: HostRuntime) {
    holds(&rt, are_spelled(Extent::Wide, EDIFACT_AT_THE_END));
}

#[test]
fn reads_runs_up_to_the_last_places(rt: HostRuntime) {
    holds(&rt, are_spelled(Extent::Wide, LATCHED));
}
