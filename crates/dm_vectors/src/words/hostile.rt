//! Codewords that no writer makes, read in the wide extent.

use super::wide::are_refused;
use super::*;

/// Data codewords, and the fault with which the wide extent refuses them.
static REFUSED: [(&[u8], WordFault); 29] = [
    (&[66, 237], WordFault::LeftOut(237, 2)),
    (&[237, 237], WordFault::LeftOut(237, 2)),
    (&[235], WordFault::Unfinished(1)),
    (&[237, 0], WordFault::Reserved(2)),
    (&[236, 231], WordFault::Length(2)),
    (&[236, 235], WordFault::Unfinished(2)),
    (&[236, 235, 129], WordFault::UpperShift(2)),
    (&[237, 230, 0, 0], WordFault::Triplet(3)),
    (&[237, 230, 250, 1], WordFault::Triplet(3)),
    (&[236, 236], WordFault::LeftOut(236, 2)),
    (&[240, 240, 0], WordFault::Reserved(3)),
    (&[240, 124, 233, 129], WordFault::LeftOut(233, 3)),
    (&[240, 124, 66, 234, 1], WordFault::LeftOut(234, 4)),
    (&[240, 4, 32, 196, 5, 255], WordFault::Reserved(6)),
    (&[240, 5, 240, 236, 66], WordFault::LeftOut(236, 4)),
    (&[230, 87, 199, 0, 0], WordFault::Triplet(4)),
    (&[230, 87, 199, 250, 1], WordFault::Triplet(4)),
    (&[239, 10, 242, 0, 0], WordFault::Triplet(4)),
    (&[230, 10, 254, 233], WordFault::LeftOut(233, 4)),
    (&[237, 240, 124, 237, 129], WordFault::LeftOut(237, 4)),
    (&[235, 240], WordFault::UpperShift(1)),
    (&[231, 240], WordFault::Length(1)),
    (&[240, 235], WordFault::Unfinished(2)),
    (&[240, 235, 240], WordFault::UpperShift(2)),
    (&[240, 4, 32, 196, 235, 240], WordFault::UpperShift(5)),
    (&[254], WordFault::Reserved(1)),
    (&[242], WordFault::Reserved(1)),
    (&[240, 231, 45], WordFault::Length(2)),
    (&[240, 4, 32, 196, 231], WordFault::Length(5)),
];

#[test]
fn refuses_what_says_no_content_in_the_wide_extent(rt: HostRuntime) {
    holds(&rt, are_refused(Extent::Wide, &REFUSED));
}
