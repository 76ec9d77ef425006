//! A day's scans: marks are written, and their scans read, as texts.

use crate::chance::Chance;
use crate::digest::Digest;
use crate::failure::Failure;
use crate::page::{add_line, answers, behind, side_at, turn_some};
use crate::texts::{Text, scanned};
use dm_text::{Profile, Task};
use std::alloc::Global;

/// How many marks a round has.
const MARKS: usize = 100;

/// Writes the marks of a round, damages a quarter of them a little and some beyond what can be read, and reads them.
pub(crate) fn round(
    alloc: Global,
    chance: &mut Chance,
    digest: &mut Digest,
) -> Result<(), Failure> {
    let mut lines = Vec::new(alloc);
    let mut text = Text::new();
    for _ in 0..MARKS {
        scanned(&mut text, chance);
        add_line(&mut lines, &text)?;
    }
    let mut grids = answers(
        Task::Write(Profile::Ascii),
        lines.as_slice(),
        Vec::new(alloc),
        digest,
    )?;
    digest.add_bytes(grids.as_slice());
    damage(grids.as_mut_slice(), chance);
    let read = answers(Task::Read(None), grids.as_slice(), Vec::new(alloc), digest)?;
    digest.add_bytes(read.as_slice());
    Ok(())
}

/// Damages the records of a text: of a hundred 70 stay, 25 have one to three wrong modules, and 5 far too many.
fn damage(text: &mut [u8], chance: &mut Chance) {
    let mut start = 0;
    for _ in 0..MARKS {
        let side = side_at(text, start);
        let count = match chance.below(100) {
            0..=69 => 0,
            70..=94 => 1 + chance.place(3),
            _ => side.saturating_mul(2),
        };
        turn_some(text, start, side, count, chance);
        start = behind(start, side);
    }
}
