//! Labels are printed: each message in the normal form, and in the smallest symbol.

use crate::chance::Chance;
use crate::digest::Digest;
use crate::message::{put_message, write};
use crate::texts::{Text, labelled};
use dm_layout::symbols::{SizeChoice, Symbol, SymbolWords, table};
use dm_symbol::{Form, Message, Profile};
use dm_words::Extent;

/// How many labels a round has.
const LABELS: usize = 40;

/// Writes the labels of a round.
pub(crate) fn round(chance: &mut Chance, digest: &mut Digest) {
    let size = table()[0];
    // For the proof alone: what `rows` and `check_count` ensure says that there is room.
    let _room = (size.rows(), size.check_count());
    let mut words = SymbolWords::zeros(size);
    let mut symbol = Symbol::light(size);
    let mut text = Text::new();
    let mut message = Message::new();
    for _ in 0..LABELS {
        labelled(&mut text, chance);
        put_message(&text, &mut message);
        let size = choice(chance);
        let profile = if chance.happens(80) {
            Profile::Ascii
        } else {
            Profile::Shorter
        };
        let form = Form::Profiled(profile);
        let written = write(&message, form, size, &mut words, &mut symbol);
        digest.add_code(u16::from(written.is_err()));
        digest.add_symbol(&symbol);
        let extent = if chance.happens(75) {
            Extent::Usual
        } else {
            Extent::Wide
        };
        let size = choice(chance);
        let form = Form::Smallest(extent);
        let written = write(&message, form, size, &mut words, &mut symbol);
        digest.add_code(u16::from(written.is_err()));
        digest.add_symbol(&symbol);
    }
}

/// Gives a choice of sizes: mostly squares.
fn choice(chance: &mut Chance) -> SizeChoice {
    match chance.below(10) {
        0..=6 => SizeChoice::Square,
        7 | 8 => SizeChoice::Any,
        _ => SizeChoice::AnyRectangle,
    }
}
