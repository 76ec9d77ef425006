//! A store of marks that others printed: their scans are normalised, as texts.

use crate::chance::Chance;
use crate::digest::Digest;
use crate::failure::Failure;
use crate::message::{put_message, write};
use crate::page::{add_record, answers, side_at, turn, turn_some};
use crate::texts::{Text, scanned};
use dm_layout::symbols::{SizeChoice, Symbol, SymbolSize, SymbolWords, table};
use dm_symbol::{Form, Message};
use dm_text::{Profile, Task};
use dm_words::{Extent, TooLong};
use std::alloc::Global;

/// How many marks a round has.
const MARKS: usize = 20;

/// How many scans there are of a mark.
const SCANS: usize = 5;

/// Writes the marks of a round as several printers do, damages their scans, one in five up to the limit, and normalises
/// them.
pub(crate) fn round(
    alloc: Global,
    chance: &mut Chance,
    digest: &mut Digest,
) -> Result<(), Failure> {
    let mut scans = Vec::new(alloc);
    let size = table()[0];
    // For the proof alone: what `rows` and `check_count` ensure says that there is room.
    let _room = (size.rows(), size.check_count());
    let mut words = SymbolWords::zeros(size);
    let mut symbol = Symbol::light(size);
    let mut text = Text::new();
    let mut message = Message::new();
    for _ in 0..MARKS {
        scanned(&mut text, chance);
        put_message(&text, &mut message);
        if print(&message, &mut words, &mut symbol, chance).is_err() {
            continue;
        }
        for scan in 0..SCANS {
            let start = scans.len();
            add_record(&mut scans, &symbol)?;
            damage(scans.as_mut_slice(), start, symbol.size(), scan, chance);
        }
    }
    let normal = answers(
        Task::Normal(None, Profile::Ascii),
        scans.as_slice(),
        Vec::new(alloc),
        digest,
    )?;
    digest.add_bytes(normal.as_slice());
    Ok(())
}

/// Prints a message as one of several printers does: in runs of C40 and the other encodations, in Base 256 where this
/// is shorter, or in a size larger than is needed.
fn print(
    message: &Message,
    words: &mut SymbolWords,
    symbol: &mut Symbol,
    chance: &mut Chance,
) -> Result<(), TooLong> {
    let square = SizeChoice::Square;
    let (ascii, shorter) = (
        Form::Profiled(Profile::Ascii),
        Form::Profiled(Profile::Shorter),
    );
    match chance.below(3) {
        0 => write(
            message,
            Form::Smallest(Extent::Usual),
            square,
            words,
            symbol,
        ),
        1 => write(message, shorter, square, words, symbol),
        _ => {
            write(message, ascii, square, words, symbol)?;
            let side = symbol.size().rows();
            let larger = SizeChoice::Exact(side.saturating_add(2), side.saturating_add(2));
            let _room = write(message, ascii, larger, words, symbol);
            Ok(())
        }
    }
}

/// Damages a scan of a mark: the first stays, one has as many wrong modules as codewords may be, and the others a few.
/// Every other one has a wrong border module as well.
fn damage(text: &mut [u8], start: usize, size: SymbolSize, scan: usize, chance: &mut Chance) {
    let side = side_at(text, start);
    let count = match scan {
        0 => return,
        1 => usize::from(size.limit()),
        _ => 1 + chance.place(3),
    };
    turn_some(text, start, side, count, chance);
    if chance.happens(50) {
        let place = chance.place(side);
        turn(text, start.saturating_add(place));
    }
}
