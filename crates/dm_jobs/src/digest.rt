//! A digest of results.

use crate::cells::{bytes_of, sixteen};
use dm_layout::symbols::Symbol;

/// A digest.
#[derive(Clone, Copy)]
pub(crate) struct Digest {
    /// A number that depends on all that was added, and on its order.
    pub(crate) state: u64,
    /// How many results were told to be answers.
    pub(crate) answered: u64,
    /// How many were told to be refusals.
    pub(crate) refused: u64,
}

impl Digest {
    /// Begins with nothing added.
    pub(crate) fn new() -> Digest {
        Digest {
            state: 0,
            answered: 0,
            refused: 0,
        }
    }

    /// Tells of so many answers and refusals.
    pub(crate) fn tell(&mut self, answered: u64, refused: u64) {
        self.answered = self.answered.wrapping_add(answered);
        self.refused = self.refused.wrapping_add(refused);
    }

    /// Adds the code of a fault, 0 for none.
    pub(crate) fn add_code(&mut self, code: u16) {
        self.add(u64::from(code));
        if code == 0 {
            self.tell(1, 0);
        } else {
            self.tell(0, 1);
        }
    }

    /// Adds another digest.
    pub(crate) fn add_all(&mut self, other: &Digest) {
        self.add(other.state);
        self.tell(other.answered, other.refused);
    }

    /// Adds a number.
    pub(crate) fn add(&mut self, number: u64) {
        let mixed = (self.state ^ number).wrapping_mul(0x9e37_79b9_7f4a_7c15);
        self.state = mixed ^ (mixed >> 29);
    }

    /// Adds bytes, eight at a time, and their number.
    pub(crate) fn add_bytes(&mut self, bytes: &[u8]) {
        for part in 0..bytes.len() / 8 {
            let mut word = [0; 8];
            word.copy_from_slice(&bytes[8 * part..8 * part + 8]);
            self.add(u64::from_le_bytes(word));
        }
        for byte in &bytes[bytes.len() / 8 * 8..] {
            self.add(u64::from(*byte));
        }
        self.add(bytes.len() as u64);
    }

    /// Adds the modules of a symbol row by row, 1 for dark, 32 at a time as bytes, and their number.
    pub(crate) fn add_symbol(&mut self, symbol: &Symbol) {
        let size = symbol.size();
        let columns = size.columns();
        // Those that wait for more until they are 32, the first as the lowest bit, and how many they are.
        let mut waiting = 0;
        let mut count = 0;
        for row in 0..size.rows() {
            for part in 0..(columns + 15) / 16 {
                let some = u32::from((columns - 16 * part).min(16));
                let modules = sixteen(symbol, row, 16 * part) & (u64::MAX >> (64 - some));
                waiting |= modules << (count % 32);
                count = count % 32 + some;
                if count >= 32 {
                    self.add_modules(waiting);
                    waiting >>= 32;
                }
            }
        }
        for module in 0..count % 32 {
            self.add(waiting >> module & 1);
        }
        self.add(u64::from(size.rows()) * u64::from(columns));
    }

    /// Adds the 32 modules of the lowest bits as bytes.
    fn add_modules(&mut self, modules: u64) {
        for part in 0..4u32 {
            self.add(bytes_of(modules >> (8 * part)));
        }
        self.add(32);
    }
}
