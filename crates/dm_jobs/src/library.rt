//! The library's calls on one symbol after another, as a camera line or a printer's driver makes them.

ghost use Rattle.std.specs.Prelude.{◌≤◌};
ghost use Rattle.dm_layout.specs.symbols.Sizes.{most_modules};

use crate::chance::Chance;
use crate::digest::Digest;
use dm_layout::symbols::{MOST_BLOCKS, MOST_MODULES};
use dm_words::{LARGEST_MARKS, LARGEST_ROOM};
use ecc200_calls::{
    Fault, HeadNumbers, How, MarkNumbers, ReadingOut, Scan, SymbolOut, normal as normalise, read,
    write,
};

/// No fault.
const NONE: Fault = Fault {
    code: 0,
    value: 0,
    place: 0,
};

/// No head.
const NO_HEAD: HeadNumbers = HeadNumbers {
    kind: 0,
    part: 0,
    parts: 0,
    file: [0; 2],
};

/// Squares.
pub(crate) const SQUARE: How = How {
    form: 0,
    shape: 0,
    rows: 0,
    columns: 0,
    extent: 0,
    head: NO_HEAD,
};

/// The size with these rows and columns.
pub(crate) fn exact(rows: u16, columns: u16) -> How {
    How {
        form: 0,
        shape: 4,
        rows,
        columns,
        extent: 0,
        head: NO_HEAD,
    }
}

/// The number of the extent `Usual`.
const USUAL: u16 = 1;

/// What a caller of the library keeps.
#[derive(Drop)]
pub(crate) struct Caller {
    /// The symbol that was written.
    symbol: SymbolOut,
    /// Its scan, with damage.
    scan: [u8; MOST_MODULES],
    /// Which modules of the scan are doubtful.
    doubtful: [u8; MOST_MODULES],
    /// What was read.
    reading: ReadingOut,
    /// The normal symbol.
    normal: SymbolOut,
}

/// Gives a symbol that isn't one yet.
fn no_symbol() -> SymbolOut {
    SymbolOut {
        fault: NONE,
        rows: 0,
        columns: 0,
        modules: [0; MOST_MODULES],
    }
}

/// Copies the first so many modules.
fn copy_first(from: &[u8; MOST_MODULES], to: &mut [u8; MOST_MODULES], count: usize)
    requires { count ≤ MOST_MODULES }
{
    to[..count].copy_from_slice(&from[..count]);
}

/// Clears the first so many modules.
fn clear_first(modules: &mut [u8; MOST_MODULES], count: usize)
    requires { count ≤ MOST_MODULES }
{
    modules[..count].fill(0);
}

impl Caller {
    /// Gives a caller that has nothing yet.
    pub(crate) fn new() -> Caller {
        Caller {
            symbol: no_symbol(),
            scan: [0; MOST_MODULES],
            doubtful: [0; MOST_MODULES],
            reading: ReadingOut {
                fault: NONE,
                rows: 0,
                columns: 0,
                border_faults: 0,
                block_count: 0,
                item_count: 0,
                mark_count: 0,
                identifier: 0,
                dealing: 0,
                head: NO_HEAD,
                corrected: [0; MOST_BLOCKS],
                erased: [0; MOST_BLOCKS],
                left: [0; MOST_BLOCKS],
                marks: [MarkNumbers {
                    number: 0,
                    place: 0,
                }; LARGEST_MARKS],
                items: [0; LARGEST_ROOM],
            },
            normal: no_symbol(),
        }
    }

    /// Gives the rows of the symbol that was written.
    pub(crate) fn rows(&self) -> u16 {
        self.symbol.rows
    }

    /// Gives its columns.
    pub(crate) fn columns(&self) -> u16 {
        self.symbol.columns
    }

    /// Gives how its scan is read: with the usual limit, in the extent `Usual`.
    fn scan(&self) -> Scan {
        Scan {
            rows: self.rows(),
            columns: self.columns(),
            limit: 0,
            border_limit: 0,
            extent: USUAL,
        }
    }

    /// Gives how many modules it has.
    pub(crate) fn area(&self) -> usize
        ensures { result ≤ MOST_MODULES }
    {
        (usize::from(self.symbol.rows) * usize::from(self.symbol.columns)).min(MOST_MODULES)
    }

    /// Writes the symbol of these items.
    pub(crate) fn write(&mut self, items: &[u16], how: How, digest: &mut Digest) {
        let code = write(items, &[], &how, &mut self.symbol);
        digest.add_code(code);
        let area = self.area();
        digest.add_bytes(&self.symbol.modules[..area]);
        self.renew();
    }

    /// Begins a new scan of the symbol, without damage or doubt.
    pub(crate) fn renew(&mut self) {
        let area = self.area();
        let Caller {
            symbol,
            scan,
            doubtful,
            ..
        } = self;
        copy_first(&symbol.modules, scan, area);
        clear_first(doubtful, area);
    }

    /// Turns the colour of a module of the scan.
    pub(crate) fn turn(&mut self, row: u16, column: u16) {
        let place = usize::from(row) * usize::from(self.columns()) + usize::from(column);
        self.turn_at(place);
    }

    /// Turns the colour of a module of the scan, by its place.
    pub(crate) fn turn_at(&mut self, place: usize) {
        if let Some(module) = self.scan.get_mut(place) {
            *module ^= 1;
        }
    }

    /// Makes a module of the scan light and doubtful.
    pub(crate) fn lose(&mut self, place: usize) {
        if let Some(module) = self.scan.get_mut(place) {
            *module = 0;
        }
        if let Some(module) = self.doubtful.get_mut(place) {
            *module = 1;
        }
    }

    /// Turns the colours of so many modules that don't lie in the outermost rows and columns.
    pub(crate) fn turn_some(&mut self, count: usize, chance: &mut Chance) {
        let rows = u32::from(self.rows().saturating_sub(2).max(1));
        let columns = u32::from(self.columns().saturating_sub(2).max(1));
        for _ in 0..count {
            let row = 1 + chance.below(rows) as u16;
            let column = 1 + chance.below(columns) as u16;
            self.turn(row, column);
        }
    }

    /// Reads the scan, of which no module is doubtful.
    pub(crate) fn read(&mut self, digest: &mut Digest) {
        let (how, area) = (self.scan(), self.area());
        let Caller { scan, reading, .. } = self;
        let code = read(&scan[..area], &[], &how, reading);
        digest.add_code(code);
        self.add_reading(digest);
    }

    /// Reads the scan, given which of its modules are doubtful.
    pub(crate) fn read_doubtful(&mut self, digest: &mut Digest) {
        let (how, area) = (self.scan(), self.area());
        let Caller {
            scan,
            doubtful,
            reading,
            ..
        } = self;
        let code = read(&scan[..area], &doubtful[..area], &how, reading);
        digest.add_code(code);
        self.add_reading(digest);
    }

    /// Adds what was read.
    fn add_reading(&self, digest: &mut Digest) {
        let out = &self.reading;
        for number in [
            out.fault.value,
            out.fault.place,
            out.rows,
            out.columns,
            out.border_faults,
            out.block_count,
        ] {
            digest.add(u64::from(number));
        }
        let count = usize::from(out.item_count).min(LARGEST_ROOM);
        for item in &out.items[..count] {
            digest.add(u64::from(*item));
        }
        let blocks = usize::from(out.block_count).min(MOST_BLOCKS);
        digest.add_bytes(&out.corrected[..blocks]);
        digest.add_bytes(&out.erased[..blocks]);
        digest.add_bytes(&out.left[..blocks]);
    }

    /// Normalises the scan.
    pub(crate) fn normalise(&mut self, digest: &mut Digest) {
        let (how, area) = (self.scan(), self.area());
        let Caller { scan, normal, .. } = self;
        let code = normalise(&scan[..area], &[], &how, 0, normal);
        digest.add_code(code);
        let area = (usize::from(normal.rows) * usize::from(normal.columns)).min(MOST_MODULES);
        digest.add_bytes(&normal.modules[..area]);
    }
}
