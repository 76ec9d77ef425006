//! Data Matrix ECC 200, the symbols of all sizes (ISO/IEC 16022 and ISO/IEC 21471), for C and for whatever calls C:
//! `library/ecc200.h` declares these functions and is their manual.
//!
//! Each hands on to the function of `ecc200_calls` that has its name without the prefix, and promises what that one
//! does; the structs are those of that crate too. Here is no more than what C links, since a static library is proved
//! anew whenever it is built.
#![tactic(auto)]

ghost use Rattle.std.specs.Prelude.{◌≡◌, [], map};
ghost use Rattle.dm_layout.specs.symbols.Sizes.{size_table};
ghost use Rattle.ecc200_calls.specs.Inspections.{IsInspectResult};
ghost use Rattle.ecc200_calls.specs.Places.{IsPlacesResult};
ghost use Rattle.ecc200_calls.specs.Readings.{IsReadResult};
ghost use Rattle.ecc200_calls.specs.Scans.{usual_limit};
ghost use Rattle.ecc200_calls.specs.Sizes.{size_shown};
ghost use Rattle.ecc200_calls.specs.Symbols.{IsNormalResult};
ghost use Rattle.ecc200_calls.specs.Writings.{IsWriteResult};

use ecc200_calls::{
    How, InspectionOut, MarkNumbers, PlacesOut, ReadingOut, Scan, SizesOut, SymbolOut,
};

/// Reads the symbol of these modules, of which these are doubtful, by the numbers of a scan.
#[unsafe(no_mangle)]
pub extern "C" fn ecc200_read(
    modules: &[u8],
    doubtful: &[u8],
    scan: &Scan,
    out: &mut ReadingOut,
) -> u16
    ensures out { IsReadResult modules.now doubtful.now scan.now out.old out.new }
    ensures code { result ≡ out.new.fault.code }
{
    ecc200_calls::read(modules, doubtful, scan, out)
}

/// Writes the symbol of the content with the items and the marks of these numbers.
#[unsafe(no_mangle)]
pub extern "C" fn ecc200_write(
    items: &[u16],
    marks: &[MarkNumbers],
    how: &How,
    out: &mut SymbolOut,
) -> u16
    ensures out { IsWriteResult items.now marks.now how.now out.old out.new }
    ensures code { result ≡ out.new.fault.code }
{
    ecc200_calls::write(items, marks, how, out)
}

/// Writes the symbol of the content of these bytes, each of which is an item: what [`ecc200_write`] does for the same
/// numbers and no marks.
#[unsafe(no_mangle)]
pub extern "C" fn ecc200_write_bytes(bytes: &[u8], how: &How, out: &mut SymbolOut) -> u16
    ensures out { IsWriteResult bytes.now [] how.now out.old out.new }
    ensures code { result ≡ out.new.fault.code }
{
    ecc200_calls::write_bytes(bytes, how, out)
}

/// Writes the normal symbol of what the symbol of these modules, of which these are doubtful, says by the numbers of a
/// scan.
#[unsafe(no_mangle)]
pub extern "C" fn ecc200_normal(
    modules: &[u8],
    doubtful: &[u8],
    scan: &Scan,
    profile: u16,
    out: &mut SymbolOut,
) -> u16
    ensures out { IsNormalResult modules.now doubtful.now scan.now profile out.old out.new }
    ensures code { result ≡ out.new.fault.code }
{
    ecc200_calls::normal(modules, doubtful, scan, profile, out)
}

/// Inspects the symbol of these modules, of which these are doubtful.
#[unsafe(no_mangle)]
pub extern "C" fn ecc200_inspect(
    modules: &[u8],
    doubtful: &[u8],
    rows: u16,
    columns: u16,
    out: &mut InspectionOut,
) -> u16
    ensures out { IsInspectResult rows columns modules.now doubtful.now out.old out.new }
    ensures code { result ≡ out.new.fault.code }
{
    ecc200_calls::inspect(modules, doubtful, rows, columns, out)
}

/// Writes what each module of a symbol with these rows and columns is.
#[unsafe(no_mangle)]
pub extern "C" fn ecc200_places(rows: u16, columns: u16, out: &mut PlacesOut) -> u16
    ensures out { IsPlacesResult rows columns out.old out.new }
    ensures code { result ≡ out.new.fault.code }
{
    ecc200_calls::places(rows, columns, out)
}

/// Writes the table of sizes.
#[unsafe(no_mangle)]
pub extern "C" fn ecc200_sizes(out: &mut SizesOut)
    ensures { out.new.sizes ≡ map size_shown size_table }
{
    ecc200_calls::sizes(out);
}

/// Gives the number of wrong border modules that are usually accepted in a symbol with these rows and columns.
#[unsafe(no_mangle)]
pub extern "C" fn ecc200_usual_limit(rows: u16, columns: u16) -> u16
    ensures { result ≡ usual_limit rows columns }
{
    ecc200_calls::usual_limit(rows, columns)
}

/// Gives the version of the interface: `ECC200_ABI` of the header that declares it.
#[unsafe(no_mangle)]
pub extern "C" fn ecc200_abi() -> u16
    ensures { result ≡ 1 }
{
    ecc200_calls::abi()
}
