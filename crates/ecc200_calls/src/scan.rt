//! How a symbol is read, as numbers.

ghost use Rattle.std.specs.Prelude.{◌≡◌};
ghost use Rattle.ecc200_calls.specs.Scans.{limit_of, sought_of};

use crate::extent::extent_of;
use crate::fault::Fault;
use crate::reading::usual_limit;
use dm_symbol::Extent;

/// How a symbol is read: its rows and columns; the number of a border limit; the limit, where it is one that is given;
/// and the number of an extent. All 0 but the rows and columns: the usual limit, and the extent `Wide`.
#[repr(C)]
#[derive(Clone, Copy)]
pub struct Scan {
    pub rows: u16,
    pub columns: u16,
    pub limit: u16,
    pub border_limit: u16,
    pub extent: u16,
}

/// How many border modules may have the wrong colour.
#[derive(Clone, Copy)]
pub(crate) enum BorderLimit {
    /// This number.
    Modules(u16),
    /// Any number where each block leaves a correction unused, and else as many as usual.
    Sure,
}

/// What is sought: what a symbol of these rows and columns says in an extent, at a border limit.
#[derive(Clone, Copy)]
pub(crate) struct Sought {
    pub(crate) rows: u16,
    pub(crate) columns: u16,
    pub(crate) extent: Extent,
    pub(crate) limit: BorderLimit,
}

/// Gives what the numbers ask for, or why that can't be.
pub(crate) fn check_scan(scan: Scan) -> Result<Sought, Fault>
    ensures { result ≡ sought_of scan }
{
    let Some(extent) = extent_of(scan.extent) else {
        return Err(Fault::no_such_extent(scan.extent));
    };
    let Some(limit) = limit_of(scan) else {
        return Err(Fault::no_such_limit(scan.limit));
    };
    Ok(Sought {
        rows: scan.rows,
        columns: scan.columns,
        extent,
        limit,
    })
}

/// Gives the border limit that the numbers stand for.
fn limit_of(scan: Scan) -> Option<BorderLimit>
    ensures { result ≡ limit_of scan }
{
    match scan.limit {
        0 => Some(BorderLimit::Modules(usual_limit(scan.rows, scan.columns))),
        1 => Some(BorderLimit::Sure),
        2 => Some(BorderLimit::Modules(u16::MAX)),
        3 => Some(BorderLimit::Modules(scan.border_limit)),
        _ => None,
    }
}
