//! Symbols as they are given to C.

ghost use Rattle.std.specs.Prelude.{◌≡◌};
ghost use Rattle.ecc200_calls.specs.Symbols.{no_symbol, symbol_shown};

use crate::fault::Fault;
use crate::modules::show_modules;
use dm_layout::symbols::{MOST_MODULES, SymbolIn};

/// A symbol: the first `rows * columns` modules, row by row from the top, 1 for dark. After a fault all but the fault
/// and the modules is 0.
#[repr(C)]
#[derive(Drop)]
pub struct SymbolOut {
    pub fault: Fault,
    pub rows: u16,
    pub columns: u16,
    pub modules: [u8; MOST_MODULES],
}

/// Shows a fault in place of a symbol.
pub(crate) fn show_fault(out: &mut SymbolOut, why: Fault)
    ensures { out.new ≡ no_symbol why out.old }
{
    out.fault = why;
    out.rows = 0;
    out.columns = 0;
}

/// Shows a symbol.
pub(crate) fn show_symbol<const ROWS: usize>(out: &mut SymbolOut, symbol: &SymbolIn<ROWS>)
    ensures { out.new ≡ symbol_shown symbol.now out.old }
{
    let size = symbol.size();
    out.fault = Fault::none();
    out.rows = size.rows();
    out.columns = size.columns();
    show_modules(&mut out.modules, symbol);
}
