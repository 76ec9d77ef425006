//! The table of sizes.

ghost use Rattle.std.specs.Prelude.{◌≡◌, length, map};
ghost use Rattle.dm_layout.specs.symbols.Sizes.{size_table};
ghost use Rattle.ecc200_calls.specs.Sizes.{size_shown};

use dm_layout::symbols::{SIZE_COUNT, SymbolSize, table};

/// An entry of the table of sizes.
#[repr(C)]
#[derive(Clone, Copy)]
pub struct SizeOut {
    pub rows: u16,
    pub columns: u16,
    pub region_rows: u16,
    pub region_columns: u16,
    pub regions_down: u16,
    pub regions_across: u16,
    pub mapping_rows: u16,
    pub mapping_columns: u16,
    pub data_codewords: u16,
    pub check_codewords: u16,
    pub blocks: u16,
    pub limit: u16,
    pub extension: u16,
}

/// The table of sizes, by rising area and, where areas are equal, by rising columns.
#[repr(C)]
#[derive(Drop)]
pub struct SizesOut {
    pub sizes: [SizeOut; SIZE_COUNT],
}

/// Writes the table of sizes.
pub fn sizes(out: &mut SizesOut)
    ensures { out.new.sizes ≡ map size_shown size_table }
{
    put_sizes(&mut out.sizes, &table());
}

/// Writes these sizes over as many entries.
fn put_sizes(entries: &mut [SizeOut], sizes: &[SymbolSize])
    requires { length entries.old ≡ length sizes.now }
    ensures { entries.new ≡ map size_shown sizes.now }
{
    for (i, size) in sizes.iter().enumerate() {
        entries[i] = size_shown(*size);
    }
}

/// Gives an entry of the table as the header shows it.
fn size_shown(size: SymbolSize) -> SizeOut
    ensures { result ≡ size_shown size }
{
    SizeOut {
        rows: size.rows(),
        columns: size.columns(),
        region_rows: size.region_rows(),
        region_columns: size.region_columns(),
        regions_down: size.regions_down(),
        regions_across: size.regions_across(),
        mapping_rows: size.mapping_rows(),
        mapping_columns: size.mapping_columns(),
        data_codewords: size.data_count(),
        check_codewords: size.check_count(),
        blocks: size.blocks(),
        limit: size.limit(),
        extension: u16::from(size.is_extended()),
    }
}
