//! Sizes of tables and memories, and what imports and exports need.

ghost use Rattle.std.specs.Prelude.{◌↔◌, IsTrue};
ghost use Rattle.vr_wasm_valid.specs.Parts.{ImportFits, IsThere, MemoryFits, TableFits};
ghost use Rattle.vr_wasm_valid.specs.Scope.{spaces_in};

use crate::spaces::IndexSpaces;
use vr_wasm_ast::{ExportKind, ImportKind, Limits};

/// The most pages that a memory can have (WebAssembly Core 1.0, section 3.2.5).
pub const MOST_PAGES: u32 = 65_536;

pub fn table_fits(limits: Limits) -> bool
    ensures { IsTrue result ↔ TableFits limits }
{
    match limits.max {
        Some(most) => limits.min <= most,
        None => true,
    }
}

pub fn memory_fits(limits: Limits) -> bool
    ensures { IsTrue result ↔ MemoryFits limits }
{
    match limits.max {
        Some(most) => limits.min <= most && most <= MOST_PAGES,
        None => limits.min <= MOST_PAGES,
    }
}

pub fn import_fits(spaces: &IndexSpaces, what: ImportKind) -> bool
    ensures { IsTrue result ↔ ImportFits (spaces_in spaces.now) what }
{
    match what {
        ImportKind::Func(sort) => (sort as usize) < spaces.types.len(),
        ImportKind::Table(limits) => table_fits(limits),
        ImportKind::Memory(limits) => memory_fits(limits),
        ImportKind::Global(_) => true,
    }
}

/// Whether the index space of this kind has the index.
pub fn is_there(spaces: &IndexSpaces, kind: ExportKind, index: u32) -> bool
    ensures { IsTrue result ↔ IsThere (spaces_in spaces.now) kind index }
{
    let count = match kind {
        ExportKind::Func => spaces.functions.len(),
        ExportKind::Table => spaces.tables.len(),
        ExportKind::Memory => spaces.memories.len(),
        ExportKind::Global => spaces.globals.len(),
    };
    (index as usize) < count
}
