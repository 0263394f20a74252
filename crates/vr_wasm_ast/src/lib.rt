//! WebAssembly modules as trees: the abstract syntax of WebAssembly Core 1.0, chapter 2, without
//! floating point, and with the sign extensions and the copy and fill of memory of Core 2.0.
#![tactic(auto)]

mod cursor;
mod instr;
mod opcodes;
mod sections;
mod tree;

pub use cursor::{Cursor, LebFault};
pub use instr::Instr;
pub use opcodes::{MemoryAccess, NumericFamily, load_access, numeric_family, store_access};
pub use sections::{Progress, Section};
pub use sqlite_items::Items;
pub use tree::{
    Code, Element, Export, ExportKind, FuncType, GlobalDef, GlobalType, Import, ImportKind, Limits,
    Module, Segment, ValType,
};
