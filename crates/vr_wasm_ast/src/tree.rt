//! The parts of a module (WebAssembly Core 1.0, sections 2.3 and 2.5).

ghost use Rattle.std.specs.Prelude.{◌≡◌, ◌↔◌, IsTrue};

use crate::instr::Instr;
use sqlite_items::Items;

/// The type of a value (WebAssembly Core 1.0, section 2.3.1).
#[derive(Clone, Copy, Debug, PartialEq, Eq)]
pub enum ValType {
    I32,
    I64,
}

/// The type of a function: of its parameters and of its results.
#[derive(Debug, Drop)]
pub struct FuncType {
    pub params: Items<ValType>,
    pub results: Items<ValType>,
}

fn are_same(types: &[ValType], others: &[ValType]) -> bool
    ensures { IsTrue result ↔ (types.now ≡ others.now) }
{
    types == others
}

impl FuncType {
    /// Whether the two are one type, as an indirect call asks
    /// (WebAssembly Core 1.0, section 4.4.5).
    pub fn equals(&self, other: &FuncType) -> bool
        ensures { IsTrue result ↔ (self.now ≡ other.now) }
    {
        are_same(self.params.as_slice(), other.params.as_slice())
            && are_same(self.results.as_slice(), other.results.as_slice())
    }
}

/// How large a table (in elements) or a memory (in pages) is at first, and at most.
#[derive(Clone, Copy, Debug, PartialEq, Eq)]
pub struct Limits {
    pub min: u32,
    pub max: Option<u32>,
}

/// The type of a global: of its value, and whether it may be set.
#[derive(Clone, Copy, Debug, PartialEq, Eq)]
pub struct GlobalType {
    pub value: ValType,
    pub variable: bool,
}

/// A global of the module: its type, and the expression of its first value.
#[derive(Debug, Drop)]
pub struct GlobalDef {
    pub sort: GlobalType,
    pub init: Items<Instr>,
}

/// What is imported; of a function the index of its type.
#[derive(Clone, Copy, Debug, PartialEq, Eq)]
pub enum ImportKind {
    Func(u32),
    Table(Limits),
    Memory(Limits),
    Global(GlobalType),
}

/// An import, by the name of its module and its own.
#[derive(Debug, Drop)]
pub struct Import {
    pub module: Items<u8>,
    pub name: Items<u8>,
    pub what: ImportKind,
}

/// What is exported.
#[derive(Clone, Copy, Debug, PartialEq, Eq)]
pub enum ExportKind {
    Func,
    Table,
    Memory,
    Global,
}

/// An export: its name, and which one of its kind it is.
#[derive(Debug, Drop)]
pub struct Export {
    pub name: Items<u8>,
    pub what: ExportKind,
    pub index: u32,
}

/// An element segment: functions that are put into a table from an offset on.
#[derive(Debug, Drop)]
pub struct Element {
    pub table: u32,
    pub offset: Items<Instr>,
    pub functions: Items<u32>,
}

/// The body of a function: an item for each declared local, and its instructions.
#[derive(Debug, Drop)]
pub struct Code {
    pub locals: Items<ValType>,
    pub body: Items<Instr>,
}

/// A data segment: bytes that are put into a memory from an offset on.
#[derive(Debug, Drop)]
pub struct Segment {
    pub memory: u32,
    pub offset: Items<Instr>,
    pub bytes: Items<u8>,
}

/// A module (WebAssembly Core 1.0, section 2.5), its parts in the order of its sections.
#[derive(Debug, Drop)]
pub struct Module {
    pub types: Items<FuncType>,
    pub imports: Items<Import>,
    /// The indices of the types of the module's own functions.
    pub functions: Items<u32>,
    pub tables: Items<Limits>,
    pub memories: Items<Limits>,
    pub globals: Items<GlobalDef>,
    pub exports: Items<Export>,
    pub start: Option<u32>,
    pub elements: Items<Element>,
    pub codes: Items<Code>,
    pub segments: Items<Segment>,
}
