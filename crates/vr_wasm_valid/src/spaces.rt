//! The index spaces of a module, in which imports come first (WebAssembly Core 1.0, section 2.5.1).

ghost use Rattle.std.specs.Prelude.{◌≡◌, ◌++◌, ◌↔◌, length, map, slice_get, IfOk, IsTrue};
ghost use Rattle.std.specs.Option.{option_copied};
ghost use Rattle.vr_wasm_ast.specs.declared.tree.GlobalDef.{GlobalDef};
ghost use Rattle.vr_wasm_ast.specs.Imports.{function_of, global_of, imported_functions, imported_globals, imported_memories, imported_tables, memory_of, table_of};
ghost use Rattle.vr_wasm_valid.specs.Context.{function_type, spaces_of};
ghost use Rattle.vr_wasm_valid.specs.Scope.{spaces_in};
ghost use Rattle.vr_wasm_valid.specs.Typing.{HasMemory, HasTable};

use sqlite_items::Items;
use std::alloc::{AllocError, Global};
use vr_wasm_ast::{FuncType, GlobalDef, GlobalType, Import, ImportKind, Limits, Module};

#[derive(Drop)]
pub struct IndexSpaces<'m> {
    pub types: &'m Items<FuncType>,
    /// The index of each function's type.
    pub functions: Items<u32>,
    pub tables: Items<Limits>,
    pub memories: Items<Limits>,
    pub globals: Items<GlobalType>,
}

fn imported_function(what: ImportKind) -> Option<u32>
    ensures { result ≡ function_of what }
{
    match what {
        ImportKind::Func(sort) => Some(sort),
        _ => None,
    }
}

fn imported_table(what: ImportKind) -> Option<Limits>
    ensures { result ≡ table_of what }
{
    match what {
        ImportKind::Table(limits) => Some(limits),
        _ => None,
    }
}

fn imported_memory(what: ImportKind) -> Option<Limits>
    ensures { result ≡ memory_of what }
{
    match what {
        ImportKind::Memory(limits) => Some(limits),
        _ => None,
    }
}

fn imported_global(what: ImportKind) -> Option<GlobalType>
    ensures { result ≡ global_of what }
{
    match what {
        ImportKind::Global(sort) => Some(sort),
        _ => None,
    }
}

fn function_space(alloc: Global, imports: &[Import], own: &[u32]) -> Result<Vec<u32>, AllocError>
    ensures { IfOk result (λ all. all.items ≡ imported_functions imports.now ++ own.now) }
{
    imports
        .iter()
        .filter_map(|import| imported_function(import.what))
        .chain(own.iter().copied())
        .collect(alloc)
}

fn table_space(alloc: Global, imports: &[Import], own: &[Limits]) -> Result<Vec<Limits>, AllocError>
    ensures { IfOk result (λ all. all.items ≡ imported_tables imports.now ++ own.now) }
{
    imports
        .iter()
        .filter_map(|import| imported_table(import.what))
        .chain(own.iter().copied())
        .collect(alloc)
}

fn memory_space(
    alloc: Global,
    imports: &[Import],
    own: &[Limits],
) -> Result<Vec<Limits>, AllocError>
    ensures { IfOk result (λ all. all.items ≡ imported_memories imports.now ++ own.now) }
{
    imports
        .iter()
        .filter_map(|import| imported_memory(import.what))
        .chain(own.iter().copied())
        .collect(alloc)
}

fn global_space(
    alloc: Global,
    imports: &[Import],
    own: &[GlobalDef],
) -> Result<Vec<GlobalType>, AllocError>
    ensures { IfOk result (λ all.
        all.items ≡ imported_globals imports.now ++ map (λ (g : GlobalDef). g.sort) own.now) }
{
    imports
        .iter()
        .filter_map(|import| imported_global(import.what))
        .chain(own.iter().map(|global| global.sort))
        .collect(alloc)
}

impl<'m> IndexSpaces<'m> {
    pub fn of(alloc: Global, module: &'m Module) -> Result<IndexSpaces<'m>, AllocError>
        ensures { IfOk result (λ spaces. spaces_in spaces ≡ spaces_of «module».now) }
    {
        let imports = module.imports.as_slice();
        let functions = function_space(alloc, imports, module.functions.as_slice())?;
        let tables = table_space(alloc, imports, module.tables.as_slice())?;
        let memories = memory_space(alloc, imports, module.memories.as_slice())?;
        let globals = global_space(alloc, imports, module.globals.as_slice())?;
        Ok(IndexSpaces {
            types: &module.types,
            functions: Items::from_vec(functions),
            tables: Items::from_vec(tables),
            memories: Items::from_vec(memories),
            globals: Items::from_vec(globals),
        })
    }

    pub fn type_at(&self, index: u32) -> Option<&FuncType>
        ensures { option_copied result ≡ slice_get self.now.types.now index }
    {
        self.types.get(index as usize)
    }

    /// The type of a function.
    pub fn function_type(&self, function: u32) -> Option<&FuncType>
        ensures { option_copied result ≡ function_type (spaces_in self.now) function }
    {
        match self.functions.get(function as usize) {
            Some(sort) => self.type_at(*sort),
            None => None,
        }
    }

    pub fn global_type(&self, global: u32) -> Option<GlobalType>
        ensures { result ≡ slice_get self.now.globals global }
    {
        self.globals.get(global as usize).copied()
    }

    pub fn has_table(&self) -> bool
        ensures { IsTrue result ↔ HasTable (spaces_in self.now) }
    {
        !self.tables.is_empty()
    }

    pub fn has_memory(&self) -> bool
        ensures { IsTrue result ↔ HasMemory (spaces_in self.now) }
    {
        !self.memories.is_empty()
    }
}
