//! The parts of a module: imports, globals, exports, segments and the bodies of functions
//! (WebAssembly Core 1.0, sections 5.5.5 to 5.5.14).

ghost use Rattle.std.specs.Prelude.{◌≡◌, ◌+◌, ◌++◌, length, replicate, OnOk, vec_len, ◌≤◌};
ghost use Rattle.vr_wasm_decode.specs.Reader.{Gives, sized_at};
ghost use Rattle.vr_wasm_decode.specs.declared.fault.DecodeKind.TheVariants.{SectionSize};
ghost use Rattle.vr_wasm_decode.specs.Modules.{import_kind_at, import_at, global_at, export_kind_at, export_at, element_at, groups_at, locals_at, function_body_at, segment_at};

use crate::fault::{DecodeKind, ReadError};
use crate::instructions::expression;
use crate::numbers::{byte, contents, count, ended, fault, u32};
use crate::types::{data_bytes, global_type, limits, name, table_type, val_type};
use crate::vectors::{Index, MOST_ITEMS, Part, list};
use std::alloc::{AllocError, Global};
use vr_wasm_ast::{
    Code, Cursor, Element, Export, ExportKind, GlobalDef, Import, ImportKind, Items, Segment,
    ValType,
};

/// How many locals a function may declare.
const MOST_LOCALS: u64 = 8_192;

/// What is imported or exported.
const FUNCTION: u8 = 0x00;

const TABLE: u8 = 0x01;

const MEMORY: u8 = 0x02;

const GLOBAL: u8 = 0x03;

/// What is imported.
#[tactic(auto, unfolding(crate::specs::Modules::import_kind_at))]
fn import_kind(cursor: &mut Cursor<'_>) -> Result<ImportKind, ReadError>
    ensures { Gives result cursor.new (import_kind_at cursor.old) }
{
    let at = cursor.place();
    match byte(cursor)? {
        FUNCTION => Ok(ImportKind::Func(u32(cursor)?)),
        TABLE => Ok(ImportKind::Table(table_type(cursor)?)),
        MEMORY => Ok(ImportKind::Memory(limits(cursor)?)),
        GLOBAL => Ok(ImportKind::Global(global_type(cursor)?)),
        _ => Err(fault(DecodeKind::BadByte, at)),
    }
}

impl Part for Import {
    type Item = Import;

    ghost reading = { import_at };

    #[tactic(auto, unfolding(crate::specs::Modules::import_at))]
    fn read(alloc: Global, cursor: &mut Cursor<'_>) -> Result<Import, ReadError> {
        let module = name(alloc, cursor)?;
        let name = name(alloc, cursor)?;
        let what = import_kind(cursor)?;
        Ok(Import { module, name, what })
    }
}

impl Part for GlobalDef {
    type Item = GlobalDef;

    ghost reading = { global_at };

    #[tactic(auto, unfolding(crate::specs::Modules::global_at))]
    fn read(alloc: Global, cursor: &mut Cursor<'_>) -> Result<GlobalDef, ReadError> {
        let sort = global_type(cursor)?;
        let init = expression(alloc, cursor)?;
        Ok(GlobalDef { sort, init })
    }
}

/// What is exported.
#[tactic(auto, unfolding(crate::specs::Modules::export_kind_at))]
fn export_kind(cursor: &mut Cursor<'_>) -> Result<ExportKind, ReadError>
    ensures { Gives result cursor.new (export_kind_at cursor.old) }
{
    let at = cursor.place();
    match byte(cursor)? {
        FUNCTION => Ok(ExportKind::Func),
        TABLE => Ok(ExportKind::Table),
        MEMORY => Ok(ExportKind::Memory),
        GLOBAL => Ok(ExportKind::Global),
        _ => Err(fault(DecodeKind::BadByte, at)),
    }
}

impl Part for Export {
    type Item = Export;

    ghost reading = { export_at };

    #[tactic(auto, unfolding(crate::specs::Modules::export_at))]
    fn read(alloc: Global, cursor: &mut Cursor<'_>) -> Result<Export, ReadError> {
        let name = name(alloc, cursor)?;
        let what = export_kind(cursor)?;
        let index = u32(cursor)?;
        Ok(Export { name, what, index })
    }
}

impl Part for Element {
    type Item = Element;

    ghost reading = { element_at };

    #[tactic(auto, unfolding(crate::specs::Modules::element_at))]
    fn read(alloc: Global, cursor: &mut Cursor<'_>) -> Result<Element, ReadError> {
        let table = u32(cursor)?;
        let offset = expression(alloc, cursor)?;
        let functions = list::<Index>(alloc, cursor)?;
        Ok(Element {
            table,
            offset,
            functions,
        })
    }
}

impl Part for Segment {
    type Item = Segment;

    ghost reading = { segment_at };

    #[tactic(auto, unfolding(crate::specs::Modules::segment_at))]
    fn read(alloc: Global, cursor: &mut Cursor<'_>) -> Result<Segment, ReadError> {
        let memory = u32(cursor)?;
        let offset = expression(alloc, cursor)?;
        let bytes = data_bytes(alloc, cursor)?;
        Ok(Segment {
            memory,
            offset,
            bytes,
        })
    }
}

/// Puts so many locals of one type at the end.
fn add_locals(locals: &mut Vec<ValType>, more: u32, sort: ValType) -> Result<(), AllocError>
    requires { vec_len locals.old + more ≤ 8192 }
    ensures { OnOk result (locals.new.items ≡ locals.old.items ++ replicate more sort) }
{
    locals.resize(locals.len() + more as usize, sort)
}

/// The locals of so many groups: how many, and of which type.
fn groups(alloc: Global, cursor: &mut Cursor<'_>, count: u32) -> Result<Items<ValType>, ReadError>
    ensures { Gives result cursor.new (groups_at count 0 cursor.old) }
{
    let mut locals = Vec::new(alloc);
    for _ in 0..count {
        let at = cursor.place();
        let more = u32(cursor)?;
        if locals.len() as u64 + u64::from(more) > MOST_LOCALS {
            return Err(fault(DecodeKind::TooMany, at));
        }
        let sort = val_type(cursor)?;
        add_locals(&mut locals, more, sort)?;
    }
    Ok(Items::from_vec(locals))
}

/// The locals that a function declares.
#[tactic(auto, unfolding(crate::specs::Modules::locals_at))]
fn locals(alloc: Global, cursor: &mut Cursor<'_>) -> Result<Items<ValType>, ReadError>
    ensures { Gives result cursor.new (locals_at cursor.old) }
{
    let count = count(cursor, MOST_ITEMS)?;
    groups(alloc, cursor, count)
}

/// The body of a function.
#[tactic(auto, unfolding(crate::specs::Modules::function_body_at))]
fn function_body(alloc: Global, cursor: &mut Cursor<'_>) -> Result<Code, ReadError>
    ensures { Gives result cursor.new (function_body_at cursor.old) }
{
    let locals = locals(alloc, cursor)?;
    let body = expression(alloc, cursor)?;
    Ok(Code { locals, body })
}

impl Part for Code {
    type Item = Code;

    ghost reading = { sized_at SectionSize function_body_at };

    fn read(alloc: Global, cursor: &mut Cursor<'_>) -> Result<Code, ReadError> {
        let mut inner = contents(cursor, DecodeKind::SectionSize)?;
        let code = function_body(alloc, &mut inner)?;
        ended(code, &inner)
    }
}
