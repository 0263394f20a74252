//! Names, and the types of values, functions, tables, memories and globals (WebAssembly Core
//! 1.0, sections 5.2.4 and 5.3).

ghost use Rattle.std.specs.Prelude.{◌≡◌};
ghost use Rattle.std.specs.Str.{is_utf8 as is_text};
ghost use Rattle.vr_wasm_ast.specs.Checks.{value_of};
ghost use Rattle.vr_wasm_ast.specs.Rest.{Rest};
ghost use Rattle.vr_wasm_decode.specs.Reader.{Gives};
ghost use Rattle.vr_wasm_decode.specs.Types.{bytes_at, data_bytes_at, name_at, val_type_of_at, val_type_at, func_type_at, limits_at, table_type_at, flag_at, global_type_at, block_type_at};

use crate::fault::{DecodeKind, ReadError};
use crate::numbers::{byte, expect, fault, u32};
use crate::vectors::{Part, vector};
use std::alloc::Global;
use vr_wasm_ast::{Cursor, FuncType, GlobalType, Items, Limits, ValType};

/// How many parameters a function may have.
const MOST_PARAMS: u32 = 1_024;

/// How many results a function may have.
const MOST_RESULTS: u32 = 1;

/// The bytes of the types of values, and of a block without a result.
const I32: u8 = 0x7f;

const I64: u8 = 0x7e;

const NO_RESULT: u8 = 0x40;

/// What stands before the type of a function, and before the limits of a table,
/// whose elements are functions.
const FUNCTION_TYPE: u8 = 0x60;

const FUNCTION_ELEMENTS: u8 = 0x70;

/// Limits that have a minimum alone, and those that have a maximum too.
const MINIMUM: u8 = 0x00;

const MAXIMUM: u8 = 0x01;

/// A global that is never set, and one that may be.
const CONSTANT: u8 = 0x00;

const VARIABLE: u8 = 0x01;

/// So many bytes. They are items one by one, so where they pass the end, the fault is at the end.
fn bytes<'a>(cursor: &mut Cursor<'a>, count: u32) -> Result<&'a [u8], ReadError>
    ensures { Gives (value_of result) cursor.new (bytes_at count cursor.old) }
{
    let stop = cursor.stop();
    match cursor.take(count) {
        Some(bytes) => Ok(bytes.as_slice()),
        None => Err(fault(DecodeKind::SectionSize, stop)),
    }
}

/// A count, and so many bytes.
#[tactic(auto, unfolding(crate::specs::Types::data_bytes_at))]
pub fn data_bytes(alloc: Global, cursor: &mut Cursor<'_>) -> Result<Items<u8>, ReadError>
    ensures { Gives result cursor.new (data_bytes_at cursor.old) }
{
    let count = u32(cursor)?;
    let data = bytes(cursor, count)?;
    Ok(Items::from_slice(alloc, data)?)
}

fn is_utf8(bytes: &[u8]) -> bool
    ensures { result ≡ is_text bytes.now }
{
    str::from_utf8(bytes).is_ok()
}

/// The bytes of a name.
#[tactic(auto, unfolding(crate::specs::Types::name_at))]
pub fn text<'a>(cursor: &mut Cursor<'a>) -> Result<&'a [u8], ReadError>
    ensures { Gives (value_of result) cursor.new (name_at cursor.old) }
{
    let count = u32(cursor)?;
    let at = cursor.place();
    let text = bytes(cursor, count)?;
    if is_utf8(text) {
        Ok(text)
    } else {
        Err(fault(DecodeKind::Utf8, at))
    }
}

/// A name.
pub fn name(alloc: Global, cursor: &mut Cursor<'_>) -> Result<Items<u8>, ReadError>
    ensures { Gives result cursor.new (name_at cursor.old) }
{
    let text = text(cursor)?;
    Ok(Items::from_slice(alloc, text)?)
}

/// The type that a byte stands for, which was at this offset.
fn val_type_of(byte: u8, at: u32) -> Result<ValType, ReadError>
    ensures { (before : Rest) → Gives result before (val_type_of_at byte at before) }
{
    match byte {
        I32 => Ok(ValType::I32),
        I64 => Ok(ValType::I64),
        0x7c..=0x7d => Err(fault(DecodeKind::Float, at)),
        _ => Err(fault(DecodeKind::BadByte, at)),
    }
}

/// The type of a value.
#[tactic(auto, unfolding(crate::specs::Types::val_type_at))]
pub fn val_type(cursor: &mut Cursor<'_>) -> Result<ValType, ReadError>
    ensures { Gives result cursor.new (val_type_at cursor.old) }
{
    let at = cursor.place();
    let byte = byte(cursor)?;
    val_type_of(byte, at)
}

/// The type of a block: of its result, if it has one.
#[tactic(auto, unfolding(crate::specs::Types::block_type_at))]
pub fn block_type(cursor: &mut Cursor<'_>) -> Result<Option<ValType>, ReadError>
    ensures { Gives result cursor.new (block_type_at cursor.old) }
{
    let at = cursor.place();
    let byte = byte(cursor)?;
    if byte == NO_RESULT {
        return Ok(None);
    }
    Ok(Some(val_type_of(byte, at)?))
}

impl Part for ValType {
    type Item = ValType;

    ghost reading = { val_type_at };

    fn read(_alloc: Global, cursor: &mut Cursor<'_>) -> Result<ValType, ReadError> {
        val_type(cursor)
    }
}

impl Part for FuncType {
    type Item = FuncType;

    ghost reading = { func_type_at };

    #[tactic(auto, unfolding(crate::specs::Types::func_type_at))]
    fn read(alloc: Global, cursor: &mut Cursor<'_>) -> Result<FuncType, ReadError> {
        expect(cursor, FUNCTION_TYPE)?;
        let params = vector::<ValType>(alloc, cursor, MOST_PARAMS)?;
        let results = vector::<ValType>(alloc, cursor, MOST_RESULTS)?;
        Ok(FuncType { params, results })
    }
}

/// The limits of a table or a memory.
#[tactic(auto, unfolding(crate::specs::Types::limits_at))]
pub fn limits(cursor: &mut Cursor<'_>) -> Result<Limits, ReadError>
    ensures { Gives result cursor.new (limits_at cursor.old) }
{
    let at = cursor.place();
    match byte(cursor)? {
        MINIMUM => {
            let min = u32(cursor)?;
            Ok(Limits { min, max: None })
        }
        MAXIMUM => {
            let min = u32(cursor)?;
            let max = u32(cursor)?;
            Ok(Limits {
                min,
                max: Some(max),
            })
        }
        _ => Err(fault(DecodeKind::BadByte, at)),
    }
}

impl Part for Limits {
    type Item = Limits;

    ghost reading = { limits_at };

    fn read(_alloc: Global, cursor: &mut Cursor<'_>) -> Result<Limits, ReadError> {
        limits(cursor)
    }
}

/// The type of a table: of functions, and its limits.
#[tactic(auto, unfolding(crate::specs::Types::table_type_at))]
pub fn table_type(cursor: &mut Cursor<'_>) -> Result<Limits, ReadError>
    ensures { Gives result cursor.new (table_type_at cursor.old) }
{
    expect(cursor, FUNCTION_ELEMENTS)?;
    limits(cursor)
}

/// A table, which the module has by its limits alone.
pub struct Table;

impl Part for Table {
    type Item = Limits;

    ghost reading = { table_type_at };

    fn read(_alloc: Global, cursor: &mut Cursor<'_>) -> Result<Limits, ReadError> {
        table_type(cursor)
    }
}

/// Whether a global may be set.
#[tactic(auto, unfolding(crate::specs::Types::flag_at))]
fn flag(cursor: &mut Cursor<'_>) -> Result<bool, ReadError>
    ensures { Gives result cursor.new (flag_at cursor.old) }
{
    let at = cursor.place();
    match byte(cursor)? {
        CONSTANT => Ok(false),
        VARIABLE => Ok(true),
        _ => Err(fault(DecodeKind::BadByte, at)),
    }
}

/// The type of a global.
#[tactic(auto, unfolding(crate::specs::Types::global_type_at))]
pub fn global_type(cursor: &mut Cursor<'_>) -> Result<GlobalType, ReadError>
    ensures { Gives result cursor.new (global_type_at cursor.old) }
{
    let value = val_type(cursor)?;
    let variable = flag(cursor)?;
    Ok(GlobalType { value, variable })
}
