//! Instructions and expressions (WebAssembly Core 1.0, section 5.4; Core 2.0, section 5.4.6, for
//! the copy and the fill of a memory).

ghost use Rattle.std.specs.Prelude.{◌≡◌, ℕ, ◌-◌, ◌≤◌, ◌<◌, length};
ghost use Rattle.vr_wasm_ast.specs.Forms.{family_of, then_number};
ghost use Rattle.vr_wasm_decode.specs.Faults.{fault_at};
ghost use Rattle.vr_wasm_decode.specs.Reader.{Gives};
ghost use Rattle.vr_wasm_decode.specs.Instructions.{zero_byte_at, operands_at, form_at, plain_at, not_an_opcode, sequence_at, nested_at, instruction_at, other_branch_at, expression_at};

use crate::fault::{DecodeKind, ReadError};
use crate::numbers::{byte, expect, fault, s32, s64, u32};
use crate::types::block_type;
use crate::vectors::{Index, list};
use std::alloc::Global;
use vr_wasm_ast::{Cursor, Instr, Items, load_access, numeric_family, store_access};

/// How deep blocks, loops and ifs may nest.
const MOST_NESTED: u32 = 1_024;

/// The opcodes of what has instructions in it, and the bytes that end these.
const BLOCK: u8 = 0x02;

const LOOP: u8 = 0x03;

const IF: u8 = 0x04;

const ELSE: u8 = 0x05;

const END: u8 = 0x0b;

/// The index of the one table or memory, where the format keeps a place for others.
const ZERO_INDEX: u8 = 0x00;

/// The numbers of the instructions on a range of the memory, after their prefix.
const MEMORY_COPY: u32 = 10;

const MEMORY_FILL: u32 = 11;

/// The fault of an opcode of no instruction.
fn no_instruction(op: u8, at: u32) -> ReadError
    ensures { result ≡ ReadError.Fault (fault_at (not_an_opcode op) at) }
{
    match op {
        0x2a..=0x2b
        | 0x38..=0x39
        | 0x43..=0x44
        | 0x5b..=0x66
        | 0x8b..=0xa6
        | 0xa8..=0xab
        | 0xae..=0xbf => fault(DecodeKind::Float, at),
        _ => fault(DecodeKind::BadByte, at),
    }
}

/// The instruction, where the index 0 follows.
fn then_zero(cursor: &mut Cursor<'_>, instr: Instr) -> Result<Instr, ReadError>
    ensures { Gives result cursor.new (zero_byte_at instr cursor.old) }
{
    expect(cursor, ZERO_INDEX)?;
    Ok(instr)
}

/// An instruction on a range of the memory, after its prefix.
fn range_instruction(cursor: &mut Cursor<'_>) -> Result<Instr, ReadError>
    ensures { Gives result cursor.new (operands_at then_number cursor.old) }
{
    let at = cursor.place();
    match u32(cursor)? {
        MEMORY_COPY => {
            expect(cursor, ZERO_INDEX)?;
            then_zero(cursor, Instr::MemoryCopy)
        }
        MEMORY_FILL => then_zero(cursor, Instr::MemoryFill),
        _ => Err(fault(DecodeKind::BadByte, at)),
    }
}

/// A load, a store or an instruction on integers, after its opcode.
fn family(cursor: &mut Cursor<'_>, op: u8, at: u32) -> Result<Instr, ReadError>
    ensures { Gives result cursor.new (form_at (family_of op) op at cursor.old) }
{
    if load_access(op).is_some() {
        let exponent = u32(cursor)?;
        let offset = u32(cursor)?;
        Ok(Instr::Load(op, exponent, offset))
    } else if store_access(op).is_some() {
        let exponent = u32(cursor)?;
        let offset = u32(cursor)?;
        Ok(Instr::Store(op, exponent, offset))
    } else if numeric_family(op).is_some() {
        Ok(Instr::Numeric(op))
    } else {
        Err(no_instruction(op, at))
    }
}

/// An instruction that has no instructions in it, after its opcode, which was at this offset.
#[tactic(auto, unfolding(crate::specs::Instructions::plain_at))]
fn plain(alloc: Global, cursor: &mut Cursor<'_>, op: u8, at: u32) -> Result<Instr, ReadError>
    ensures { Gives result cursor.new (plain_at op at cursor.old) }
{
    match op {
        0x00 => Ok(Instr::Unreachable),
        0x01 => Ok(Instr::Nop),
        0x0c => Ok(Instr::Br(u32(cursor)?)),
        0x0d => Ok(Instr::BrIf(u32(cursor)?)),
        0x0e => {
            let labels = list::<Index>(alloc, cursor)?;
            let last = u32(cursor)?;
            Ok(Instr::BrTable(labels, last))
        }
        0x0f => Ok(Instr::Return),
        0x10 => Ok(Instr::Call(u32(cursor)?)),
        0x11 => {
            let sort = u32(cursor)?;
            then_zero(cursor, Instr::CallIndirect(sort))
        }
        0x1a => Ok(Instr::Drop),
        0x1b => Ok(Instr::Select),
        0x20 => Ok(Instr::LocalGet(u32(cursor)?)),
        0x21 => Ok(Instr::LocalSet(u32(cursor)?)),
        0x22 => Ok(Instr::LocalTee(u32(cursor)?)),
        0x23 => Ok(Instr::GlobalGet(u32(cursor)?)),
        0x24 => Ok(Instr::GlobalSet(u32(cursor)?)),
        0x3f => then_zero(cursor, Instr::MemorySize),
        0x40 => then_zero(cursor, Instr::MemoryGrow),
        0x41 => Ok(Instr::I32Const(s32(cursor)?)),
        0x42 => Ok(Instr::I64Const(s64(cursor)?)),
        0xfc => range_instruction(cursor),
        _ => family(cursor, op, at),
    }
}

/// A block, a loop or an `if`, after its opcode.
#[cycle(nesting)]
#[tactic(auto, unfolding(crate::specs::Instructions::nested_at))]
fn nested(alloc: Global, cursor: &mut Cursor<'_>, op: u8, deep: u32) -> Result<Instr, ReadError>
    requires { 0 < deep }
    ensures { (fuel : ℕ) → length cursor.old.bytes ≤ fuel
        → Gives result cursor.new (nested_at (sequence_at fuel (deep - 1)) op cursor.old) }
{
    let sort = block_type(cursor)?;
    match op {
        BLOCK => {
            let (body, _) = sequence(alloc, cursor, deep - 1, false)?;
            Ok(Instr::Block(sort, body))
        }
        LOOP => {
            let (body, _) = sequence(alloc, cursor, deep - 1, false)?;
            Ok(Instr::Loop(sort, body))
        }
        _ => {
            let (body, by_else) = sequence(alloc, cursor, deep - 1, true)?;
            let other = other_branch(alloc, cursor, deep - 1, by_else)?;
            Ok(Instr::If(sort, body, other))
        }
    }
}

/// The other instructions of an `if`, where `else` ended the first ones.
#[cycle(nesting)]
fn other_branch(
    alloc: Global,
    cursor: &mut Cursor<'_>,
    deep: u32,
    by_else: bool,
) -> Result<Items<Instr>, ReadError>
    ensures { (fuel : ℕ) → length cursor.old.bytes ≤ fuel
        → Gives result cursor.new (other_branch_at (sequence_at fuel deep) by_else cursor.old) }
{
    if by_else {
        let (other, _) = sequence(alloc, cursor, deep, false)?;
        Ok(other)
    } else {
        Ok(Items::new(alloc))
    }
}

/// An instruction after its opcode, which was at this offset, where blocks may nest so deep.
#[cycle(nesting)]
#[tactic(auto, unfolding(crate::specs::Instructions::instruction_at))]
fn instruction(
    alloc: Global,
    cursor: &mut Cursor<'_>,
    op: u8,
    at: u32,
    deep: u32,
) -> Result<Instr, ReadError>
    ensures { (fuel : ℕ) → length cursor.old.bytes ≤ fuel
        → Gives result cursor.new
        (instruction_at (sequence_at fuel (deep - 1)) deep op at cursor.old) }
{
    match op {
        BLOCK..=IF => {
            if deep == 0 {
                return Err(fault(DecodeKind::TooMany, at));
            }
            nested(alloc, cursor, op, deep)
        }
        _ => plain(alloc, cursor, op, at),
    }
}

/// Instructions up to `end`, or up to `else` where it may stand there, in which blocks may nest so
/// deep; and whether `else` ended them.
#[cycle(nesting)]
fn sequence(
    alloc: Global,
    cursor: &mut Cursor<'_>,
    deep: u32,
    may_else: bool,
) -> Result<(Items<Instr>, bool), ReadError>
    ensures { (fuel : ℕ) → length cursor.old.bytes ≤ fuel
        → Gives result cursor.new (sequence_at fuel deep may_else cursor.old) }
{
    let mut items = Items::new(alloc);
    'each: loop {
        let at = cursor.place();
        let op = byte(cursor)?;
        if op == END {
            return Ok((items, false));
        }
        if op == ELSE && may_else {
            return Ok((items, true));
        }
        let first = instruction(alloc, cursor, op, at, deep)?;
        items.push(first)?;
    }
}

/// An expression: instructions up to `end`.
#[tactic(auto, unfolding(crate::specs::Instructions::expression_at))]
pub fn expression(alloc: Global, cursor: &mut Cursor<'_>) -> Result<Items<Instr>, ReadError>
    ensures { Gives result cursor.new (expression_at cursor.old) }
{
    let (instructions, _) = sequence(alloc, cursor, MOST_NESTED, false)?;
    Ok(instructions)
}
