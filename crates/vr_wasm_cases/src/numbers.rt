//! Instructions on integers, and the table of opcodes.

use anyhow::Result;
use std::alloc::Global;
use vr_wasm_ast::{
    MemoryAccess, NumericFamily, ValType, load_access, numeric_family, store_access,
};
use vr_wasm_num::{
    Trap, convert, i32_binary, i32_compare, i32_unary, i64_binary, i64_compare, i64_unary,
};

fn wide(outcome: Result<u32, Trap>) -> Result<u64, u8> {
    match outcome {
        Ok(value) => Ok(u64::from(value)),
        Err(trap) => Err(trap.kind),
    }
}

fn kind_of(outcome: Result<u64, Trap>) -> Result<u64, u8> {
    outcome.map_err(|trap| trap.kind)
}

fn low(value: u64) -> u32 {
    (value % 0x1_0000_0000) as u32
}

/// What the instruction of the opcode gives, or the kind of its trap; `Err(0)` where it is none on integers.
fn computed(op: u8, a: u64, b: u64) -> Result<u64, u8> {
    match numeric_family(op) {
        Some(NumericFamily::Unary(ValType::I32)) => Ok(u64::from(i32_unary(op, low(a)))),
        Some(NumericFamily::Unary(ValType::I64)) => Ok(i64_unary(op, a)),
        Some(NumericFamily::Binary(ValType::I32)) => wide(i32_binary(op, low(a), low(b))),
        Some(NumericFamily::Binary(ValType::I64)) => kind_of(i64_binary(op, a, b)),
        Some(NumericFamily::Test(ValType::I32) | NumericFamily::Comparison(ValType::I32)) => {
            Ok(u64::from(i32_compare(op, low(a), low(b))))
        }
        Some(NumericFamily::Test(ValType::I64) | NumericFamily::Comparison(ValType::I64)) => {
            Ok(u64::from(i64_compare(op, a, b)))
        }
        Some(NumericFamily::Conversion(..)) => Ok(convert(op, a)),
        None => Err(0),
    }
}

/// `number OPCODE A B`, all in hex: the result, or `trap KIND`. An instruction on one operand doesn't look at B.
pub fn told_number(alloc: Global, op: u8, a: u64, b: u64) -> Result<String> {
    match computed(op, a, b) {
        Ok(value) => Ok(format!(in alloc; "{value:x}")?),
        Err(kind) => Ok(format!(in alloc; "trap {kind}")?),
    }
}

/// What the table says of an opcode: the load, the store and the family.
type Meaning = (
    Option<MemoryAccess>,
    Option<MemoryAccess>,
    Option<NumericFamily>,
);

fn meaning_of(op: u8) -> Meaning {
    (load_access(op), store_access(op), numeric_family(op))
}

fn told_access(alloc: Global, verb: &str, access: MemoryAccess) -> Result<String> {
    let sign = if access.signed { " signed" } else { "" };
    Ok(format!(in alloc;
        "{verb} {:?} exponent {}{sign}",
        access.value, access.exponent
    )?)
}

fn told_meaning(alloc: Global, meaning: Meaning) -> Result<String> {
    match meaning {
        (Some(access), None, None) => told_access(alloc, "load", access),
        (None, Some(access), None) => told_access(alloc, "store", access),
        (None, None, Some(family)) => Ok(format!(in alloc; "{family:?}")?),
        (None, None, None) => Ok(String::from_str(alloc, "none")?),
        _ => Ok(format!(in alloc; "{meaning:?}")?),
    }
}

/// `opcodes FIRST LAST`, in hex: what the table says of each of these opcodes, or `unlike`.
pub fn told_opcodes(alloc: Global, first: u8, last: u8) -> Result<String> {
    let wanted = meaning_of(first);
    for op in first..=last {
        if meaning_of(op) != wanted {
            return Ok(format!(in alloc; "unlike at {op:x}")?);
        }
    }
    told_meaning(alloc, wanted)
}
