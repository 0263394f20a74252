//! The opcodes that stand for a family of instructions alike: loads, stores, and the instructions
//! on integers (WebAssembly Core 1.0, sections 5.4.4 and 5.4.5, without floating point; Core 2.0,
//! section 5.4.7, for those that extend a sign).

ghost use Rattle.std.specs.Prelude.{◌≡◌};
ghost use Rattle.vr_wasm_ast.specs.Opcodes.{access_of, load_of, store_of, numeric_of};

use crate::tree::ValType;

/// What a load or a store moves between the memory and an operand.
#[derive(Clone, Copy, Debug, PartialEq, Eq)]
pub struct MemoryAccess {
    /// The type of the value that a load gives and a store takes.
    pub value: ValType,
    /// The exponent of its natural alignment: 2 to this power bytes are read or written.
    pub exponent: u32,
    /// Whether a load fills the bits of its value above those that it reads with copies of the
    /// highest one, and else with zeros. False for a store, and for a load of all bits.
    pub signed: bool,
}

/// A family of instructions on integers (WebAssembly Core 1.0, section 2.4.1).
#[derive(Clone, Copy, Debug, PartialEq, Eq)]
pub enum NumericFamily {
    /// Takes one operand of this type, and gives a result of it.
    Unary(ValType),
    /// Takes two operands of this type, and gives a result of it.
    Binary(ValType),
    /// Takes one operand of this type, and gives an i32, 1 for yes and 0 for no.
    Test(ValType),
    /// Takes two operands of this type, and gives an i32, 1 for yes and 0 for no.
    Comparison(ValType),
    /// Takes one operand of the first type, and gives a result of the second.
    Conversion(ValType, ValType),
}

fn access(value: ValType, exponent: u32, signed: bool) -> Option<MemoryAccess>
    ensures { result ≡ access_of value exponent signed }
{
    Some(MemoryAccess {
        value,
        exponent,
        signed,
    })
}

/// What the load of this opcode moves; `None` where no load has it.
pub fn load_access(op: u8) -> Option<MemoryAccess>
    ensures { result ≡ load_of op }
{
    match op {
        0x28 => access(ValType::I32, 2, false),
        0x29 => access(ValType::I64, 3, false),
        0x2c => access(ValType::I32, 0, true),
        0x2d => access(ValType::I32, 0, false),
        0x2e => access(ValType::I32, 1, true),
        0x2f => access(ValType::I32, 1, false),
        0x30 => access(ValType::I64, 0, true),
        0x31 => access(ValType::I64, 0, false),
        0x32 => access(ValType::I64, 1, true),
        0x33 => access(ValType::I64, 1, false),
        0x34 => access(ValType::I64, 2, true),
        0x35 => access(ValType::I64, 2, false),
        _ => None,
    }
}

/// What the store of this opcode moves; `None` where no store has it.
pub fn store_access(op: u8) -> Option<MemoryAccess>
    ensures { result ≡ store_of op }
{
    match op {
        0x36 => access(ValType::I32, 2, false),
        0x37 => access(ValType::I64, 3, false),
        0x3a => access(ValType::I32, 0, false),
        0x3b => access(ValType::I32, 1, false),
        0x3c => access(ValType::I64, 0, false),
        0x3d => access(ValType::I64, 1, false),
        0x3e => access(ValType::I64, 2, false),
        _ => None,
    }
}

/// The family of the instruction on integers of this opcode; `None`
/// where no such instruction has it.
pub fn numeric_family(op: u8) -> Option<NumericFamily>
    ensures { result ≡ numeric_of op }
{
    match op {
        0x45 => Some(NumericFamily::Test(ValType::I32)),
        0x46..=0x4f => Some(NumericFamily::Comparison(ValType::I32)),
        0x50 => Some(NumericFamily::Test(ValType::I64)),
        0x51..=0x5a => Some(NumericFamily::Comparison(ValType::I64)),
        0x67..=0x69 | 0xc0..=0xc1 => Some(NumericFamily::Unary(ValType::I32)),
        0x6a..=0x78 => Some(NumericFamily::Binary(ValType::I32)),
        0x79..=0x7b | 0xc2..=0xc4 => Some(NumericFamily::Unary(ValType::I64)),
        0x7c..=0x8a => Some(NumericFamily::Binary(ValType::I64)),
        0xa7 => Some(NumericFamily::Conversion(ValType::I64, ValType::I32)),
        0xac..=0xad => Some(NumericFamily::Conversion(ValType::I32, ValType::I64)),
        _ => None,
    }
}
