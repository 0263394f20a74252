use crate::tree::ValType;
use sqlite_items::Items;

/// An instruction (WebAssembly Core 1.0, section 2.4), without floating point, and with the copy
/// and the fill of a memory and the sign extensions of Core 2.0.
#[derive(Debug, Drop)]
pub enum Instr {
    Unreachable,
    Nop,
    /// The type of its result, and its instructions.
    Block(Option<ValType>, Items<Instr>),
    /// The type of its result, and its instructions.
    Loop(Option<ValType>, Items<Instr>),
    /// The type of its result, the instructions of the taken branch and those of the other one,
    /// none where the text has no `else`.
    If(Option<ValType>, Items<Instr>, Items<Instr>),
    Br(u32),
    BrIf(u32),
    /// The labels, and the default label.
    BrTable(Items<u32>, u32),
    Return,
    Call(u32),
    /// The index of the type of the function that is called.
    CallIndirect(u32),
    Drop,
    Select,
    LocalGet(u32),
    LocalSet(u32),
    LocalTee(u32),
    GlobalGet(u32),
    GlobalSet(u32),
    /// The opcode, the exponent of the alignment and the offset: see
    /// [`load_access`](crate::load_access).
    Load(u8, u32, u32),
    /// The opcode, the exponent of the alignment and the offset: see
    /// [`store_access`](crate::store_access).
    Store(u8, u32, u32),
    MemorySize,
    MemoryGrow,
    /// Copies a range of the memory to another place in it.
    MemoryCopy,
    /// Fills a range of the memory with one byte.
    MemoryFill,
    I32Const(i32),
    I64Const(i64),
    /// The opcode of an instruction on integers: see [`numeric_family`](crate::numeric_family).
    Numeric(u8),
}
