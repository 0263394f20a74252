//! Integers and linear memory as WebAssembly has them (Core 1.0, sections 4.3 and 4.2.8).
#![tactic(auto)]

mod conversions;
mod int32;
mod int64;
mod memory;
mod opcodes;
mod trap;

pub use conversions::convert;
pub use int32::{i32_binary, i32_compare, i32_unary};
pub use int64::{i64_binary, i64_compare, i64_unary};
pub use memory::{Memory, NoMemory, PAGE_SIZE};
pub use trap::{
    CALL_TYPE_MISMATCH, DIVIDE_BY_ZERO, INTEGER_OVERFLOW, MEMORY_OUT_OF_BOUNDS,
    TABLE_OUT_OF_BOUNDS, TOO_MANY_FRAMES, TOO_MANY_LABELS, TOO_MANY_VALUES, Trap,
    UNINITIALISED_ELEMENT, UNREACHABLE,
};
