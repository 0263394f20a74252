//! Why a program stops before its end.

/// A trap (WebAssembly Core 1.0, section 4.2), by the number of its cause.
#[derive(Clone, Copy, Debug, PartialEq, Eq)]
pub struct Trap {
    pub kind: u8,
}

/// The instruction `unreachable`.
pub const UNREACHABLE: u8 = 1;

/// A division or a remainder by zero.
pub const DIVIDE_BY_ZERO: u8 = 2;

/// A signed division whose quotient has no place in the width.
pub const INTEGER_OVERFLOW: u8 = 3;

/// A byte past the end of the memory.
pub const MEMORY_OUT_OF_BOUNDS: u8 = 4;

/// An indirect call past the end of the table.
pub const TABLE_OUT_OF_BOUNDS: u8 = 5;

/// An indirect call by an element of the table that was never written.
pub const UNINITIALISED_ELEMENT: u8 = 6;

/// An indirect call of a function of another type.
pub const CALL_TYPE_MISMATCH: u8 = 7;

/// A call with the most frames there.
pub const TOO_MANY_FRAMES: u8 = 8;

/// More values, locals among them, than there may be.
pub const TOO_MANY_VALUES: u8 = 9;

/// More labels than there may be.
pub const TOO_MANY_LABELS: u8 = 10;
