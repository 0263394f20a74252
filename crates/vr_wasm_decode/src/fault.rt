//! Why bytes are no module.

ghost use Rattle.std.specs.Prelude.{◌≡◌};
ghost use Rattle.vr_wasm_decode.specs.Faults.{number_of};
ghost use Rattle.vr_wasm_decode.specs.declared.fault.ReadError.TheVariants.{OutOfMemory};

use std::alloc::{AllocError, AllocFailed};

/// What is wrong with the first item, from the left, that can't be read.
#[derive(Clone, Copy, Debug, PartialEq, Eq)]
pub enum DecodeKind {
    /// The bytes don't begin with the header of a module.
    Magic,
    /// A section's size or contents pass the end of the input.
    Truncated,
    /// A number in LEB128 is too long, or an unused bit of it is wrong.
    Leb,
    /// A section that is no custom one doesn't stand after the last such
    /// one in the order of sections.
    SectionOrder,
    /// An item passes the end of its section or code entry, or the contents end before it.
    SectionSize,
    /// A byte is none of those that may stand there, or a number after the prefix
    /// `fc` is that of no instruction.
    BadByte,
    /// A name is not UTF-8.
    Utf8,
    /// The function and code sections have different counts, or a data count is
    /// not that of the data section.
    Counts,
    /// A type or an instruction of floating point.
    Float,
    /// A count passes its limit, or blocks nest too deep.
    TooMany,
    /// Memory ran out; the bytes may be a module.
    OutOfMemory,
}

impl DecodeKind {
    /// Its number, from 1 to 10 in the order above; 0 of `OutOfMemory`.
    pub fn number(self) -> u8
        ensures { result ≡ number_of self }
    {
        match self {
            DecodeKind::Magic => 1,
            DecodeKind::Truncated => 2,
            DecodeKind::Leb => 3,
            DecodeKind::SectionOrder => 4,
            DecodeKind::SectionSize => 5,
            DecodeKind::BadByte => 6,
            DecodeKind::Utf8 => 7,
            DecodeKind::Counts => 8,
            DecodeKind::Float => 9,
            DecodeKind::TooMany => 10,
            DecodeKind::OutOfMemory => 0,
        }
    }
}

/// Why bytes are no module, and the offset of the item's first byte; 0 where memory ran out.
#[derive(Clone, Copy, Debug, PartialEq, Eq)]
pub struct DecodeFault {
    pub kind: DecodeKind,
    pub at: u32,
}

/// Why an item can't be read: memory ran out, or the bytes have a fault.
#[derive(Clone, Copy, Debug)]
pub enum ReadError {
    OutOfMemory,
    Fault(DecodeFault),
}

impl From<AllocError> for ReadError {
    ghost from_gives = { λ _ e. e ≡ OutOfMemory };

    fn from(_e: AllocError) -> ReadError {
        ReadError::OutOfMemory
    }
}

impl<T: Drop> From<AllocFailed<T>> for ReadError {
    ghost from_gives = { λ _ e. e ≡ OutOfMemory };

    fn from(_e: AllocFailed<T>) -> ReadError {
        ReadError::OutOfMemory
    }
}
