//! Why a module isn't valid.

ghost use Rattle.std.specs.Prelude.{◌+◌, ◌<◌, ◌^◌, IfSome};
ghost use Rattle.vr_wasm_valid.specs.Answer.{Refuses};

use std::alloc::{AllocError, AllocFailed};

/// The numbers of a module's parts.
pub const IMPORTS: u8 = 2;

pub const FUNCTIONS: u8 = 3;

pub const TABLES: u8 = 4;

pub const MEMORIES: u8 = 5;

pub const GLOBALS: u8 = 6;

pub const EXPORTS: u8 = 7;

pub const START: u8 = 8;

pub const ELEMENTS: u8 = 9;

pub const BODIES: u8 = 10;

pub const SEGMENTS: u8 = 11;

/// Why a module isn't valid.
#[derive(Clone, Copy, Debug, PartialEq, Eq)]
pub enum Invalid {
    /// The first component that breaks its rule, in the order of the parts: 2 imports, 3 functions'
    /// types, 4 tables, 5 memories, 6 globals, 7 exports, 8 the start function, 9 element segments,
    /// 10 functions' bodies, 11 data segments. The index of a function, a table, a memory or a
    /// global counts the imported ones first; of the other parts it is the place in the list.
    Part { part: u8, index: u32 },
    OutOfMemory,
}

impl From<AllocError> for Invalid {
    ghost use Rattle.std.specs.Prelude.{◌≡◌};
    ghost use Rattle.vr_wasm_valid.specs.declared.answer.Invalid.TheVariants.{OutOfMemory};

    ghost from_gives = { λ _ e. e ≡ OutOfMemory };

    fn from(_: AllocError) -> Invalid {
        Invalid::OutOfMemory
    }
}

impl<T: Drop> From<AllocFailed<T>> for Invalid {
    ghost use Rattle.std.specs.Prelude.{◌≡◌};
    ghost use Rattle.vr_wasm_valid.specs.declared.answer.Invalid.TheVariants.{OutOfMemory};

    ghost from_gives = { λ _ e. e ≡ OutOfMemory };

    fn from(_: AllocFailed<T>) -> Invalid {
        Invalid::OutOfMemory
    }
}

/// The answer of a part whose first component has the index `first`, and in whose list the first
/// that doesn't fit is at this place.
pub fn refuse(part: u8, first: usize, unfit: Option<usize>) -> Result<(), Invalid>
    requires { IfSome unfit (λ place. first + place < 2 ^ 32) }
    ensures { Refuses part first unfit result }
{
    match unfit {
        Some(place) => Err(Invalid::Part {
            part,
            index: (first + place) as u32,
        }),
        None => Ok(()),
    }
}
