//! Why vectors can't be read.

ghost use Rattle.std.specs.Prelude.{◌≡◌};
ghost use Rattle.vr_wasi_abi.specs.declared.fault.AbiFault.TheVariants.{OutOfMemory};

use std::alloc::{AllocError, AllocFailed};

/// The first that holds, in this order.
#[derive(Clone, Copy, Debug, PartialEq, Eq)]
pub enum AbiFault {
    /// The vectors are too many: the error number `inval`.
    Inval,
    /// A byte of the vectors or of their buffers lies past the end of the memory: `fault`.
    Fault,
    /// Memory ran out.
    OutOfMemory,
}

impl From<AllocError> for AbiFault {
    ghost from_gives = { λ _ e. e ≡ OutOfMemory };

    fn from(_refused: AllocError) -> AbiFault {
        AbiFault::OutOfMemory
    }
}

impl<T: Drop> From<AllocFailed<T>> for AbiFault {
    ghost from_gives = { λ _ e. e ≡ OutOfMemory };

    fn from(_refused: AllocFailed<T>) -> AbiFault {
        AbiFault::OutOfMemory
    }
}
