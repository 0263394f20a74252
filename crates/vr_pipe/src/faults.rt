ghost use Rattle.std.specs.Prelude.{◌≡◌};
ghost use Rattle.vr_pipe.specs.declared.faults.PipeFault.TheVariants.{OutOfMemory};

use std::alloc::{AllocError, AllocFailed};
use vr_base::NoMemory;

/// Why a text spells no pipeline. Each fault but the last has the offset of the word or sign that
/// it speaks of, or 2^32 - 1 where that is greater. Of several faults the one with the least offset
/// is answered; at one offset `Expected` goes before `Word`, and `Word` before the others.
#[derive(Clone, Copy, Debug, PartialEq, Eq)]
pub enum PipeFault {
    /// A word that must be a path, and is none.
    Word(u32),
    /// The first word or sign that no pipeline continues, or the text's length where
    /// it ends too early. Every word but `if` and `else` is taken for a path here, and
    /// the limits aren't looked at.
    Expected(u32),
    /// A brace at a 65th level. It is never answered: each level needs an `if` of its own, so
    /// the 65th `if` stands before it.
    TooDeep(u32),
    /// The 65th program place, or the 65th `if`.
    TooMany(u32),
    OutOfMemory,
}

impl From<NoMemory> for PipeFault {
    ghost from_gives = { λ _ e. e ≡ OutOfMemory };

    fn from(_refused: NoMemory) -> PipeFault {
        PipeFault::OutOfMemory
    }
}

impl From<AllocError> for PipeFault {
    ghost from_gives = { λ _ e. e ≡ OutOfMemory };

    fn from(_refused: AllocError) -> PipeFault {
        PipeFault::OutOfMemory
    }
}

impl<T: Drop> From<AllocFailed<T>> for PipeFault {
    ghost from_gives = { λ _ e. e ≡ OutOfMemory };

    fn from(_refused: AllocFailed<T>) -> PipeFault {
        PipeFault::OutOfMemory
    }
}
