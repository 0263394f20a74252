use std::alloc::{AllocError, AllocFailed};
use vr_base::NoMemory;

/// Why a file was not written.
#[derive(Clone, Copy, Debug, PartialEq, Eq)]
pub enum FileFault {
    /// The file would have more than 16,777,216 bytes: so many, or 2^64 - 1 where there are more.
    TooLarge(u64),
    OutOfMemory,
}

impl From<AllocError> for FileFault {
    ghost use Rattle.vr_files.specs.declared.faults.FileFault.TheVariants.{OutOfMemory};
    ghost use Rattle.std.specs.Prelude.{◌≡◌};

    ghost from_gives = { λ _ e. e ≡ OutOfMemory };

    fn from(_refused: AllocError) -> FileFault {
        FileFault::OutOfMemory
    }
}

impl<T: Drop> From<AllocFailed<T>> for FileFault {
    ghost use Rattle.vr_files.specs.declared.faults.FileFault.TheVariants.{OutOfMemory};
    ghost use Rattle.std.specs.Prelude.{◌≡◌};

    ghost from_gives = { λ _ e. e ≡ OutOfMemory };

    fn from(_refused: AllocFailed<T>) -> FileFault {
        FileFault::OutOfMemory
    }
}

impl From<NoMemory> for FileFault {
    ghost use Rattle.vr_files.specs.declared.faults.FileFault.TheVariants.{OutOfMemory};
    ghost use Rattle.std.specs.Prelude.{◌≡◌};

    ghost from_gives = { λ _ e. e ≡ OutOfMemory };

    fn from(_refused: NoMemory) -> FileFault {
        FileFault::OutOfMemory
    }
}
