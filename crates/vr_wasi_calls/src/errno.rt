//! Why a call is refused.

ghost use Rattle.std.specs.Prelude.{◌≡◌};
ghost use Rattle.vr_wasi_calls.specs.Errnos.{number};

use std::alloc::AllocError;
use vr_base::{NoMemory, PathFault};

/// The error numbers of WASI preview 1 that a program is answered.
#[derive(Clone, Copy, Debug, PartialEq, Eq)]
pub enum Errno {
    /// The descriptor is not open, or not of the kind that the call wants.
    Badf,
    /// The file is there, and was to be new.
    Exist,
    /// A range is not within the memory.
    Fault,
    /// The file would be too large.
    Fbig,
    /// An argument has no meaning.
    Inval,
    /// All descriptors are open.
    Mfile,
    /// There is no such file.
    Noent,
    /// The output is full.
    Nospc,
    /// There is no such function.
    Nosys,
    /// The descriptor is no directory.
    Notdir,
    /// The call, or what it asks for, is not supported.
    Notsup,
    /// A right is missing.
    Notcapable,
}

impl Errno {
    pub fn number(self) -> u32
        ensures { result ≡ number self }
    {
        match self {
            Errno::Badf => 8,
            Errno::Exist => 20,
            Errno::Fault => 21,
            Errno::Fbig => 22,
            Errno::Inval => 28,
            Errno::Mfile => 33,
            Errno::Noent => 44,
            Errno::Nospc => 51,
            Errno::Nosys => 52,
            Errno::Notdir => 54,
            Errno::Notsup => 58,
            Errno::Notcapable => 76,
        }
    }
}

/// Why a call did nothing.
#[derive(Clone, Copy, Debug, PartialEq, Eq)]
pub enum Refusal {
    /// A check failed: the program is answered this number.
    Check(Errno),
    /// Memory ran out.
    NoMemory,
}

impl From<Errno> for Refusal {
    ghost use Rattle.vr_wasi_calls.specs.declared.errno.Refusal.TheVariants.{Check};
    ghost use Rattle.std.specs.Prelude.{◌≡◌};

    ghost from_gives = { λ errno e. e ≡ Check errno };

    fn from(errno: Errno) -> Refusal {
        Refusal::Check(errno)
    }
}

impl From<NoMemory> for Refusal {
    ghost use Rattle.vr_wasi_calls.specs.declared.errno.Refusal.TheVariants.{NoMemory};
    ghost use Rattle.std.specs.Prelude.{◌≡◌};

    ghost from_gives = { λ _ e. e ≡ NoMemory };

    fn from(_refused: NoMemory) -> Refusal {
        Refusal::NoMemory
    }
}

impl From<AllocError> for Refusal {
    ghost use Rattle.vr_wasi_calls.specs.declared.errno.Refusal.TheVariants.{NoMemory};
    ghost use Rattle.std.specs.Prelude.{◌≡◌};

    ghost from_gives = { λ _ e. e ≡ NoMemory };

    fn from(_refused: AllocError) -> Refusal {
        Refusal::NoMemory
    }
}
