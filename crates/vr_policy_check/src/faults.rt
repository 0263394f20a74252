ghost use Rattle.std.specs.Prelude.{◌≡◌};
ghost use Rattle.vr_policy_check.specs.Faults.{fault_at, kind_number};
ghost use Rattle.vr_policy_check.specs.declared.faults.CheckKind.TheVariants.{OutOfMemory};

use std::alloc::{AllocError, AllocFailed};
use vr_base::NoMemory;
use vr_pipe::PipeFault;

/// A rule on a whole policy, by what is wrong where it fails.
#[derive(Clone, Copy, Debug, PartialEq, Eq)]
pub enum CheckKind {
    /// The policy has no identities. The index is 0.
    NoIdentity,
    /// An identity's id is that of one before it.
    SameIdentity,
    /// A program's name is that of one before it, whatever its rights.
    SameProgram,
    /// A pipeline's id is that of one before it.
    SamePipeline,
    /// A pinned path is that of a pin before it.
    SamePin,
    /// A list of grants has one name twice. The index is the identity's, or the number of
    /// identities plus the program's.
    GrantTwice,
    /// A program's name is a directory's.
    DirectoryAsProgram,
    /// A pipeline's text spells no pipeline. The fault is the first in the text,
    /// and never that memory ran out.
    PipeRefused(PipeFault),
    /// A pipeline runs a program that the policy doesn't list, in either branch of an `if` too.
    UnlistedProgram,
    OutOfMemory,
}

impl CheckKind {
    /// The number of the rule in reports, from 1 to 9, and 0 if memory ran out.
    pub fn number(self) -> u32
        ensures { result ≡ kind_number self }
    {
        match self {
            CheckKind::NoIdentity => 1,
            CheckKind::SameIdentity => 2,
            CheckKind::SameProgram => 3,
            CheckKind::SamePipeline => 4,
            CheckKind::SamePin => 5,
            CheckKind::GrantTwice => 6,
            CheckKind::DirectoryAsProgram => 7,
            CheckKind::PipeRefused(_) => 8,
            CheckKind::UnlistedProgram => 9,
            CheckKind::OutOfMemory => 0,
        }
    }
}

/// The first rule that a policy breaks.
#[derive(Clone, Copy, Debug, PartialEq, Eq)]
pub struct CheckFault {
    pub kind: CheckKind,
    /// The first index at which the rule fails, in the list that it speaks of.
    pub at: u32,
}

impl From<NoMemory> for CheckFault {
    ghost from_gives = { λ _ e. e ≡ fault_at OutOfMemory 0 };

    fn from(_refused: NoMemory) -> CheckFault {
        CheckFault {
            kind: CheckKind::OutOfMemory,
            at: 0,
        }
    }
}

impl From<AllocError> for CheckFault {
    ghost from_gives = { λ _ e. e ≡ fault_at OutOfMemory 0 };

    fn from(_refused: AllocError) -> CheckFault {
        CheckFault::from(NoMemory)
    }
}

impl<T: Drop> From<AllocFailed<T>> for CheckFault {
    ghost from_gives = { λ _ e. e ≡ fault_at OutOfMemory 0 };

    fn from(_refused: AllocFailed<T>) -> CheckFault {
        CheckFault::from(NoMemory)
    }
}
