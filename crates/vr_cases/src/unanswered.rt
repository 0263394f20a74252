use std::alloc::{AllocError, AllocFailed};
use std::num::ParseIntError;
use vr_base::{NoMemory, PathFault};
use vr_policy_check::CheckFault;
use vr_policy_read::ReadFault;

/// Why a line has no answer.
#[derive(Clone, Copy, Debug)]
pub enum Unanswered {
    /// It is outside the form that its verb has.
    Form,
    NoMemory,
}

impl From<AllocError> for Unanswered {
    fn from(_refused: AllocError) -> Unanswered {
        Unanswered::NoMemory
    }
}

impl<T: Drop> From<AllocFailed<T>> for Unanswered {
    fn from(_refused: AllocFailed<T>) -> Unanswered {
        Unanswered::NoMemory
    }
}

impl From<NoMemory> for Unanswered {
    fn from(_refused: NoMemory) -> Unanswered {
        Unanswered::NoMemory
    }
}

impl From<ParseIntError> for Unanswered {
    fn from(_refused: ParseIntError) -> Unanswered {
        Unanswered::Form
    }
}

impl From<ReadFault> for Unanswered {
    fn from(_refused: ReadFault) -> Unanswered {
        Unanswered::Form
    }
}

impl From<CheckFault> for Unanswered {
    fn from(_refused: CheckFault) -> Unanswered {
        Unanswered::Form
    }
}

impl From<PathFault> for Unanswered {
    fn from(_refused: PathFault) -> Unanswered {
        Unanswered::Form
    }
}
