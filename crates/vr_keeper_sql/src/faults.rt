use sqlite::{Error, ErrorCode};
use std::alloc::{AllocError, AllocFailed};
use vr_base::NoMemory;

/// Why a store did not do what was asked.
#[derive(Clone, Copy, Debug, PartialEq, Eq)]
pub enum StoreFault {
    /// It is no store, or the database refused a statement.
    Refused,
    OutOfMemory,
}

impl From<Error> for StoreFault {
    fn from(error: Error) -> StoreFault {
        match error {
            Error::SqliteFailure(ErrorCode::OutOfMemory) => StoreFault::OutOfMemory,
            _ => StoreFault::Refused,
        }
    }
}

impl From<NoMemory> for StoreFault {
    fn from(_refused: NoMemory) -> StoreFault {
        StoreFault::OutOfMemory
    }
}

impl From<AllocError> for StoreFault {
    fn from(_refused: AllocError) -> StoreFault {
        StoreFault::OutOfMemory
    }
}

impl<T: Drop> From<AllocFailed<T>> for StoreFault {
    fn from(_refused: AllocFailed<T>) -> StoreFault {
        StoreFault::OutOfMemory
    }
}
