use std::alloc::AllocError;
use vr_base::{Failed, NoMemory};

/// Why no request was read.
#[derive(Clone, Copy, Debug, PartialEq, Eq)]
pub enum HttpFault {
    /// The head is no request head, or there are two Content-Length fields or one that is no number.
    BadHead,
    /// The head has more than 16,384 bytes or more than 64 lines after its first.
    HeadTooLarge,
    /// There is no Content-Length, and the request must have a body.
    NoLength,
    /// The body would have more than 16,777,216 bytes.
    BodyTooLarge,
    /// There is a Transfer-Encoding.
    Coding,
    /// There is an Expect.
    Expect,
    /// The source ended inside the request.
    CutShort,
    /// The source failed, and counted it.
    ReadFault,
    OutOfMemory,
}

impl From<Failed> for HttpFault {
    ghost use Rattle.vr_http.specs.declared.faults.HttpFault.TheVariants.{ReadFault};
    ghost use Rattle.std.specs.Prelude.{◌≡◌};

    ghost from_gives = { λ _ fault. fault ≡ ReadFault };

    fn from(_failed: Failed) -> HttpFault {
        HttpFault::ReadFault
    }
}

impl From<NoMemory> for HttpFault {
    ghost use Rattle.vr_http.specs.declared.faults.HttpFault.TheVariants.{OutOfMemory};
    ghost use Rattle.std.specs.Prelude.{◌≡◌};

    ghost from_gives = { λ _ fault. fault ≡ OutOfMemory };

    fn from(_refused: NoMemory) -> HttpFault {
        HttpFault::OutOfMemory
    }
}

impl From<AllocError> for HttpFault {
    ghost use Rattle.vr_http.specs.declared.faults.HttpFault.TheVariants.{OutOfMemory};
    ghost use Rattle.std.specs.Prelude.{◌≡◌};

    ghost from_gives = { λ _ fault. fault ≡ OutOfMemory };

    fn from(_refused: AllocError) -> HttpFault {
        HttpFault::OutOfMemory
    }
}

/// Why a response was not written whole.
#[derive(Clone, Copy, Debug, PartialEq, Eq)]
pub enum SinkFault {
    /// The sink failed, and counted it.
    Failed,
    OutOfMemory,
}

impl From<Failed> for SinkFault {
    ghost use Rattle.vr_http.specs.declared.faults.SinkFault.TheVariants as faults;
    ghost use Rattle.std.specs.Prelude.{◌≡◌};

    ghost from_gives = { λ _ fault. fault ≡ faults.Failed };

    fn from(_failed: Failed) -> SinkFault {
        SinkFault::Failed
    }
}

impl From<AllocError> for SinkFault {
    ghost use Rattle.vr_http.specs.declared.faults.SinkFault.TheVariants as faults;
    ghost use Rattle.std.specs.Prelude.{◌≡◌};

    ghost from_gives = { λ _ fault. fault ≡ faults.OutOfMemory };

    fn from(_refused: AllocError) -> SinkFault {
        SinkFault::OutOfMemory
    }
}
