ghost use Rattle.std.specs.Prelude.{◌≡◌, IfOk};
ghost use Rattle.vr_base.specs.Calls.{reply_number};

use crate::bytes::Bytes;
use crate::memory::NoMemory;
use crate::names::{Path, PathFault};
use crate::rights::Right;

/// What an identity asks of the runtime.
#[derive(Debug, Drop)]
pub enum Call {
    Read { name: Bytes },
    /// Replaces a file, or makes it.
    Write { name: Bytes, body: Bytes },
    /// Adds to the end of a file, or makes it.
    Append { name: Bytes, body: Bytes },
    /// Runs the pipeline with this id.
    Run { pipeline: u32 },
    /// Asks for the SHA-256 of the policy file.
    Hash,
}

/// Why the bytes of a program are no program: the fault of the decoder, of
/// the validator or of the linker.
#[derive(Clone, Copy, Debug, PartialEq, Eq)]
pub enum Why {
    /// The decoder's kind of fault, and the offset in the bytes.
    Decode { kind: u8, at: u32 },
    /// The part of the module without a typing, and the index in that part.
    Invalid { part: u8, index: u32 },
    /// The linker's kind of fault, and the index of what it refused.
    Link { kind: u8, index: u32 },
}

/// What the runtime answers. The first four are the answers of a call that was done.
#[derive(Debug, Drop)]
pub enum Reply {
    /// A write or an append was done.
    Stored,
    Read { body: Bytes },
    /// A pipeline ran to its end, with this exit code and output.
    Ended { code: u32, out: Bytes },
    /// The SHA-256 of the policy file in 64 lower-case hex digits.
    PolicyHash { digits: [u8; 64] },
    NoSuchFile { path: Path },
    /// The path on which a right is missing, and the lowest one that is.
    Denied { path: Path, right: Right },
    NoSuchPipeline { id: u32 },
    /// A pinned file that the pipeline could observe is not there.
    PinMissing { path: Path },
    /// A pinned file that the pipeline could observe has another hash, which is found
    /// here in lower-case hex digits.
    PinMismatch { path: Path, found: [u8; 64] },
    /// The size in bytes that the file would have had, at most 2^64 - 1.
    TooLarge { size: u64 },
    BadProgram { path: Path, why: Why },
    /// A program trapped, with this kind of trap.
    Trapped { path: Path, kind: u8 },
    OutOfFuel { path: Path },
    /// The name is no path. The fault is never `OutOfMemory`.
    BadPath { fault: PathFault },
    /// The keeper of the files failed, and nothing was changed.
    Unavailable,
    /// Memory ran out, and nothing was changed.
    OutOfMemory,
    /// The caller is no identity of the policy.
    Unkeyed,
    /// The name of a quota, and the size in bytes that its files would have had together.
    QuotaReached { name: Bytes, size: u128 },
}

impl Reply {
    pub fn copy(&self) -> Result<Reply, NoMemory>
        ensures { IfOk result (λ reply. reply ≡ self.now) }
    {
        Ok(match self {
            Reply::Stored => Reply::Stored,
            Reply::Read { body } => Reply::Read { body: body.copy()? },
            Reply::Ended { code, out } => Reply::Ended {
                code: *code,
                out: out.copy()?,
            },
            Reply::PolicyHash { digits } => Reply::PolicyHash { digits: *digits },
            Reply::NoSuchFile { path } => Reply::NoSuchFile { path: path.copy()? },
            Reply::Denied { path, right } => Reply::Denied {
                path: path.copy()?,
                right: *right,
            },
            Reply::NoSuchPipeline { id } => Reply::NoSuchPipeline { id: *id },
            Reply::PinMissing { path } => Reply::PinMissing { path: path.copy()? },
            Reply::PinMismatch { path, found } => Reply::PinMismatch {
                path: path.copy()?,
                found: *found,
            },
            Reply::TooLarge { size } => Reply::TooLarge { size: *size },
            Reply::BadProgram { path, why } => Reply::BadProgram {
                path: path.copy()?,
                why: *why,
            },
            Reply::Trapped { path, kind } => Reply::Trapped {
                path: path.copy()?,
                kind: *kind,
            },
            Reply::OutOfFuel { path } => Reply::OutOfFuel { path: path.copy()? },
            Reply::BadPath { fault } => Reply::BadPath { fault: *fault },
            Reply::Unavailable => Reply::Unavailable,
            Reply::OutOfMemory => Reply::OutOfMemory,
            Reply::Unkeyed => Reply::Unkeyed,
            Reply::QuotaReached { name, size } => Reply::QuotaReached {
                name: name.copy()?,
                size: *size,
            },
        })
    }

    /// The number of the reply in reports, 0 for each call that was done.
    pub fn number(&self) -> u8
        ensures { result ≡ reply_number self.now }
    {
        match self {
            Reply::Stored | Reply::Read { .. } | Reply::Ended { .. } | Reply::PolicyHash { .. } =>
                0,
            Reply::NoSuchFile { .. } => 1,
            Reply::Denied { .. } => 2,
            Reply::NoSuchPipeline { .. } => 3,
            Reply::PinMissing { .. } => 4,
            Reply::PinMismatch { .. } => 5,
            Reply::TooLarge { .. } => 6,
            Reply::BadProgram { .. } => 7,
            Reply::Trapped { .. } => 8,
            Reply::OutOfFuel { .. } => 9,
            Reply::BadPath { .. } => 10,
            Reply::Unavailable => 11,
            Reply::OutOfMemory => 12,
            Reply::Unkeyed => 13,
            Reply::QuotaReached { .. } => 14,
        }
    }
}

/// One call in the history: the seat by which it came, the identity that called,
/// what it asked and the answer.
#[derive(Debug, Drop)]
pub struct Entry {
    pub seat: u32,
    pub who: u32,
    pub call: Call,
    pub reply: Reply,
}

/// How long the history is that a seat has seen after its call, in entries.
#[derive(Clone, Copy, Debug, PartialEq, Eq)]
pub struct Front {
    pub entries: u64,
}
