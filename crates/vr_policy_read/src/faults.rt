ghost use Rattle.std.specs.Prelude.{◌≡◌};
ghost use Rattle.vr_policy_read.specs.Faults.{kind_number};
ghost use Rattle.vr_policy_read.specs.Members.{member_name};

use std::alloc::{AllocError, AllocFailed};
use vr_base::{NoMemory, PathFault};

/// A member of a policy file's objects, or the whole file.
#[derive(Clone, Copy, Debug, PartialEq, Eq)]
pub enum Member {
    /// The whole file, which has to be an object.
    Top,
    Identities,
    /// The id of an identity or of a pipeline.
    Id,
    /// The grants of an identity or of a program.
    FileRights,
    FileName,
    Rights,
    Programs,
    ProgramFileName,
    Pipelines,
    PipelineText,
    FileHashes,
    FilePath,
    Hash,
    MaxMemory,
    Quotas,
    /// The bytes of a quota.
    Bytes,
}

impl Member {
    /// The member's name in the file, and no text for the whole file.
    pub(crate) fn name(self) -> &'static str
        ensures { result.now ≡ member_name self }
    {
        match self {
            Member::Top => "",
            Member::Identities => "identities",
            Member::Id => "id",
            Member::FileRights => "file_rights",
            Member::FileName => "file_name",
            Member::Rights => "rights",
            Member::Programs => "programs",
            Member::ProgramFileName => "program_file_name",
            Member::Pipelines => "pipelines",
            Member::PipelineText => "pipeline",
            Member::FileHashes => "file_hashes",
            Member::FilePath => "file_path",
            Member::Hash => "hash",
            Member::MaxMemory => "max_memory_mib",
            Member::Quotas => "quotas",
            Member::Bytes => "bytes",
        }
    }
}

/// What is wrong with a policy file.
#[derive(Clone, Copy, Debug, PartialEq, Eq)]
pub enum ReadKind {
    /// The file has more than 4,194,304 bytes.
    TooLong,
    /// The file is no JSON text (RFC 8259) in UTF-8, nests deeper than 127, or has a number
    /// that no finite float is near.
    NotJson,
    /// A member that has to be there is absent.
    Missing(Member),
    /// A member is of another kind, or a number other than a rights word is not whole or not in its
    /// range. An entry that is no object is of the wrong kind for its list's member.
    WrongKind(Member),
    /// A text is no name of a file, or of a grant.
    BadName,
    /// A number is no rights word from 0 to 2^32 - 1, or a text has a byte other than
    /// the letters `r`, `w` and `x`.
    BadRights,
    /// A text is not 64 hex digits.
    BadHash,
    /// A list has more than 1,024 entries.
    TooMany(Member),
    OutOfMemory,
}

impl ReadKind {
    /// The number of the kind in reports, from 1 to 8, and 0 where memory ran out.
    pub fn number(self) -> u32
        ensures { result ≡ kind_number self }
    {
        match self {
            ReadKind::TooLong => 1,
            ReadKind::NotJson => 2,
            ReadKind::Missing(_) => 3,
            ReadKind::WrongKind(_) => 4,
            ReadKind::BadName => 5,
            ReadKind::BadRights => 6,
            ReadKind::BadHash => 7,
            ReadKind::TooMany(_) => 8,
            ReadKind::OutOfMemory => 0,
        }
    }
}

/// The first fault of a policy file.
#[derive(Clone, Copy, Debug, PartialEq, Eq)]
pub struct ReadFault {
    pub kind: ReadKind,
    /// The index in the outermost list, counted from 0, and 0 where the
    /// fault is in no entry of a list.
    pub at: u32,
}

impl From<AllocError> for ReadKind {
    ghost use Rattle.std.specs.Prelude.{◌≡◌};
    ghost use Rattle.vr_policy_read.specs.declared.faults.ReadKind.TheVariants.{OutOfMemory};

    ghost from_gives = { λ _ kind. kind ≡ OutOfMemory };

    fn from(_refused: AllocError) -> ReadKind {
        ReadKind::OutOfMemory
    }
}

impl From<NoMemory> for ReadKind {
    ghost use Rattle.std.specs.Prelude.{◌≡◌};
    ghost use Rattle.vr_policy_read.specs.declared.faults.ReadKind.TheVariants.{OutOfMemory};

    ghost from_gives = { λ _ kind. kind ≡ OutOfMemory };

    fn from(_refused: NoMemory) -> ReadKind {
        ReadKind::OutOfMemory
    }
}

impl From<PathFault> for ReadKind {
    ghost use Rattle.std.specs.Prelude.{◌≡◌};
    ghost use Rattle.vr_policy_read.specs.Faults.{kind_of_name_fault};

    ghost from_gives = { λ fault kind. kind ≡ kind_of_name_fault fault };

    fn from(fault: PathFault) -> ReadKind {
        match fault {
            PathFault::OutOfMemory => ReadKind::OutOfMemory,
            _ => ReadKind::BadName,
        }
    }
}

impl From<ReadKind> for ReadFault {
    ghost use Rattle.std.specs.Prelude.{◌≡◌};
    ghost use Rattle.vr_policy_read.specs.Faults.{fault_at};

    ghost from_gives = { λ kind e. e ≡ fault_at kind 0 };

    fn from(kind: ReadKind) -> ReadFault {
        ReadFault { kind, at: 0 }
    }
}

impl From<AllocError> for ReadFault {
    ghost use Rattle.std.specs.Prelude.{◌≡◌};
    ghost use Rattle.vr_policy_read.specs.Faults.{fault_at};
    ghost use Rattle.vr_policy_read.specs.declared.faults.ReadKind.TheVariants.{OutOfMemory};

    ghost from_gives = { λ _ e. e ≡ fault_at OutOfMemory 0 };

    fn from(_refused: AllocError) -> ReadFault {
        ReadFault::from(ReadKind::OutOfMemory)
    }
}

impl<T: Drop> From<AllocFailed<T>> for ReadFault {
    ghost use Rattle.std.specs.Prelude.{◌≡◌};
    ghost use Rattle.vr_policy_read.specs.Faults.{fault_at};
    ghost use Rattle.vr_policy_read.specs.declared.faults.ReadKind.TheVariants.{OutOfMemory};

    ghost from_gives = { λ _ e. e ≡ fault_at OutOfMemory 0 };

    fn from(_refused: AllocFailed<T>) -> ReadFault {
        ReadFault::from(ReadKind::OutOfMemory)
    }
}
