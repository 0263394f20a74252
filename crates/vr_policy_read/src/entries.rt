use vr_base::{Bytes, GrantName, Grants, Path};

/// A party that may call, and its rights on files.
#[derive(Debug, Drop)]
pub struct Identity {
    pub id: u32,
    pub grants: Grants,
}

/// A program's file, and the rights on files that it has when it runs.
#[derive(Debug, Drop)]
pub struct Program {
    pub name: GrantName,
    pub grants: Grants,
}

/// A pipeline of programs, as its text.
#[derive(Debug, Drop)]
pub struct Pipeline {
    pub id: u32,
    pub text: Bytes,
}

/// A file that has to have a hash: SHA-256 in 64 lower-case hex digits.
#[derive(Debug, Drop)]
pub struct Pin {
    pub path: Path,
    pub hash: [u8; 64],
}

/// How many bytes the files of a region may have together. Several quotas may name one region.
#[derive(Debug, Drop)]
pub struct Quota {
    pub name: GrantName,
    pub bytes: u64,
}
