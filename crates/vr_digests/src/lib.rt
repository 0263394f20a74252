//! The SHA-256 of a file's bytes.
#![tactic(auto)]

mod digests;

pub use digests::file_digits;
