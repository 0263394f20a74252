//! The files of a runtime as a program sees them: a host of WASI snapshot preview 1, bounded by the
//! program's own rights.
#![tactic(auto)]

mod runs;
mod world;

pub use runs::{runs_keep_files, runs_stay_alike, worlds_begin_alike};
pub use world::World;
