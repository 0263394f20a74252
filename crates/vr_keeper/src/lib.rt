//! What keeps the files of a runtime: a keeper loads rows and takes changes, all of them or none.
#![tactic(auto)]

mod keepers;
mod kept;
mod mem_keeper;
mod never_fails;
mod rows;

pub use keepers::{KeepFault, Keeper};
pub use mem_keeper::MemKeeper;
pub use never_fails::NeverFails;
pub use rows::Rows;
