//! A keeper of files in a database of SQLite, in memory or in a file that other tools can open.
#![tactic(auto)]

mod faults;
mod keeper;
mod store;

pub use keeper::SqlKeeper;
