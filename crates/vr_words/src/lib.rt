//! The words of a command line: what they ask for, or the first that is out of place.
#![tactic(auto)]

mod commands;
mod numbers;
mod options;
mod said;
mod scan;

pub use commands::{Command, Serving, Verbs, Word};
pub use scan::parse;
