//! Pipelines of programs: their texts, what a text spells, and its first fault.
#![tactic(auto)]

mod faults;
mod parsing;
mod pipes;
mod printing;
mod tokens;
mod trees;

pub use faults::PipeFault;
pub use pipes::{Pipe, parse_pipe};
pub use printing::print_pipe;
pub use trees::Tree;
