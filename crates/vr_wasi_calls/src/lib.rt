//! The calls of WASI snapshot preview 1: what each does to what a program sees beside its memory,
//! bounded by the program's own rights.
#![tactic(auto)]

mod argument;
mod arguments;
mod calls;
mod checks;
mod descriptors;
mod errno;
mod functions;
mod paths;
mod pieces;
mod positions;
mod reads;
mod results;
mod state;
mod stats;
mod streams;

pub use descriptors::{Descriptor, OpenFile};
pub use errno::{Errno, Refusal};
pub use functions::{Function, find_function, function_of};
pub use state::State;
