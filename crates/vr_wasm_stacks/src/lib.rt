//! The operands, locals and open blocks of a running program, on one stack of
//! numbers and one of control entries.
#![tactic(auto)]

mod control;
mod stacks;

pub use stacks::Stacks;
