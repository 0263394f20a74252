//! Runs WebAssembly programs, step by step.
#![tactic(auto)]

mod calls;
mod machine;
mod progress;
mod running;
mod state;
mod straight;
mod stretch;

pub use machine::{End, Machine};
pub use vr_wasm_link::{LinkFault, LinkKind, Linked, link};
