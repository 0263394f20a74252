//! Validation of WebAssembly modules (WebAssembly Core 1.0, chapter 3, without floating point, and
//! with the sign extensions and the copy and fill of memory of Core 2.0).
#![tactic(auto)]

mod answer;
mod body;
mod components;
mod constant;
mod exports;
mod instructions;
mod limits;
mod parts;
mod scope;
mod spaces;
mod stack;
mod validation;

pub use answer::Invalid;
pub use validation::{ValidModule, validate};
