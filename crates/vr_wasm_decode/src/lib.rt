//! Decoding of WebAssembly modules: from their binary format (WebAssembly Core 1.0, chapter 5) to
//! the module tree, or the first fault of the bytes.
#![tactic(auto)]

mod decoding;
mod fault;
mod instructions;
mod numbers;
mod parts;
mod sections;
mod types;
mod vectors;

pub use decoding::decode;
pub use fault::{DecodeFault, DecodeKind};
