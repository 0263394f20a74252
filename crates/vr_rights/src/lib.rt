//! What a whole policy says of each path: its region, and the rights that identities and programs
//! have there.
#![tactic(auto)]

mod collecting;
mod names;
mod regions;
mod words;

pub use regions::{Holder, Missing, Regions};
