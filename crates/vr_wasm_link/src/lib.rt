//! From a valid module to what a machine runs: its functions, its store, and where it begins.
#![tactic(auto)]

mod beginning;
mod constants;
mod faults;
mod fitting;
mod functions;
mod imports;
mod linking;
mod opened;
mod writing;

pub use faults::{LinkFault, LinkKind};
pub use functions::Callee;
pub use linking::{Linked, link};
pub use opened::Opened;
