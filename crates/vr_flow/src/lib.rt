//! What a policy lets flow where: whose calls can lead to what an identity learns, and over which
//! regions.
#![tactic(auto)]

mod calls;
mod closing;
mod flow;
mod flows;
mod holders;
mod places;
mod reaches;
mod tables;
mod words;

pub use calls::{observes, reach};
pub use flows::Flows;
pub use reaches::Reach;
