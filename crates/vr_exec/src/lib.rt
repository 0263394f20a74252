//! Runs of pipelines: when one may start, what its programs are, and what it comes to.
#![tactic(auto)]

mod loading;
mod outcome;
mod running;
mod starts;

pub use outcome::Outcome;
pub use running::run_pipeline;
pub use starts::{NotReady, ready};
