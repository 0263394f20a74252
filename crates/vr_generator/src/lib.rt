//! A policy and a script that are made by a rule, and the summary of their replay, so that two builds of the program can be
//! compared.
#![tactic(auto)]

mod generator;
mod summary;

pub use generator::generate;
pub use summary::{Summary, summary_text};
