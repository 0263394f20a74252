//! Whole policies: the rules that one has to meet, and a policy that meets them.
#![tactic(auto)]

mod checked;
mod faults;
mod places;
mod rules;

pub use checked::{CheckedPolicy, check};
pub use faults::{CheckFault, CheckKind};
