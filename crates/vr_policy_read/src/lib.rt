//! Policy files: what one says, or the first fault in it, and its hash.
#![tactic(auto)]

mod digest;
mod entries;
mod faults;
mod json;
mod policy;
mod reading;

pub use digest::policy_hash;
pub use entries::{Identity, Pin, Pipeline, Program, Quota};
pub use faults::{Member, ReadFault, ReadKind};
pub use json::MOST_POLICY;
pub use policy::Policy;
pub use reading::read_policy;
