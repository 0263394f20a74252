//! What the printed flows of a policy say of who can learn what.
#![tactic(auto)]

mod printed;

pub use printed::printed_flows_bound_learning;
