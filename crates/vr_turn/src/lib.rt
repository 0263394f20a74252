//! The turn: one value that threads use one after another, and the one history of their calls.
#![tactic(auto)]

mod chronicle;
mod rule;
mod seat;
mod steps;
mod turns;
mod views;
mod work;

pub use chronicle::Chronicle;
pub use seat::TurnSeat;
pub use turns::Turn;
