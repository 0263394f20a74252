//! The face of the server over any desk: who holds which key, what a request asks for, and what it
//! is answered.
#![tactic(auto)]

mod answers;
mod asks;
mod doors;
mod keys;
mod porch;
mod responding;
mod sessions;
mod targets;

pub use answers::{Answer, Methods};
pub use asks::{Ask, AskFault, read_ask};
pub use doors::{AttendFault, Door, attend};
pub use keys::{Keys, KeysFault, read_keys};
pub use porch::{Opening, Porch};
pub use responding::{Manner, manner_of, respond};
pub use sessions::{SessionEnd, serve_session};
pub use targets::{Target, read_target, routes, target_of};
