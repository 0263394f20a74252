//! Two runs whose hosts' worlds a program can't tell apart keep in step for ever.
#![tactic(auto)]

mod alike;
mod keeps;

pub use alike::{Alike, stay_in_step};
pub use keeps::{Keeps, stay_kept};
