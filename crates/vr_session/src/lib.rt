//! One book behind a turn, the desks from which threads make calls of it, and the workers that
//! serve a listener's connections at such desks.
#![tactic(auto)]

mod attending;
mod beside;
mod crossing;
mod locked_door;
mod shared;
mod shared_book;
mod shared_desk;
mod worker_desk;
mod workers;

pub use attending::attend_all;
pub use locked_door::LockedDoor;
pub use shared::Shared;
pub use shared_book::SharedBook;
pub use shared_desk::SharedDesk;
