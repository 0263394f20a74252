//! The book: the one history of calls, and the files after it; and a desk over it.
#![tactic(auto)]

mod book;
mod checks;
mod opening;
mod plain_desk;
mod policy_files;

pub use book::Book;
pub use opening::StartFault;
pub use plain_desk::PlainDesk;
