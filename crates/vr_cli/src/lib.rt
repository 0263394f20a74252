//! The top calls: what the program does, from the words of its command line to what it writes.
#![tactic(auto)]

mod commands;
mod digest_sink;
mod gathering;
mod kept;
mod reading;
mod replaying;
mod server_files;
mod server_texts;
mod serving;
mod status;
mod summing;

pub use commands::command;
pub use kept::Kept;
pub use serving::serve;
pub use status::Status;
