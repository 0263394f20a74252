//! The outside in memory: a folder, a source, a sink, connections and a listener, which tell all
//! that they hold and fail at the calls that are listed.
#![tactic(auto)]

mod failing;
mod folder;
mod link;
mod listener;
mod moving;
mod sink;
mod source;

pub use folder::MemFolder;
pub use link::MemLink;
pub use listener::MemListener;
pub use sink::MemSink;
pub use source::MemSource;
