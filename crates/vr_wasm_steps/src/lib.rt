//! What a running WebAssembly program is, and what its next step is; the host that it asks.
#![tactic(auto)]

mod host;
mod limits;

pub use host::{Host, HostAnswer};
pub use limits::{MAX_FRAMES, MAX_LABELS, MAX_SLOTS};
