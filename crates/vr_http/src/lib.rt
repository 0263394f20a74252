//! HTTP/1.1 messages: requests that are read from a source in whatever pieces it gives, and
//! responses that are written to a sink.
#![tactic(auto)]

mod faults;
mod fields;
mod heads;
mod inbox;
mod reading;
mod requests;
mod responses;
mod search;

pub use faults::{HttpFault, SinkFault};
pub use inbox::Inbox;
pub use requests::{Request, read_request};
pub use responses::{BodyKind, Response, fault_response, refusal, write_response};
