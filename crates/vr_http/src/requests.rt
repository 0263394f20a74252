ghost use Rattle.std.specs.Prelude.{◌≡◌};
ghost use Rattle.vr_base.specs.Causes.{HasCauseOf};
ghost use Rattle.vr_http.specs.Inboxes.{unread, stream};
ghost use Rattle.vr_http.specs.Requests.{TakesFirst};

use crate::faults::HttpFault;
use crate::heads::parse_head;
use crate::inbox::Inbox;
use crate::reading::{read_body, read_head};
use http::Method;
use std::alloc::Global;
use vr_base::{Bytes, Source};

/// A request: what is asked of which target, by whom, and with what body.
#[derive(Drop)]
pub struct Request {
    pub method: Method,
    pub target: Bytes,
    /// The key of who asks, 64 hex digits in lower case.
    pub key: Option<[u8; 64]>,
    /// Whether the connection ends after this request.
    pub close: bool,
    pub body: Bytes,
}

/// Reads the next request of a connection, or none where the source ends between requests. What was
/// read of later requests stays in the inbox. After a fault the inbox has no use.
pub fn read_request<S: Source>(
    alloc: Global,
    inbox: &mut Inbox,
    source: &mut S,
) -> Result<Option<Request>, HttpFault>
    ensures takes { TakesFirst (stream (unread inbox.old) (S.left source.old))
        (stream (unread inbox.new) (S.left source.new)) result }
    ensures beside { S.beside source.new ≡ S.beside source.old }
    ensures cause { HasCauseOf HttpFault.ReadFault
        (S.faults source.old) (S.faults source.new) result }
{
    let Some(place) = read_head(inbox, source)? else {
        return Ok(None);
    };
    let head = parse_head(alloc, &inbox.unread()[place.start..place.end])?;
    inbox.skip(place.end);
    let body = read_body(alloc, inbox, source, head.size)?;
    Ok(Some(Request {
        method: head.method,
        target: head.target,
        key: head.key,
        close: head.close,
        body,
    }))
}
