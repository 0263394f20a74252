ghost use Rattle.std.specs.Prelude.{◌≡◌, ◌+◌, ◌<◌, Some, None};
ghost use Rattle.std.specs.Result.{result_err};
ghost use Rattle.vr_http.specs.Inboxes.{stream, unread};
ghost use Rattle.vr_http.specs.Responses.{IsWritable, refusal, response_bytes};
ghost use Rattle.vr_face.specs.Asks.{ask_of};
ghost use Rattle.vr_face.specs.Sessions.{moment, HasLinkCause, Serves, ServesNext};
ghost use Rattle.vr_face.specs.SessionSteps.{Answers, Exchanges, RefusesBytes, Sends, end_after};
ghost use Rattle.vr_face.specs.Table.{HasRows};

use crate::answers::Answer;
use crate::asks::{AskFault, read_ask};
use crate::keys::Keys;
use crate::responding::{MOST_REQUESTS, manner_of, respond};
use crate::targets::routes;
use matchit::Router;
use std::alloc::Global;
use vr_base::{Desk, Link, NoMemory};
use vr_http::{
    HttpFault, Inbox, Request, Response, SinkFault, fault_response, read_request, refusal,
    write_response,
};

/// How a session ended.
#[derive(Clone, Copy, Debug, PartialEq, Eq)]
pub enum SessionEnd {
    /// The peer ended the connection between requests, or a request asked for its end.
    Closed,
    /// There were 65,536 requests.
    Enough,
    /// What came was no request, by the number of its fault. It was responded to.
    BadMessage(u8),
    /// The peer ended the connection inside a request.
    CutShort,
    /// A read failed, and the connection counted it.
    ReadFault,
    /// A write failed, and the connection counted it.
    WriteFault,
    WantOfMemory,
}

/// The answer of a request: the desk's reply to its call, or the one that it has without the desk.
fn answer_of<D: Desk>(
    alloc: Global,
    desk: &mut D,
    keys: &Keys,
    router: &Router<u8>,
    request: Request,
) -> Result<Answer, NoMemory>
    requires { HasRows router.now }
    ensures answers { Answers (D.seat desk.old) (ask_of keys.now request)
        (D.seen desk.old) (D.seen desk.new) (D.faults desk.old) (D.faults desk.new) result }
    ensures seat { D.seat desk.new ≡ D.seat desk.old }
    ensures origin { D.origin desk.new ≡ D.origin desk.old }
{
    match read_ask(alloc, router, keys, request) {
        Ok(ask) => Ok(Answer::Replied(desk.ask(ask.who, ask.call).0)),
        Err(AskFault::Answered(answer)) => Ok(answer),
        Err(AskFault::OutOfMemory) => Err(NoMemory),
    }
}

/// Writes a response, or answers how the session ends then.
fn send<L: Link>(alloc: Global, link: &mut L, response: &Response) -> Result<(), SessionEnd>
    requires { IsWritable response.now }
    ensures sends { Sends (L.written link.old) (L.written link.new)
        (response_bytes response.now) result }
    ensures left { L.left link.new ≡ L.left link.old }
    ensures input { L.input link.new ≡ L.input link.old }
    ensures cause { HasLinkCause (L.Source.faults link.old) (L.Source.faults link.new)
        (result_err result) }
{
    match write_response(alloc, link, response) {
        Ok(()) => Ok(()),
        Err(SinkFault::Failed) => Err(SessionEnd::WriteFault),
        Err(SinkFault::OutOfMemory) => Err(SessionEnd::WantOfMemory),
    }
}

/// Responds to bytes that are no request.
fn refuse<L: Link>(alloc: Global, link: &mut L, fault: HttpFault) -> SessionEnd
    ensures refuses { RefusesBytes (L.written link.old) (L.written link.new)
        (refusal fault) result }
    ensures left { L.left link.new ≡ L.left link.old }
    ensures input { L.input link.new ≡ L.input link.old }
    ensures cause { HasLinkCause (L.Source.faults link.old) (L.Source.faults link.new)
        (Some result) }
{
    let Some((number, _)) = refusal(fault) else {
        return SessionEnd::WantOfMemory;
    };
    let Ok(Some(response)) = fault_response(alloc, fault) else {
        return SessionEnd::WantOfMemory;
    };
    match send(alloc, link, &response) {
        Ok(()) => SessionEnd::BadMessage(number),
        Err(end) => end,
    }
}

/// How the session goes on after a request that was responded to.
fn after_response(close: bool, number: u32) -> Option<SessionEnd>
    ensures { result ≡ end_after close number }
{
    if close {
        Some(SessionEnd::Closed)
    } else if number == MOST_REQUESTS {
        Some(SessionEnd::Enough)
    } else {
        None
    }
}

/// Serves the request of this number on its connection, or answers how the session ends.
fn serve_request<D: Desk, L: Link>(
    alloc: Global,
    desk: &mut D,
    keys: &Keys,
    router: &Router<u8>,
    link: &mut L,
    number: u32,
    request: Request,
) -> Option<SessionEnd>
    requires { HasRows router.now }
    ensures serves { Exchanges keys.now (D.seat desk.old) number request
        (moment (L.left link.old) (L.written link.old) (D.seen desk.old) (D.faults desk.old))
        (moment (L.left link.new) (L.written link.new) (D.seen desk.new) (D.faults desk.new))
        result }
    ensures seat { D.seat desk.new ≡ D.seat desk.old }
    ensures origin { D.origin desk.new ≡ D.origin desk.old }
    ensures input { L.input link.new ≡ L.input link.old }
    ensures cause { HasLinkCause (L.Source.faults link.old) (L.Source.faults link.new) result }
{
    let close = request.close;
    let manner = manner_of(number, &request);
    let Ok(answer) = answer_of(alloc, desk, keys, router, request) else {
        return Some(SessionEnd::WantOfMemory);
    };
    let Ok(response) = respond(alloc, manner, answer) else {
        return Some(SessionEnd::WantOfMemory);
    };
    match send(alloc, link, &response) {
        Ok(()) => after_response(close, number),
        Err(end) => Some(end),
    }
}

/// Takes what comes next on the connection and serves it, or answers how the session ends.
fn serve_next<D: Desk, L: Link>(
    alloc: Global,
    desk: &mut D,
    keys: &Keys,
    router: &Router<u8>,
    inbox: &mut Inbox,
    link: &mut L,
    taken: u32,
) -> Option<SessionEnd>
    requires rows { HasRows router.now }
    requires few { taken < 65536 }
    ensures serves { ServesNext keys.now (D.seat desk.old) taken
        (moment (stream (unread inbox.old) (L.left link.old)) (L.written link.old)
        (D.seen desk.old) (D.faults desk.old))
        (moment (stream (unread inbox.new) (L.left link.new)) (L.written link.new)
        (D.seen desk.new) (D.faults desk.new))
        result }
    ensures seat { D.seat desk.new ≡ D.seat desk.old }
    ensures origin { D.origin desk.new ≡ D.origin desk.old }
    ensures input { L.input link.new ≡ L.input link.old }
    ensures cause { HasLinkCause (L.Source.faults link.old) (L.Source.faults link.new) result }
    ensures more { result ≡ None → taken + 1 < 65536 }
{
    match read_request(alloc, inbox, link) {
        Ok(Some(request)) => { serve_request(alloc, desk, keys, router, link, taken + 1, request) }
        Ok(None) => Some(SessionEnd::Closed),
        Err(HttpFault::CutShort) => Some(SessionEnd::CutShort),
        Err(HttpFault::ReadFault) => Some(SessionEnd::ReadFault),
        Err(HttpFault::OutOfMemory) => Some(SessionEnd::WantOfMemory),
        Err(fault) => Some(refuse(alloc, link, fault)),
    }
}

/// Serves a connection until it ends.
fn serve_all<D: Desk, L: Link>(
    alloc: Global,
    desk: &mut D,
    keys: &Keys,
    router: &Router<u8>,
    inbox: &mut Inbox,
    link: &mut L,
) -> SessionEnd
    requires { HasRows router.now }
    ensures serves { Serves keys.now (D.seat desk.old)
        (moment (stream (unread inbox.old) (L.left link.old)) (L.written link.old)
        (D.seen desk.old) (D.faults desk.old))
        (moment (stream (unread inbox.new) (L.left link.new)) (L.written link.new)
        (D.seen desk.new) (D.faults desk.new))
        result }
    ensures seat { D.seat desk.new ≡ D.seat desk.old }
    ensures origin { D.origin desk.new ≡ D.origin desk.old }
    ensures input { L.input link.new ≡ L.input link.old }
    ensures cause { HasLinkCause (L.Source.faults link.old) (L.Source.faults link.new)
        (Some result) }
{
    let mut taken = 0;
    loop {
        match serve_next(alloc, desk, keys, router, inbox, link, taken) {
            Some(end) => return end,
            None => taken += 1,
        }
    }
}

/// Serves a connection: reads its requests, asks the desk, and writes the responses, until the peer
/// or a request ends it or there are 65,536. The requests and their order are the same however the
/// connection cuts its bytes.
pub fn serve_session<D: Desk, L: Link>(
    alloc: Global,
    desk: &mut D,
    keys: &Keys,
    link: &mut L,
) -> SessionEnd
    ensures serves { Serves keys.now (D.seat desk.old)
        (moment (L.left link.old) (L.written link.old) (D.seen desk.old) (D.faults desk.old))
        (moment (L.left link.new) (L.written link.new) (D.seen desk.new) (D.faults desk.new))
        result }
    ensures seat { D.seat desk.new ≡ D.seat desk.old }
    ensures origin { D.origin desk.new ≡ D.origin desk.old }
    ensures input { L.input link.new ≡ L.input link.old }
    ensures cause { HasLinkCause (L.Source.faults link.old) (L.Source.faults link.new)
        (Some result) }
{
    let Ok(mut inbox) = Inbox::new(alloc) else {
        return SessionEnd::WantOfMemory;
    };
    let Ok(router) = routes(alloc) else {
        return SessionEnd::WantOfMemory;
    };
    serve_all(alloc, desk, keys, &router, &mut inbox, link)
}
