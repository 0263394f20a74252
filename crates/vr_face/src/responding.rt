ghost use Rattle.std.specs.Prelude.{◌≡◌, ◌++◌, ◌∷◌, [], length, IfOk, bytes_eq};
ghost use Rattle.vr_base.specs.Signs.{line_feed};
ghost use Rattle.vr_http.specs.Responses.{IsWritable};
ghost use Rattle.vr_face.specs.Answers.{allow_text, answer_response, manner_of, plain, refusal_response, refusal_status, reply_response, response_in, said};
ghost use Rattle.vr_text.specs.Refusals.{refusal_text};

use crate::answers::{Answer, Methods};
use http::StatusCode;
use std::alloc::Global;
use vr_base::{Bytes, NoMemory, Reply};
use vr_http::{BodyKind, Request, Response};
use vr_text::{Writer, write_refusal};

/// The most requests of a connection.
pub const MOST_REQUESTS: u32 = 65_536;

/// How a request is responded to.
#[derive(Clone, Copy, Debug, PartialEq, Eq)]
pub struct Manner {
    /// Whether the connection ends after the response.
    pub close: bool,
    /// Whether the body is left out.
    pub bare: bool,
}

/// The manner of the request of this number on its connection.
pub fn manner_of(number: u32, request: &Request) -> Manner
    ensures { result ≡ manner_of number request.now }
{
    Manner {
        close: request.close || number == MOST_REQUESTS,
        bare: request.method.as_str() == "HEAD",
    }
}

fn plain(status: StatusCode, kind: BodyKind, body: Bytes) -> Response
    ensures { result ≡ plain status kind body }
{
    Response {
        status,
        kind,
        exit: None,
        allow: None,
        close: false,
        bare: false,
        body,
    }
}

/// A line of text as a response.
fn said(status: StatusCode, text: Writer) -> Result<Response, NoMemory>
    ensures { IfOk result (λ response. response ≡ said status text) }
{
    let line = text.bytes(b"\n")?;
    Ok(plain(status, BodyKind::Text, line.finish()))
}

fn refusal_status(reply: &Reply) -> StatusCode
    ensures { result ≡ refusal_status reply.now }
{
    match reply {
        Reply::BadPath { .. } => StatusCode::BAD_REQUEST,
        Reply::Denied { .. } | Reply::Unkeyed => StatusCode::FORBIDDEN,
        Reply::NoSuchFile { .. } | Reply::NoSuchPipeline { .. } => StatusCode::NOT_FOUND,
        Reply::PinMissing { .. } | Reply::PinMismatch { .. } | Reply::QuotaReached { .. } => {
            StatusCode::CONFLICT
        }
        Reply::TooLarge { .. } => StatusCode::PAYLOAD_TOO_LARGE,
        Reply::BadProgram { .. } | Reply::Trapped { .. } | Reply::OutOfFuel { .. } => {
            StatusCode::UNPROCESSABLE_ENTITY
        }
        Reply::Unavailable => StatusCode::SERVICE_UNAVAILABLE,
        Reply::OutOfMemory => StatusCode::INSUFFICIENT_STORAGE,
        Reply::Stored | Reply::Read { .. } | Reply::Ended { .. } | Reply::PolicyHash { .. } => {
            StatusCode::OK
        }
    }
}

fn refusal(alloc: Global, reply: &Reply) -> Result<Response, NoMemory>
    ensures { IfOk result (λ response. response ≡ refusal_response reply.now) }
{
    let text = write_refusal(Writer::new(alloc), reply)?;
    said(refusal_status(reply), text)
}

/// The response to a call that was done, or to one that was refused.
fn reply_response(alloc: Global, reply: Reply) -> Result<Response, NoMemory>
    ensures { IfOk result (λ response. response ≡ reply_response reply) }
{
    match reply {
        Reply::Stored => {
            let nothing = Bytes::of(Vec::new(alloc));
            Ok(plain(StatusCode::NO_CONTENT, BodyKind::None, nothing))
        }
        Reply::Read { body } => Ok(plain(StatusCode::OK, BodyKind::Octets, body)),
        Reply::Ended { code, out } => {
            let mut response = plain(StatusCode::OK, BodyKind::Octets, out);
            response.exit = Some(code);
            Ok(response)
        }
        Reply::PolicyHash { digits } => {
            let body = Bytes::from_slice(alloc, &digits)?;
            Ok(plain(StatusCode::OK, BodyKind::Text, body))
        }
        refused => refusal(alloc, &refused),
    }
}

fn allow_text(methods: Methods) -> &'static str
    ensures { result.now ≡ allow_text methods }
{
    match methods {
        Methods::GetPutPost => "GET, PUT, POST",
        Methods::Post => "POST",
        Methods::Get => "GET",
    }
}

/// That the route has other methods.
fn bad_method(alloc: Global, methods: Methods) -> Result<Response, NoMemory>
    ensures { IfOk result (λ response. response ≡ answer_response (Answer.BadMethod methods)) }
{
    let text = Writer::new(alloc).bytes(b"bad method")?;
    let mut response = said(StatusCode::METHOD_NOT_ALLOWED, text)?;
    response.allow = Some(Bytes::from_slice(alloc, allow_text(methods).as_bytes())?);
    Ok(response)
}

fn answer_response(alloc: Global, answer: Answer) -> Result<Response, NoMemory>
    ensures { IfOk result (λ response. response ≡ answer_response answer) }
{
    match answer {
        Answer::Replied(reply) => reply_response(alloc, reply),
        Answer::NoRoute => {
            let text = Writer::new(alloc).bytes(b"no route")?;
            said(StatusCode::NOT_FOUND, text)
        }
        Answer::BadMethod(methods) => bad_method(alloc, methods),
    }
}

/// The response with an answer in a manner.
pub fn respond(alloc: Global, manner: Manner, answer: Answer) -> Result<Response, NoMemory>
    ensures response { IfOk result (λ response. response ≡ response_in manner answer) }
    ensures writable { IfOk result IsWritable }
{
    let mut response = answer_response(alloc, answer)?;
    response.close = manner.close;
    response.bare = manner.bare;
    Ok(response)
}
