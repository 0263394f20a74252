ghost use Rattle.std.specs.Prelude.{◌≡◌, ◌+◌, ◌<◌, [], ◌∷◌, ◌++◌, codes, decimal, length, OnOk, OnErr, IfOk, IfSome};
ghost use Rattle.std.specs.Io.KnownBytes.{Appends};
ghost use Rattle.vr_base.specs.Causes.{HasCauseOf};
ghost use Rattle.vr_base.specs.Outside.{AppendsPrefix};
ghost use Rattle.vr_http.specs.Responses.{IsWritable, line, phrase, status_line, body_fields, exit_field, allow_field, close_field, response_head, sent_body, response_bytes, refusal, fault_response};

use crate::faults::{HttpFault, SinkFault};
use http::StatusCode;
use itoa::{Buffer, Integer};
use std::alloc::{AllocError, Global};
use std::marker::Model;
use vr_base::{Bytes, NoMemory, Sink, write_all};

/// Up to so many bytes a body is gathered with its head, so that there is one write.
const MOST_GATHERED: usize = 65_536;

/// Room for a head, whose methods are few.
const HEAD_ROOM: usize = 256;

/// What a response has for a body.
#[derive(Clone, Copy, Debug, PartialEq, Eq)]
pub enum BodyKind {
    None,
    Octets,
    Text,
}

/// A response.
#[derive(Drop)]
pub struct Response {
    pub status: StatusCode,
    pub kind: BodyKind,
    /// The exit code of a run.
    pub exit: Option<u32>,
    /// The methods that are allowed.
    pub allow: Option<Bytes>,
    /// Whether the connection ends after this response.
    pub close: bool,
    /// Whether the body is left out, as to HEAD. Its length is written all the same.
    pub bare: bool,
    pub body: Bytes,
}

/// The text of a head, which is written field by field.
#[derive(Drop)]
struct HeadText {
    text: Vec<u8>,
}

impl Model for HeadText {
    ghost use Rattle.std.specs.Prelude.{List, ℕ};

    ghost Value = { List ℕ };

    ghost view = { λ head. head.text.items };
}

impl HeadText {
    fn new(alloc: Global) -> Result<HeadText, AllocError>
        ensures { IfOk result (λ head. head ≡ []) }
    {
        Ok(HeadText {
            text: Vec::with_capacity(alloc, HEAD_ROOM)?,
        })
    }

    fn add(mut self, bytes: &[u8]) -> Result<HeadText, AllocError>
        ensures { IfOk result (λ head. head ≡ self ++ bytes.now) }
    {
        self.text.extend_from_slice(bytes)?;
        Ok(self)
    }

    #[tactic(auto, using(std::proofs::Common::append_assoc), unfolding(crate::specs::Responses::line))]
    fn line(self, name: &[u8], value: &[u8]) -> Result<HeadText, AllocError>
        ensures { IfOk result (λ head. head ≡ self ++ line name.now value.now) }
    {
        self.add(name)?.add(value)?.add(b"\r\n")
    }

    fn number<N: Integer>(self, name: &[u8], number: N) -> Result<HeadText, AllocError>
        ensures { IfOk result (λ head. head ≡ self ++ line name.now (N.text number)) }
    {
        let mut digits = Buffer::new();
        self.line(name, digits.format(number).as_bytes())
    }

    fn status_line(self, status: StatusCode) -> Result<HeadText, AllocError>
        ensures { IfOk result (λ head. head ≡ self ++ status_line status) }
    {
        self.add(b"HTTP/1.1 ")?
            .add(status.as_str().as_bytes())?
            .line(b" ", phrase(status).as_bytes())
    }

    fn typed(self, media: &[u8], body: &Bytes) -> Result<HeadText, AllocError>
        ensures { IfOk result (λ head. head ≡ self ++ (line (codes "Content-Type: ") media.now
            ++ line (codes "Content-Length: ") (decimal (length body.now)))) }
    {
        self.line(b"Content-Type: ", media)?
            .number(b"Content-Length: ", body.as_slice().len())
    }

    #[tactic(auto, unfolding(crate::specs::Responses::body_fields))]
    fn body_fields(self, kind: BodyKind, body: &Bytes) -> Result<HeadText, AllocError>
        ensures { IfOk result (λ head. head ≡ self ++ body_fields kind body.now) }
    {
        match kind {
            BodyKind::None => Ok(self),
            BodyKind::Octets => self.typed(b"application/octet-stream", body),
            BodyKind::Text => self.typed(b"text/plain", body),
        }
    }

    #[tactic(auto, unfolding(crate::specs::Responses::exit_field))]
    fn exit_field(self, exit: Option<u32>) -> Result<HeadText, AllocError>
        ensures { IfOk result (λ head. head ≡ self ++ exit_field exit) }
    {
        match exit {
            None => Ok(self),
            Some(code) => self.number(b"Exit-Code: ", code),
        }
    }

    #[tactic(auto, unfolding(crate::specs::Responses::allow_field))]
    fn allow_field(self, allow: &Option<Bytes>) -> Result<HeadText, AllocError>
        ensures { IfOk result (λ head. head ≡ self ++ allow_field allow.now) }
    {
        match allow {
            None => Ok(self),
            Some(methods) => self.line(b"Allow: ", methods.as_slice()),
        }
    }

    #[tactic(auto, unfolding(crate::specs::Responses::close_field))]
    fn close_field(self, close: bool) -> Result<HeadText, AllocError>
        ensures { IfOk result (λ head. head ≡ self ++ close_field close) }
    {
        if close {
            self.line(b"Connection: ", b"close")
        } else {
            Ok(self)
        }
    }
}

#[tactic(auto, unfolding(crate::specs::Responses::phrase))]
fn phrase(status: StatusCode) -> &'static str
    ensures { result.now ≡ phrase status }
{
    status.canonical_reason().unwrap_or("")
}

#[tactic(auto, using(std::proofs::Common::append_assoc), unfolding(crate::specs::Responses::response_head))]
fn head_text(alloc: Global, response: &Response) -> Result<HeadText, AllocError>
    ensures { IfOk result (λ head. head ≡ response_head response.now) }
{
    HeadText::new(alloc)?
        .status_line(response.status)?
        .body_fields(response.kind, &response.body)?
        .exit_field(response.exit)?
        .allow_field(&response.allow)?
        .close_field(response.close)?
        .add(b"\r\n")
}

fn sent_body(response: &Response) -> &[u8]
    ensures { result.now ≡ sent_body response.now }
{
    if response.bare {
        b""
    } else {
        response.body.as_slice()
    }
}

/// The number and the status of a fault that is answered: those of the bytes, but for the one that
/// they are cut short.
pub fn refusal(fault: HttpFault) -> Option<(u8, StatusCode)>
    ensures { result ≡ refusal fault }
{
    match fault {
        HttpFault::BadHead => Some((1, StatusCode::BAD_REQUEST)),
        HttpFault::HeadTooLarge => Some((2, StatusCode::REQUEST_HEADER_FIELDS_TOO_LARGE)),
        HttpFault::NoLength => Some((3, StatusCode::LENGTH_REQUIRED)),
        HttpFault::BodyTooLarge => Some((4, StatusCode::PAYLOAD_TOO_LARGE)),
        HttpFault::Coding => Some((5, StatusCode::NOT_IMPLEMENTED)),
        HttpFault::Expect => Some((6, StatusCode::EXPECTATION_FAILED)),
        HttpFault::CutShort | HttpFault::ReadFault | HttpFault::OutOfMemory => None,
    }
}

/// A fault's own response, where it is answered.
pub fn fault_response(alloc: Global, fault: HttpFault) -> Result<Option<Response>, NoMemory>
    ensures value { IfOk result (λ response. response ≡ fault_response fault) }
    ensures writable { IfOk result (λ response. IfSome response IsWritable) }
{
    let Some((number, status)) = refusal(fault) else {
        return Ok(None);
    };
    Ok(Some(Response {
        status,
        kind: BodyKind::Text,
        exit: None,
        allow: None,
        close: true,
        bare: false,
        body: refusal_text(alloc, number)?,
    }))
}

fn refusal_text(alloc: Global, number: u8) -> Result<Bytes, NoMemory>
    requires { number < 10 }
    ensures { IfOk result (λ text. text ≡ codes "bad request " ++ (48 + number) ∷ 10 ∷ []) }
{
    let mut text = Bytes::from_slice(alloc, b"bad request ")?;
    text.push_slice(&[b'0' + number, b'\n'])?;
    Ok(text)
}

/// Writes a response. Where this fails, a prefix of it was written.
pub fn write_response<W: Sink>(
    alloc: Global,
    sink: &mut W,
    response: &Response,
) -> Result<(), SinkFault>
    requires { IsWritable response.now }
    ensures ok { OnOk result
        (Appends (W.written sink.old) (W.written sink.new) (response_bytes response.now)) }
    ensures err { OnErr result
        (AppendsPrefix (W.written sink.old) (W.written sink.new) (response_bytes response.now)) }
    ensures beside { W.beside sink.new ≡ W.beside sink.old }
    ensures cause { HasCauseOf SinkFault.Failed
        (W.faults sink.old) (W.faults sink.new) result }
{
    let head = head_text(alloc, response)?;
    let body = sent_body(response);
    if body.len() <= MOST_GATHERED {
        let whole = head.add(body)?;
        write_all(sink, whole.text.as_slice())?;
    } else {
        write_all(sink, head.text.as_slice())?;
        write_all(sink, body)?;
    }
    Ok(())
}
