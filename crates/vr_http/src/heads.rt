ghost use Rattle.std.specs.Prelude.{◌≡◌, ◌≤◌, length, take, map, nat_lt};
ghost use Rattle.httparse.specs.Spans.{IsRequestWithin, IsRequestOf, header_bytes, span_bytes};
ghost use Rattle.vr_base.specs.Checks.{GivesBy};
ghost use Rattle.vr_http.specs.Heads.{inner_lines};
ghost use Rattle.vr_http.specs.HeadFields.{head_by};
ghost use Rattle.vr_http.specs.Reading.{head_told, Spells};

use crate::faults::HttpFault;
use crate::fields::Fields;
use http::Method;
use httparse::Status;
use httparse::spans::{EMPTY_HEADER_SPAN, HeaderSpan, RequestSpans, parse_request};
use std::alloc::Global;
use vr_base::Bytes;

/// The most lines of a head between its first and its empty one, and so the most fields.
pub const MOST_LINES: usize = 64;

/// A request without its body.
#[derive(Drop)]
pub struct Head {
    pub method: Method,
    pub target: Bytes,
    pub key: Option<[u8; 64]>,
    pub close: bool,
    /// The length of the body.
    pub size: usize,
}

/// What a head says whose parts have these places in its text.
fn head_by(
    alloc: Global,
    text: &[u8],
    headers: &[HeaderSpan],
    spans: &RequestSpans,
) -> Result<Head, HttpFault>
    requires { IsRequestWithin text.now headers.now spans.now }
    ensures { GivesBy head_told result (head_by (span_bytes text.now spans.now.method)
        (span_bytes text.now spans.now.path) spans.now.version
        (map (header_bytes text.now) (take spans.now.headers headers.now))) }
{
    let fields = Fields {
        text,
        spans: &headers[..spans.headers],
    };
    let (method, target) = (spans.method.of(text), spans.path.of(text));
    let size = fields.body_size(method, target)?;
    // The method is a token, so that only memory can be missing.
    let method = Method::from_bytes(alloc, method).map_err(|_| HttpFault::OutOfMemory)?;
    Ok(Head {
        method,
        target: Bytes::from_slice(alloc, target)?,
        key: fields.key(),
        close: fields.close(spans.version),
        size,
    })
}

/// Reads a head text.
pub fn parse_head(alloc: Global, text: &[u8]) -> Result<Head, HttpFault>
    requires { inner_lines text.now ≤ 64 }
    ensures { Spells text.now result }
{
    let mut headers = [EMPTY_HEADER_SPAN; MOST_LINES];
    match parse_request(text, &mut headers) {
        Ok(Status::Complete(spans)) => head_by(alloc, text, &headers, &spans),
        Ok(Status::Partial) => Err(HttpFault::BadHead),
        Err(_) => Err(HttpFault::BadHead),
    }
}
