//! Reads cases from standard input, a line each, and prints what comes of them: the requests of a
//! stream that comes in pieces, with its end, or the bytes of a response.
#![tactic(auto)]

ghost use Rattle.std.specs.Prelude.{◌≡◌, IfOk};
ghost use Rattle.vr_http.specs.Responses.{IsWritable};

use anyhow::{Context, Result, anyhow, ensure};
use http::StatusCode;
use std::alloc::Global;
use std::io::{BufRead, BufReader};
use std::str;
use vr_base::Bytes;
use vr_http::{
    BodyKind, HttpFault, Inbox, Request, Response, fault_response, read_request, write_response,
};
use vr_memory_links::{MemLink, MemSource};

/// How many bytes of a body are printed.
const MOST_SHOWN: usize = 32;

/// How many bytes of a response are printed.
const MOST_WRITTEN: usize = 256;

/// Room for a response.
const ROOM: usize = 1 << 20;

/// Adds what a token stands for: hex digits, or hex digits of which so many copies are meant.
fn add_token(alloc: Global, bytes: &mut Vec<u8>, token: &str) -> Result<()> {
    let (digits, count) = match token.split_once('*') {
        Some((digits, count)) => (digits, count.parse::<u32>()?),
        None => (token, 1),
    };
    let Ok(piece) = hex::decode(alloc, digits) else {
        return Err(anyhow!("no hex digits"));
    };
    for _ in 0..count {
        bytes.extend_from_slice(piece.as_slice())?;
    }
    Ok(())
}

/// The bytes that tokens stand for, which commas part, or none for a dash.
fn read_bytes(alloc: Global, tokens: &str) -> Result<Bytes> {
    let mut bytes = Vec::new(alloc);
    if tokens != "-" {
        for token in tokens.split(',') {
            add_token(alloc, &mut bytes, token)?;
        }
    }
    Ok(Bytes::of(bytes))
}

fn print_request(rt: &(impl Print + AllocGlobal), request: &Request) -> Result<()> {
    let method = request.method.as_str();
    let target = str::from_utf8(request.target.as_slice()).unwrap_or("?");
    let end = if request.close { "close" } else { "keep" };
    let body = request.body.as_slice();
    let size = body.len();
    let shown = hex::encode(rt.alloc(), &body[..size.min(MOST_SHOWN)])?;
    print!(rt; "  {method} {target} {end} {size} {shown} ")?;
    match &request.key {
        Some(key) => println!(rt; "{}", str::from_utf8(key).unwrap_or("?"))?,
        None => println!(rt; "-")?,
    }
    Ok(())
}

fn end_name(fault: HttpFault) -> &'static str {
    match fault {
        HttpFault::BadHead => "1",
        HttpFault::HeadTooLarge => "2",
        HttpFault::NoLength => "3",
        HttpFault::BodyTooLarge => "4",
        HttpFault::Coding => "5",
        HttpFault::Expect => "6",
        HttpFault::CutShort => "cut",
        HttpFault::ReadFault => "read fault",
        HttpFault::OutOfMemory => "out of memory",
    }
}

/// Prints the requests of a stream and its end.
fn print_stream(rt: &(impl Print + AllocGlobal), mut source: MemSource) -> Result<()> {
    let Ok(mut inbox) = Inbox::new(rt.alloc()) else {
        return Err(anyhow!("out of memory"));
    };
    for _ in 0..u64::MAX {
        match read_request(rt.alloc(), &mut inbox, &mut source) {
            Ok(Some(request)) => {
                print_request(rt, &request)?;
                if request.close {
                    println!(rt; "  = closing")?;
                    return Ok(());
                }
            }
            Ok(None) => {
                println!(rt; "  = ended")?;
                return Ok(());
            }
            Err(fault) => {
                println!(rt; "  = {}", end_name(fault))?;
                return Ok(());
            }
        }
    }
    Ok(())
}

fn stream_case(rt: &(impl Print + AllocGlobal), piece: &str, tokens: &str) -> Result<()> {
    let piece = piece.parse::<u32>()?;
    ensure!(piece != 0, "a piece of nothing");
    let input = read_bytes(rt.alloc(), tokens)?;
    print_stream(rt, MemSource::new(input, piece, Vec::new(rt.alloc())))
}

/// Prints how long a response is, and its first bytes in hex digits.
fn print_response(rt: &(impl Print + AllocGlobal), response: &Response) -> Result<()>
    requires { IsWritable response.now }
{
    let alloc = rt.alloc();
    let Ok(input) = Bytes::from_slice(alloc, b"") else {
        return Err(anyhow!("out of memory"));
    };
    let Ok(mut link) = MemLink::new(alloc, input, u32::MAX, ROOM, Vec::new(alloc)) else {
        return Err(anyhow!("out of memory"));
    };
    ensure!(
        write_response(alloc, &mut link, response).is_ok(),
        "no response"
    );
    let written = link.written();
    let size = written.len();
    let shown = hex::encode(alloc, &written[..size.min(MOST_WRITTEN)])?;
    println!(rt; "  {size} {shown}")?;
    Ok(())
}

fn body_of(alloc: Global, bytes: &[u8]) -> Result<Bytes>
    ensures { IfOk result (λ body. body ≡ bytes.now) }
{
    let Ok(body) = Bytes::from_slice(alloc, bytes) else {
        return Err(anyhow!("out of memory"));
    };
    Ok(body)
}

fn print_file(rt: &(impl Print + AllocGlobal), exit: Option<u32>, body: Bytes) -> Result<()> {
    print_response(
        rt,
        &Response {
            status: StatusCode::OK,
            kind: BodyKind::Octets,
            exit,
            allow: None,
            close: false,
            bare: false,
            body,
        },
    )
}

fn print_denied(rt: &(impl Print + AllocGlobal)) -> Result<()> {
    let body = body_of(rt.alloc(), b"denied /in fd_read\n")?;
    print_response(
        rt,
        &Response {
            status: StatusCode::FORBIDDEN,
            kind: BodyKind::Text,
            exit: None,
            allow: None,
            close: false,
            bare: false,
            body,
        },
    )
}

fn print_stored(rt: &(impl Print + AllocGlobal)) -> Result<()> {
    let body = body_of(rt.alloc(), b"")?;
    print_response(
        rt,
        &Response {
            status: StatusCode::NO_CONTENT,
            kind: BodyKind::None,
            exit: None,
            allow: None,
            close: true,
            bare: false,
            body,
        },
    )
}

/// The answer to HEAD, whose body is left out.
fn print_bad_method(rt: &(impl Print + AllocGlobal)) -> Result<()> {
    let allow = body_of(rt.alloc(), b"GET, PUT, POST")?;
    let body = body_of(rt.alloc(), b"bad method\n")?;
    print_response(
        rt,
        &Response {
            status: StatusCode::METHOD_NOT_ALLOWED,
            kind: BodyKind::Text,
            exit: None,
            allow: Some(allow),
            close: true,
            bare: true,
            body,
        },
    )
}

fn print_fault(rt: &(impl Print + AllocGlobal), fault: HttpFault) -> Result<()> {
    match fault_response(rt.alloc(), fault) {
        Ok(Some(response)) => print_response(rt, &response),
        Ok(None) => {
            println!(rt; "  none")?;
            Ok(())
        }
        Err(_) => Err(anyhow!("out of memory")),
    }
}

fn print_faults(rt: &(impl Print + AllocGlobal)) -> Result<()> {
    print_fault(rt, HttpFault::BadHead)?;
    print_fault(rt, HttpFault::HeadTooLarge)?;
    print_fault(rt, HttpFault::NoLength)?;
    print_fault(rt, HttpFault::BodyTooLarge)?;
    print_fault(rt, HttpFault::Coding)?;
    print_fault(rt, HttpFault::Expect)?;
    print_fault(rt, HttpFault::CutShort)
}

/// Prints the responses whose bytes are looked at.
fn print_responses(rt: &(impl Print + AllocGlobal)) -> Result<()> {
    print_file(rt, None, body_of(rt.alloc(), b"abc")?)?;
    print_denied(rt)?;
    print_stored(rt)?;
    print_file(rt, Some(44), body_of(rt.alloc(), b"hi")?)?;
    print_bad_method(rt)?;
    print_faults(rt)?;
    print_file(rt, None, read_bytes(rt.alloc(), "61*70000")?)
}

fn run_line(rt: &(impl Print + AllocGlobal), line: &str) -> Result<()> {
    println!(rt; "{}", line.split_once(' ').map_or(line, |parts| parts.0))?;
    match line.split_once(' ') {
        Some((_, rest)) => match rest.split_once(' ') {
            Some((piece, tokens)) => stream_case(rt, piece, tokens),
            None => Err(anyhow!("a stream has a piece and its bytes")),
        },
        None => print_responses(rt),
    }
}

fn main(rt: HostRuntime) -> Result<()> {
    let alloc = rt.alloc();
    for line in BufReader::new(alloc, rt.reader())?.lines(alloc) {
        let line = line.context("reading the cases")?;
        run_line(&rt, line.as_str())?;
    }
    Ok(())
}
