//! Reads cases from standard input, a line each: requests over a connection in memory that moves
//! its bytes in pieces, and prints how the session over it ends and what it writes.
#![tactic(auto)]

mod mirror;

use crate::mirror::Mirror;
use anyhow::{Context, Result, anyhow, ensure};
use std::alloc::Global;
use std::io::{BufRead, BufReader};
use vr_base::Bytes;
use vr_face::{Keys, SessionEnd, read_keys, serve_session};
use vr_memory_links::MemLink;

/// How many bytes of what was written are printed from the front and from the end.
const MOST_SHOWN: usize = 2048;

/// Identity 1 has 64 digits `1`, and identity 2 has 64 digits `2`.
const KEYS: &[u8] = b"1 1111111111111111111111111111111111111111111111111111111111111111\n\
2 2222222222222222222222222222222222222222222222222222222222222222\n";

/// Adds what a token stands for: hex digits, or hex digits of which so many copies are meant.
fn add_token(alloc: Global, bytes: &mut Vec<u8>, token: &str) -> Result<()> {
    let (digits, count) = match token.split_once('*') {
        Some((digits, count)) => (digits, count.parse::<u32>()?),
        None => (token, 1),
    };
    let Ok(piece) = hex::decode(alloc, digits) else {
        return Err(anyhow!("no hex digits"));
    };
    for _ in 0..count {
        bytes.extend_from_slice(piece.as_slice())?;
    }
    Ok(())
}

/// The bytes that tokens stand for, which commas part, or none for a dash.
fn read_bytes(alloc: Global, tokens: &str) -> Result<Bytes> {
    let mut bytes = Vec::new(alloc);
    if tokens != "-" {
        for token in tokens.split(',') {
            add_token(alloc, &mut bytes, token)?;
        }
    }
    Ok(Bytes::of(bytes))
}

/// The numbers of the calls that fail, or none for a dash.
fn read_numbers(alloc: Global, text: &str) -> Result<Vec<u64>> {
    let mut numbers = Vec::new(alloc);
    if text != "-" {
        for number in text.split(',') {
            numbers.push(number.parse::<u64>()?)?;
        }
    }
    Ok(numbers)
}

fn both_keys(alloc: Global) -> Result<Keys> {
    match read_keys(alloc, KEYS, &[1, 2]) {
        Ok(keys) => Ok(keys),
        Err(_) => Err(anyhow!("no keys")),
    }
}

fn print_end(rt: &impl Print, end: SessionEnd) -> Result<()> {
    match end {
        SessionEnd::Closed => print!(rt; "  closed")?,
        SessionEnd::Enough => print!(rt; "  enough")?,
        SessionEnd::BadMessage(number) => print!(rt; "  bad message {number}")?,
        SessionEnd::CutShort => print!(rt; "  cut short")?,
        SessionEnd::ReadFault => print!(rt; "  read fault")?,
        SessionEnd::WriteFault => print!(rt; "  write fault")?,
        SessionEnd::WantOfMemory => print!(rt; "  out of memory")?,
    }
    Ok(())
}

/// Prints how many bytes were written, the first ones and the last ones.
fn print_written(rt: &(impl Print + AllocGlobal), written: &[u8]) -> Result<()> {
    let size = written.len();
    let first = hex::encode(rt.alloc(), &written[..size.min(MOST_SHOWN)])?;
    let last = hex::encode(rt.alloc(), &written[size.saturating_sub(MOST_SHOWN)..])?;
    println!(rt; " {size} {first} {last}")?;
    Ok(())
}

/// Serves the connection and prints what came of it.
fn serve_case(rt: &(impl Print + AllocGlobal), mut link: MemLink) -> Result<()> {
    let keys = both_keys(rt.alloc())?;
    let mut desk = Mirror::new(rt.alloc());
    let end = serve_session(rt.alloc(), &mut desk, &keys, &mut link);
    print_end(rt, end)?;
    print!(rt; " {}", desk.count())?;
    print_written(rt, link.written())
}

/// A case is a piece's size, the room for what is written, the calls that fail and the input.
fn run_case(rt: &(impl Print + AllocGlobal), words: &str) -> Result<()> {
    let alloc = rt.alloc();
    let mut words = words.split(' ');
    let piece = words.next().context("a piece")?.parse::<u32>()?;
    let room = words.next().context("a room")?.parse::<usize>()?;
    let failing = read_numbers(alloc, words.next().context("numbers")?)?;
    let input = read_bytes(alloc, words.next().context("bytes")?)?;
    ensure!(piece != 0, "a piece of nothing");
    let Ok(link) = MemLink::new(alloc, input, piece, room, failing) else {
        return Err(anyhow!("out of memory"));
    };
    serve_case(rt, link)
}

fn run_line(rt: &(impl Print + AllocGlobal), line: &str) -> Result<()> {
    let Some((name, words)) = line.split_once(' ') else {
        return Err(anyhow!("a case has a name"));
    };
    println!(rt; "{name}")?;
    run_case(rt, words)
}

fn main(rt: HostRuntime) -> Result<()> {
    let alloc = rt.alloc();
    for line in BufReader::new(alloc, rt.reader())?.lines(alloc) {
        let line = line.context("reading the cases")?;
        run_line(&rt, line.as_str())?;
    }
    Ok(())
}
