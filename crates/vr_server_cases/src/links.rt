//! The connections of a server, and the listener that hands them out.
ghost use Rattle.std.specs.Prelude.{All, IfOk};
ghost use Rattle.vr_memory_links.specs.Links.{IsNewLink};

use anyhow::{Context, Result};
use std::alloc::Global;
use vr_base::Bytes;
use vr_memory_links::{MemLink, MemListener};

/// How many bytes a call of a connection moves at most.
const PIECE: u32 = 32;

/// How many bytes may be written on a connection.
const ROOM: usize = 4_096;

/// Numbers, which commas part.
fn read_numbers(alloc: Global, text: &str) -> Result<Vec<u64>> {
    let mut numbers = Vec::new(alloc);
    if text != "-" {
        for number in text.split(',') {
            numbers.push(number.parse::<u64>()?)?;
        }
    }
    Ok(numbers)
}

/// The bytes of hex digits, or none for a dash.
pub fn read_bytes(alloc: Global, digits: &str) -> Result<Bytes> {
    if digits == "-" {
        return Ok(Bytes::of(Vec::new(alloc)));
    }
    let bytes = hex::decode(alloc, digits).ok().context("hex digits")?;
    Ok(Bytes::of(bytes))
}

fn connection(alloc: Global, input: Bytes) -> Result<MemLink>
    ensures { IfOk result IsNewLink }
{
    let link = MemLink::new(alloc, input, PIECE, ROOM, Vec::new(alloc)).ok();
    link.context("memory")
}

fn read_links(alloc: Global, inputs: &str) -> Result<Vec<MemLink>>
    ensures { IfOk result (λ links. All IsNewLink links.items) }
{
    let mut links = Vec::new(alloc);
    for input in inputs.split(' ') {
        links.push(connection(alloc, read_bytes(alloc, input)?)?)?;
    }
    Ok(links)
}

/// A listener of a connection with each of these inputs, of which the calls fail that have these numbers.
pub fn read_listener(alloc: Global, failing: &str, inputs: &str) -> Result<MemListener> {
    let links = read_links(alloc, inputs)?;
    let listener = MemListener::new(alloc, links, read_numbers(alloc, failing)?).ok();
    listener.context("memory")
}

/// The connection of these that has this input, which stands in what `Debug` writes of it.
pub fn find_link<'a>(
    alloc: Global,
    links: &'a [MemLink],
    input: &Bytes,
) -> Result<Option<&'a MemLink>> {
    let input = format!(in alloc; "input: {input:?},")?;
    for link in links {
        if format!(in alloc; "{link:?}")?.contains(input.as_str()) {
            return Ok(Some(link));
        }
    }
    Ok(None)
}
