//! The connections over which sessions are served, and the keys by which they know who asks.
ghost use Rattle.std.specs.Prelude.{◌<◌, IfOk};
ghost use Rattle.vr_memory_links.specs.Links.{IsNewLink};

use crate::world::{read_bytes, read_numbers};
use anyhow::{Context, Result, anyhow, ensure};
use std::alloc::Global;
use vr_base::{Bytes, NoMemory};
use vr_face::{Keys, read_keys};
use vr_memory_links::MemLink;

/// Identity 1 has 64 digits `1`, and identity 2 has 64 digits `2`.
const KEYS: &[u8] = b"1 1111111111111111111111111111111111111111111111111111111111111111\n\
2 2222222222222222222222222222222222222222222222222222222222222222\n";

/// How many bytes may be written on a connection.
const ROOM: usize = 65_536;

pub fn both_keys(alloc: Global) -> Result<Keys> {
    read_keys(alloc, KEYS, &[1, 2]).ok().context("keys")
}

/// A connection that moves at most a piece of so many bytes in a call.
pub fn connection(alloc: Global, input: Bytes, piece: u32, failing: Vec<u64>) -> Result<MemLink>
    requires { 0 < piece }
    ensures { IfOk result IsNewLink }
{
    match MemLink::new(alloc, input, piece, ROOM, failing) {
        Ok(link) => Ok(link),
        Err(NoMemory) => Err(anyhow!("memory")),
    }
}

/// How many bytes a call of a connection moves at most.
fn read_piece(word: &str) -> Result<u32>
    ensures { IfOk result (λ piece. 0 < piece) }
{
    let piece = word.parse::<u32>()?;
    ensure!(piece != 0, "a piece of nothing");
    Ok(piece)
}

/// The connection of the words `PIECE FAILING`, over an input.
pub fn read_link(alloc: Global, words: &str, input: &str) -> Result<MemLink>
    ensures { IfOk result IsNewLink }
{
    let (piece, failing) = words.split_once(' ').context("a piece")?;
    let piece = read_piece(piece)?;
    let failing = read_numbers(alloc, failing)?;
    connection(alloc, read_bytes(alloc, input)?, piece, failing)
}
