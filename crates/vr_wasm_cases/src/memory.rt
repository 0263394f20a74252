//! Calls of a linear memory.

use anyhow::{Result, bail};
use std::alloc::Global;
use vr_wasm_num::Memory;

fn yes_or_no(done: bool) -> &'static str {
    if done { "yes" } else { "no" }
}

fn loaded(alloc: Global, memory: &Memory, at: u64, width: u8) -> Result<String> {
    if !matches!(width, 1 | 2 | 4 | 8) {
        bail!("no width");
    }
    match memory.load(at, width) {
        Some(value) => Ok(format!(in alloc; "{value:x}")?),
        None => Ok(String::from_str(alloc, "no")?),
    }
}

fn stored(memory: &mut Memory, at: u64, width: u8, value: u64) -> Result<bool> {
    if !matches!(width, 1 | 2 | 4 | 8) {
        bail!("no width");
    }
    Ok(memory.store(at, width, value))
}

fn grown(alloc: Global, memory: &mut Memory, more: u32) -> Result<String> {
    match memory.grow(more) {
        Some(pages) => Ok(format!(in alloc; "{pages}")?),
        None => Ok(String::from_str(alloc, "no")?),
    }
}

/// The answer to one call.
fn called(alloc: Global, memory: &mut Memory, call: &str) -> Result<String> {
    let words: Vec<&str> = call.split_whitespace().collect(alloc)?;
    let done = match words.as_slice() {
        ["load", at, width] => {
            return loaded(alloc, memory, at.parse::<u64>()?, width.parse::<u8>()?);
        }
        ["grow", more] => return grown(alloc, memory, more.parse::<u32>()?),
        ["size"] => return Ok(format!(in alloc; "{}", memory.size())?),
        ["fill", at, byte, len] => {
            memory.fill(at.parse::<u64>()?, byte.parse::<u8>()?, len.parse::<u64>()?)
        }
        ["copy", to, from, len] => {
            memory.copy_within(
                to.parse::<u64>()?,
                from.parse::<u64>()?,
                len.parse::<u64>()?,
            )
        }
        ["store", at, width, value] => stored(
            memory,
            at.parse::<u64>()?,
            width.parse::<u8>()?,
            u64::from_str_radix(value, 16)?,
        )?,
        ["write", at, text] => memory.write(at.parse::<u64>()?, text.as_bytes()),
        _ => bail!("{call}?"),
    };
    Ok(String::from_str(alloc, yes_or_no(done))?)
}

/// `memory PAGES MOST; CALL; CALL..`: the answers of calls on a memory of so many pages of at most so many: `load AT WIDTH`,
/// `store AT WIDTH HEX`, `write AT TEXT`, `fill AT BYTE LENGTH`, `copy TO FROM LENGTH`, `grow PAGES` and `size`.
pub fn told_memory(alloc: Global, pages: u32, most: u32, calls: &str) -> Result<String> {
    if pages > most || most > 1024 {
        bail!("too many pages");
    }
    let Ok(mut memory) = Memory::new(alloc, pages, most) else {
        bail!("out of memory");
    };
    let mut told = String::new(alloc);
    for call in calls.split("; ") {
        if !told.is_empty() {
            told.push_str(", ")?;
        }
        told.push_str(&called(alloc, &mut memory, call)?)?;
    }
    Ok(told)
}
