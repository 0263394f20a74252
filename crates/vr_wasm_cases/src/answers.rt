//! The verbs of cases.

use crate::memory::told_memory;
use crate::modules::{
    told_decoding, told_kind, told_spoiled, told_tree, told_types, told_validated, told_validation,
};
use crate::numbers::{told_number, told_opcodes};
use crate::pieces::Pieces;
use crate::runs::told_module;
use anyhow::{Context, Result, bail};
use std::alloc::Global;

fn byte(word: &str) -> Result<u8> {
    Ok(u8::from_str_radix(word, 16)?)
}

fn number(word: &str) -> Result<u64> {
    Ok(u64::from_str_radix(word, 16)?)
}

/// The first word, and the others.
fn split(words: &str) -> Result<(&str, &str)> {
    words.split_once(" ").context("a word is missing")
}

fn run(alloc: Global, pieces: &Pieces, words: &str) -> Result<String> {
    let (fuel, words) = split(words)?;
    let (pages, words) = split(words)?;
    let bytes = pieces.bytes(words)?;
    told_module(alloc, &bytes, pages.parse::<u32>()?, fuel.parse::<u64>()?)
}

fn memory(alloc: Global, words: &str) -> Result<String> {
    let (sizes, calls) = words.split_once("; ").context("no call")?;
    let (pages, most) = split(sizes)?;
    told_memory(alloc, pages.parse::<u32>()?, most.parse::<u32>()?, calls)
}

fn integer(alloc: Global, words: &str) -> Result<String> {
    let (op, operands) = split(words)?;
    let (a, b) = split(operands)?;
    told_number(alloc, byte(op)?, number(a)?, number(b)?)
}

fn types(alloc: Global, pieces: &Pieces, words: &str) -> Result<String> {
    let (first, words) = split(words)?;
    let (second, words) = split(words)?;
    let bytes = pieces.bytes(words)?;
    told_types(
        alloc,
        first.parse::<usize>()?,
        second.parse::<usize>()?,
        &bytes,
    )
}

fn opcodes(alloc: Global, words: &str) -> Result<String> {
    let (first, last) = split(words)?;
    told_opcodes(alloc, byte(first)?, byte(last)?)
}

/// The answer to the words of a case.
pub fn answer(alloc: Global, pieces: &Pieces, words: &str) -> Result<String> {
    let (verb, rest) = split(words)?;
    match verb {
        "decode" => told_decoding(alloc, &pieces.bytes(rest)?),
        "tree" => told_tree(alloc, &pieces.bytes(rest)?),
        "validate" => told_validation(alloc, &pieces.bytes(rest)?),
        "validated" => told_validated(alloc, &pieces.bytes(rest)?),
        "spoil" => told_spoiled(alloc, &pieces.bytes(rest)?),
        "types" => types(alloc, pieces, rest),
        "fault" => told_kind(alloc, rest),
        "run" => run(alloc, pieces, rest),
        "number" => integer(alloc, rest),
        "opcodes" => opcodes(alloc, rest),
        "memory" => memory(alloc, rest),
        _ => bail!("{verb}?"),
    }
}
