//! The words of a line, and how bytes are printed.

use crate::unanswered::Unanswered;
use std::alloc::Global;

/// The most bytes that are printed one by one.
const MOST_SHOWN: usize = 64;

/// The first word, and the others.
pub fn two(words: &str) -> Result<(&str, &str), Unanswered> {
    words.split_once(" ").ok_or(Unanswered::Form)
}

pub fn number(word: &str) -> Result<u64, Unanswered> {
    Ok(word.parse::<u64>()?)
}

/// The first word as a number, and the others.
pub fn counted(words: &str) -> Result<(u64, &str), Unanswered> {
    let (first, others) = two(words)?;
    Ok((number(first)?, others))
}

/// Bytes in hex; `-` is none.
pub fn bytes(alloc: Global, word: &str) -> Result<Vec<u8>, Unanswered> {
    if word == "-" {
        return Ok(Vec::new(alloc));
    }
    Ok(hex::decode(alloc, word)?)
}

fn sum(bytes: &[u8]) -> u64 {
    let mut sum = 0u64;
    for byte in bytes {
        sum = sum.wrapping_add(u64::from(*byte));
    }
    sum
}

/// Adds bytes in hex, or their number and sum where there are many.
pub fn push_bytes(told: &mut String, alloc: Global, bytes: &[u8]) -> Result<(), Unanswered> {
    if bytes.len() > MOST_SHOWN {
        return Ok(write!(told, "{} bytes, sum {}", bytes.len(), sum(bytes))?);
    }
    let digits = hex::encode(alloc, bytes)?;
    Ok(told.push_str(&digits)?)
}
