//! Bytes as they are written in cases: words in hex; `[ BYTES ]`, their number in LEB128 and the bytes; `( BYTES )*N`,
//! the bytes so many times; and `$PIECE`, bytes that were kept, with `..N` the first ones alone, with `+N` those from
//! there on.

use anyhow::{Context, Result};
use std::alloc::{AllocError, Global};
use std::collections::BTreeMap;
use std::mem;

/// Bytes that were kept, by their names.
#[derive(Drop)]
pub struct Pieces {
    alloc: Global,
    kept: BTreeMap<String, Vec<u8>>,
}

/// Adds a number below 2^63 in LEB128.
fn push_number(bytes: &mut Vec<u8>, number: usize) -> Result<(), AllocError> {
    let mut left = number;
    for _ in 0..8 {
        if left >= 0x80 {
            bytes.push((left % 0x80) as u8 + 0x80)?;
            left /= 0x80;
        }
    }
    bytes.push((left % 0x80) as u8)?;
    Ok(())
}

/// Adds bytes after their number.
fn push_sized(bytes: &mut Vec<u8>, contents: &[u8]) -> Result<(), AllocError> {
    push_number(bytes, contents.len())?;
    bytes.extend_from_slice(contents)?;
    Ok(())
}

fn push_times(bytes: &mut Vec<u8>, contents: &[u8], times: usize) -> Result<(), AllocError> {
    for _ in 0..times {
        bytes.extend_from_slice(contents)?;
    }
    Ok(())
}

impl Pieces {
    pub fn new(alloc: Global) -> Pieces {
        Pieces {
            alloc,
            kept: BTreeMap::new(alloc),
        }
    }

    /// Keeps the bytes of these words under a name.
    pub fn keep(&mut self, name: &str, words: &str) -> Result<()> {
        let bytes = self.bytes(words)?;
        let name = String::from_str(self.alloc, name)?;
        self.kept.insert(name, bytes)?;
        Ok(())
    }

    /// The bytes of these words.
    pub fn bytes(&self, words: &str) -> Result<Vec<u8>> {
        let mut outer: Vec<Vec<u8>> = Vec::new(self.alloc);
        let mut bytes = Vec::new(self.alloc);
        for word in words.split_whitespace() {
            if word == "[" || word == "(" {
                outer.push(mem::replace(&mut bytes, Vec::new(self.alloc)))?;
            } else if word == "]" || word.starts_with(")*") {
                let mut around = outer.pop().context("nothing to close")?;
                self.push_closed(&mut around, &bytes, word)?;
                bytes = around;
            } else {
                self.push_word(&mut bytes, word)?;
            }
        }
        Ok(bytes)
    }

    /// Adds the bytes between brackets, of which the word is the last one.
    fn push_closed(&self, bytes: &mut Vec<u8>, contents: &[u8], word: &str) -> Result<()> {
        match word.strip_prefix(")*") {
            Some(times) => push_times(bytes, contents, times.parse::<usize>()?)?,
            None => push_sized(bytes, contents)?,
        }
        Ok(())
    }

    fn push_word(&self, bytes: &mut Vec<u8>, word: &str) -> Result<()> {
        if word.starts_with("$") {
            bytes.extend_from_slice(self.piece(word).context(format_args!("no {word}"))?)?;
        } else {
            let read = hex::decode(self.alloc, word)?;
            bytes.extend_from_slice(&read)?;
        }
        Ok(())
    }

    /// The bytes of a piece, or of a part of it.
    fn piece(&self, word: &str) -> Option<&[u8]> {
        if let Some((name, end)) = word.split_once("..") {
            return self.kept(name)?.get(..end.parse::<usize>().ok()?);
        }
        match word.split_once("+") {
            Some((name, start)) => self.kept(name)?.get(start.parse::<usize>().ok()?..),
            None => self.kept(word),
        }
    }

    fn kept(&self, name: &str) -> Option<&[u8]> {
        Some(self.kept.get(name)?.as_slice())
    }
}
