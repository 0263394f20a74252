//! Texts as they are written in cases: `\n`, `\r`, `\t` and `\xHH` stand for a byte, and `\(TEXT\*N)` for a text so many
//! times; `$NAME` alone is a text that was kept.

use crate::unanswered::Unanswered;
use std::alloc::{AllocError, Global};
use std::collections::BTreeMap;

/// The byte for which two digits stand, and the text after them.
fn hex_byte(text: &str) -> Option<(u8, &str)> {
    let digits = text.get(..2)?;
    let byte = u8::from_str_radix(digits, 16).ok()?;
    Some((byte, text.get(2..)?))
}

/// The byte for which the beginning of a text after a backslash stands, and the rest of that text.
fn escaped(text: &str) -> Option<(u8, &str)> {
    let rest = text.get(1..)?;
    match text.get(..1)? {
        "n" => Some((b'\n', rest)),
        "r" => Some((b'\r', rest)),
        "t" => Some((b'\t', rest)),
        "x" => hex_byte(rest),
        _ => None,
    }
}

fn push_times(bytes: &mut Vec<u8>, part: &[u8], times: usize) -> Result<(), AllocError> {
    for _ in 0..times {
        bytes.extend_from_slice(part)?;
    }
    Ok(())
}

/// A text that is being read.
#[derive(Drop)]
struct Reading {
    alloc: Global,
    bytes: Vec<u8>,
    /// Where the parts begin that are to be repeated and have not ended, the outer ones first.
    starts: Vec<usize>,
}

impl Reading {
    fn begin(&mut self, rest: &str) -> Result<(), Unanswered> {
        self.starts.push(self.bytes.len())?;
        self.bytes.extend_from_slice(rest.as_bytes())?;
        Ok(())
    }

    /// Repeats the bytes from a place on.
    fn repeat(&mut self, start: usize, times: usize) -> Result<(), Unanswered> {
        let part = self.bytes.as_slice().get(start..).ok_or(Unanswered::Form)?;
        let part = part.to_vec(self.alloc)?;
        self.bytes.truncate(start);
        push_times(&mut self.bytes, &part, times)?;
        Ok(())
    }

    fn end(&mut self, rest: &str) -> Result<(), Unanswered> {
        let (times, rest) = rest.split_once(")").ok_or(Unanswered::Form)?;
        let start = self.starts.pop().ok_or(Unanswered::Form)?;
        self.repeat(start, times.parse::<usize>()?)?;
        self.bytes.extend_from_slice(rest.as_bytes())?;
        Ok(())
    }

    fn push_escaped(&mut self, text: &str) -> Result<(), Unanswered> {
        let (byte, rest) = escaped(text).ok_or(Unanswered::Form)?;
        self.bytes.push(byte)?;
        self.bytes.extend_from_slice(rest.as_bytes())?;
        Ok(())
    }

    /// Adds what stands after a backslash.
    fn push_part(&mut self, text: &str) -> Result<(), Unanswered> {
        if let Some(rest) = text.strip_prefix("(") {
            self.begin(rest)
        } else if let Some(rest) = text.strip_prefix("*") {
            self.end(rest)
        } else {
            self.push_escaped(text)
        }
    }

    fn push_parts(&mut self, text: &str) -> Result<(), Unanswered> {
        let mut parts = text.split('\\');
        let first = parts.next().unwrap_or("");
        self.bytes.extend_from_slice(first.as_bytes())?;
        for part in parts {
            self.push_part(part)?;
        }
        Ok(())
    }
}

fn unescaped(alloc: Global, text: &str) -> Result<Vec<u8>, Unanswered> {
    let mut read = Reading {
        alloc,
        bytes: Vec::new(alloc),
        starts: Vec::new(alloc),
    };
    read.push_parts(text)?;
    Ok(read.bytes)
}

/// Texts that were kept, by their names.
#[derive(Drop)]
pub struct Texts {
    alloc: Global,
    kept: BTreeMap<String, Vec<u8>>,
}

impl Texts {
    pub fn new(alloc: Global) -> Texts {
        Texts {
            alloc,
            kept: BTreeMap::new(alloc),
        }
    }

    /// Keeps the text of a line `$NAME = TEXT`.
    pub fn keep(&mut self, line: &str) -> Result<(), Unanswered> {
        let (name, text) = line.split_once(" = ").ok_or(Unanswered::Form)?;
        let bytes = self.text(text)?;
        let name = String::from_str(self.alloc, name)?;
        self.kept.insert(name, bytes)?;
        Ok(())
    }

    /// The bytes of a text.
    pub fn text(&self, text: &str) -> Result<Vec<u8>, Unanswered> {
        if text.starts_with("$") {
            let kept = self.kept.get(text).ok_or(Unanswered::Form)?;
            return Ok(kept.as_slice().to_vec(self.alloc)?);
        }
        unescaped(self.alloc, text)
    }
}

/// The first word, and the others.
pub fn two(words: &str) -> Result<(&str, &str), Unanswered> {
    words.split_once(" ").ok_or(Unanswered::Form)
}

/// The bytes as text.
pub fn shown(bytes: &[u8]) -> Result<&str, Unanswered> {
    str::from_utf8(bytes).ok().ok_or(Unanswered::Form)
}

/// Adds the bytes as text.
pub fn push_shown(told: &mut String, bytes: &[u8]) -> Result<(), Unanswered> {
    told.push_str(shown(bytes)?)?;
    Ok(())
}
