//! Worlds in memory, as lines say them.

use crate::unanswered::Unanswered;
use crate::words::{bytes, push_bytes, two};
use std::alloc::Global;
use vr_base::{Bytes, GrantName, Grants, Path, RightsWord, parse_grant_name, parse_path};
use vr_files::{FileBody, Files, Overlay};
use vr_wasi_fs::World;
use vr_wasm_num::Memory;

/// How many pages of memory a world may have.
const MOST_PAGES: u32 = 1024;

/// A world, and the memory of its program.
#[derive(Drop)]
pub struct Case {
    pub world: World,
    pub memory: Memory,
}

/// What a world is made of.
#[derive(Drop)]
struct Parts {
    grants: Vec<(GrantName, RightsWord)>,
    files: Files,
    input: Vec<u8>,
    pages: u32,
}

fn path(alloc: Global, word: &str) -> Result<Path, Unanswered> {
    Ok(parse_path(alloc, word.as_bytes())?)
}

/// So many bytes of zeros.
fn zeros(alloc: Global, size: &str) -> Result<Vec<u8>, Unanswered> {
    Ok(vec![in alloc; 0; size.parse::<usize>()?]?)
}

impl Parts {
    fn new(alloc: Global) -> Parts {
        Parts {
            grants: Vec::new(alloc),
            files: Files::new(alloc),
            input: Vec::new(alloc),
            pages: 1,
        }
    }

    fn add_grant(&mut self, alloc: Global, words: &str) -> Result<(), Unanswered> {
        let (name, word) = two(words)?;
        let word = RightsWord::new(word.parse::<u32>()?);
        let name = parse_grant_name(alloc, name.as_bytes())?;
        self.grants.push((name, word))?;
        Ok(())
    }

    fn add_file(&mut self, alloc: Global, words: &str) -> Result<(), Unanswered> {
        let (name, body) = two(words)?;
        let body = bytes(alloc, body)?;
        self.files.put(&path(alloc, name)?, &body)?;
        Ok(())
    }

    fn add_large(&mut self, alloc: Global, words: &str) -> Result<(), Unanswered> {
        let (name, size) = two(words)?;
        let body = zeros(alloc, size)?;
        self.files.put(&path(alloc, name)?, &body)?;
        Ok(())
    }

    /// `grant NAME WORD`, `file NAME HEX`, `large NAME SIZE` (of zeros), `input HEX` or `pages COUNT`.
    fn add(&mut self, alloc: Global, words: &str) -> Result<(), Unanswered> {
        let (kind, words) = two(words)?;
        match kind {
            "grant" => return self.add_grant(alloc, words),
            "file" => return self.add_file(alloc, words),
            "large" => return self.add_large(alloc, words),
            "input" => self.input = bytes(alloc, words)?,
            "pages" => self.pages = words.parse::<u32>()?,
            _ => return Err(Unanswered::Form),
        }
        Ok(())
    }
}

/// The parts between semicolons.
fn read_parts(alloc: Global, words: &str) -> Result<Parts, Unanswered> {
    let mut parts = Parts::new(alloc);
    if !words.is_empty() {
        for part in words.split("; ") {
            parts.add(alloc, part)?;
        }
    }
    Ok(parts)
}

fn memory(alloc: Global, pages: u32) -> Result<Memory, Unanswered> {
    if pages > MOST_PAGES {
        return Err(Unanswered::Form);
    }
    Ok(Memory::new(alloc, pages, pages)?)
}

/// The world of a program of this path.
fn world(alloc: Global, path: Path, parts: Parts) -> Result<Case, Unanswered> {
    let Parts {
        grants,
        files,
        input,
        pages,
    } = parts;
    let memory = memory(alloc, pages)?;
    let files = Overlay::new(alloc, files);
    let world = World::new(alloc, path, Grants::of(grants), files, Bytes::of(input))?;
    Ok(Case { world, memory })
}

/// `PATH; PART; PART..`: a world of these parts.
pub fn read_case(alloc: Global, words: &str) -> Result<Case, Unanswered> {
    let (name, others) = words.split_once("; ").unwrap_or((words, ""));
    let path = path(alloc, name)?;
    world(alloc, path, read_parts(alloc, others)?)
}

/// Adds what became of a file.
fn push_body(told: &mut String, alloc: Global, body: Option<&FileBody>) -> Result<(), Unanswered> {
    match body {
        Some(body) => push_bytes(told, alloc, body.to_bytes()?.as_slice()),
        None => Ok(told.push_str("removed")?),
    }
}

/// Adds a line for each file that is another than at the beginning.
fn push_changes(
    told: &mut String,
    alloc: Global,
    changes: &[(Path, Option<FileBody>)],
) -> Result<(), Unanswered> {
    for (path, body) in changes {
        let Ok(name) = std::str::from_utf8(path.as_slice()) else {
            return Err(Unanswered::Form);
        };
        told.push_str(name)?;
        told.push_str(": ")?;
        push_body(told, alloc, body.as_ref())?;
        told.push_str("\n")?;
    }
    Ok(())
}

/// Adds the files that are others than at the beginning, and the output.
pub fn push_world(told: &mut String, alloc: Global, world: World) -> Result<(), Unanswered> {
    let (files, output) = world.take();
    let changes = files.changes()?;
    push_changes(told, alloc, changes.as_slice())?;
    told.push_str("output: ")?;
    push_bytes(told, alloc, output.as_slice())
}
