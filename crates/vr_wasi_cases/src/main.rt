//! Answers calls of WASI snapshot preview 1 over worlds in memory, each of them on a line of standard input.
//!
//! `world PATH; PART..` begins a world, the lines after it are about that world, and `end` tells what became of it:
//! `worlds.rt` says how it is written, and `calls.rt` which lines there are. `run FUEL MODULE PATH; PART..` is a whole
//! run. Lines that begin with `#` are printed as they are, and empty ones are left out. tests/wasi.py writes what is
//! expected, from the table of calls alone.
#![tactic(auto)]

mod arguments;
mod calls;
mod modules;
mod runs;
mod unanswered;
mod words;
mod worlds;

use crate::calls::push_answer;
use crate::runs::push_run;
use crate::unanswered::Unanswered;
use crate::worlds::{Case, push_world, read_case};
use std::alloc::{AllocError, Global};
use std::io;

/// Begins a world.
fn begin(world: &mut Option<Case>, alloc: Global, words: &str) -> Result<(), Unanswered> {
    *world = Some(read_case(alloc, words)?);
    Ok(())
}

/// Ends a world, and adds what became of it.
fn push_end(told: &mut String, alloc: Global, world: &mut Option<Case>) -> Result<(), Unanswered> {
    match world.take() {
        Some(ended) => push_world(told, alloc, ended.world),
        None => Err(Unanswered::Form),
    }
}

/// Adds the answer to a line about the world.
fn push_said(
    told: &mut String,
    alloc: Global,
    world: &mut Option<Case>,
    verb: &str,
    words: &str,
) -> Result<(), Unanswered> {
    match world {
        Some(case) => push_answer(told, alloc, case, verb, words),
        None => Err(Unanswered::Form),
    }
}

/// Adds the answer to a line, which may begin a world or end it.
fn push_line(
    told: &mut String,
    alloc: Global,
    world: &mut Option<Case>,
    line: &str,
) -> Result<(), Unanswered> {
    let (verb, words) = line.split_once(" ").unwrap_or((line, ""));
    match verb {
        "#" => Ok(told.push_str(line)?),
        "run" => push_run(told, alloc, words),
        "end" => push_end(told, alloc, world),
        "world" => {
            begin(world, alloc, words)?;
            Ok(told.push_str(line)?)
        }
        _ => push_said(told, alloc, world, verb, words),
    }
}

/// Adds a line of the answer to a line, or why it has none.
fn push_told(
    told: &mut String,
    alloc: Global,
    world: &mut Option<Case>,
    line: &str,
) -> Result<(), AllocError> {
    if let Err(reason) = push_line(told, alloc, world, line) {
        write!(told, "{reason:?} at {line}")?;
    }
    told.push_str("\n")
}

/// Adds the answers to the lines about worlds, of which one may have begun.
fn push_lines(
    told: &mut String,
    alloc: Global,
    world: &mut Option<Case>,
    lines: &str,
) -> Result<(), AllocError> {
    for line in lines.lines() {
        if !line.is_empty() {
            push_told(told, alloc, world, line)?;
        }
    }
    Ok(())
}

/// Adds the answers to the lines of a text.
fn push_text(told: &mut String, alloc: Global, text: &str) -> Result<(), AllocError> {
    let mut world = None;
    push_lines(told, alloc, &mut world, text)
}

fn main(rt: HostRuntime) -> io::Result<()> {
    let text = io::read_to_string(rt.alloc(), rt.reader())?;
    let mut told = String::new(rt.alloc());
    push_text(&mut told, rt.alloc(), text.as_str())?;
    print!(rt; "{told}")
}
