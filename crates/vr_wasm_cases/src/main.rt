//! Answers cases of WebAssembly modules, each on a line of standard input.
//!
//! A line is `NAME: VERB ARGUMENTS`, and its answer is `NAME: ANSWER`; a case without a name is named by its words.
//! `$PIECE = BYTES` keeps bytes under a name. Empty lines and lines that begin with `#` are printed as they are.
//! `pieces.rt` says how bytes are written, and `answers.rt` which verbs there are.
#![tactic(auto)]

mod answers;
mod host;
mod memory;
mod modules;
mod numbers;
mod pieces;
mod runs;

use crate::answers::answer;
use crate::pieces::Pieces;
use anyhow::{Context, Result};
use std::io;

/// The name of a case, and its words.
fn named(line: &str) -> (&str, &str) {
    line.split_once(": ").unwrap_or((line, line))
}

fn is_remark(line: &str) -> bool {
    line.is_empty() || line.starts_with("#")
}

fn main(rt: HostRuntime) -> Result<()> {
    let text = io::read_to_string(rt.alloc(), rt.reader())?;
    let mut pieces = Pieces::new(rt.alloc());
    for line in text.lines() {
        if is_remark(line) {
            println!(rt; "{line}")?;
        } else if let Some((name, words)) = line.split_once(" = ") {
            pieces.keep(name, words).context(format_args!("at {name}"))?;
        } else {
            let (name, words) = named(line);
            let found = answer(rt.alloc(), &pieces, words).context(format_args!("at {name}"))?;
            println!(rt; "{name}: {found}")?;
        }
    }
    Ok(())
}
