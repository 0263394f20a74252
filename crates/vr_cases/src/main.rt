//! Answers cases of names, rights, pipelines, policies, scripts and regions, each on a line of standard input.
//!
//! A line is `VERB ARGUMENTS`, and its answer is `VERB ARGUMENTS: ANSWER`. `$NAME = TEXT` keeps a text under a name. Empty
//! lines and lines that begin with `#` are printed as they are. `texts.rt` says how texts are written, and `answers.rt`
//! which verbs there are.
#![tactic(auto)]

mod answers;
mod names;
mod pipelines;
mod policies;
mod regions;
mod rules;
mod scripts;
mod texts;
mod unanswered;

use crate::answers::push_answer;
use crate::texts::Texts;
use crate::unanswered::Unanswered;
use std::alloc::{AllocError, Global};
use std::io;

fn is_remark(line: &str) -> bool {
    line.is_empty() || line.starts_with("#")
}

/// Adds a case and its answer.
fn push_case(
    told: &mut String,
    alloc: Global,
    texts: &Texts,
    line: &str,
) -> Result<(), Unanswered> {
    told.push_str(line)?;
    told.push_str(": ")?;
    push_answer(told, alloc, texts, line)?;
    told.push_str("\n")?;
    Ok(())
}

/// Adds what is printed of a line.
fn push_line(
    told: &mut String,
    alloc: Global,
    texts: &mut Texts,
    line: &str,
) -> Result<(), Unanswered> {
    if line.starts_with("$") {
        return texts.keep(line);
    }
    if !is_remark(line) {
        return push_case(told, alloc, texts, line);
    }
    told.push_str(line)?;
    told.push_str("\n")?;
    Ok(())
}

/// Adds what is printed of the lines. Where one has no answer its reason follows.
fn push_lines(told: &mut String, alloc: Global, lines: &str) -> Result<(), AllocError> {
    let mut texts = Texts::new(alloc);
    for line in lines.lines() {
        if let Err(reason) = push_line(told, alloc, &mut texts, line) {
            write!(told, "{reason:?} at {line}\n")?;
        }
    }
    Ok(())
}

fn main(rt: HostRuntime) -> io::Result<()> {
    let text = io::read_to_string(rt.alloc(), rt.reader())?;
    let mut told = String::new(rt.alloc());
    push_lines(&mut told, rt.alloc(), text.as_str())?;
    print!(rt; "{told}")
}
