//! Pipelines.

use crate::texts::push_shown;
use crate::unanswered::Unanswered;
use std::alloc::Global;
use vr_base::Path;
use vr_pipe::{Pipe, Tree, parse_pipe, print_pipe};

fn push_marked(told: &mut String, mark: &str, path: &Path) -> Result<(), Unanswered> {
    told.push_str(mark)?;
    push_shown(told, path.as_slice())
}

/// Adds a tree in prefix form: `|` and `;` before their two parts, `?` and `!` before the parts of an `if` without and
/// with an `else`.
fn push_outline(told: &mut String, tree: &Tree) -> Result<(), Unanswered> {
    match tree {
        Tree::Program(path) => push_shown(told, path.as_slice()),
        Tree::If(path, taken, None) => {
            push_marked(told, "?", path)?;
            push_outline(told, taken.get())
        }
        Tree::If(path, taken, Some(other)) => {
            push_marked(told, "!", path)?;
            push_outline(told, taken.get())?;
            push_outline(told, other.get())
        }
        Tree::Feed(first, second) => {
            told.push_str("|")?;
            push_outline(told, first.get())?;
            push_outline(told, second.get())
        }
        Tree::Then(first, second) => {
            told.push_str(";")?;
            push_outline(told, first.get())?;
            push_outline(told, second.get())
        }
    }
}

/// Adds a pipeline as it is printed.
pub fn push_printed(told: &mut String, alloc: Global, pipe: &Pipe) -> Result<(), Unanswered> {
    match print_pipe(alloc, pipe) {
        Ok(text) => push_shown(told, text.as_slice()),
        Err(_) => Err(Unanswered::NoMemory),
    }
}

fn push_read(told: &mut String, alloc: Global, pipe: &Pipe) -> Result<(), Unanswered> {
    push_outline(told, pipe.tree())?;
    told.push_str(" as ")?;
    push_printed(told, alloc, pipe)
}

/// `pipe TEXT`: the tree of a text in prefix form, and the text as it is printed; or its first fault.
pub fn push_pipe(told: &mut String, alloc: Global, text: &[u8]) -> Result<(), Unanswered> {
    match parse_pipe(alloc, text) {
        Ok(pipe) => push_read(told, alloc, &pipe),
        Err(fault) => Ok(write!(told, "{fault:?}")?),
    }
}

/// `spells TEXT`: `a pipeline`, or the first fault of a text.
pub fn push_spelling(told: &mut String, alloc: Global, text: &[u8]) -> Result<(), Unanswered> {
    match parse_pipe(alloc, text) {
        Ok(_) => Ok(told.push_str("a pipeline")?),
        Err(fault) => Ok(write!(told, "{fault:?}")?),
    }
}

fn push_each(told: &mut String, paths: &[Path]) -> Result<(), Unanswered> {
    for path in paths {
        push_marked(told, " ", path)?;
    }
    Ok(())
}

fn push_paths_of(told: &mut String, pipe: &Pipe) -> Result<(), Unanswered> {
    told.push_str("programs")?;
    push_each(told, pipe.programs())?;
    told.push_str("; tests")?;
    push_each(told, pipe.tests())
}

/// `paths TEXT`: the paths of a pipeline's programs and tests, in their order.
pub fn push_paths(told: &mut String, alloc: Global, text: &[u8]) -> Result<(), Unanswered> {
    match parse_pipe(alloc, text) {
        Ok(pipe) => push_paths_of(told, &pipe),
        Err(_) => Err(Unanswered::Form),
    }
}
