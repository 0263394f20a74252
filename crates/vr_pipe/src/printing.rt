ghost use Rattle.std.specs.Prelude.{◌≡◌, ◌++◌, codes, IfOk, OnOk};
ghost use Rattle.vr_pipe.specs.Trees.{pipe_tree};
ghost use Rattle.vr_pipe.specs.Grammar.{Spells};
ghost use Rattle.vr_pipe.specs.Pipes.{text_of, else_text};

use crate::pipes::Pipe;
use crate::trees::Tree;
use sqlite_items::Boxed;
use std::alloc::Global;
use vr_base::{Bytes, NoMemory, Path};

/// `if path {`, before the words and signs in the braces.
fn print_opening(path: &Path, out: &mut Bytes) -> Result<(), NoMemory>
    ensures { OnOk result (out.new ≡ out.old ++ (codes "if " ++ path.now ++ codes " { ")) }
{
    out.push_slice(b"if ")?;
    out.push_slice(path.as_slice())?;
    out.push_slice(b" { ")
}

/// The `else` of an `if`, where there is one, and the last brace.
#[cycle(print)]
fn print_else(other: &Option<Boxed<Tree>>, out: &mut Bytes) -> Result<(), NoMemory>
    ensures { OnOk result (out.new ≡ out.old ++ else_text other.now) }
{
    match other {
        None => out.push_slice(b" }"),
        Some(other) => {
            out.push_slice(b" } else { ")?;
            print_tree(other.get(), out)?;
            out.push_slice(b" }")
        }
    }
}

#[cycle(print)]
fn print_tree(tree: &Tree, out: &mut Bytes) -> Result<(), NoMemory>
    ensures { OnOk result (out.new ≡ out.old ++ text_of (pipe_tree tree.now)) }
{
    match tree {
        Tree::Program(path) => out.push_slice(path.as_slice()),
        Tree::If(path, taken, other) => {
            print_opening(path, out)?;
            print_tree(taken.get(), out)?;
            print_else(other, out)
        }
        Tree::Feed(first, second) => {
            print_tree(first.get(), out)?;
            out.push_slice(b" | ")?;
            print_tree(second.get(), out)
        }
        Tree::Then(first, second) => {
            print_tree(first.get(), out)?;
            out.push_slice(b" ; ")?;
            print_tree(second.get(), out)
        }
    }
}

/// A pipeline's text: its words and signs with one space between them, its paths in normal form,
/// and no `;` after the last feed. Reading it gives the same pipeline.
pub fn print_pipe(alloc: Global, pipe: &Pipe) -> Result<Bytes, NoMemory>
    ensures text { IfOk result (λ text. text ≡ text_of (pipe_tree pipe.now)) }
    ensures spells { IfOk result (λ text. Spells text (pipe_tree pipe.now)) }
{
    let mut out = Bytes::of(Vec::new(alloc));
    print_tree(pipe.tree(), &mut out)?;
    Ok(out)
}
