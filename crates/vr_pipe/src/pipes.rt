ghost use Rattle.std.specs.Prelude.{◌≡◌, IfOk, IfErr, Ok, Err};
ghost use Rattle.vr_base.specs.Checks.{result_map};
ghost use Rattle.vr_pipe.specs.declared.faults.PipeFault.{PipeFault};
ghost use Rattle.vr_pipe.specs.Trees.{PipeTree, pipe_tree, programs_of, tests_of};
ghost use Rattle.vr_pipe.specs.Grammar.{Spells};
ghost use Rattle.vr_pipe.specs.Faults.{HasFault, IsFirstFault, Gives, told};
ghost use Rattle.vr_pipe.specs.Parser.{parse, pipe_of};
ghost use Rattle.vr_pipe.specs.Pipes.{IsPipeline};

use crate::faults::PipeFault;
use crate::parsing::{Parser, Paths};
use crate::tokens::next_token;
use crate::trees::Tree;
use std::alloc::Global;
use std::marker::Model;
use vr_base::Path;

/// A pipeline that some text spells: each path in it is one, and it has at most 64 program places
/// and 64 `if`s, with braces that nest at most 64 deep. Contracts see it as its tree.
#[derive(Debug, Drop)]
pub struct Pipe {
    tree: Tree,
    programs: Vec<Path>,
    tests: Vec<Path>,
}

impl Model for Pipe {
    ghost use Rattle.vr_pipe.specs.declared.trees.Tree.{Tree};

    ghost Value = { Tree };

    ghost use Rattle.vr_pipe.specs.contracts.trees.Tree as trees;

    ghost coded = { trees.the_row.coded };

    ghost use Rattle.vr_pipe.specs.Pipes.{KeepsPipe};

    ghost view = { λ pipe. pipe.tree };

    ghost invariant = { λ pipe. KeepsPipe pipe.tree pipe.programs.items pipe.tests.items };
}

impl Pipe {
    pub fn tree(&self) -> &Tree
        ensures tree { result.now ≡ self.now }
        ensures spelled { IsPipeline (pipe_tree self.now) }
    {
        &self.tree
    }

    /// The paths of its program places, in the order of the text.
    pub fn programs(&self) -> &[Path]
        ensures { result.now ≡ programs_of (pipe_tree self.now) }
    {
        self.programs.as_slice()
    }

    /// The paths of its `if`s, in the order of the text.
    pub fn tests(&self) -> &[Path]
        ensures { result.now ≡ tests_of (pipe_tree self.now) }
    {
        self.tests.as_slice()
    }
}

/// The tree that a text's words and signs give, and the paths in it.
fn parse(alloc: Global, text: &[u8]) -> Result<(Tree, Paths), PipeFault>
    ensures { Gives result (parse text.now) }
{
    let mut parser = Parser::new(alloc);
    let mut rest = text;
    let mut at = 0;
    while let Some(found) = next_token(rest, at) {
        parser = parser.advance(alloc, found.at, found.token)?;
        at = found.end;
        rest = found.rest;
    }
    parser.finish(alloc, text.len())
}

/// The pipeline that a text spells.
///
/// A pipeline is a sequence of feeds with `;` between them, and a `;` after the last means nothing.
/// A feed is places with `|` between them. A place is a path, or `if path { .. }` with a pipeline
/// in the braces, and perhaps `else { .. }` after it. Spaces, tabs, CR and LF may stand round words
/// and signs. A word is a longest run of bytes other than these and `;`, `|`, `{`, `}`. The words
/// `if` and `else` are always keywords, and any other word must be the name of a path. There are at
/// most 64 program places and 64 `if`s, and braces nest at most 64 deep; a 65th level is never what
/// is wrong first, since each level has an `if` of its own.
#[tactic(auto, unfolding(crate::specs::Parser::pipe_of))]
pub fn parse_pipe(alloc: Global, text: &[u8]) -> Result<Pipe, PipeFault>
    // What is answered is what the text spells, and what it spells is answered.
    ensures found { IfOk result (λ pipe. Spells text.now (pipe_tree pipe)) }
    ensures only { (e : PipeTree) →
        Spells text.now e → Gives (result_map pipe_tree result) (Ok e) }

    // A fault is the text's first one, and its first fault is answered.
    ensures fault { IfErr result (λ fault. IsFirstFault text.now (told fault)) }
    ensures first { (f : PipeFault) →
        HasFault text.now f → Gives (result_map pipe_tree result) (Err f) }

    // The same as one definition, for those who compute with it.
    ensures answer { Gives result (pipe_of text.now) }
{
    let (tree, paths) = parse(alloc, text)?;
    let (programs, tests) = paths.into_vecs();
    Ok(Pipe {
        tree,
        programs,
        tests,
    })
}
