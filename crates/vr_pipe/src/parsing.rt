ghost use Rattle.std.specs.Prelude.{◌≡◌, ℕ, ◌∷◌, ◌<◌, ◌+◌, ◌^◌, [], None, Some, Ok, Err, nat_lt, length, IfOk, IfSome, MatchOption, OnOk, true, false, List, option_and_then, if◌then◌else◌};
ghost use Rattle.vr_base.specs.Checks.{result_map};
ghost use Rattle.vr_base.specs.Names.{normal_form};
ghost use Rattle.vr_pipe.specs.Faults.{capped, Gives};
ghost use Rattle.vr_pipe.specs.Tokens.{piece_of};
ghost use Rattle.vr_pipe.specs.Found.{nothing_found, word_at, with_program, with_test, before_if};
ghost use Rattle.vr_pipe.specs.Pieces.{closing};
ghost use Rattle.vr_pipe.specs.declared.parsing.Frame.{Frame};
ghost use Rattle.vr_pipe.specs.Parser.{join, close, inside_focus, open_brace, whole_tree, place, after_place, next, end_of, state_with, advance, finish, at_start, state_of, PopsFed, GivesState};

use crate::faults::PipeFault;
use crate::tokens::Token;
use crate::trees::Tree;
use sqlite_items::Boxed;
use std::alloc::Global;
use std::marker::Model;
use vr_base::{NoMemory, Path, PathFault, parse_path};

/// The most program places of a pipeline.
pub const MOST_PROGRAMS: usize = 64;

/// The most `if`s of a pipeline.
pub const MOST_IFS: usize = 64;

/// What stands open round the place that is read.
#[derive(Debug, Drop)]
pub enum Frame {
    /// `p |`
    Fed(Tree),
    /// `s ;`
    Before(Tree),
    /// `if path {`
    Taken(Path),
    /// `if path { e } else {`
    Other(Path, Tree),
}

/// What was read last, inside the open frames.
#[derive(Debug, Drop)]
pub enum Focus {
    /// A place must come.
    Place,
    /// `s ;`: a place may come.
    Ended(Tree),
    /// `if`
    Test,
    /// `if path`
    Opening(Path),
    /// A place that no `else` continues.
    Placed(Tree),
    /// `if path { e }`
    Branch(Path, Tree),
    /// `if path { e } else`
    Otherwise(Path, Tree),
}

/// What a sequence makes whole when it ends: the innermost braces, or the pipeline.
#[derive(Debug, Drop)]
pub enum Closed {
    Whole(Tree),
    Inside(Focus),
}

/// What stands open, seen with the innermost first.
#[derive(Debug, Drop)]
pub struct Frames {
    items: Vec<Frame>,
}

impl Model for Frames {
    ghost use Rattle.std.specs.Prelude.{List, reverse};
    ghost use Rattle.std.specs.Coded.{coded_list};
    ghost use Rattle.vr_pipe.specs.declared.parsing.Frame.{Frame};
    ghost use Rattle.vr_pipe.specs.contracts.parsing.Frame as frames;

    ghost Value = { List Frame };

    ghost coded = { coded_list frames.the_row.coded };

    ghost view = { λ frames. reverse frames.items.items };
}

impl Frames {
    fn new(alloc: Global) -> Frames
        ensures { result ≡ [] }
    {
        Frames {
            items: Vec::new(alloc),
        }
    }

    fn push(&mut self, frame: Frame) -> Result<(), NoMemory>
        ensures { OnOk result (self.new ≡ frame ∷ self.old) }
    {
        self.items.push(frame)?;
        Ok(())
    }

    fn pop(&mut self) -> Option<Frame>
        ensures { MatchOption result ((self.old ≡ []) × (self.new ≡ []))
            (λ frame. self.old ≡ frame ∷ self.new) }
    {
        self.items.pop()
    }

    /// Takes off a place that is fed into what comes next, if one is the innermost.
    fn pop_fed(&mut self) -> Result<Option<Tree>, NoMemory>
        ensures taken { IfOk result (PopsFed self.old self.new) }
        ensures shorter { IfOk result (λ fed. IfSome fed (λ _. length self.new < length self.old)) }
    {
        match self.pop() {
            Some(Frame::Fed(place)) => Ok(Some(place)),
            Some(frame) => {
                self.push(frame)?;
                Ok(None)
            }
            None => Ok(None),
        }
    }
}

/// The paths of the program places and of the `if`s so far.
#[derive(Debug, Drop)]
pub struct Paths {
    pub programs: Vec<Path>,
    pub tests: Vec<Path>,
}

impl Model for Paths {
    ghost use Rattle.vr_pipe.specs.Found.{Found};

    ghost Value = { Found };

    ghost view = { λ paths. record { programs = paths.programs.items; tests = paths.tests.items } };
}

fn capped(at: usize) -> u32
    ensures { result ≡ capped at }
{
    at.min(u32::MAX as usize) as u32
}

fn expected(at: usize) -> PipeFault
    ensures { result ≡ PipeFault.Expected (capped at) }
{
    PipeFault::Expected(capped(at))
}

impl Paths {
    fn new(alloc: Global) -> Paths
        ensures { result ≡ nothing_found }
    {
        Paths {
            programs: Vec::new(alloc),
            tests: Vec::new(alloc),
        }
    }

    pub fn into_vecs(self) -> (Vec<Path>, Vec<Path>)
        ensures programs { result.0.items ≡ self.programs }
        ensures tests { result.1.items ≡ self.tests }
    {
        let Paths { programs, tests } = self;
        (programs, tests)
    }

    fn add_program(&mut self, at: usize, path: &Path) -> Result<(), PipeFault>
        ensures { Gives (result_map (λ _. self.new) result) (with_program at self.old path.now) }
    {
        if self.programs.len() >= MOST_PROGRAMS {
            return Err(PipeFault::TooMany(capped(at)));
        }
        self.programs.push(path.copy()?)?;
        Ok(())
    }

    fn add_test(&mut self, path: &Path) -> Result<(), NoMemory>
        ensures { OnOk result (self.new ≡ with_test self.old path.now) }
    {
        self.tests.push(path.copy()?)?;
        Ok(())
    }

    /// Whether one more `if` may come at an offset.
    fn check_tests(&self, at: usize) -> Result<(), PipeFault>
        ensures { Gives (result_map (λ _. self.now) result) (before_if at self.now) }
    {
        if self.tests.len() >= MOST_IFS {
            return Err(PipeFault::TooMany(capped(at)));
        }
        Ok(())
    }
}

/// The path that a word at an offset stands for.
fn path_at(alloc: Global, at: usize, word: &[u8]) -> Result<Path, PipeFault>
    ensures given { Gives result (word_at at word.now) }
    ensures normal { IfOk result (λ path. path ≡ normal_form word.now) }
{
    match parse_path(alloc, word) {
        Ok(path) => Ok(path),
        Err(PathFault::OutOfMemory) => Err(PipeFault::OutOfMemory),
        Err(_) => Err(PipeFault::Word(capped(at))),
    }
}

/// `p | s`
fn feed(alloc: Global, first: Tree, second: Tree) -> Result<Tree, NoMemory>
    ensures { IfOk result (λ tree. tree ≡ Tree.Feed first second) }
{
    let first = Boxed::new(alloc, first)?;
    let second = Boxed::new(alloc, second)?;
    Ok(Tree::Feed(first, second))
}

/// `s ; e`
fn sequence(alloc: Global, first: Tree, second: Tree) -> Result<Tree, NoMemory>
    ensures { IfOk result (λ tree. tree ≡ Tree.Then first second) }
{
    let first = Boxed::new(alloc, first)?;
    let second = Boxed::new(alloc, second)?;
    Ok(Tree::Then(first, second))
}

/// `if path { taken }`
fn if_then(alloc: Global, path: Path, taken: Tree) -> Result<Tree, NoMemory>
    ensures { IfOk result (λ tree. tree ≡ Tree.If path taken None) }
{
    let taken = Boxed::new(alloc, taken)?;
    Ok(Tree::If(path, taken, None))
}

/// `if path { taken } else { other }`
fn if_else(alloc: Global, path: Path, taken: Tree, other: Tree) -> Result<Tree, NoMemory>
    ensures { IfOk result (λ tree. tree ≡ Tree.If path taken (Some other)) }
{
    let taken = Boxed::new(alloc, taken)?;
    let other = Boxed::new(alloc, other)?;
    Ok(Tree::If(path, taken, Some(other)))
}

/// The feed whose last place this is.
fn join(alloc: Global, last: Tree, frames: &mut Frames) -> Result<Tree, NoMemory>
    ensures { IfOk result (λ tree. join last frames.old ≡ (tree, frames.new)) }
{
    let mut tree = last;
    while let Some(first) = frames.pop_fed()? {
        tree = feed(alloc, first, tree)?;
    }
    Ok(tree)
}

/// What the sequence whose last place this is makes whole.
fn close(alloc: Global, last: Tree, frames: &mut Frames) -> Result<Closed, NoMemory>
    ensures { IfOk result (λ whole. close last frames.old ≡ (whole, frames.new)) }
{
    let mut tree = last;
    while let Some(frame) = frames.pop() {
        match frame {
            Frame::Fed(first) => tree = feed(alloc, first, tree)?,
            Frame::Before(first) => tree = sequence(alloc, first, tree)?,
            Frame::Taken(path) => return Ok(Closed::Inside(Focus::Branch(path, tree))),
            Frame::Other(path, taken) => {
                let place = if_else(alloc, path, taken, tree)?;
                return Ok(Closed::Inside(Focus::Placed(place)));
            }
        }
    }
    Ok(Closed::Whole(tree))
}

/// How far a text was read.
#[derive(Debug, Drop)]
pub struct Parser {
    pub focus: Focus,
    pub frames: Frames,
    pub paths: Paths,
}

/// Where a place must come.
fn place(
    alloc: Global,
    frames: Frames,
    mut paths: Paths,
    at: usize,
    token: Token<'_>,
) -> Result<Parser, PipeFault>
    ensures { let piece = piece_of token.entry in
        GivesState result (state_with at false paths piece (place frames piece)) }
{
    match token {
        Token::Name(word) => {
            let path = path_at(alloc, at, word)?;
            paths.add_program(at, &path)?;
            Ok(Parser {
                focus: Focus::Placed(Tree::Program(path)),
                frames,
                paths,
            })
        }
        Token::If => {
            paths.check_tests(at)?;
            Ok(Parser {
                focus: Focus::Test,
                frames,
                paths,
            })
        }
        _ => Err(expected(at)),
    }
}

/// Where the path of an `if` must come.
fn test_path(
    alloc: Global,
    frames: Frames,
    mut paths: Paths,
    at: usize,
    token: Token<'_>,
) -> Result<Parser, PipeFault>
    ensures { let piece = piece_of token.entry in
        GivesState result (state_with at true paths piece (next Focus.Test frames piece)) }
{
    match token {
        Token::Name(word) => {
            let path = path_at(alloc, at, word)?;
            paths.add_test(&path)?;
            Ok(Parser {
                focus: Focus::Opening(path),
                frames,
                paths,
            })
        }
        _ => Err(expected(at)),
    }
}

/// Where a brace must open.
fn open_brace(
    frame: Frame,
    mut frames: Frames,
    paths: Paths,
    at: usize,
    token: Token<'_>,
) -> Result<Parser, PipeFault>
    ensures { let piece = piece_of token.entry in
        GivesState result (state_with at false paths piece (open_brace frame frames piece)) }
{
    match token {
        Token::Open => {
            frames.push(frame)?;
            Ok(Parser {
                focus: Focus::Place,
                frames,
                paths,
            })
        }
        _ => Err(expected(at)),
    }
}

/// A brace that closes after the last place of a sequence.
fn close_brace(
    alloc: Global,
    last: Tree,
    mut frames: Frames,
    paths: Paths,
    at: usize,
) -> Result<Parser, PipeFault>
    ensures { GivesState result
        (state_with at false paths closing (inside_focus (close last frames))) }
{
    match close(alloc, last, &mut frames)? {
        Closed::Inside(focus) => Ok(Parser {
            focus,
            frames,
            paths,
        }),
        Closed::Whole(_) => Err(expected(at)),
    }
}

/// After a place.
fn after_place(
    alloc: Global,
    last: Tree,
    mut frames: Frames,
    paths: Paths,
    at: usize,
    token: Token<'_>,
) -> Result<Parser, PipeFault>
    ensures { let piece = piece_of token.entry in
        GivesState result (state_with at false paths piece (after_place last frames piece)) }
{
    match token {
        Token::Bar => {
            frames.push(Frame::Fed(last))?;
            Ok(Parser {
                focus: Focus::Place,
                frames,
                paths,
            })
        }
        Token::Semicolon => {
            let first = join(alloc, last, &mut frames)?;
            Ok(Parser {
                focus: Focus::Ended(first),
                frames,
                paths,
            })
        }
        Token::Close => close_brace(alloc, last, frames, paths, at),
        _ => Err(expected(at)),
    }
}

/// After a semicolon.
fn after_semicolon(
    alloc: Global,
    first: Tree,
    mut frames: Frames,
    paths: Paths,
    at: usize,
    token: Token<'_>,
) -> Result<Parser, PipeFault>
    ensures { let piece = piece_of token.entry in
        GivesState result
        (state_with at false paths piece (next (Focus.Ended first) frames piece)) }
{
    match token {
        Token::Close => close_brace(alloc, first, frames, paths, at),
        _ => {
            frames.push(Frame::Before(first))?;
            place(alloc, frames, paths, at, token)
        }
    }
}

/// After the braces of an `if`.
fn after_branch(
    alloc: Global,
    path: Path,
    taken: Tree,
    frames: Frames,
    paths: Paths,
    at: usize,
    token: Token<'_>,
) -> Result<Parser, PipeFault>
    ensures { let piece = piece_of token.entry in
        GivesState result
        (state_with at false paths piece (next (Focus.Branch path taken) frames piece)) }
{
    match token {
        Token::Else => Ok(Parser {
            focus: Focus::Otherwise(path, taken),
            frames,
            paths,
        }),
        _ => {
            let last = if_then(alloc, path, taken)?;
            after_place(alloc, last, frames, paths, at, token)
        }
    }
}

/// The last place of a sequence that ends, if it may end.
fn last_place(alloc: Global, focus: Focus) -> Result<Option<Tree>, NoMemory>
    ensures { IfOk result (λ last. (fs : List Frame) →
        end_of focus fs ≡ option_and_then (λ tree. whole_tree (close tree fs)) last) }
{
    match focus {
        Focus::Ended(first) => Ok(Some(first)),
        Focus::Placed(place) => Ok(Some(place)),
        Focus::Branch(path, taken) => Ok(Some(if_then(alloc, path, taken)?)),
        _ => Ok(None),
    }
}

impl Parser {
    pub fn new(alloc: Global) -> Parser
        ensures { state_of result ≡ at_start }
    {
        Parser {
            focus: Focus::Place,
            frames: Frames::new(alloc),
            paths: Paths::new(alloc),
        }
    }

    /// The state after one more word or sign, which is at an offset.
    pub fn advance(self, alloc: Global, at: usize, token: Token<'_>) -> Result<Parser, PipeFault>
        ensures { let piece = piece_of token.entry in
            GivesState result (advance at (state_of self) piece) }
    {
        let Parser {
            focus,
            frames,
            paths,
        } = self;
        match focus {
            Focus::Place => place(alloc, frames, paths, at, token),
            Focus::Ended(first) => after_semicolon(alloc, first, frames, paths, at, token),
            Focus::Test => test_path(alloc, frames, paths, at, token),
            Focus::Opening(path) => open_brace(Frame::Taken(path), frames, paths, at, token),
            Focus::Placed(last) => after_place(alloc, last, frames, paths, at, token),
            Focus::Branch(path, taken) => {
                after_branch(alloc, path, taken, frames, paths, at, token)
            }
            Focus::Otherwise(path, taken) => {
                open_brace(Frame::Other(path, taken), frames, paths, at, token)
            }
        }
    }

    /// The tree at the end of a text, and the paths in it.
    pub fn finish(self, alloc: Global, end: usize) -> Result<(Tree, Paths), PipeFault>
        ensures { Gives result (finish end self.paths (end_of self.focus self.frames)) }
    {
        let Parser {
            focus,
            mut frames,
            paths,
        } = self;
        let Some(last) = last_place(alloc, focus)? else {
            return Err(expected(end));
        };
        match close(alloc, last, &mut frames)? {
            Closed::Whole(tree) => Ok((tree, paths)),
            Closed::Inside(_) => Err(expected(end)),
        }
    }
}
