use sqlite_items::Boxed;
use vr_base::Path;

/// What a pipeline does.
#[derive(Debug, Drop)]
pub enum Tree {
    /// Runs the program at a path.
    Program(Path),
    /// `if path { e }`, with `else { e }` where there is a second tree.
    If(Path, Boxed<Tree>, Option<Boxed<Tree>>),
    /// `p | s`: the output of the first is the input of the second.
    Feed(Boxed<Tree>, Boxed<Tree>),
    /// `s ; e`: one after the other.
    Then(Boxed<Tree>, Boxed<Tree>),
}
