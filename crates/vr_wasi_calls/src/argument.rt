//! A program's one argument.

ghost use Rattle.std.specs.Prelude.{◌≡◌, ◌∷◌, ◌++◌, [], IfOk};

use std::alloc::Global;
use std::marker::Model;
use vr_base::{Bytes, NoMemory, Path};

/// A program's path, with the text that it is told of it beside it. Contracts see it as the path.
#[derive(Drop)]
pub struct Argument {
    path: Path,
    text: Bytes,
}

impl Model for Argument {
    ghost use Rattle.std.specs.Prelude.{◌≡◌, ◌∷◌, ◌++◌, [], List, ℕ};

    ghost Value = { List ℕ };

    ghost view = { λ argument. argument.path };

    ghost invariant = { λ argument. argument.text ≡ argument.path ++ 0 ∷ [] };
}

impl Argument {
    pub fn new(alloc: Global, path: Path) -> Result<Argument, NoMemory>
        ensures { IfOk result (λ argument. argument ≡ path) }
    {
        let mut text = Bytes::from_slice(alloc, path.as_slice())?;
        text.push_slice(&[0])?;
        Ok(Argument { path, text })
    }

    /// The path and a zero after it.
    pub fn text(&self) -> &[u8]
        ensures { result.now ≡ self.now ++ 0 ∷ [] }
    {
        self.text.as_slice()
    }
}
