ghost use Rattle.std.specs.Prelude.{◌≡◌};
ghost use Rattle.vr_files.specs.Changes.{AreDistinct};

use crate::body::FileBody;
use std::marker::Model;
use vr_base::Path;

/// Changes of files, at most one a path: None takes a file out, and a body makes or replaces it. Contracts see the list.
#[derive(Debug, Drop)]
pub struct Changes {
    items: Vec<(Path, Option<FileBody>)>,
}

impl Model for Changes {
    ghost use Rattle.std.specs.Prelude.{List, ℕ, Option};
    ghost use Rattle.vr_files.specs.Changes.{Change, AreDistinct};

    ghost Value = { List Change };

    ghost view = { λ c. c.items.items };

    ghost invariant = { λ c. AreDistinct c.items.items };
}

impl Changes {
    /// The changes of a vector, which are not copied.
    pub fn of(items: Vec<(Path, Option<FileBody>)>) -> Changes
        requires { AreDistinct items.items }
        ensures { result ≡ items.items }
    {
        Changes { items }
    }

    pub fn as_slice(&self) -> &[(Path, Option<FileBody>)]
        ensures items { result.now ≡ self.now }
        ensures distinct { AreDistinct self.now }
    {
        self.items.as_slice()
    }

    /// The vector of the changes, which are not copied.
    pub fn into_vec(self) -> Vec<(Path, Option<FileBody>)>
        ensures items { result.items ≡ self }
        ensures distinct { AreDistinct self }
    {
        self.items
    }
}
