ghost use Rattle.std.specs.Prelude.{◌≡◌, not};
ghost use Rattle.std.specs.List.{list_any};
ghost use Rattle.vr_keeper.specs.Keepers.{has_no_name};

use std::marker::Model;
use vr_base::Bytes;

/// Names with the bytes that are kept under them. Contracts see the list.
#[derive(Debug, Drop)]
pub struct Rows {
    items: Vec<(Bytes, Bytes)>,
}

impl Model for Rows {
    ghost use Rattle.std.specs.Prelude.{List, ℕ};

    ghost Value = { List (List ℕ × List ℕ) };

    ghost view = { λ r. r.items.items };
}

impl Rows {
    /// The rows of a vector, which are not copied.
    pub fn of(items: Vec<(Bytes, Bytes)>) -> Rows
        ensures { result ≡ items.items }
    {
        Rows { items }
    }

    pub fn as_slice(&self) -> &[(Bytes, Bytes)]
        ensures { result.now ≡ self.now }
    {
        self.items.as_slice()
    }

    /// The vector of the rows, which are not copied.
    pub fn into_vec(self) -> Vec<(Bytes, Bytes)>
        ensures { result.items ≡ self }
    {
        self.items
    }

    /// Whether each row has a name, so that a keeper that gave them is ready for changes.
    pub fn have_names(&self) -> bool
        ensures { result ≡ not (list_any has_no_name self.now) }
    {
        for (name, _) in self.items.as_slice() {
            if name.as_slice().is_empty() {
                return false;
            }
        }
        true
    }
}
