ghost use Rattle.std.specs.Prelude.{◌≡◌, ◌&&◌, IfOk};
ghost use Rattle.std.specs.Option.{option_copied};
ghost use Rattle.vr_base.specs.Rights.{word_on, is_longer};
ghost use Rattle.vr_base.specs.Names.{covers};

use crate::memory::NoMemory;
use crate::names::{GrantName, Path};
use crate::rights::RightsWord;
use std::marker::Model;

/// The grants of an identity or a program: names, each with a rights word. Contracts
/// see them as the list of these.
#[derive(Debug, Drop)]
pub struct Grants {
    items: Vec<(GrantName, RightsWord)>,
}

impl Model for Grants {
    ghost use Rattle.std.specs.Prelude.{List, ℕ};

    ghost Value = { List (List ℕ × ℕ) };

    ghost view = { λ grants. grants.items.items };
}

impl Grants {
    /// The grants of a vector, which are not copied.
    pub fn of(items: Vec<(GrantName, RightsWord)>) -> Grants
        ensures { result ≡ items.items }
    {
        Grants { items }
    }

    pub fn as_slice(&self) -> &[(GrantName, RightsWord)]
        ensures { result.now ≡ self.now }
    {
        self.items.as_slice()
    }

    pub fn copy(&self) -> Result<Grants, NoMemory>
        ensures { IfOk result (λ grants. grants ≡ self.now) }
    {
        let mut items = Vec::with_capacity(*self.items.allocator(), self.items.len())?;
        for (name, word) in &self.items {
            items.push((name.copy()?, *word))?;
        }
        Ok(Grants { items })
    }

    /// The word of the longest grant that covers the path, or the empty word. Of grants
    /// with one name the first counts.
    pub fn word_on(&self, path: &Path) -> RightsWord
        ensures { result ≡ word_on path.now self.now }
    {
        let mut best: Option<&(GrantName, RightsWord)> = None;
        for grant in &self.items {
            if is_better(grant, path, best) {
                best = Some(grant);
            }
        }
        match best {
            Some((_, word)) => *word,
            None => RightsWord::new(0),
        }
    }
}

/// Whether a grant covers the path and has a longer name than the best one so far.
fn is_better(
    grant: &(GrantName, RightsWord),
    path: &Path,
    best: Option<&(GrantName, RightsWord)>,
) -> bool
    ensures { result ≡
        (covers grant.now.0 path.now && is_longer (option_copied best.entry) grant.now) }
{
    grant.0.covers(path) && best.is_none_or(|b| b.0.as_slice().len() < grant.0.as_slice().len())
}
