ghost use Rattle.std.specs.Prelude.{◌≡◌, ◌<◌, ◌≤◌, [], length, All, Contains, IfOk, IsPermutation, slice_index_or};
ghost use Rattle.vr_base.specs.Rights.{has_bit, execute};
ghost use Rattle.vr_rights.specs.Holders.{grants_at, AreWordsOf, IsWordAt};
ghost use Rattle.vr_rights.specs.Kept.{missing_place};
ghost use Rattle.vr_rights.specs.Words.{word_in};

use crate::names::Names;
use std::alloc::Global;
use std::marker::Model;
use vr_base::{EXECUTE, Grants, NoMemory, Right, RightsWord};

/// The grants of an identity or a program, each as its word at the place of the
/// name, in the order of the places.
#[derive(Debug, Drop)]
pub struct Words {
    items: Vec<(u32, RightsWord)>,
}

impl Model for Words {
    ghost use Rattle.std.specs.Prelude.{List, ℕ};
    ghost use Rattle.vr_rights.specs.Holders.{IsRising};

    ghost Value = { List (ℕ × ℕ) };

    ghost view = { λ words. words.items.items };

    ghost invariant = { λ words. IsRising words.items.items };
}

impl Words {
    /// The words of grants, whose names are among these.
    pub fn new(alloc: Global, names: &Names, grants: &Grants) -> Result<Words, NoMemory>
        requires { All (λ grant. Contains names.now grant.0) grants.now }
        ensures same { IfOk result (λ words.
            IsPermutation grants.now (grants_at names.now words)) }
        ensures known { IfOk result (λ words. All (λ word. word.0 < length names.now) words) }
    {
        let grants = grants.as_slice();
        let mut items = Vec::with_capacity(alloc, grants.len())?;
        for (name, word) in grants {
            items.push((names.place_of(name.as_slice()), *word))?;
        }
        items.sort_unstable_by_key(|item| item.0);
        Ok(Words { items })
    }

    /// The word at a place, where a grant names it.
    pub fn at(&self, place: u32) -> Option<RightsWord>
        ensures { IsWordAt self.now place result }
    {
        match self.items.binary_search_by_key(&place, |item| item.0) {
            Ok(index) => Some(self.items[index].1),
            Err(_) => None,
        }
    }

    /// The word in the region at a place: that of the longest grant that includes it.
    pub fn word_in(&self, names: &Names, region: u32) -> RightsWord
        requires words { AreWordsOf names.now self.now }
        requires region { region < length names.now }
        ensures { result
            ≡ word_in (slice_index_or names.now region []) (grants_at names.now self.now) }
    {
        let mut at = Some(region);
        while let Some(place) = at {
            if let Some(word) = self.at(place) {
                return word;
            }
            at = names.outer(place);
        }
        RightsWord::new(0)
    }

    /// The first of some regions in which the word lacks the right to execute.
    pub fn missing_place(&self, names: &Names, regions: &[u32]) -> Option<u32>
        requires words { AreWordsOf names.now self.now }
        requires regions { All (λ region. region < length names.now) regions.now }
        requires few { length regions.now ≤ 64 }
        ensures { result ≡ missing_place names.now self.now regions.now }
    {
        for (place, region) in regions.iter().enumerate() {
            if !may_execute(self.word_in(names, *region)) {
                return Some(place as u32);
            }
        }
        None
    }
}

/// Whether a word has the right to execute.
fn may_execute(word: RightsWord) -> bool
    ensures { result ≡ has_bit word execute }
{
    Right::new(EXECUTE).is_some_and(|right| word.has(right))
}
