ghost use Rattle.std.specs.Prelude.{◌≡◌, ℕ, ◌↔◌, length, slice_index, bit_or, IfOk, IsTrue};
ghost use Rattle.vr_flow.specs.Places.{has_place, nowhere, HasRoom, IsSet, Adds, just, those_of, Meet};

use std::alloc::Global;
use std::marker::Model;
use vr_base::NoMemory;

/// A set of places in a list. Contracts see it as words whose bits are the places.
#[derive(Debug, Drop)]
pub struct PlaceSet {
    words: Vec<u64>,
}

impl Model for PlaceSet {
    ghost use Rattle.std.specs.Prelude.{List, ℕ};

    ghost Value = { List ℕ };

    ghost view = { λ set. set.words.items };
}

impl PlaceSet {
    /// No places, with room for those below a number.
    pub fn new(alloc: Global, count: u32) -> Result<PlaceSet, NoMemory>
        ensures { IfOk result (IsSet count nowhere) }
    {
        let words = vec![in alloc; 0; (count as usize).div_ceil(64)]?;
        Ok(PlaceSet { words })
    }

    pub fn copy(&self) -> Result<PlaceSet, NoMemory>
        ensures { IfOk result (λ copy. copy ≡ self.now) }
    {
        let words = self.words.clone()?;
        Ok(PlaceSet { words })
    }

    pub fn has(&self, place: u32) -> bool
        ensures { result ≡ has_place self.now place }
    {
        let index = place as usize / 64;
        index < self.words.len() && (self.words[index] >> (place % 64)) % 2 == 1
    }

    /// Adds a place, where it is one to add.
    pub fn put(&mut self, place: u32, is_in: bool)
        requires { HasRoom self.old place }
        ensures { Adds (just place is_in) self.old self.new }
    {
        if is_in {
            let index = place as usize / 64;
            self.words[index] = self.words[index] | 1 << (place % 64);
        }
    }

    /// Adds the places of another set, where they are to be added.
    pub fn add(&mut self, other: &PlaceSet, is_in: bool)
        requires { length other.now ≡ length self.old }
        ensures { Adds (those_of other.now is_in) self.old self.new }
    {
        if is_in {
            add_words(&mut self.words, &other.words);
        }
    }

    /// Whether some place is in both sets.
    pub fn meets(&self, other: &PlaceSet) -> bool
        requires { length other.now ≡ length self.now }
        ensures { IsTrue result ↔ Meet self.now other.now }
    {
        words_meet(&self.words, &other.words)
    }
}

/// Whether some word has a bit of the other one at its place.
fn words_meet(words: &[u64], others: &[u64]) -> bool
    requires { length others.now ≡ length words.now }
    ensures { IsTrue result ↔ Meet words.now others.now }
{
    for (index, word) in words.iter().enumerate() {
        if *word & others[index] != 0 {
            return true;
        }
    }
    false
}

/// Adds the places of other words.
fn add_words(words: &mut [u64], others: &[u64])
    requires { length others.now ≡ length words.old }
    ensures room { length words.new ≡ length words.old }
    ensures each { (index : ℕ) → slice_index words.new index
        ≡ bit_or (slice_index words.old index) (slice_index others.now index) }
{
    for (index, word) in words.iter_mut().enumerate() {
        *word = *word | others[index];
    }
}
