ghost use Rattle.std.specs.Prelude.{◌≡◌, ◌<◌, ◌^◌, length, All, Contains, bytes_eq, refl, Some, [], slice_index_or, IfOk, IfSome, MatchResult};
ghost use Rattle.std.specs.Cmp.{partial_equiv_from_equiv};
ghost use Rattle.std.specs.Cmp.Lexicographic.{slice_cmp, nat_list_eq_equiv, nat_list_cmp_total, texts_ties, texts_po};
ghost use Rattle.std.specs.Ordering.{nat_cmp};
ghost use Rattle.vr_rights.specs.Regions.{encloses, IsOuter, region_number};
ghost use Rattle.vr_rights.specs.Ordered.{IsOrdered, AreOuter, KeepsNames, Reaches, IsAt, IsAfter, before};

use std::alloc::Global;
use std::cmp::Ordering;
use std::marker::Model;
use vr_base::{GrantName, NoMemory, Path};

/// A name of the policy, in the order of names, which is that of their bytes.
/// Contracts see it as its bytes.
#[derive(Debug, Drop)]
pub struct Name {
    name: GrantName,
}

impl Model for Name {
    ghost use Rattle.std.specs.Prelude.{List, ℕ};

    ghost Value = { List ℕ };

    ghost view = { λ name. name.name };
}

impl Name {
    pub fn new(name: GrantName) -> Name
        ensures { result ≡ name }
    {
        Name { name }
    }

    pub fn as_name(&self) -> &GrantName
        ensures { result.now ≡ self.now }
    {
        &self.name
    }

    fn as_slice(&self) -> &[u8]
        ensures { result.now ≡ self.now }
    {
        self.name.as_slice()
    }
}

impl PartialEq for Name {
    ghost eq = { bytes_eq };

    ghost laws = { partial_equiv_from_equiv nat_list_eq_equiv };

    fn eq(&self, other: &Name) -> bool {
        self.as_slice() == other.as_slice()
    }
}

impl Eq for Name {
    ghost laws = { nat_list_eq_equiv };
}

impl PartialOrd for Name {
    ghost partial_cmp = { λ a b. Some (slice_cmp nat_cmp a b) };

    ghost laws = { texts_po };

    fn partial_cmp(&self, other: &Name) -> Option<Ordering> {
        Some(self.cmp(other))
    }
}

impl Ord for Name {
    ghost cmp = { slice_cmp nat_cmp };

    ghost total = { nat_list_cmp_total };

    ghost matches_partial_cmp = { λ a b. refl };

    ghost matches_eq = { texts_ties };

    fn cmp(&self, other: &Name) -> Ordering {
        self.as_slice().cmp(other.as_slice())
    }
}

/// The names of a policy, each once, in the order of their bytes. Contracts see
/// them as the list of their bytes.
#[derive(Debug, Drop)]
pub struct Names {
    names: Vec<Name>,
    /// For each name the place of the longest one that encloses it, where there is one.
    outer: Vec<Option<u32>>,
}

impl Model for Names {
    ghost use Rattle.std.specs.Prelude.{List, ℕ};
    ghost use Rattle.vr_rights.specs.Ordered.{KeepsNames};

    ghost Value = { List (List ℕ) };

    ghost view = { λ names. names.names.items };

    ghost invariant = { λ names. KeepsNames names.names.items names.outer.items };
}

/// Whether a directory encloses a name.
fn encloses(directory: &[u8], name: &[u8]) -> bool
    ensures { result ≡ encloses directory.now name.now }
{
    directory.ends_with(b"/") && name.starts_with(directory) && directory.len() < name.len()
}

/// The longest of the names that enclose a name, where each of them includes the name at `from`.
fn nearest(names: &[Name], outer: &[Option<u32>], from: Option<u32>, name: &[u8]) -> Option<u32>
    requires ordered { IsOrdered names.now }
    requires outer { AreOuter names.now outer.now }
    requires from { Reaches names.now (length outer.now) name.now from }
    ensures { IsOuter names.now name.now result }
{
    let mut at = from;
    while let Some(place) = at {
        if encloses(names[place as usize].as_slice(), name) {
            return Some(place);
        }
        at = outer[place as usize];
    }
    None
}

/// The place before one, where there is one.
fn place_before(place: usize) -> Option<u32>
    requires { place < 2 ^ 32 }
    ensures { result ≡ before place }
{
    if place > 0 {
        Some((place - 1) as u32)
    } else {
        None
    }
}

/// For each name, the place of the longest one that encloses it.
fn outer_places(alloc: Global, names: &[Name]) -> Result<Vec<Option<u32>>, NoMemory>
    requires { IsOrdered names.now }
    ensures { IfOk result (λ outer. KeepsNames names.now outer.items) }
{
    // Numbers have 32 bits; so many names would not be in memory.
    if names.len() > u32::MAX as usize {
        return Err(NoMemory);
    }
    let mut outer = Vec::with_capacity(alloc, names.len())?;
    for (place, name) in names.iter().enumerate() {
        let found = nearest(names, &outer, place_before(place), name.as_slice());
        outer.push(found)?;
    }
    Ok(outer)
}

impl Names {
    /// The names in their order, each once.
    pub fn new(alloc: Global, mut names: Vec<Name>) -> Result<Names, NoMemory>
        ensures ordered { IfOk result IsOrdered }
        ensures all { IfOk result (λ sorted. All (Contains sorted) names.items) }
        ensures only { IfOk result (λ sorted. All (Contains names.items) sorted) }
    {
        names.sort_unstable();
        names.dedup();
        let outer = outer_places(alloc, &names)?;
        Ok(Names { names, outer })
    }

    pub fn len(&self) -> usize
        ensures length { result ≡ length self.now }
        ensures few { length self.now < 2 ^ 32 }
        ensures ordered { IsOrdered self.now }
    {
        self.names.len()
    }

    /// The name at a place.
    pub fn name(&self, place: u32) -> &GrantName
        requires { place < length self.now }
        ensures { result.now ≡ slice_index_or self.now place [] }
    {
        self.names[place as usize].as_name()
    }

    /// The place of the longest name that encloses the one at a place.
    pub fn outer(&self, place: u32) -> Option<u32>
        requires { place < length self.now }
        ensures outer { IsOuter self.now (slice_index_or self.now place []) result }
        ensures ordered { IsOrdered self.now }
    {
        self.outer[place as usize]
    }

    /// The place of a name, or of the first one that comes after it.
    fn search(&self, name: &[u8]) -> Result<usize, usize>
        ensures found { MatchResult result (IsAt self.now name.now) (IsAfter self.now name.now) }
        ensures few { length self.now < 2 ^ 32 }
    {
        self.names.binary_search_by(
            |listed: &Name| -> Ordering
                ensures { result ≡ slice_cmp nat_cmp listed.now name.entry.now }
            { listed.as_slice().cmp(name) },
        )
    }

    /// The place of a name, which is one of these.
    pub fn place_of(&self, name: &[u8]) -> u32
        requires { Contains self.now name.now }
        ensures { IsAt self.now name.now result }
    {
        match self.search(name) {
            Ok(place) => place as u32,
            Err(_) => unreachable!(),
        }
    }

    /// The place of the longest name that covers a path.
    pub fn region_of(&self, path: &Path) -> Option<u32>
        ensures region { result ≡ region_number self.now path.now }
        ensures within { IfSome result (λ place. place < length self.now) }
    {
        match self.search(path.as_slice()) {
            Ok(place) => Some(place as u32),
            Err(place) => {
                let before = place_before(place);
                nearest(&self.names, &self.outer, before, path.as_slice())
            }
        }
    }
}
