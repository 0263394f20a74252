ghost use Rattle.std.specs.Prelude.{IfOk};
ghost use Rattle.vr_policy_read.specs.PolicyData.{IsShort};
ghost use Rattle.vr_policy_check.specs.Places.{IsIndexOf};

use std::alloc::{AllocError, Global};
use std::collections::BTreeMap;

/// The keys of a list, each with its place, or the first place of a key that stands before it.
#[derive(Debug, Drop)]
pub enum Index<K: Ord> {
    Places(BTreeMap<K, u32>),
    Repeat(u32),
}

/// The index of a list's keys.
pub fn index_of<K: Ord + Copy + Drop>(alloc: Global, keys: &[K]) -> Result<Index<K>, AllocError>
    requires { IsShort keys.now }
    ensures { IfOk result (IsIndexOf K.cmp keys.now) }
{
    let mut places = BTreeMap::new(alloc);
    for (at, key) in keys.iter().enumerate() {
        if places.insert(*key, at as u32)?.is_some() {
            return Ok(Index::Repeat(at as u32));
        }
    }
    Ok(Index::Places(places))
}
