//! What code may name at a place, beside the index spaces of its module.

ghost use Rattle.std.specs.Prelude.{◌≡◌, ◌++◌, ◌↔◌, slice_get, IsTrue};
ghost use Rattle.vr_wasm_valid.specs.Context.{result_of};
ghost use Rattle.vr_wasm_valid.specs.Scope.{context_in};

use crate::spaces::IndexSpaces;
use sqlite_items::Items;
use std::alloc::Global;
use vr_wasm_ast::{FuncType, ValType};

/// The locals and the result of a function, and what a branch to each open
/// block wants, the innermost last.
#[derive(Drop)]
pub struct Scope<'m> {
    pub alloc: Global,
    pub spaces: &'m IndexSpaces<'m>,
    pub params: &'m Items<ValType>,
    pub declared: &'m Items<ValType>,
    pub returns: Option<ValType>,
    pub labels: Items<Option<ValType>>,
}

/// `==`, with its answer as one fact.
pub fn same_type(one: Option<ValType>, two: Option<ValType>) -> bool
    ensures { IsTrue result ↔ (one ≡ two) }
{
    match (one, two) {
        (None, None) => true,
        (Some(a), Some(b)) => a == b,
        _ => false,
    }
}

/// The result of a function, which has one at most.
pub fn result_type(sort: &FuncType) -> Option<ValType>
    ensures { result ≡ result_of sort.now }
{
    sort.results.get(0).copied()
}

impl Scope<'_> {
    /// The type of a local: the parameters come first.
    pub fn local_type(&self, local: u32) -> Option<ValType>
        ensures { result ≡ slice_get (context_in self.now).locals local }
    {
        let local = local as usize;
        let params = self.params.len();
        if local < params {
            self.params.get(local).copied()
        } else {
            self.declared.get(local - params).copied()
        }
    }

    /// What a branch to a label wants, if there is such a label. Label 0 is
    /// that of the innermost block.
    pub fn label(&self, label: u32) -> Option<Option<ValType>>
        ensures { result ≡ slice_get (context_in self.now).labels label }
    {
        let label = label as usize;
        if label < self.labels.len() {
            self.labels.get(self.labels.len() - 1 - label).copied()
        } else {
            None
        }
    }
}
