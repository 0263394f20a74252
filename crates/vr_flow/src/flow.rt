ghost use Rattle.std.specs.Prelude.{◌≡◌, length, IfOk};
ghost use Rattle.vr_flow.specs.Places.{nowhere, Adds, those_of};

use crate::places::PlaceSet;
use std::alloc::Global;
use vr_base::NoMemory;

/// What an identity, a program or a pipeline observes and modifies, by the numbers of regions.
#[derive(Debug, Drop)]
pub struct Flow {
    pub observed: PlaceSet,
    pub modified: PlaceSet,
}

impl Flow {
    ghost use Rattle.vr_flow.specs.Flows.{IsFlow};

    /// A flow of nothing, with room for so many regions.
    pub fn new(alloc: Global, regions: u32) -> Result<Flow, NoMemory>
        ensures { IfOk result (IsFlow regions nowhere nowhere) }
    {
        let observed = PlaceSet::new(alloc, regions)?;
        let modified = PlaceSet::new(alloc, regions)?;
        Ok(Flow { observed, modified })
    }

    /// Adds what another one observes and modifies, where it is to be added.
    pub fn add(&mut self, other: &Flow, is_in: bool)
        requires observed { length other.now.observed ≡ length self.old.observed }
        requires modified { length other.now.modified ≡ length self.old.modified }
        ensures observed { Adds (those_of other.now.observed is_in)
            self.old.observed self.new.observed }
        ensures modified { Adds (those_of other.now.modified is_in)
            self.old.modified self.new.modified }
    {
        self.observed.add(&other.observed, is_in);
        self.modified.add(&other.modified, is_in);
    }
}
