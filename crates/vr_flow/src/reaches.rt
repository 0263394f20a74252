ghost use Rattle.std.specs.Prelude.{◌≡◌};
ghost use Rattle.vr_flow.specs.Places.{has_place};

use crate::places::PlaceSet;
use std::marker::Model;

/// Whose calls can lead to what an identity learns, and over which regions. Contracts see it as
/// the sets of both.
#[derive(Debug, Drop)]
pub struct Reach {
    identities: PlaceSet,
    regions: PlaceSet,
}

impl Model for Reach {
    ghost use Rattle.vr_flow.specs.Reach.{ReachData};

    ghost Value = { ReachData };

    ghost view = { λ reach. record { identities = reach.identities; regions = reach.regions } };
}

impl Reach {
    pub fn new(identities: PlaceSet, regions: PlaceSet) -> Reach
        ensures identities { result.identities ≡ identities }
        ensures regions { result.regions ≡ regions }
    {
        Reach {
            identities,
            regions,
        }
    }

    /// Whether the reach has the identity at a place.
    pub fn has_identity(&self, place: u32) -> bool
        ensures { result ≡ has_place self.now.identities place }
    {
        self.identities.has(place)
    }

    /// Whether the reach has a region.
    pub fn has_region(&self, region: u32) -> bool
        ensures { result ≡ has_place self.now.regions region }
    {
        self.regions.has(region)
    }
}
