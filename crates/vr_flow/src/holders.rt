ghost use Rattle.std.specs.Prelude.{◌≡◌, ◌<◌, ◌≤◌, ℕ, length, IfOk};
ghost use Rattle.vr_flow.specs.Flows.{IsFlow};
ghost use Rattle.vr_flow.specs.Holders.{AreProgramFlows, holder_observes, holder_modifies, observed_by_words, modified_by_words};
ghost use Rattle.vr_rights.specs.Calls.{HasHolder, word_of};
ghost use Rattle.vr_rights.specs.Tables.{RegionsData};

use crate::flow::Flow;
use crate::words::{caller_modifies, caller_observes, word_modifies, word_observes};
use std::alloc::Global;
use vr_base::{NoMemory, RightsWord};
use vr_rights::{Holder, Regions};

/// Whether a holder observes a region by its word there.
fn holder_observes(regions: &Regions, holder: Holder, region: u32, word: RightsWord) -> bool
    requires region { region < length regions.now.names }
    requires word { word ≡ word_of regions.now holder region }
    ensures { result ≡ holder_observes regions.now holder region }
{
    match holder {
        Holder::Identity(_) => caller_observes(word, regions.quota_of(region).is_some()),
        Holder::Program(_) => word_observes(word),
    }
}

/// Whether a holder modifies a region by its word there.
fn holder_modifies(holder: Holder, word: RightsWord) -> bool
    ensures { (regions : RegionsData) (region : ℕ) → word ≡ word_of regions holder region
        → result ≡ holder_modifies regions holder region }
{
    match holder {
        Holder::Identity(_) => caller_modifies(word),
        Holder::Program(_) => word_modifies(word),
    }
}

/// What a holder observes and modifies by its words.
pub fn word_flow(alloc: Global, regions: &Regions, holder: Holder) -> Result<Flow, NoMemory>
    requires { HasHolder regions.now holder }
    ensures { IfOk result (IsFlow (length regions.now.names)
        (observed_by_words regions.now holder) (modified_by_words regions.now holder)) }
{
    let count = regions.count();
    let mut flow = Flow::new(alloc, count)?;
    for region in 0..count {
        let word = regions.rights_of(holder, region);
        let observed = holder_observes(regions, holder, region, word);
        let modified = holder_modifies(holder, word);
        flow.observed.put(region, observed);
        flow.modified.put(region, modified);
    }
    Ok(flow)
}

/// What each program observes and modifies.
pub fn program_flows(alloc: Global, regions: &Regions, count: u32) -> Result<Vec<Flow>, NoMemory>
    requires { count ≤ length regions.now.programs }
    ensures { IfOk result (λ flows. AreProgramFlows regions.now count flows.items) }
{
    let mut flows = Vec::with_capacity(alloc, count as usize)?;
    for place in 0..count {
        flows.push(word_flow(alloc, regions, Holder::Program(place))?)?;
    }
    Ok(flows)
}
