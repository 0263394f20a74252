ghost use Rattle.std.specs.Prelude.{◌≡◌, ◌<◌, length, IfOk};
ghost use Rattle.vr_flow.specs.Flows.{SaysTheSame, tests_of, flows_of};
ghost use Rattle.vr_flow.specs.Reach.{IsReachOf};
ghost use Rattle.vr_rights.specs.Tables.{IsRegionsOf};

use crate::closing::{close, leads, led_by, modifiers, observed_by};
use crate::flow::Flow;
use crate::places::PlaceSet;
use crate::reaches::Reach;
use crate::tables::{executable, identity_flows, pipeline_flows};
use std::alloc::Global;
use std::marker::Model;
use vr_base::NoMemory;
use vr_policy_check::CheckedPolicy;
use vr_rights::Regions;

/// What each identity and each pipeline of a policy observes and modifies. It is made once for a
/// policy, and gives the reach of each of its identities.
#[derive(Debug, Drop)]
pub struct Flows {
    /// For how many regions the sets have room.
    regions: u32,
    identities: Vec<Flow>,
    pipelines: Vec<Flow>,
    /// The pipelines that some identity may execute.
    executable: PlaceSet,
    /// For each pipeline the executable ones that modify what it observes.
    leads: Vec<PlaceSet>,
}

impl Model for Flows {
    ghost use Rattle.vr_flow.specs.Closing.{KeepsFlows};
    ghost use Rattle.vr_flow.specs.Flows.{FlowsData};

    ghost Value = { FlowsData };

    ghost view = { λ f. record {
      identities = f.identities.items;
      pipelines = f.pipelines.items;
      executable = f.executable;
    } };

    ghost invariant = { λ f. KeepsFlows f.regions f.identities.items f.pipelines.items
        f.executable f.leads.items };
}

impl Flows {
    /// The flows of a policy. It takes a look-up for each region and each identity and program, and
    /// two bits of memory for each region and each identity, program and pipeline.
    pub fn new(alloc: Global, policy: &CheckedPolicy, regions: &Regions) -> Result<Flows, NoMemory>
        requires { IsRegionsOf policy.now regions.now }
        ensures same { IfOk result (λ flows.
            SaysTheSame (tests_of flows) (flows_of policy.now regions.now.names)) }
        ensures all { IfOk result (λ flows.
            length flows.identities ≡ length policy.now.policy.identities) }
    {
        let pipelines = pipeline_flows(alloc, policy, regions)?;
        let identities = identity_flows(alloc, policy, regions, &pipelines)?;
        let executable = executable(alloc, policy, regions)?;
        let leads = leads(alloc, &pipelines, &executable)?;
        Ok(Flows {
            regions: regions.count(),
            identities,
            pipelines,
            executable,
            leads,
        })
    }

    /// The reach of the identity at a place.
    pub fn reach(&self, alloc: Global, identity: u32) -> Result<Reach, NoMemory>
        requires { identity < length self.now.identities }
        ensures { IfOk result (IsReachOf (tests_of self.now) identity) }
    {
        let caller = &self.identities[identity as usize];
        let mut led = led_by(alloc, &self.pipelines, &self.executable, &caller.observed)?;
        close(alloc, &mut led, &self.leads)?;
        let regions = observed_by(&caller.observed, &self.pipelines, &led)?;
        let identities = modifiers(alloc, &self.identities, identity, &regions)?;
        Ok(Reach::new(identities, regions))
    }
}
