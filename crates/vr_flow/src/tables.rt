ghost use Rattle.std.specs.Prelude.{◌≡◌, ◌<◌, ◌^◌, length, All, Contains, IfOk, OnOk, Some, slice_get};
ghost use Rattle.vr_flow.specs.Flows.{IsFlow, ArePipelineFlows, AreIdentityFlows, flows_of, at_place};
ghost use Rattle.vr_flow.specs.Holders.{AreProgramFlows};
ghost use Rattle.vr_flow.specs.Places.{IsSet, Adds, words_for};
ghost use Rattle.vr_pipe.specs.Trees.{pipe_tree};
ghost use Rattle.vr_pipe.specs.declared.trees.Tree.{Tree};
ghost use Rattle.vr_policy_check.specs.Rules.{CheckedData};
ghost use Rattle.vr_policy_read.specs.declared.entries.Identity.{Identity};
ghost use Rattle.vr_rights.specs.Flows.{is_among, may_run};
ghost use Rattle.vr_rights.specs.Ordered.{IsOrdered, IsAt};
ghost use Rattle.vr_rights.specs.Tables.{IsRegionsOf, HasEntry};

use crate::flow::Flow;
use crate::holders::{program_flows, word_flow};
use crate::places::PlaceSet;
use std::alloc::Global;
use vr_base::{NoMemory, Path};
use vr_policy_check::CheckedPolicy;
use vr_rights::{Holder, Regions};

/// Whether a name is among paths.
pub fn is_among(paths: &[Path], name: &[u8]) -> bool
    ensures { result ≡ is_among paths.now name.now }
{
    paths.iter().any(|path| path.as_slice() == name)
}

/// The region that a path names.
fn region_named(regions: &Regions, path: &Path) -> u32
    requires ordered { IsOrdered regions.now.names }
    requires named { Contains regions.now.names path.now }
    ensures { IsAt regions.now.names path.now result }
{
    let _name = path.as_slice();
    match regions.region_of(path) {
        Some(region) => region,
        None => unreachable!(),
    }
}

/// Adds the regions that paths name.
fn add_named(set: &mut PlaceSet, regions: &Regions, paths: &[Path])
    requires room { length set.old ≡ words_for (length regions.now.names) }
    requires ordered { IsOrdered regions.now.names }
    requires named { All (Contains regions.now.names) paths.now }
    ensures { Adds (at_place (is_among paths.now) regions.now.names) set.old set.new }
{
    for path in paths {
        set.put(region_named(regions, path), true);
    }
}

/// What the pipeline at a place observes and modifies.
fn pipeline_flow(
    alloc: Global,
    policy: &CheckedPolicy,
    regions: &Regions,
    programs: &[Flow],
    pipeline: u32,
) -> Result<Flow, NoMemory>
    requires regions { IsRegionsOf policy.now regions.now }
    requires programs { AreProgramFlows regions.now (length policy.now.policy.programs)
        programs.now }
    requires pipeline { pipeline < length policy.now.policy.pipelines }
    ensures { let flows = flows_of policy.now regions.now.names in
        IfOk result (IsFlow (length regions.now.names)
        (flows.pipeline_observes pipeline) (flows.pipeline_modifies pipeline)) }
{
    let pipe = policy.pipe(pipeline);
    let mut flow = Flow::new(alloc, regions.count())?;
    add_named(&mut flow.observed, regions, pipe.programs());
    add_named(&mut flow.observed, regions, pipe.tests());
    for (place, program) in policy.policy().programs.as_slice().iter().enumerate() {
        let is_run = is_among(pipe.programs(), program.name.as_slice());
        flow.add(&programs[place], is_run);
    }
    Ok(flow)
}

/// What each pipeline observes and modifies.
pub fn pipeline_flows(
    alloc: Global,
    policy: &CheckedPolicy,
    regions: &Regions,
) -> Result<Vec<Flow>, NoMemory>
    requires { IsRegionsOf policy.now regions.now }
    ensures flows { IfOk result (λ flows.
        ArePipelineFlows policy.now regions.now.names flows.items) }
    ensures few { OnOk result (length policy.now.pipes < 2 ^ 32) }
{
    let programs = policy.policy().programs.as_slice().len();
    let programs = program_flows(alloc, regions, programs as u32)?;
    let count = policy.policy().pipelines.as_slice().len();
    let mut flows = Vec::with_capacity(alloc, count)?;
    for place in 0..count {
        flows.push(pipeline_flow(alloc, policy, regions, &programs, place as u32)?)?;
    }
    Ok(flows)
}

/// Whether an identity may execute a pipeline.
fn may_run(regions: &Regions, identity: u32, pipeline: u32) -> bool
    requires { HasEntry regions.now.missing identity pipeline }
    ensures { (checked : CheckedData) (listed : Identity) (pipe : Tree)
        → IsRegionsOf checked regions.now
        → slice_get checked.policy.identities identity ≡ Some listed
        → slice_get checked.pipes pipeline ≡ Some pipe
        → result ≡ may_run listed (pipe_tree pipe) }
{
    regions.may_run(identity, pipeline).is_ok()
}

/// What the identity at a place observes and modifies, by its words and by the pipelines that it
/// may execute.
fn identity_flow(
    alloc: Global,
    policy: &CheckedPolicy,
    regions: &Regions,
    pipelines: &[Flow],
    identity: u32,
) -> Result<Flow, NoMemory>
    requires regions { IsRegionsOf policy.now regions.now }
    requires pipelines { ArePipelineFlows policy.now regions.now.names pipelines.now }
    requires identity { identity < length policy.now.policy.identities }
    ensures { let flows = flows_of policy.now regions.now.names in
        IfOk result (IsFlow (length regions.now.names)
        (flows.identity_observes identity) (flows.identity_modifies identity)) }
{
    let mut flow = word_flow(alloc, regions, Holder::Identity(identity))?;
    let count = policy.policy().pipelines.as_slice().len();
    for place in 0..count {
        flow.add(&pipelines[place], may_run(regions, identity, place as u32));
    }
    Ok(flow)
}

/// What each identity observes and modifies.
pub fn identity_flows(
    alloc: Global,
    policy: &CheckedPolicy,
    regions: &Regions,
    pipelines: &[Flow],
) -> Result<Vec<Flow>, NoMemory>
    requires regions { IsRegionsOf policy.now regions.now }
    requires pipelines { ArePipelineFlows policy.now regions.now.names pipelines.now }
    ensures flows { IfOk result (λ flows.
        AreIdentityFlows policy.now regions.now.names flows.items) }
    ensures few { OnOk result (length policy.now.policy.identities < 2 ^ 32) }
{
    let count = policy.policy().identities.as_slice().len();
    let mut flows = Vec::with_capacity(alloc, count)?;
    for place in 0..count {
        flows.push(identity_flow(alloc, policy, regions, pipelines, place as u32)?)?;
    }
    Ok(flows)
}

/// Whether some identity may execute a pipeline.
fn is_executable(policy: &CheckedPolicy, regions: &Regions, pipeline: u32) -> bool
    requires regions { IsRegionsOf policy.now regions.now }
    requires pipeline { pipeline < length policy.now.policy.pipelines }
    ensures { result ≡ (flows_of policy.now regions.now.names).is_executable pipeline }
{
    for identity in 0..policy.policy().identities.as_slice().len() {
        if may_run(regions, identity as u32, pipeline) {
            return true;
        }
    }
    false
}

/// The pipelines that some identity may execute.
pub fn executable(
    alloc: Global,
    policy: &CheckedPolicy,
    regions: &Regions,
) -> Result<PlaceSet, NoMemory>
    requires { IsRegionsOf policy.now regions.now }
    ensures { let flows = flows_of policy.now regions.now.names in
        IfOk result (IsSet (length policy.now.pipes) flows.is_executable) }
{
    let count = policy.policy().pipelines.as_slice().len() as u32;
    let mut found = PlaceSet::new(alloc, count)?;
    for pipeline in 0..count {
        found.put(pipeline, is_executable(policy, regions, pipeline));
    }
    Ok(found)
}
