ghost use Rattle.std.specs.Prelude.{◌≡◌, ◌<◌, ◌||◌, ◌&&◌, length, IfOk};
ghost use Rattle.vr_flow.specs.Flows.{flows_of};
ghost use Rattle.vr_flow.specs.Reach.{IsReachOf};
ghost use Rattle.vr_pipe.specs.Trees.{pipe_tree, programs_of, tests_of};
ghost use Rattle.vr_rights.specs.Calls.{HasHolder, word_of};
ghost use Rattle.vr_rights.specs.Flows.{is_among, word_observes};
ghost use Rattle.vr_rights.specs.Tables.{IsRegionsOf};

use crate::flows::Flows;
use crate::reaches::Reach;
use crate::tables::is_among;
use crate::words::word_observes;
use std::alloc::Global;
use vr_base::{NoMemory, Path};
use vr_pipe::Pipe;
use vr_policy_check::CheckedPolicy;
use vr_policy_read::Program;
use vr_rights::{Holder, Regions};

/// The reach of the identity at a place. For several identities, `Flows` is made once.
pub fn reach(
    alloc: Global,
    policy: &CheckedPolicy,
    regions: &Regions,
    identity: u32,
) -> Result<Reach, NoMemory>
    requires regions { IsRegionsOf policy.now regions.now }
    requires identity { identity < length policy.now.policy.identities }
    ensures { IfOk result (IsReachOf (flows_of policy.now regions.now.names) identity) }
{
    let flows = Flows::new(alloc, policy, regions)?;
    flows.reach(alloc, identity)
}

/// Whether a pipeline names a region by a program or a test.
fn names_region(pipe: &Pipe, name: &[u8]) -> bool
    ensures { result ≡ (is_among (programs_of (pipe_tree pipe.now)) name.now
        || is_among (tests_of (pipe_tree pipe.now)) name.now) }
{
    is_among(pipe.programs(), name) || is_among(pipe.tests(), name)
}

/// Whether the program at a place is one of these and observes a region.
fn is_observer(
    regions: &Regions,
    paths: &[Path],
    place: u32,
    program: &Program,
    region: u32,
) -> bool
    requires program { HasHolder regions.now (Holder.Program place) }
    requires region { region < length regions.now.names }
    ensures { result ≡ (is_among paths.now program.now.name
        && word_observes (word_of regions.now (Holder.Program place) region)) }
{
    is_among(paths, program.name.as_slice())
        && word_observes(regions.rights_of(Holder::Program(place), region))
}

/// Whether the pipeline at a place observes a region.
pub fn observes(policy: &CheckedPolicy, regions: &Regions, pipeline: u32, region: u32) -> bool
    requires regions { IsRegionsOf policy.now regions.now }
    requires pipeline { pipeline < length policy.now.policy.pipelines }
    requires region { region < length regions.now.names }
    ensures { result
        ≡ (flows_of policy.now regions.now.names).pipeline_observes pipeline region }
{
    let pipe = policy.pipe(pipeline);
    if names_region(pipe, regions.name_of(region).as_slice()) {
        return true;
    }
    let programs = policy.policy().programs.as_slice();
    for (place, program) in programs.iter().enumerate() {
        if is_observer(regions, pipe.programs(), place as u32, program, region) {
            return true;
        }
    }
    false
}
