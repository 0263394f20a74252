ghost use Rattle.std.specs.Prelude.{◌≡◌, ◌++◌, ◌<◌, ◌^◌, length, IfOk};
ghost use Rattle.vr_flow.specs.Flows.{SaysTheSame, tests_of, flows_of};
ghost use Rattle.vr_report.specs.Flows.{identities_text, regions_text, reach_text, flow_line, HasFlowLines, IsFlowText};

use std::alloc::Global;
use vr_base::{Bytes, NoMemory};
use vr_flow::{Flows, Reach};
use vr_policy_check::CheckedPolicy;
use vr_policy_read::Identity;
use vr_rights::Regions;
use vr_text::Writer;

/// Adds the identities of a reach.
fn write_identities(
    text: Writer,
    identities: &[Identity],
    reach: &Reach,
) -> Result<Writer, NoMemory>
    requires { length identities.now < 2 ^ 32 }
    ensures { IfOk result (λ written.
        written ≡ text ++ identities_text identities.now reach.now) }
{
    let mut text = text;
    for (place, identity) in identities.iter().enumerate() {
        if reach.has_identity(place as u32) {
            text = text.number(identity.id)?;
        }
    }
    Ok(text)
}

/// Adds the regions of a reach.
fn write_regions(text: Writer, regions: &Regions, reach: &Reach) -> Result<Writer, NoMemory>
    ensures { IfOk result (λ written.
        written ≡ text ++ regions_text regions.now.names reach.now) }
{
    let mut text = text;
    for region in 0..regions.count() {
        if reach.has_region(region) {
            text = text.word(regions.name_of(region).as_slice())?;
        }
    }
    Ok(text)
}

/// Adds the identities and the regions of a reach.
#[tactic(auto, using(std::proofs::Common::append_assoc))]
fn write_reach(
    text: Writer,
    identities: &[Identity],
    regions: &Regions,
    reach: &Reach,
) -> Result<Writer, NoMemory>
    requires { length identities.now < 2 ^ 32 }
    ensures { IfOk result (λ written.
        written ≡ text ++ reach_text identities.now regions.now.names reach.now) }
{
    let text = write_identities(text.bytes(b" identities")?, identities, reach)?;
    write_regions(text.bytes(b" regions")?, regions, reach)
}

/// Adds the line of an identity and its reach.
#[tactic(auto, using(std::proofs::Common::append_assoc))]
fn write_flow(
    text: Writer,
    identities: &[Identity],
    regions: &Regions,
    identity: &Identity,
    reach: &Reach,
) -> Result<Writer, NoMemory>
    requires { length identities.now < 2 ^ 32 }
    ensures { IfOk result (λ written. written
        ≡ text ++ flow_line identities.now regions.now.names identity.now reach.now) }
{
    let text = text.bytes(b"flow")?.number(identity.id)?;
    write_reach(text, identities, regions, reach)?.bytes(b"\n")
}

/// The lines of a policy's identities, by its flows.
fn write_flows(
    alloc: Global,
    policy: &CheckedPolicy,
    regions: &Regions,
    flows: &Flows,
) -> Result<Writer, NoMemory>
    requires same { SaysTheSame (tests_of flows.now) (flows_of policy.now regions.now.names) }
    requires all { length flows.now.identities ≡ length policy.now.policy.identities }
    ensures { IfOk result
        (HasFlowLines policy.now regions.now.names (length policy.now.policy.identities)) }
{
    let identities = policy.policy().identities.as_slice();
    let mut text = Writer::new(alloc);
    for (place, identity) in identities.iter().enumerate() {
        let reach = flows.reach(alloc, place as u32)?;
        text = write_flow(text, identities, regions, identity, &reach)?;
    }
    Ok(text)
}

/// A line for each identity of a policy, in the policy's order: whose calls can lead to what it
/// learns, and over which regions. What the policy lets flow is made once for all lines.
pub fn flow_text(alloc: Global, policy: &CheckedPolicy) -> Result<Bytes, NoMemory>
    ensures { IfOk result (IsFlowText policy.now) }
{
    let regions = Regions::new(alloc, policy)?;
    let flows = Flows::new(alloc, policy, &regions)?;
    Ok(write_flows(alloc, policy, &regions, &flows)?.finish())
}
