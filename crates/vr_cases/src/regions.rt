//! The regions of policies.

ghost use Rattle.std.specs.Prelude.{◌<◌, length, IfOk};
ghost use Rattle.vr_rights.specs.Tables.{IsRegionsOf};

use crate::names::path_of;
use crate::texts::{push_shown, two};
use crate::unanswered::Unanswered;
use std::alloc::Global;
use vr_base::RightsWord;
use vr_policy_check::CheckedPolicy;
use vr_rights::{Holder, Missing, Regions};

/// The region of a path by its name.
fn region_at(alloc: Global, regions: &Regions, name: &str) -> Result<u32, Unanswered>
    ensures { IfOk result (λ region. region < length regions.now.names) }
{
    let path = path_of(alloc, name)?;
    match regions.region_of(&path) {
        Some(region) => Ok(region),
        None => Err(Unanswered::Form),
    }
}

/// `regions POLICY`: the names of the regions in their order.
fn push_regions(told: &mut String, regions: &Regions) -> Result<(), Unanswered> {
    write!(told, "{}", regions.count())?;
    for region in 0..regions.count() {
        told.push_str(" ")?;
        push_shown(told, regions.name_of(region).as_slice())?;
    }
    Ok(())
}

/// `region PATH POLICY`: the name of a path's region.
fn push_region(
    told: &mut String,
    alloc: Global,
    regions: &Regions,
    name: &str,
) -> Result<(), Unanswered> {
    let path = path_of(alloc, name)?;
    match regions.region_of(&path) {
        Some(region) => push_shown(told, regions.name_of(region).as_slice()),
        None => Ok(told.push_str("none")?),
    }
}

/// `quota PATH POLICY`: the quota of a path's region.
fn push_quota(
    told: &mut String,
    alloc: Global,
    regions: &Regions,
    name: &str,
) -> Result<(), Unanswered> {
    match regions.quota_of(region_at(alloc, regions, name)?) {
        Some(bytes) => Ok(write!(told, "{bytes}")?),
        None => Ok(told.push_str("none")?),
    }
}

/// The word of an identity in a region, where there is an identity at the place.
fn word_of_identity(
    policy: &CheckedPolicy,
    regions: &Regions,
    place: u32,
    region: u32,
) -> Option<RightsWord>
    requires regions { IsRegionsOf policy.now regions.now }
    requires region { region < length regions.now.names }
{
    if (place as usize) < policy.policy().identities.as_slice().len() {
        Some(regions.rights_of(Holder::Identity(place), region))
    } else {
        None
    }
}

/// The same of a program.
fn word_of_program(
    policy: &CheckedPolicy,
    regions: &Regions,
    place: u32,
    region: u32,
) -> Option<RightsWord>
    requires regions { IsRegionsOf policy.now regions.now }
    requires region { region < length regions.now.names }
{
    if (place as usize) < policy.policy().programs.as_slice().len() {
        Some(regions.rights_of(Holder::Program(place), region))
    } else {
        None
    }
}

/// What a run of a pipeline by an identity misses, where there are both.
fn missing_in_run(
    policy: &CheckedPolicy,
    regions: &Regions,
    identity: u32,
    pipeline: u32,
) -> Option<Result<(), Missing>>
    requires { IsRegionsOf policy.now regions.now }
{
    let listed = policy.policy();
    if (identity as usize) < listed.identities.as_slice().len()
        && (pipeline as usize) < listed.pipelines.as_slice().len()
    {
        Some(regions.may_run(identity, pipeline))
    } else {
        None
    }
}

fn push_found(told: &mut String, word: Option<RightsWord>) -> Result<(), Unanswered> {
    match word {
        Some(word) => Ok(write!(told, "{}", word.word())?),
        None => Err(Unanswered::Form),
    }
}

/// `identity PLACE PATH POLICY`: the word on a path of the identity at a place of the list.
fn push_identity(
    told: &mut String,
    alloc: Global,
    policy: &CheckedPolicy,
    regions: &Regions,
    words: &str,
) -> Result<(), Unanswered>
    requires { IsRegionsOf policy.now regions.now }
{
    let (place, name) = two(words)?;
    let place = place.parse::<u32>()?;
    let region = region_at(alloc, regions, name)?;
    push_found(told, word_of_identity(policy, regions, place, region))
}

/// `program PLACE PATH POLICY`: the same of the program at a place.
fn push_program(
    told: &mut String,
    alloc: Global,
    policy: &CheckedPolicy,
    regions: &Regions,
    words: &str,
) -> Result<(), Unanswered>
    requires { IsRegionsOf policy.now regions.now }
{
    let (place, name) = two(words)?;
    let place = place.parse::<u32>()?;
    let region = region_at(alloc, regions, name)?;
    push_found(told, word_of_program(policy, regions, place, region))
}

/// `run IDENTITY PIPELINE POLICY`: `may run`, or the first program of the pipeline at a place that the identity at a
/// place may not execute.
fn push_run(
    told: &mut String,
    policy: &CheckedPolicy,
    regions: &Regions,
    words: &str,
) -> Result<(), Unanswered>
    requires { IsRegionsOf policy.now regions.now }
{
    let (identity, pipeline) = two(words)?;
    let identity = identity.parse::<u32>()?;
    match missing_in_run(policy, regions, identity, pipeline.parse::<u32>()?) {
        Some(Ok(())) => Ok(told.push_str("may run")?),
        Some(Err(missing)) => Ok(write!(told, "missing {}", missing.program)?),
        None => Err(Unanswered::Form),
    }
}

/// Adds the answer to a case of the regions of a policy.
pub fn push_answer_of_regions(
    told: &mut String,
    alloc: Global,
    verb: &str,
    words: &str,
    policy: &CheckedPolicy,
) -> Result<(), Unanswered> {
    let regions = Regions::new(alloc, policy)?;
    match verb {
        "regions" => push_regions(told, &regions),
        "region" => push_region(told, alloc, &regions, words),
        "quota" => push_quota(told, alloc, &regions, words),
        "identity" => push_identity(told, alloc, policy, &regions, words),
        "program" => push_program(told, alloc, policy, &regions, words),
        "run" => push_run(told, policy, &regions, words),
        _ => Err(Unanswered::Form),
    }
}
