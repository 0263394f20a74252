//! The rules on whole policies.

use crate::pipelines::push_printed;
use crate::unanswered::Unanswered;
use std::alloc::Global;
use vr_pipe::PipeFault;
use vr_policy_check::{CheckFault, CheckKind, CheckedPolicy, check};
use vr_policy_read::{Policy, read_policy};

fn push_counts(told: &mut String, policy: &Policy) -> Result<(), Unanswered> {
    let identities = policy.identities.as_slice().len();
    let programs = policy.programs.as_slice().len();
    let pipelines = policy.pipelines.as_slice().len();
    let pins = policy.pins.as_slice().len();
    Ok(write!(told, "ok {identities} {programs} {pipelines} {pins}")?)
}

fn push_fault(told: &mut String, fault: CheckFault) -> Result<(), Unanswered> {
    let number = fault.kind.number();
    Ok(write!(told, "{number} {:?} at {}", fault.kind, fault.at)?)
}

/// `check TEXT`: `ok` and how many identities, programs, pipelines and pins a policy has; or the number of the first rule
/// that it breaks, its kind and the index.
pub fn push_check(told: &mut String, alloc: Global, text: &[u8]) -> Result<(), Unanswered> {
    match check(alloc, read_policy(alloc, text)?) {
        Ok(checked) => push_counts(told, checked.policy()),
        Err(fault) => push_fault(told, fault),
    }
}

/// A policy that meets the rules.
pub fn checked(alloc: Global, text: &[u8]) -> Result<CheckedPolicy, Unanswered> {
    Ok(check(alloc, read_policy(alloc, text)?)?)
}

/// `places ID TEXT`: the place of the identity and that of the pipeline with an id.
pub fn push_places(told: &mut String, policy: &CheckedPolicy, id: &str) -> Result<(), Unanswered> {
    let id = id.parse::<u32>()?;
    let identity = policy.identity_place(id);
    let pipeline = policy.pipeline_place(id);
    Ok(write!(told, "identity {identity:?}, pipeline {pipeline:?}")?)
}

/// `piped ID TEXT`: the pipeline with an id, as it is printed.
pub fn push_piped(
    told: &mut String,
    alloc: Global,
    policy: &CheckedPolicy,
    id: &str,
) -> Result<(), Unanswered> {
    match policy.pipeline_place(id.parse::<u32>()?) {
        Some(place) => push_printed(told, alloc, policy.pipe(place)),
        None => Err(Unanswered::Form),
    }
}

/// The kind of broken rules with a name.
fn kind_named(name: &str) -> Option<CheckKind> {
    Some(match name {
        "NoIdentity" => CheckKind::NoIdentity,
        "SameIdentity" => CheckKind::SameIdentity,
        "SameProgram" => CheckKind::SameProgram,
        "SamePipeline" => CheckKind::SamePipeline,
        "SamePin" => CheckKind::SamePin,
        "GrantTwice" => CheckKind::GrantTwice,
        "DirectoryAsProgram" => CheckKind::DirectoryAsProgram,
        "PipeRefused(Word(0))" => CheckKind::PipeRefused(PipeFault::Word(0)),
        "UnlistedProgram" => CheckKind::UnlistedProgram,
        "OutOfMemory" => CheckKind::OutOfMemory,
        _ => return None,
    })
}

/// `rule KIND`: the number of a kind of broken rules.
pub fn push_rule(told: &mut String, name: &str) -> Result<(), Unanswered> {
    match kind_named(name) {
        Some(kind) => Ok(write!(told, "{}", kind.number())?),
        None => Ok(told.push_str("none")?),
    }
}
