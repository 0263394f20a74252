//! What policy files say.

use crate::texts::{push_shown, shown};
use crate::unanswered::Unanswered;
use std::alloc::Global;
use vr_base::Grants;
use vr_policy_read::{
    Identity, Pin, Pipeline, Policy, Program, Quota, ReadFault, policy_hash, read_policy,
};

/// Adds the number, the kind and the index of a fault.
fn push_fault(told: &mut String, fault: ReadFault) -> Result<(), Unanswered> {
    let number = fault.kind.number();
    Ok(write!(told, "{number} {:?} at {}", fault.kind, fault.at)?)
}

fn push_grants(told: &mut String, grants: &Grants) -> Result<(), Unanswered> {
    for (name, word) in grants.as_slice() {
        let name = shown(name.as_slice())?;
        write!(told, " {name}={}", word.word())?;
    }
    told.push_str("; ")?;
    Ok(())
}

fn push_identities(told: &mut String, identities: &[Identity]) -> Result<(), Unanswered> {
    for identity in identities {
        write!(told, "identity {}", identity.id)?;
        push_grants(told, &identity.grants)?;
    }
    Ok(())
}

fn push_programs(told: &mut String, programs: &[Program]) -> Result<(), Unanswered> {
    for program in programs {
        told.push_str("program ")?;
        push_shown(told, program.name.as_slice())?;
        push_grants(told, &program.grants)?;
    }
    Ok(())
}

fn push_pipelines(told: &mut String, pipelines: &[Pipeline]) -> Result<(), Unanswered> {
    for pipeline in pipelines {
        let text = shown(pipeline.text.as_slice())?;
        write!(told, "pipeline {} {text:?}; ", pipeline.id)?;
    }
    Ok(())
}

fn push_pins(told: &mut String, pins: &[Pin]) -> Result<(), Unanswered> {
    for pin in pins {
        let path = shown(pin.path.as_slice())?;
        write!(told, "pin {path} {}; ", shown(&pin.hash)?)?;
    }
    Ok(())
}

fn push_quotas(told: &mut String, quotas: &[Quota]) -> Result<(), Unanswered> {
    for quota in quotas {
        let name = shown(quota.name.as_slice())?;
        write!(told, "quota {name} {}; ", quota.bytes)?;
    }
    Ok(())
}

fn push_said(told: &mut String, policy: &Policy) -> Result<(), Unanswered> {
    push_identities(told, policy.identities.as_slice())?;
    push_programs(told, policy.programs.as_slice())?;
    push_pipelines(told, policy.pipelines.as_slice())?;
    push_pins(told, policy.pins.as_slice())?;
    push_quotas(told, policy.quotas.as_slice())?;
    Ok(write!(told, "pages {}", policy.page_limit())?)
}

/// `policy TEXT`: what a policy says, or its first fault.
pub fn push_policy(told: &mut String, alloc: Global, text: &[u8]) -> Result<(), Unanswered> {
    match read_policy(alloc, text) {
        Ok(policy) => push_said(told, &policy),
        Err(fault) => push_fault(told, fault),
    }
}

/// `reads TEXT`: `a policy`, or the first fault of a text.
pub fn push_reading(told: &mut String, alloc: Global, text: &[u8]) -> Result<(), Unanswered> {
    match read_policy(alloc, text) {
        Ok(_) => Ok(told.push_str("a policy")?),
        Err(fault) => push_fault(told, fault),
    }
}

/// `hash TEXT`: the SHA-256 of a text.
pub fn push_hash(told: &mut String, text: &[u8]) -> Result<(), Unanswered> {
    push_shown(told, &policy_hash(text))
}
