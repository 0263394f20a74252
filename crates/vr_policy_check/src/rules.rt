ghost use Rattle.std.specs.Prelude.{◌≡◌, ◌<◌, ◌^◌, ℕ, List, All, map, length, IfOk, IfSome, bytes_eq, nat_eq, is_some};
ghost use Rattle.std.specs.Ordering.{nat_cmp};
ghost use Rattle.vr_base.specs.Checks.{result_map};
ghost use Rattle.vr_policy_read.specs.PolicyData.{IsShort, IsWithinLimits};
ghost use Rattle.vr_policy_check.specs.declared.faults.CheckKind.TheVariants.{NoIdentity, SameIdentity, SameProgram, SamePipeline, SamePin, GrantTwice, DirectoryAsProgram, UnlistedProgram};
ghost use Rattle.vr_policy_check.specs.Faults.{Gives};
ghost use Rattle.vr_policy_check.specs.Repeats.{first_repeat};
ghost use Rattle.vr_policy_check.specs.Places.{Indexes, HasNames};
ghost use Rattle.vr_policy_check.specs.Checked.{IsPassed};
ghost use Rattle.vr_policy_check.specs.Rules.{rule, no_identity, same_identity, same_program, same_pipeline, same_pin, grant_twice, directory_as_program, unlisted_among, has_programs, tree_at, trees_from, identity_ids, program_names, pipeline_ids, pin_paths, grant_lists, grant_names, check_of, checked_data};

use crate::faults::{CheckFault, CheckKind};
use crate::places::{Index, index_of};
use std::alloc::{AllocError, Global};
use std::collections::BTreeMap;
use vr_base::{Grants, NoMemory};
use vr_pipe::{Pipe, PipeFault, parse_pipe};
use vr_policy_read::Policy;

/// The place of each id.
pub type Ids = BTreeMap<u32, u32>;

/// The place of each name.
pub type Names<'p> = BTreeMap<&'p [u8], u32>;

/// What a policy that passed the rules gives.
#[derive(Debug, Drop)]
pub struct Passed {
    pub pipes: Vec<Pipe>,
    pub identity_places: Ids,
    pub pipeline_places: Ids,
}

/// Where a rule fails, or that it holds.
fn rule(kind: CheckKind, failing: Option<usize>) -> Result<(), CheckFault>
    requires { IfSome failing (λ at. at < 2 ^ 32) }
    ensures { Gives result (rule kind failing) }
{
    match failing {
        Some(at) => Err(CheckFault {
            kind,
            at: at as u32,
        }),
        None => Ok(()),
    }
}

fn identity_ids(alloc: Global, policy: &Policy) -> Result<Vec<u32>, AllocError>
    ensures ids { IfOk result (λ ids. ids.items ≡ identity_ids policy.now) }
    ensures few { IsShort (identity_ids policy.now) }
{
    let identities = policy.identities.as_slice();
    identities.iter().map(|identity| identity.id).collect(alloc)
}

fn pipeline_ids(alloc: Global, policy: &Policy) -> Result<Vec<u32>, AllocError>
    ensures ids { IfOk result (λ ids. ids.items ≡ pipeline_ids policy.now) }
    ensures few { IsShort (pipeline_ids policy.now) }
{
    let pipelines = policy.pipelines.as_slice();
    pipelines.iter().map(|pipeline| pipeline.id).collect(alloc)
}

fn program_names(alloc: Global, policy: &Policy) -> Result<Vec<&[u8]>, AllocError>
    ensures names { IfOk result (λ names.
        map (λ name. name.now) names.items ≡ program_names policy.now) }
    ensures few { IsShort (program_names policy.now) }
{
    let programs = policy.programs.as_slice();
    programs
        .iter()
        .map(|program| program.name.as_slice())
        .collect(alloc)
}

fn pin_paths(alloc: Global, policy: &Policy) -> Result<Vec<&[u8]>, AllocError>
    ensures paths { IfOk result (λ paths.
        map (λ path. path.now) paths.items ≡ pin_paths policy.now) }
    ensures few { IsShort (pin_paths policy.now) }
{
    let pins = policy.pins.as_slice();
    pins.iter().map(|pin| pin.path.as_slice()).collect(alloc)
}

fn grant_names(alloc: Global, grants: &Grants) -> Result<Vec<&[u8]>, AllocError>
    ensures { IfOk result (λ names.
        map (λ name. name.now) names.items ≡ grant_names grants.now) }
{
    let grants = grants.as_slice();
    grants.iter().map(|grant| grant.0.as_slice()).collect(alloc)
}

/// The place of each id, unless one comes twice.
fn id_places(alloc: Global, ids: &[u32], kind: CheckKind) -> Result<Ids, CheckFault>
    requires { IsShort ids.now }
    ensures rule { Gives (result_map (λ _. tt) result) (rule kind (first_repeat nat_eq ids.now)) }
    ensures places { IfOk result (Indexes nat_cmp ids.now) }
{
    match index_of(alloc, ids)? {
        Index::Places(places) => Ok(places),
        Index::Repeat(at) => Err(CheckFault { kind, at }),
    }
}

/// The place of each name, unless one comes twice.
fn name_places<'p>(
    alloc: Global,
    names: &[&'p [u8]],
    kind: CheckKind,
) -> Result<Names<'p>, CheckFault>
    requires { IsShort names.now }
    ensures rule { Gives (result_map (λ _. tt) result)
        (rule kind (first_repeat bytes_eq (map (λ name. name.now) names.now))) }
    ensures names { IfOk result (HasNames (map (λ name. name.now) names.now)) }
{
    match index_of(alloc, names)? {
        Index::Places(places) => Ok(places),
        Index::Repeat(at) => Err(CheckFault { kind, at }),
    }
}

fn check_some_identity(policy: &Policy) -> Result<(), CheckFault>
    ensures rule { Gives result (rule NoIdentity (no_identity policy.now)) }
    ensures limits { IsWithinLimits policy.now }
{
    if policy.identities.as_slice().is_empty() {
        return rule(CheckKind::NoIdentity, Some(0));
    }
    Ok(())
}

fn check_identities(alloc: Global, policy: &Policy) -> Result<Ids, CheckFault>
    ensures rule { Gives (result_map (λ _. tt) result)
        (rule SameIdentity (same_identity policy.now)) }
    ensures places { IfOk result (Indexes nat_cmp (identity_ids policy.now)) }
{
    let ids = identity_ids(alloc, policy)?;
    id_places(alloc, &ids, CheckKind::SameIdentity)
}

fn check_program_names<'p>(alloc: Global, policy: &'p Policy) -> Result<Names<'p>, CheckFault>
    ensures rule { Gives (result_map (λ _. tt) result)
        (rule SameProgram (same_program policy.now)) }
    ensures names { IfOk result (HasNames (program_names policy.now)) }
{
    let names = program_names(alloc, policy)?;
    name_places(alloc, &names, CheckKind::SameProgram)
}

fn check_pipelines(alloc: Global, policy: &Policy) -> Result<Ids, CheckFault>
    ensures rule { Gives (result_map (λ _. tt) result)
        (rule SamePipeline (same_pipeline policy.now)) }
    ensures places { IfOk result (Indexes nat_cmp (pipeline_ids policy.now)) }
{
    let ids = pipeline_ids(alloc, policy)?;
    id_places(alloc, &ids, CheckKind::SamePipeline)
}

fn check_pins(alloc: Global, policy: &Policy) -> Result<(), CheckFault>
    ensures { Gives result (rule SamePin (same_pin policy.now)) }
{
    let paths = pin_paths(alloc, policy)?;
    name_places(alloc, &paths, CheckKind::SamePin)?;
    Ok(())
}

/// The lists of grants: the identities', then the programs'.
fn grant_lists(alloc: Global, policy: &Policy) -> Result<Vec<&Grants>, AllocError>
    ensures lists { IfOk result (λ lists.
        map (λ grants. grants.now) lists.items ≡ grant_lists policy.now) }
    ensures few { All IsShort (grant_lists policy.now) }
    ensures count { length (grant_lists policy.now) < 2 ^ 32 }
{
    let identities = policy.identities.as_slice();
    let programs = policy.programs.as_slice();
    identities
        .iter()
        .map(|identity| &identity.grants)
        .chain(programs.iter().map(|program| &program.grants))
        .collect(alloc)
}

/// Whether a list of grants has one name twice.
fn has_repeat(alloc: Global, grants: &Grants) -> Result<bool, AllocError>
    requires { IsShort grants.now }
    ensures { IfOk result (λ repeats.
        repeats ≡ is_some (first_repeat bytes_eq (grant_names grants.now))) }
{
    let names = grant_names(alloc, grants)?;
    match index_of(alloc, &names)? {
        Index::Places(_) => Ok(false),
        Index::Repeat(_) => Ok(true),
    }
}

fn check_grants(alloc: Global, policy: &Policy) -> Result<(), CheckFault>
    ensures { Gives result (rule GrantTwice (grant_twice policy.now)) }
{
    let lists = grant_lists(alloc, policy)?;
    for (at, grants) in lists.iter().enumerate() {
        if has_repeat(alloc, grants)? {
            return rule(CheckKind::GrantTwice, Some(at));
        }
    }
    Ok(())
}

fn check_program_files(policy: &Policy) -> Result<(), CheckFault>
    ensures { Gives result (rule DirectoryAsProgram (directory_as_program policy.now)) }
{
    let programs = policy.programs.as_slice();
    let directory = programs.iter().position(|program| program.name.is_dir());
    rule(CheckKind::DirectoryAsProgram, directory)
}

fn parse_at(alloc: Global, text: &[u8], at: usize) -> Result<Pipe, CheckFault>
    requires { at < 2 ^ 32 }
    ensures { Gives result (tree_at at text.now) }
{
    match parse_pipe(alloc, text) {
        Ok(pipe) => Ok(pipe),
        Err(PipeFault::OutOfMemory) => Err(CheckFault::from(NoMemory)),
        Err(fault) => Err(CheckFault {
            kind: CheckKind::PipeRefused(fault),
            at: at as u32,
        }),
    }
}

/// The pipelines that the policy's texts spell.
fn parse_pipes(alloc: Global, policy: &Policy) -> Result<Vec<Pipe>, CheckFault>
    ensures { Gives (result_map (λ pipes. pipes.items) result) (trees_from 0 policy.now.pipelines) }
{
    let pipelines = policy.pipelines.as_slice();
    let mut pipes = Vec::with_capacity(alloc, pipelines.len())?;
    for (at, pipeline) in pipelines.iter().enumerate() {
        pipes.push(parse_at(alloc, pipeline.text.as_slice(), at)?)?;
    }
    Ok(pipes)
}

/// Whether each program of a pipeline is one of the policy's.
fn has_programs(pipe: &Pipe, listed: &Names<'_>) -> bool
    ensures { (names : List (List ℕ)) → HasNames names listed.now →
        result ≡ has_programs names pipe.now }
{
    let programs = pipe.programs();
    programs
        .iter()
        .all(|path| listed.contains_key(path.as_slice()))
}

fn check_listed(pipes: &[Pipe], listed: &Names<'_>) -> Result<(), CheckFault>
    requires { IsShort pipes.now }
    ensures { (names : List (List ℕ)) → HasNames names listed.now →
        Gives result (rule UnlistedProgram (unlisted_among names pipes.now)) }
{
    let unlisted = pipes.iter().position(|pipe| !has_programs(pipe, listed));
    rule(CheckKind::UnlistedProgram, unlisted)
}

/// Checks the rules in their order.
pub fn check_rules(alloc: Global, policy: &Policy) -> Result<Passed, CheckFault>
    ensures answer { Gives
        (result_map (λ passed. checked_data policy.now passed.pipes.items) result)
        (check_of policy.now) }
    ensures passed { IfOk result (λ passed.
        IsPassed policy.now passed.identity_places passed.pipeline_places) }
{
    check_some_identity(policy)?;
    let identity_places = check_identities(alloc, policy)?;
    let listed = check_program_names(alloc, policy)?;
    let pipeline_places = check_pipelines(alloc, policy)?;
    check_pins(alloc, policy)?;
    check_grants(alloc, policy)?;
    check_program_files(policy)?;
    let pipes = parse_pipes(alloc, policy)?;
    check_listed(&pipes, &listed)?;
    Ok(Passed {
        pipes,
        identity_places,
        pipeline_places,
    })
}
