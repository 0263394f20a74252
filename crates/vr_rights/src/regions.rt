ghost use Rattle.std.specs.Prelude.{◌≡◌, ◌<◌, [], length, map, slice_index_or, None, IfOk, IfSome, All, Contains};
ghost use Rattle.std.specs.List.{AllZip};
ghost use Rattle.vr_pipe.specs.Trees.{pipe_tree, programs_of};
ghost use Rattle.vr_rights.specs.Calls.{HasHolder, word_of, run_answer};
ghost use Rattle.vr_rights.specs.Kept.{IsHolder, ArePlaces, least_with};
ghost use Rattle.vr_rights.specs.Quotas.{quota_of};
ghost use Rattle.vr_rights.specs.Regions.{region_number};
ghost use Rattle.vr_rights.specs.Tables.{IsRegionsOf, HasOneWord, HasEntry, entry_of};

use crate::collecting::{Granted, policy_names};
use crate::names::Names;
use crate::words::Words;
use std::alloc::Global;
use std::marker::Model;
use vr_base::{GrantName, NoMemory, Path, RightsWord};
use vr_policy_check::CheckedPolicy;
use vr_policy_read::Quota;

/// A holder of grants, by its place in the policy's list.
#[derive(Clone, Copy, Debug, PartialEq, Eq)]
pub enum Holder {
    Identity(u32),
    Program(u32),
}

/// The first of a pipeline's program places, counted from 0 in the order of the text, that
/// an identity may not execute.
#[derive(Clone, Copy, Debug, PartialEq, Eq)]
pub struct Missing {
    pub program: u32,
}

/// The regions of a policy, which are its names: a path lies in the region of the longest name
/// that covers it. Regions are numbered in the order of the bytes of their names. Contracts see
/// them as tables of what they tell.
#[derive(Debug, Drop)]
pub struct Regions {
    names: Names,
    identities: Vec<Words>,
    programs: Vec<Words>,
    /// For each pipeline the regions of its program places.
    pipelines: Vec<Vec<u32>>,
    /// For each region its quota.
    quotas: Vec<Option<u64>>,
}

impl Model for Regions {
    ghost use Rattle.std.specs.Prelude.{map};
    ghost use Rattle.vr_rights.specs.Kept.{tables_of, KeepsRegions};
    ghost use Rattle.vr_rights.specs.Tables.{RegionsData};

    ghost Value = { RegionsData };

    ghost view = { λ r. tables_of r.names r.identities.items r.programs.items
        (map (λ places. places.items) r.pipelines.items) r.quotas.items };

    ghost invariant = { λ r. KeepsRegions r.names r.identities.items r.programs.items
        (map (λ places. places.items) r.pipelines.items) r.quotas.items };
}

/// The words of holders, all of whose grants name one of the regions.
fn words_of<H: Granted>(alloc: Global, names: &Names, holders: &[H]) -> Result<Vec<Words>, NoMemory>
    requires { All (λ holder. All (λ grant. Contains names.now grant.0) (H.grants holder))
        holders.now }
    ensures { IfOk result (λ all. AllZip
        (λ holder words. IsHolder names.now (H.grants holder) words)
        holders.now all.items) }
{
    let mut all = Vec::with_capacity(alloc, holders.len())?;
    for holder in holders {
        all.push(Words::new(alloc, names, holder.grants())?)?;
    }
    Ok(all)
}

/// The places of paths, which are among the names.
fn places_of(alloc: Global, names: &Names, paths: &[Path]) -> Result<Vec<u32>, NoMemory>
    requires { All (Contains names.now) paths.now }
    ensures { IfOk result (λ places. ArePlaces names.now paths.now places.items) }
{
    let mut places = Vec::with_capacity(alloc, paths.len())?;
    for path in paths {
        places.push(names.place_of(path.as_slice()))?;
    }
    Ok(places)
}

/// For each pipeline the regions of its program places.
fn program_places(
    alloc: Global,
    names: &Names,
    policy: &CheckedPolicy,
) -> Result<Vec<Vec<u32>>, NoMemory>
    requires { All (λ pipe. All (Contains names.now) (programs_of (pipe_tree pipe)))
        policy.now.pipes }
    ensures { IfOk result (λ all. AllZip
        (λ pipe places. ArePlaces names.now (programs_of (pipe_tree pipe)) places.items)
        policy.now.pipes all.items) }
{
    let count = policy.policy().pipelines.as_slice().len();
    let mut all = Vec::with_capacity(alloc, count)?;
    for place in 0..count {
        let pipe = policy.pipe(place as u32);
        all.push(places_of(alloc, names, pipe.programs())?)?;
    }
    Ok(all)
}

/// For each region the least of the quotas on its name.
fn least_quotas(
    alloc: Global,
    names: &Names,
    quotas: &[Quota],
) -> Result<Vec<Option<u64>>, NoMemory>
    requires { All (λ quota. Contains names.now quota.name) quotas.now }
    ensures { IfOk result (λ least.
        least.items ≡ map (λ name. quota_of name quotas.now) names.now) }
{
    let mut least = vec![in alloc; None; names.len()]?;
    for quota in quotas {
        let place = names.place_of(quota.name.as_slice()) as usize;
        least[place] = Some(least_with(least[place], quota.bytes));
    }
    Ok(least)
}

/// The lesser of a number and the least so far.
fn least_with(least: Option<u64>, bytes: u64) -> u64
    ensures { result ≡ least_with least bytes }
{
    match least {
        Some(least) => least.min(bytes),
        None => bytes,
    }
}

impl Regions {
    /// The regions of a policy. It takes time in proportion to the policy's size and the logarithm
    /// of the number of its names, and memory in proportion to the policy's size.
    pub fn new(alloc: Global, policy: &CheckedPolicy) -> Result<Regions, NoMemory>
        ensures regions { IfOk result (IsRegionsOf policy.now) }
        ensures one_word { IfOk result (HasOneWord policy.now) }
    {
        let listed = policy.policy();
        let names = Names::new(alloc, policy_names(alloc, policy)?)?;
        let identities = words_of(alloc, &names, listed.identities.as_slice())?;
        let programs = words_of(alloc, &names, listed.programs.as_slice())?;
        let pipelines = program_places(alloc, &names, policy)?;
        let quotas = least_quotas(alloc, &names, listed.quotas.as_slice())?;
        Ok(Regions {
            names,
            identities,
            programs,
            pipelines,
            quotas,
        })
    }

    /// How many regions there are.
    pub fn count(&self) -> u32
        ensures { result ≡ length self.now.names }
    {
        self.names.len() as u32
    }

    /// The region of a path. None exactly where no name covers it.
    pub fn region_of(&self, path: &Path) -> Option<u32>
        ensures region { result ≡ region_number self.now.names path.now }
        ensures within { IfSome result (λ region. region < length self.now.names) }
    {
        self.names.region_of(path)
    }

    /// The name of a region.
    pub fn name_of(&self, region: u32) -> &GrantName
        requires { region < length self.now.names }
        ensures { result.now ≡ slice_index_or self.now.names region [] }
    {
        self.names.name(region)
    }

    /// The quota of a region, in bytes: the least of those on its name.
    pub fn quota_of(&self, region: u32) -> Option<u64>
        requires { region < length self.now.names }
        ensures { result ≡ slice_index_or self.now.quotas region None }
    {
        self.quotas[region as usize]
    }

    /// The word of a holder in a region, which is its word on each path of the region.
    pub fn rights_of(&self, holder: Holder, region: u32) -> RightsWord
        requires holder { HasHolder self.now holder }
        requires region { region < length self.now.names }
        ensures { result ≡ word_of self.now holder region }
    {
        match holder {
            Holder::Identity(place) => self.identities[place as usize].word_in(&self.names, region),
            Holder::Program(place) => self.programs[place as usize].word_in(&self.names, region),
        }
    }

    /// Whether an identity may execute each program of a pipeline.
    pub fn may_run(&self, identity: u32, pipeline: u32) -> Result<(), Missing>
        requires { HasEntry self.now.missing identity pipeline }
        ensures { result ≡ run_answer (entry_of self.now.missing identity pipeline None) }
    {
        let words = &self.identities[identity as usize];
        let places = self.pipelines[pipeline as usize].as_slice();
        match words.missing_place(&self.names, places) {
            Some(program) => Err(Missing { program }),
            None => Ok(()),
        }
    }
}
