ghost use Rattle.std.specs.Prelude.{◌≡◌, ◌≤◌, vec_len};
ghost use Rattle.serde_json.specs.View.{view, items_view, members_view};
ghost use Rattle.vr_policy_read.specs.Faults.{Gives, GivesKind, answer_at};
ghost use Rattle.vr_policy_read.specs.Members.{entry_in, entries_from, entries_in};
ghost use Rattle.vr_policy_read.specs.Policies.{optional_entries, grant_name_in, rights_in, grants_in, id_in, path_in, pages_in, policy_of_tree, policy_of};

use crate::digest::parse_hash;
use crate::entries::{Identity, Pin, Pipeline, Program, Quota};
use crate::faults::{Member, ReadFault, ReadKind};
use crate::json::{self, Object};
use crate::policy::Policy;
use serde_json::Value;
use std::alloc::Global;
use vr_base::{Bytes, GrantName, Grants, List, Path, RightsWord, parse_grant_name, parse_path};

/// The most entries of a list.
const MOST_ENTRIES: usize = 1024;

/// The most pages of memory of a run.
const MOST_PAGES: u64 = 1024;

/// How many pages, of 64 KiB each, make a MiB.
const PAGES_PER_MIB: u64 = 16;

/// What is read from an object that is an entry of a list.
trait FromObject: Drop {
    ghost use Rattle.std.specs.Prelude.{Result};
    ghost use Rattle.serde_json.specs.Data.{Members};
    ghost use Rattle.vr_policy_read.specs.declared.faults.Member.{Member};
    ghost use Rattle.vr_policy_read.specs.declared.faults.ReadKind.{ReadKind};

    /// What the members of the object say.
    ghost value_in: { Members → Result Self ReadKind };

    ghost LIST: { Member };

    /// The member whose list this is an entry of.
    const LIST: Member;

    fn from_object(alloc: Global, object: &Object) -> Result<Self, ReadKind>
        ensures { GivesKind result (value_in (members_view object.now.entries)) };
}

impl FromObject for Identity {
    ghost use Rattle.vr_policy_read.specs.declared.faults.Member.TheVariants.{Identities};
    ghost use Rattle.vr_policy_read.specs.Policies.{identity_in};

    ghost value_in = { identity_in };

    ghost LIST = { Identities };

    const LIST: Member = Member::Identities;

    fn from_object(alloc: Global, object: &Object) -> Result<Identity, ReadKind> {
        Ok(Identity {
            id: id(object)?,
            grants: grants(alloc, object)?,
        })
    }
}

impl FromObject for Program {
    ghost use Rattle.vr_policy_read.specs.declared.faults.Member.TheVariants.{Programs};
    ghost use Rattle.vr_policy_read.specs.Policies.{program_in};

    ghost value_in = { program_in };

    ghost LIST = { Programs };

    const LIST: Member = Member::Programs;

    fn from_object(alloc: Global, object: &Object) -> Result<Program, ReadKind> {
        Ok(Program {
            name: grant_name(alloc, object, Member::ProgramFileName)?,
            grants: grants(alloc, object)?,
        })
    }
}

impl FromObject for Pipeline {
    ghost use Rattle.vr_policy_read.specs.declared.faults.Member.TheVariants.{Pipelines};
    ghost use Rattle.vr_policy_read.specs.Policies.{pipeline_in};

    ghost value_in = { pipeline_in };

    ghost LIST = { Pipelines };

    const LIST: Member = Member::Pipelines;

    fn from_object(alloc: Global, object: &Object) -> Result<Pipeline, ReadKind> {
        let id = id(object)?;
        let text = json::required_text(object, Member::PipelineText)?;
        Ok(Pipeline {
            id,
            text: Bytes::from_slice(alloc, text.as_bytes())?,
        })
    }
}

impl FromObject for Pin {
    ghost use Rattle.vr_policy_read.specs.declared.faults.Member.TheVariants.{FileHashes};
    ghost use Rattle.vr_policy_read.specs.Policies.{pin_in};

    ghost value_in = { pin_in };

    ghost LIST = { FileHashes };

    const LIST: Member = Member::FileHashes;

    fn from_object(alloc: Global, object: &Object) -> Result<Pin, ReadKind> {
        let path = path(alloc, object)?;
        let hash = parse_hash(json::required_text(object, Member::Hash)?)?;
        Ok(Pin { path, hash })
    }
}

impl FromObject for Quota {
    ghost use Rattle.vr_policy_read.specs.declared.faults.Member.TheVariants.{Quotas};
    ghost use Rattle.vr_policy_read.specs.Policies.{quota_in};

    ghost value_in = { quota_in };

    ghost LIST = { Quotas };

    const LIST: Member = Member::Quotas;

    fn from_object(alloc: Global, object: &Object) -> Result<Quota, ReadKind> {
        let name = grant_name(alloc, object, Member::FileName)?;
        let value = json::required(object, Member::Bytes)?;
        let bytes = json::number_at_most(value, u64::MAX).ok_or(ReadKind::WrongKind(
            Member::Bytes,
        ))?;
        Ok(Quota { name, bytes })
    }
}

/// A grant: a name, and the rights on what it covers.
impl FromObject for (GrantName, RightsWord) {
    ghost use Rattle.vr_policy_read.specs.declared.faults.Member.TheVariants.{FileRights};
    ghost use Rattle.vr_policy_read.specs.Policies.{grant_in};

    ghost value_in = { grant_in };

    ghost LIST = { FileRights };

    const LIST: Member = Member::FileRights;

    fn from_object(alloc: Global, object: &Object) -> Result<(GrantName, RightsWord), ReadKind> {
        let name = grant_name(alloc, object, Member::FileName)?;
        let word = rights(json::required(object, Member::Rights)?)?;
        Ok((name, word))
    }
}

/// An entry of a list, which has to be an object.
fn entry<T: FromObject>(alloc: Global, value: &Value) -> Result<T, ReadKind>
    ensures { GivesKind result (entry_in T.LIST T.value_in (view value.now)) }
{
    let object = json::object(value, T::LIST)?;
    T::from_object(alloc, object)
}

/// An entry of a list, where a fault has the entry's index.
fn entry_at<T: FromObject>(alloc: Global, value: &Value, at: u32) -> Result<T, ReadFault>
    ensures { Gives result (answer_at at (entry_in T.LIST T.value_in (view value.now))) }
{
    entry(alloc, value).map_err(|kind| ReadFault { kind, at })
}

fn entries<T: FromObject>(alloc: Global, list: &Vec<Value>) -> Result<List<T>, ReadFault>
    requires { vec_len list.now ≤ MOST_ENTRIES }
    ensures { Gives result (entries_from 0 T.LIST T.value_in (items_view list.now.items)) }
{
    let mut all = Vec::with_capacity(alloc, list.len())?;
    for (k, value) in list.iter().enumerate() {
        all.push(entry_at(alloc, value, k as u32)?)?;
    }
    Ok(List::of(all))
}

/// A list of objects.
fn list<T: FromObject>(alloc: Global, value: &Value) -> Result<List<T>, ReadFault>
    ensures { Gives result (entries_in T.LIST T.value_in (view value.now)) }
{
    let list = json::list(value, T::LIST)?;
    if list.len() > MOST_ENTRIES {
        let kind = ReadKind::TooMany(T::LIST);
        return Err(ReadFault { kind, at: 0 });
    }
    entries(alloc, list)
}

/// A list that may be absent, which means the empty one.
fn optional_list<T: FromObject>(alloc: Global, object: &Object) -> Result<List<T>, ReadFault>
    ensures { Gives result (optional_entries T.LIST T.value_in (members_view object.now.entries)) }
{
    match json::find(object, T::LIST) {
        Some(value) => list(alloc, value),
        None => Ok(List::of(Vec::new(alloc))),
    }
}

/// The name of a grant at a member.
fn grant_name(alloc: Global, object: &Object, member: Member) -> Result<GrantName, ReadKind>
    ensures { GivesKind result (grant_name_in member (members_view object.now.entries)) }
{
    let text = json::required_text(object, member)?;
    Ok(parse_grant_name(alloc, text.as_bytes())?)
}

/// The path of a pinned file.
fn path(alloc: Global, object: &Object) -> Result<Path, ReadKind>
    ensures { GivesKind result (path_in (members_view object.now.entries)) }
{
    let text = json::required_text(object, Member::FilePath)?;
    Ok(parse_path(alloc, text.as_bytes())?)
}

/// The grants of an identity or of a program.
fn grants(alloc: Global, object: &Object) -> Result<Grants, ReadKind>
    ensures { GivesKind result (grants_in (members_view object.now.entries)) }
{
    let value = json::required(object, Member::FileRights)?;
    match list(alloc, value) {
        Ok(grants) => Ok(Grants::of(grants.into_vec())),
        Err(fault) => Err(fault.kind),
    }
}

/// A rights word, as a number or as letters.
fn rights(value: &Value) -> Result<RightsWord, ReadKind>
    ensures { GivesKind result (rights_in (view value.now)) }
{
    if let Some(letters) = value.as_str() {
        RightsWord::of_letters(letters.as_bytes()).ok_or(ReadKind::BadRights)
    } else if value.is_number() {
        match json::number_at_most(value, u32::MAX as u64) {
            Some(word) => Ok(RightsWord::new(word as u32)),
            None => Err(ReadKind::BadRights),
        }
    } else {
        Err(ReadKind::WrongKind(Member::Rights))
    }
}

/// The id of an identity or of a pipeline.
fn id(object: &Object) -> Result<u32, ReadKind>
    ensures { GivesKind result (id_in (members_view object.now.entries)) }
{
    let value = json::required(object, Member::Id)?;
    match json::number_at_most(value, u32::MAX as u64) {
        Some(id) => Ok(id as u32),
        None => Err(ReadKind::WrongKind(Member::Id)),
    }
}

/// The most pages of memory of a run.
fn pages(top: &Object) -> Result<u32, ReadKind>
    ensures { GivesKind result (pages_in (members_view top.now.entries)) }
{
    let Some(value) = json::find(top, Member::MaxMemory) else {
        return Ok(MOST_PAGES as u32);
    };
    match json::number_at_most(value, u64::MAX) {
        Some(mib) => Ok((mib.min(MOST_PAGES / PAGES_PER_MIB) * PAGES_PER_MIB) as u32),
        None => Err(ReadKind::WrongKind(Member::MaxMemory)),
    }
}

fn policy(alloc: Global, tree: &Value) -> Result<Policy, ReadFault>
    ensures { Gives result (policy_of_tree (view tree.now)) }
{
    let top = json::object(tree, Member::Top)?;
    let identities = list(alloc, json::required(top, Member::Identities)?)?;
    let programs = optional_list(alloc, top)?;
    let pipelines = optional_list(alloc, top)?;
    let pins = optional_list(alloc, top)?;
    let pages = pages(top)?;
    let quotas = optional_list(alloc, top)?;
    Ok(Policy {
        identities,
        programs,
        pipelines,
        pins,
        pages,
        quotas,
    })
}

/// The policy that a file's bytes say, or the first fault in them. The tests go through the file's
/// length, its JSON and its top, and then through `identities`, `programs`, `pipelines`,
/// `file_hashes`, `max_memory_mib` and `quotas`; in a list first its presence, kind and length,
/// and then its entries in order.
pub fn read_policy(alloc: Global, bytes: &[u8]) -> Result<Policy, ReadFault>
    ensures { Gives result (policy_of bytes.now) }
{
    let tree = json::tree(alloc, bytes)?;
    policy(alloc, &tree)
}
