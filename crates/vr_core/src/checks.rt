ghost use Rattle.std.specs.Prelude.{◌<◌, length, IfOk, Some};
ghost use Rattle.vr_base.specs.Checks.{value_of, result_map};
ghost use Rattle.vr_base.specs.Rights.{known_rights};
ghost use Rattle.vr_core.specs.Machine.{path_named, identity_at, identity_of, listed_at, pipeline_of, rights_check, body_at, size_check, path_for};
ghost use Rattle.vr_core.specs.Replies.{Gives};
ghost use Rattle.vr_core.specs.Starts.{MayExecute, MayStartAt};
ghost use Rattle.vr_rights.specs.Tables.{IsRegionsOf};

use std::alloc::Global;
use vr_base::{EXECUTE_RIGHTS, NoMemory, Path, PathFault, Reply, RightsWord, parse_path};
use vr_exec::{NotReady, ready};
use vr_files::{FileBody, Files};
use vr_policy_check::CheckedPolicy;
use vr_policy_read::Identity;
use vr_rights::{Missing, Regions};

/// The most bytes of a file.
pub const MOST_FILE: usize = 16_777_216;

/// The path that a call's name stands for.
pub fn check_name(alloc: Global, name: &[u8]) -> Result<Path, Reply>
    ensures { Gives result (path_named name.now) }
{
    match parse_path(alloc, name) {
        Ok(path) => Ok(path),
        Err(PathFault::OutOfMemory) => Err(Reply::OutOfMemory),
        Err(fault) => Err(Reply::BadPath { fault }),
    }
}

/// The identity that calls.
pub fn check_caller(policy: &CheckedPolicy, who: u32) -> Result<&Identity, Reply>
    ensures { Gives (value_of result) (identity_of policy.now who) }
{
    match policy.identity_place(who) {
        Some(place) => Ok(&policy.policy().identities.as_slice()[place as usize]),
        None => Err(Reply::Unkeyed),
    }
}

/// That the identity has the needed rights on the path.
pub fn check_rights(identity: &Identity, path: &Path, needed: RightsWord) -> Result<(), Reply>
    ensures { Gives result (rights_check identity.now path.now needed) }
{
    match identity.grants.word_on(path).missing(needed) {
        None => Ok(()),
        Some(right) => match path.copy() {
            Ok(path) => Err(Reply::Denied { path, right }),
            Err(NoMemory) => Err(Reply::OutOfMemory),
        },
    }
}

/// The path of a call's name, on which the identity has the needed rights.
pub fn check_path(
    alloc: Global,
    policy: &CheckedPolicy,
    who: u32,
    name: &[u8],
    needed: u32,
) -> Result<Path, Reply>
    ensures { Gives result (path_for policy.now who name.now (known_rights needed)) }
{
    let path = check_name(alloc, name)?;
    let identity = check_caller(policy, who)?;
    check_rights(identity, &path, RightsWord::new(needed))?;
    Ok(path)
}

/// The body of the file at the path.
pub fn check_file<'a>(files: &'a Files, path: &Path) -> Result<&'a FileBody, Reply>
    ensures { Gives (value_of result) (body_at files.now.map path.now) }
{
    match files.get(path) {
        Some(body) => Ok(body),
        None => match path.copy() {
            Ok(path) => Err(Reply::NoSuchFile { path }),
            Err(NoMemory) => Err(Reply::OutOfMemory),
        },
    }
}

/// That a file may have this size.
pub fn check_size(size: usize) -> Result<(), Reply>
    ensures { Gives result (size_check size) }
{
    if size > MOST_FILE {
        Err(Reply::TooLarge { size: size as u64 })
    } else {
        Ok(())
    }
}

/// The place of the identity that calls.
pub fn find_caller(policy: &CheckedPolicy, who: u32) -> Result<u32, Reply>
    ensures caller { Gives (result_map (identity_at policy.now) result)
        (result_map Some (identity_of policy.now who)) }
    ensures within { IfOk result (λ place. place < length policy.now.policy.identities) }
{
    match policy.identity_place(who) {
        Some(place) => Ok(place),
        None => Err(Reply::Unkeyed),
    }
}

/// The place of the pipeline with the id.
pub fn find_pipeline(policy: &CheckedPolicy, id: u32) -> Result<u32, Reply>
    ensures pipeline { Gives (result_map (listed_at policy.now) result)
        (result_map Some (pipeline_of policy.now id)) }
    ensures within { IfOk result (λ place. place < length policy.now.policy.pipelines) }
{
    match policy.pipeline_place(id) {
        Some(place) => {
            // It has a tree, which its place says.
            let _pipe = policy.pipe(place);
            Ok(place)
        }
        None => Err(Reply::NoSuchPipeline { id }),
    }
}

/// That the identity may execute each program of the pipeline, both by their places.
pub fn check_programs(
    policy: &CheckedPolicy,
    regions: &Regions,
    identity: u32,
    pipeline: u32,
) -> Result<(), Reply>
    requires regions { IsRegionsOf policy.now regions.now }
    requires identity { identity < length policy.now.policy.identities }
    requires pipeline { pipeline < length policy.now.policy.pipelines }
    ensures { MayExecute policy.now identity pipeline result }
{
    let programs = policy.pipe(pipeline).programs();
    match regions.may_run(identity, pipeline) {
        Ok(()) => Ok(()),
        Err(Missing { program }) => {
            let identity = &policy.policy().identities.as_slice()[identity as usize];
            let needed = RightsWord::new(EXECUTE_RIGHTS);
            check_rights(identity, &programs[program as usize], needed)
        }
    }
}

/// That the program files and the pinned files are as they have to be for the run of the pipeline at a place to start.
pub fn check_start(
    policy: &CheckedPolicy,
    regions: &Regions,
    pipeline: u32,
    files: &Files,
) -> Result<(), Reply>
    requires regions { IsRegionsOf policy.now regions.now }
    requires pipeline { pipeline < length policy.now.policy.pipelines }
    ensures { MayStartAt policy.now pipeline files.now.map result }
{
    match ready(policy, regions, pipeline, files) {
        Ok(()) => Ok(()),
        Err(NotReady::NoSuchFile { path }) => Err(Reply::NoSuchFile { path }),
        Err(NotReady::PinMissing { path }) => Err(Reply::PinMissing { path }),
        Err(NotReady::PinMismatch { path, found }) => Err(Reply::PinMismatch { path, found }),
        Err(NotReady::OutOfMemory) => Err(Reply::OutOfMemory),
    }
}
