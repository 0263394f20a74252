ghost use Rattle.std.specs.Prelude.{◌≡◌, ◌<◌, ◌≤◌, ◌+◌, ◌*◌, ◌^◌, ℕ, List, [], ◌∷◌, length, true, not, is_some, unwrap_or, Some, Ok, IfOk, IfSome, OnOk, slice_index_or};
ghost use Rattle.std.specs.Option.{ForSome};
ghost use Rattle.std.specs.FinMap.{insert, len};
ghost use Rattle.vr_base.specs.Checks.{result_map};
ghost use Rattle.vr_core.specs.Files.{IsReady, KeepsTotals};
ghost use Rattle.vr_core.specs.Machine.{bytes_at, quota_check, quotas_check, run_place};
ghost use Rattle.vr_core.specs.Opening as opening;
ghost use Rattle.vr_core.specs.Opening.{is_path, is_refused, opening_of};
ghost use Rattle.vr_core.specs.Quotas.{AreTotals, HasRoomIn, is_over, total_changed, total_fault};
ghost use Rattle.vr_core.specs.Replies.{Gives};
ghost use Rattle.vr_base.specs.Checks.{unless_fault};
ghost use Rattle.vr_exec.specs.Outcomes.{PipelineComesTo};
ghost use Rattle.vr_files.specs.Changes.{AreDistinct, applied};
ghost use Rattle.vr_files.specs.FileMaps.{FileMap, no_files};
ghost use Rattle.vr_policy_check.specs.Rules.{CheckedData};
ghost use Rattle.vr_rights.specs.Tables.{IsRegionsOf};

use crate::checks::{MOST_FILE, check_programs, check_start, find_caller, find_pipeline};
use crate::opening::StartFault;
use std::alloc::Global;
use std::marker::Model;
use vr_base::{Bytes, GrantName, NoMemory, Path, PathFault, Reply, parse_path};
use vr_exec::{Outcome, run_pipeline};
use vr_files::{Changes, FileBody, Files};
use vr_keeper::Rows;
use vr_policy_check::CheckedPolicy;
use vr_rights::Regions;

/// The files of a runtime under its policy, with the total of the files of each region. Contracts see the policy and the
/// files.
#[derive(Debug, Drop)]
pub struct PolicyFiles {
    policy: CheckedPolicy,
    regions: Regions,
    files: Files,
    /// The sizes of the files of each region, together, by the region's number.
    totals: Vec<u128>,
}

impl Model for PolicyFiles {
    ghost use Rattle.std.specs.Coded.{codes};
    ghost use Rattle.vr_core.specs.Files.{PolicyFilesData, KeepsTotals};
    ghost use Rattle.vr_files.specs.FileMaps.{coded_table};
    ghost use Rattle.vr_pipe.specs.contracts.trees.Tree as trees;

    ghost Value = { PolicyFilesData };

    ghost coded = { Prim.hlevel (codes, coded_table, trees.the_row.coded) };

    ghost view = { λ f. record { policy = f.policy; files = f.files } };

    ghost invariant = { λ f. KeepsTotals f.policy f.regions f.files.map f.totals.items };
}

/// The size of the file at a path, 0 where there is none.
pub fn size_at(files: &Files, path: &Path) -> u64
    ensures size { result ≡ length (bytes_at files.now.map path.now) }
    ensures most { result ≤ 16777216 }
{
    match files.get(path) {
        Some(body) => body.len(),
        None => 0,
    }
}

/// The total of files of which the one at a path gets this size.
fn new_total(total: u128, files: &Files, path: &Path, size: usize) -> u128
    requires counted { length (bytes_at files.now.map path.now) ≤ total }
    requires most { total ≤ 16777216 * len files.now.map }
    requires small { size ≤ 16777216 }
    ensures { result + length (bytes_at files.now.map path.now) ≡ total + size }
{
    // Since the files can be counted, their total fits.
    let _count = files.len();
    total - size_at(files, path) as u128 + size as u128
}

/// Whether a total passes a quota, and is more than it was.
fn is_over(quota: u64, old: u128, new: u128) -> bool
    ensures { result ≡ is_over quota old new }
{
    new > quota as u128 && new > old
}

/// The reply that the total of a region would reach its quota.
fn quota_reached(alloc: Global, region: &GrantName, size: u128) -> Result<(), Reply>
    ensures { Gives result (Err (Reply.QuotaReached region.now size)) }
{
    match Bytes::from_slice(alloc, region.as_slice()) {
        Ok(name) => Err(Reply::QuotaReached { name, size }),
        Err(NoMemory) => Err(Reply::OutOfMemory),
    }
}

/// That a new total of a region is no more than its quota, or than the old one.
fn check_total(
    alloc: Global,
    regions: &Regions,
    region: u32,
    old: u128,
    new: u128,
) -> Result<(), Reply>
    requires { region < length regions.now.names }
    ensures { Gives result (unless_fault
        (total_fault (slice_index_or regions.now.quotas region None)
        (slice_index_or regions.now.names region []) old new) (tt {0})) }
{
    let Some(quota) = regions.quota_of(region) else {
        return Ok(());
    };
    if !is_over(quota, old, new) {
        return Ok(());
    }
    quota_reached(alloc, regions.name_of(region), new)
}

/// That each new total of the regions is no more than the quota, or than the old one.
fn check_totals(alloc: Global, regions: &Regions, old: &[u128], new: &[u128]) -> Result<(), Reply>
    requires old { length old.now ≡ length regions.now.names }
    requires new { length new.now ≡ length regions.now.names }
    ensures { (policy : CheckedData) (files others : FileMap) → IsRegionsOf policy regions.now
        → AreTotals policy regions.now.names files old.now
        → AreTotals policy regions.now.names others new.now
        → Gives result (quotas_check policy files others) }
{
    for region in 0..regions.count() {
        let place = region as usize;
        check_total(alloc, regions, region, old[place], new[place])?;
    }
    Ok(())
}

/// The size of a body, 0 where there is none.
fn size_of(body: &Option<FileBody>) -> u64
    ensures size { result ≡ length (unwrap_or body.now []) }
    ensures most { result ≤ 16777216 }
{
    match body {
        Some(body) => body.len(),
        None => 0,
    }
}

/// Changes the total of a region in which a file gets another size. No region has none.
fn change_total(totals: &mut [u128], region: Option<u32>, old: u64, new: u64)
    requires { ForSome region (λ place. HasRoomIn totals.old place old new) }
    ensures { totals.new ≡ total_changed totals.old region old new }
{
    if let Some(region) = region {
        let total = totals[region as usize];
        totals[region as usize] = total - old as u128 + new as u128;
    }
}

/// Changes the totals of regions as changes do that are made to the files.
fn change_totals(
    policy: &CheckedPolicy,
    regions: &Regions,
    files: &Files,
    totals: &mut [u128],
    changes: &[(Path, Option<FileBody>)],
)
    requires kept { KeepsTotals policy.now regions.now files.now.map totals.old }
    requires distinct { AreDistinct changes.now }
    ensures { KeepsTotals policy.now regions.now (applied files.now.map changes.now) totals.new }
{
    // Since the files and the changes can be counted, the totals fit.
    let _count = files.len();
    for (path, body) in changes {
        let region = regions.region_of(path);
        change_total(totals, region, size_at(files, path), size_of(body));
    }
}

/// The change that keeps a body at a path, and no other.
pub fn one_change(alloc: Global, path: Path, body: FileBody) -> Result<Changes, NoMemory>
    ensures { IfOk result (λ changes. changes ≡ (path, Some body) ∷ []) }
{
    let mut items = Vec::with_capacity(alloc, 1)?;
    items.push((path, Some(body)))?;
    Ok(Changes::of(items))
}

/// The path that a name is, where it is one in its normal form.
fn own_path(alloc: Global, name: &[u8]) -> Result<Option<Path>, NoMemory>
    ensures some { IfOk result (λ found. is_some found ≡ is_path name.now) }
    ensures path { IfOk result (λ found. IfSome found (λ path. path ≡ name.now)) }
{
    match parse_path(alloc, name) {
        Ok(path) if path.as_slice() == name => Ok(Some(path)),
        Err(PathFault::OutOfMemory) => Err(NoMemory),
        _ => Ok(None),
    }
}

impl PolicyFiles {
    /// No files under a policy.
    pub fn new(alloc: Global, policy: CheckedPolicy) -> Result<PolicyFiles, NoMemory>
        ensures policy { IfOk result (λ new. new.policy ≡ policy) }
        ensures files { IfOk result (λ new. new.files.map ≡ no_files) }
    {
        let regions = Regions::new(alloc, &policy)?;
        let totals = vec![in alloc; 0; regions.count() as usize]?;
        Ok(PolicyFiles {
            policy,
            regions,
            files: Files::new(alloc),
            totals,
        })
    }

    /// The files of rows under a policy, or the fault of the first bad row.
    pub fn open(alloc: Global, policy: CheckedPolicy, rows: Rows) -> Result<PolicyFiles, StartFault>
        ensures policy { IfOk result (λ new. new.policy ≡ policy) }
        ensures files { opening.Gives (result_map (λ new. new.files.map) result) (opening_of rows) }
    {
        let mut files = PolicyFiles::new(alloc, policy)?;
        let mut place: u32 = 0;
        for (name, body) in rows.into_vec() {
            if !files.add(alloc, name.as_slice(), body.as_slice())? {
                return Err(StartFault::BadRow(place));
            }
            place = place.saturating_add(1);
        }
        Ok(files)
    }

    /// Makes the file of a row, and answers whether it can be made beside those of the rows before it.
    fn add(&mut self, alloc: Global, name: &[u8], body: &[u8]) -> Result<bool, NoMemory>
        ensures policy { self.new.policy ≡ self.old.policy }
        ensures refused { IfOk result (λ made.
            made ≡ not (is_refused self.old.files.map (name.now, body.now))) }
        ensures made { result ≡ Ok true
            → self.new.files.map ≡ insert self.old.files.map name.now body.now }
    {
        let path = match own_path(alloc, name)? {
            Some(path) => path,
            None => return Ok(false),
        };
        if self.files.get(&path).is_some() || body.len() > MOST_FILE {
            return Ok(false);
        }
        let body = FileBody::from_slice(alloc, body).or(Err(NoMemory))?;
        let changes = one_change(alloc, path, body)?;
        self.reserve(1)?;
        self.keep(changes);
        Ok(true)
    }

    pub fn policy(&self) -> &CheckedPolicy
        ensures { result.now ≡ self.now.policy }
    {
        &self.policy
    }

    pub fn files(&self) -> &Files
        ensures { result.now ≡ self.now.files }
    {
        &self.files
    }

    /// That the quota of the region of a path lets a file of this size be kept there.
    pub fn check_quota(&self, alloc: Global, path: &Path, size: usize) -> Result<(), Reply>
        requires { size ≤ 16777216 }
        ensures { (body : List ℕ) → length body ≡ size
            → Gives result (quota_check self.now.policy self.now.files.map
            (insert self.now.files.map path.now body) path.now) }
    {
        let region = match self.regions.region_of(path) {
            Some(region) => region,
            None => return Ok(()),
        };
        let quota = match self.regions.quota_of(region) {
            Some(quota) => quota,
            None => return Ok(()),
        };
        let old = self.totals[region as usize];
        let new = new_total(old, &self.files, path, size);
        if !is_over(quota, old, new) {
            return Ok(());
        }
        quota_reached(alloc, self.regions.name_of(region), new)
    }

    /// That the quotas of all regions let the changes be made.
    pub fn check_quotas(&self, alloc: Global, changes: &Changes) -> Result<(), Reply>
        ensures { Gives result (quotas_check self.now.policy self.now.files.map
            (applied self.now.files.map changes.now)) }
    {
        let mut totals = match self.totals.clone() {
            Ok(totals) => totals,
            Err(_) => return Err(Reply::OutOfMemory),
        };
        change_totals(
            &self.policy,
            &self.regions,
            &self.files,
            &mut totals,
            changes.as_slice(),
        );
        check_totals(alloc, &self.regions, &self.totals, &totals)
    }

    /// The place of the pipeline that the caller asks to run, where the run may be made.
    pub fn check_run(&self, who: u32, id: u32) -> Result<u32, Reply>
        ensures place { Gives result (run_place self.now.policy self.now.files.map who id) }
        ensures ready { IfOk result (IsReady self.now.policy self.now.files.map) }
    {
        let caller = find_caller(&self.policy, who)?;
        let pipeline = find_pipeline(&self.policy, id)?;
        check_programs(&self.policy, &self.regions, caller, pipeline)?;
        check_start(&self.policy, &self.regions, pipeline, &self.files)?;
        Ok(pipeline)
    }

    /// Runs the pipeline at a place over a share of the files.
    pub fn run(&self, alloc: Global, pipeline: u32, fuel: u64) -> Result<Outcome, NoMemory>
        requires { IsReady self.now.policy self.now.files.map pipeline }
        ensures { IfOk result
            (PipelineComesTo self.now.policy pipeline self.now.files.map fuel) }
    {
        run_pipeline(alloc, &self.policy, pipeline, self.files.share()?, fuel)
    }

    /// Makes room for so many paths more.
    pub fn reserve(&mut self, more: usize) -> Result<(), NoMemory>
        ensures policy { self.new.policy ≡ self.old.policy }
        ensures same { self.new.files.map ≡ self.old.files.map }
        ensures room { OnOk result (more ≤ self.new.files.spare) }
    {
        self.files.reserve(more)
    }

    /// Makes the changes, for which there is room.
    pub fn keep(&mut self, changes: Changes)
        requires { length changes ≤ self.old.files.spare }
        ensures policy { self.new.policy ≡ self.old.policy }
        ensures files { self.new.files.map ≡ applied self.old.files.map changes }
    {
        change_totals(
            &self.policy,
            &self.regions,
            &self.files,
            &mut self.totals,
            changes.as_slice(),
        );
        self.files.apply(changes);
    }
}
