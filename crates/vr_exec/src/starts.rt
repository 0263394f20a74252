//! When a run may start.

ghost use Rattle.std.specs.Prelude.{◌≡◌, ◌<◌, find, is_none, length, OnOk, slice_get, Some};
ghost use Rattle.std.specs.Option.{option_copied};
ghost use Rattle.std.specs.FinMap.{get};
ghost use Rattle.vr_base.specs.Checks.{unless_fault};
ghost use Rattle.vr_pipe.specs.declared.trees.Tree.{Tree};
ghost use Rattle.vr_pipe.specs.Trees.{pipe_tree};
ghost use Rattle.vr_rights.specs.Tables.{IsRegionsOf};
ghost use Rattle.vr_exec.specs.Starts.{Gives, GivesAt, MayStartAt, bytes_fault, missing_file, observes_path, pin_fault};

use vr_base::{NoMemory, Path};
use vr_digests::file_digits;
use vr_files::Files;
use vr_flow::observes;
use vr_policy_check::CheckedPolicy;
use vr_policy_read::Pin;
use vr_rights::Regions;

/// Why the run of a pipeline may not start.
#[derive(Debug, Drop)]
pub enum NotReady {
    /// The first program file in the order of the text that is not there.
    NoSuchFile { path: Path },
    /// A pinned file that the pipeline observes is not there.
    PinMissing { path: Path },
    /// A pinned file that the pipeline observes has another hash, which is found here in lower-case hex digits.
    PinMismatch { path: Path, found: [u8; 64] },
    /// Memory ran out; the run may be ready to start.
    OutOfMemory,
}

impl From<NoMemory> for NotReady {
    ghost use Rattle.vr_exec.specs.declared.starts.NotReady.TheVariants.{OutOfMemory};

    ghost from_gives = { λ _ e. e ≡ OutOfMemory };

    fn from(_refused: NoMemory) -> NotReady {
        NotReady::OutOfMemory
    }
}

/// The first of the paths that has no file.
fn first_missing<'p>(files: &Files, paths: &'p [Path]) -> Option<&'p Path>
    ensures { option_copied result ≡ find (λ path. is_none (get files.now.map path)) paths.now }
{
    paths.iter().find(|path| files.get(path).is_none())
}

/// That each of the paths has a file.
fn check_files(files: &Files, paths: &[Path]) -> Result<(), NotReady>
    ensures { Gives result (unless_fault (missing_file paths.now files.now.map) (tt {0})) }
{
    match first_missing(files, paths) {
        Some(path) => Err(NotReady::NoSuchFile { path: path.copy()? }),
        None => Ok(()),
    }
}

/// That the file of a pin is there and has its hash.
fn check_hash(files: &Files, pin: &Pin) -> Result<(), NotReady>
    ensures { Gives result
        (unless_fault (bytes_fault pin.now (get files.now.map pin.now.path)) (tt {0})) }
{
    let Some(body) = files.get(&pin.path) else {
        return Err(NotReady::PinMissing {
            path: pin.path.copy()?,
        });
    };
    let found = file_digits(body);
    if found == pin.hash {
        Ok(())
    } else {
        Err(NotReady::PinMismatch {
            path: pin.path.copy()?,
            found,
        })
    }
}

/// Whether a pipeline observes the region of a path.
fn observes_file(policy: &CheckedPolicy, regions: &Regions, pipeline: u32, path: &Path) -> bool
    requires regions { IsRegionsOf policy.now regions.now }
    requires place { pipeline < length policy.now.policy.pipelines }
    ensures { (tree : Tree) → slice_get policy.now.pipes pipeline ≡ Some tree
        → result ≡ observes_path policy.now (pipe_tree tree) path.now }
{
    match regions.region_of(path) {
        Some(region) => observes(policy, regions, pipeline, region),
        None => false,
    }
}

/// That the file of a pin is as it has to be, where the pipeline observes it.
fn check_pin(
    policy: &CheckedPolicy,
    regions: &Regions,
    pipeline: u32,
    files: &Files,
    pin: &Pin,
) -> Result<(), NotReady>
    requires regions { IsRegionsOf policy.now regions.now }
    requires place { pipeline < length policy.now.policy.pipelines }
    ensures { (tree : Tree) → slice_get policy.now.pipes pipeline ≡ Some tree → Gives result
        (unless_fault (pin_fault policy.now (pipe_tree tree) files.now.map pin.now) (tt {0})) }
{
    if observes_file(policy, regions, pipeline, &pin.path) {
        check_hash(files, pin)
    } else {
        Ok(())
    }
}

/// Whether the run of the pipeline at a place of the policy may start over files: each of its program files is there, and
/// each pinned file of a region that it observes is there and has the pinned hash. The first fault of a program file, in
/// the order of the text, comes before the first one of a pinned file, in the policy's order. Files are hashed page by
/// page, and no bytes of theirs are copied.
pub fn ready(
    policy: &CheckedPolicy,
    regions: &Regions,
    pipeline: u32,
    files: &Files,
) -> Result<(), NotReady>
    requires place { pipeline < length policy.now.policy.pipelines }
    requires regions { IsRegionsOf policy.now regions.now }
    ensures answer { GivesAt policy.now pipeline files.now.map result }
    ensures starts { OnOk result (MayStartAt policy.now pipeline files.now.map) }
{
    check_files(files, policy.pipe(pipeline).programs())?;
    for pin in policy.policy().pins.as_slice() {
        check_pin(policy, regions, pipeline, files, pin)?;
    }
    Ok(())
}
