ghost use Rattle.std.specs.Prelude.{◌≡◌, ◌≤◌, ℕ, Bool, List, Option, Some, IsTrue, IsSome, IfSome, IfOk, unwrap_or};
ghost use Rattle.vr_base.specs.Causes.{HasCauseOf};
ghost use Rattle.vr_files.specs.FileMaps.{FileMap};
ghost use Rattle.vr_keeper.specs.Crashes.{LoadKeepsCrashes, ApplyLeaves};
ghost use Rattle.vr_keeper.specs.Keepers.{Row, rows_map, rows_after, loads};

use crate::rows::Rows;
use std::alloc::{AllocError, AllocFailed, Global};
use vr_base::NoMemory;
use vr_files::Changes;

/// Why a keeper refused a call.
#[derive(Clone, Copy, Debug, PartialEq, Eq)]
pub enum KeepFault {
    /// The store failed, and the keeper counted it.
    Failed,
    OutOfMemory,
}

impl From<AllocError> for KeepFault {
    ghost use Rattle.vr_keeper.specs.declared.keepers.KeepFault.TheVariants.{OutOfMemory};
    ghost use Rattle.std.specs.Prelude.{◌≡◌};

    ghost from_gives = { λ _ e. e ≡ OutOfMemory };

    fn from(_refused: AllocError) -> KeepFault {
        KeepFault::OutOfMemory
    }
}

impl<T: Drop> From<AllocFailed<T>> for KeepFault {
    ghost use Rattle.vr_keeper.specs.declared.keepers.KeepFault.TheVariants.{OutOfMemory};
    ghost use Rattle.std.specs.Prelude.{◌≡◌};

    ghost from_gives = { λ _ e. e ≡ OutOfMemory };

    fn from(_refused: AllocFailed<T>) -> KeepFault {
        KeepFault::OutOfMemory
    }
}

impl From<NoMemory> for KeepFault {
    ghost use Rattle.vr_keeper.specs.declared.keepers.KeepFault.TheVariants.{OutOfMemory};
    ghost use Rattle.std.specs.Prelude.{◌≡◌};

    ghost from_gives = { λ _ e. e ≡ OutOfMemory };

    fn from(_refused: NoMemory) -> KeepFault {
        KeepFault::OutOfMemory
    }
}

/// What keeps files, as a database does.
pub trait Keeper {
    /// How often a call has failed.
    ghost faults: { Self → ℕ };

    /// Whether its rows were loaded, so that it may be asked for changes.
    ghost is_loaded: { Self → Bool };

    /// The rows by their names, where the keeper tells them.
    ghost rows: { Self → Option FileMap };

    /// The rows in the order in which a load gives them, where the keeper tells it.
    ghost listed: { Self → Option (List Row) };

    /// Whether the keeper tells what a crash may leave.
    ghost tells_crashes: { Self → Bool };

    /// A clock that never falls.
    ghost clock: { Self → ℕ };

    /// Whether a crash at some moment since a value of the clock may leave a map of rows.
    ghost may_leave: { Self → ℕ → FileMap → Type 0 };

    /// Opens the store of this name and gives its rows. Where several have one name the last of them counts. A row with
    /// the empty name says that the store is damaged; the keeper isn't loaded then, nor after an `Err`.
    fn load(&mut self, alloc: Global, store: &[u8]) -> Result<Rows, KeepFault>
        ensures loaded { is_loaded self.new ≡ loads result }
        ensures rows { IfOk result (λ list. IfSome (rows self.old) (λ map. rows_map list ≡ map)) }
        ensures same { rows self.new ≡ rows self.old }
        ensures listed { IfOk result (λ list. IfSome (listed self.old) (λ told. list ≡ told)) }
        ensures same_list { listed self.new ≡ listed self.old }
        ensures tells { tells_crashes self.new ≡ tells_crashes self.old }
        ensures crashes { IsTrue (tells_crashes self.old) →
            LoadKeepsCrashes (clock self.old) (clock self.new)
            (may_leave self.old) (may_leave self.new) }
        ensures cause { HasCauseOf KeepFault.Failed (faults self.old) (faults self.new) result };

    /// Makes the changes, all of them, or after an `Err` none.
    fn apply(&mut self, alloc: Global, changes: &Changes) -> Result<(), KeepFault>
        requires { IsTrue (is_loaded self.old) }
        ensures loaded { IsTrue (is_loaded self.new) }
        ensures rows { rows self.new ≡ rows_after result (rows self.old) changes.now }
        ensures tells { tells_crashes self.new ≡ tells_crashes self.old }
        ensures crashes { IsTrue (tells_crashes self.old) → IfSome (rows self.old) (λ map.
            ApplyLeaves (clock self.old) (clock self.new)
            (may_leave self.old) (may_leave self.new) map changes.now result) }
        ensures cause { HasCauseOf KeepFault.Failed (faults self.old) (faults self.new) result };

    /// A keeper that tells the order of its rows tells the rows.
    ghost listed_are_rows: { (k : Self) → IfSome (listed k) (λ rs. rows k ≡ Some (rows_map rs)) };

    /// A keeper that tells what a crash may leave tells its rows.
    ghost crashes_tell_rows: { (k : Self) → IsTrue (tells_crashes k) → IsSome (rows k) };

    /// A crash since a later moment is one since an earlier moment too.
    ghost crash_times: { (k : Self) (earlier later : ℕ) (map : FileMap) → IsTrue (tells_crashes k)
        → earlier ≤ later → may_leave k later map → may_leave k earlier map };
}
