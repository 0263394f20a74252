ghost use Rattle.std.specs.Prelude.{◌≡◌, ℕ, IfErr, IfOk, OnOk, IsTrue, Ok, Err};
ghost use Rattle.vr_base.specs.Causes.{HasCauseOf};
ghost use Rattle.vr_base.specs.Checks.{result_map};
ghost use Rattle.vr_core.specs.Loading.{LeavesLoaded, OpensListed};
ghost use Rattle.vr_core.specs.Opening.{ComesFromRows};
ghost use Rattle.vr_keeper.specs.Crashes.{LoadKeepsCrashes};

use crate::policy_files::PolicyFiles;
use std::alloc::Global;
use vr_base::NoMemory;
use vr_files::Files;
use vr_keeper::{KeepFault, Keeper};
use vr_policy_check::CheckedPolicy;

/// Why no book was started.
#[derive(Clone, Copy, Debug, PartialEq, Eq)]
pub enum StartFault {
    /// The keeper failed to load its rows, and counted it.
    KeeperFailed,
    /// The first loaded row that is bad, counted from 0: its name is no path in its normal form, or a row before it has
    /// the name too, or it has more than 16,777,216 bytes. 4,294,967,295 stands for each later row too.
    BadRow(u32),
    OutOfMemory,
}

impl From<KeepFault> for StartFault {
    ghost use Rattle.std.specs.Prelude.{◌≡◌};
    ghost use Rattle.vr_core.specs.Opening.{fault_of};

    ghost from_gives = { λ fault e. e ≡ fault_of fault };

    fn from(fault: KeepFault) -> StartFault {
        match fault {
            KeepFault::Failed => StartFault::KeeperFailed,
            KeepFault::OutOfMemory => StartFault::OutOfMemory,
        }
    }
}

impl From<NoMemory> for StartFault {
    ghost use Rattle.std.specs.Prelude.{◌≡◌};
    ghost use Rattle.vr_core.specs.declared.opening.StartFault.TheVariants.{OutOfMemory};

    ghost from_gives = { λ _ e. e ≡ OutOfMemory };

    fn from(_refused: NoMemory) -> StartFault {
        StartFault::OutOfMemory
    }
}

/// The files of a policy with which a history begins, and a share of them that stays as it is.
#[derive(Drop)]
pub struct Opening {
    pub files: PolicyFiles,
    pub opening: Files,
}

/// Has the keeper load the rows of a store, and makes the files of them.
pub fn load<K: Keeper>(
    alloc: Global,
    policy: CheckedPolicy,
    keeper: &mut K,
    store: &[u8],
) -> Result<Opening, StartFault>
    ensures policy { IfOk result (λ new. new.files.policy ≡ policy) }
    ensures same { IfOk result (λ new. new.files.files.map ≡ new.opening.map) }
    ensures opening { IfOk result (λ new.
        ComesFromRows (K.rows keeper.old) (Ok new.opening.map)) }
    ensures bad_row { (place : ℕ) → result ≡ Err (StartFault.BadRow place)
        → ComesFromRows (K.rows keeper.old) (Err (StartFault.BadRow place)) }
    ensures exact { OpensListed (K.listed keeper.old) (result_map (λ new. new.opening.map) result) }
    ensures loaded { OnOk result (IsTrue (K.is_loaded keeper.new)) }
    ensures left { IfErr result (λ fault.
        LeavesLoaded (K.listed keeper.old) fault (K.is_loaded keeper.new)) }
    ensures rows { K.rows keeper.new ≡ K.rows keeper.old }
    ensures listed { K.listed keeper.new ≡ K.listed keeper.old }
    ensures tells { K.tells_crashes keeper.new ≡ K.tells_crashes keeper.old }
    ensures crashes { IsTrue (K.tells_crashes keeper.old) →
        LoadKeepsCrashes (K.clock keeper.old) (K.clock keeper.new)
        (K.may_leave keeper.old) (K.may_leave keeper.new) }
    ensures cause { HasCauseOf StartFault.KeeperFailed
        (K.faults keeper.old) (K.faults keeper.new) result }
{
    let rows = keeper.load(alloc, store)?;
    let files = PolicyFiles::open(alloc, policy, rows)?;
    let opening = files.files().share()?;
    Ok(Opening { files, opening })
}
