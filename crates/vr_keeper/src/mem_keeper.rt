ghost use Rattle.std.specs.Prelude.{◌≡◌, ◌==◌, ◌+◌, ◌-◌, ◌^◌, ◌≤◌, min, false};
ghost use Rattle.std.specs.List.{list_any};
ghost use Rattle.vr_base.specs.Causes.{Rose};

use crate::keepers::{KeepFault, Keeper};
use crate::kept::Kept;
use crate::rows::Rows;
use std::alloc::Global;
use vr_files::Changes;

/// Whether the call with this number is one that fails, and counts it.
fn fails(calls: &mut u64, failing: &[u64]) -> bool
    ensures listed { result ≡ list_any (λ n. n == calls.old) failing.now }
    ensures counted { calls.new ≡ min (calls.old + 1) (2 ^ 64 - 1) }
{
    let number = *calls;
    *calls = number.saturating_add(1);
    failing.contains(&number)
}

/// A keeper in memory, which tells its rows and their order. The calls of it fail whose numbers are listed.
#[derive(Debug, Drop)]
pub struct MemKeeper {
    rows: Kept,
    failing: Vec<u64>,
    calls: u64,
    faults: u64,
    loaded: bool,
}

impl MemKeeper {
    /// A keeper of these rows. The calls of `load` and `apply` fail whose numbers, counted together from 0, are listed.
    pub fn new(rows: Rows, failing: Vec<u64>) -> MemKeeper
        ensures { result ≡ record {
          rows = rows;
          failing = failing;
          calls = 0;
          faults = 0;
          loaded = false;
        } }
    {
        MemKeeper {
            rows: Kept::new(*failing.allocator(), rows),
            failing,
            calls: 0,
            faults: 0,
            loaded: false,
        }
    }
}

/// Counts a fault.
fn failed(faults: &mut u64) -> KeepFault
    ensures rose { Rose faults.old faults.new }
    ensures later { faults.old ≤ faults.new }
    ensures failed { result ≡ KeepFault.Failed }
{
    *faults = faults.saturating_add(1);
    KeepFault::Failed
}

impl Keeper for MemKeeper {
    ghost use Rattle.std.specs.Prelude.{Some, false, refl};
    ghost use Rattle.vr_keeper.specs.Keepers.{rows_map};

    ghost faults = { λ k. k.faults };

    ghost is_loaded = { λ k. k.loaded };

    ghost rows = { λ k. Some (rows_map k.rows) };

    ghost listed = { λ k. Some k.rows };

    ghost listed_are_rows = { λ k. refl };

    ghost tells_crashes = { λ _. false };

    ghost clock = { λ _. 0 };

    ghost may_leave = { λ _ _ _. Unit {0} };

    ghost crashes_tell_rows = { λ k h. refl };

    ghost crash_times = { λ k earlier later map tells within left. tt };

    fn load(&mut self, alloc: Global, _store: &[u8]) -> Result<Rows, KeepFault> {
        self.loaded = false;
        if fails(&mut self.calls, &self.failing) {
            return Err(failed(&mut self.faults));
        }
        let rows = self.rows.list(alloc)?;
        self.loaded = rows.have_names();
        Ok(rows)
    }

    fn apply(&mut self, alloc: Global, changes: &Changes) -> Result<(), KeepFault> {
        if fails(&mut self.calls, &self.failing) {
            return Err(failed(&mut self.faults));
        }
        self.rows.apply(alloc, changes)?;
        Ok(())
    }
}
