ghost use Rattle.std.specs.Prelude.{◌≡◌, false};

use crate::keepers::{KeepFault, Keeper};
use crate::kept::Kept;
use crate::rows::Rows;
use std::alloc::Global;
use vr_files::Changes;

/// A keeper in memory that never fails, and tells its rows and their order.
#[derive(Debug, Drop)]
pub struct NeverFails {
    rows: Kept,
    loaded: bool,
}

impl NeverFails {
    pub fn new(alloc: Global, rows: Rows) -> NeverFails
        ensures { result ≡ record { rows = rows; loaded = false } }
    {
        NeverFails {
            rows: Kept::new(alloc, rows),
            loaded: false,
        }
    }
}

impl Keeper for NeverFails {
    ghost use Rattle.std.specs.Prelude.{Some, false, refl};
    ghost use Rattle.vr_keeper.specs.Keepers.{rows_map};

    ghost faults = { λ _. 0 };

    ghost is_loaded = { λ k. k.loaded };

    ghost rows = { λ k. Some (rows_map k.rows) };

    ghost listed = { λ k. Some k.rows };

    ghost listed_are_rows = { λ k. refl };

    ghost tells_crashes = { λ _. false };

    ghost clock = { λ _. 0 };

    ghost may_leave = { λ _ _ _. Unit {0} };

    ghost crashes_tell_rows = { λ k h. refl };

    ghost crash_times = { λ k earlier later map tells within left. tt };

    fn load(&mut self, alloc: Global, _store: &[u8]) -> Result<Rows, KeepFault> {
        self.loaded = false;
        let rows = self.rows.list(alloc)?;
        self.loaded = rows.have_names();
        Ok(rows)
    }

    fn apply(&mut self, alloc: Global, changes: &Changes) -> Result<(), KeepFault> {
        self.rows.apply(alloc, changes)?;
        Ok(())
    }
}
