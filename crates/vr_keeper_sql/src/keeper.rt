ghost use Rattle.std.specs.Prelude.{◌≡◌, false};
ghost use Rattle.vr_keeper_sql.specs.Faults.{IsCounted};

use crate::faults::StoreFault;
use crate::store::{load_rows, make_changes};
use sqlite::{Connection, File, FileStore, MemStore};
use std::alloc::Global;
use vr_files::Changes;
use vr_keeper::{KeepFault, Keeper, Rows};

/// The database that is open.
#[derive(Drop)]
enum Store {
    Closed,
    Memory(Connection<MemStore>),
    OnDisk(Connection<FileStore<File>>),
}

/// A keeper over SQLite. The empty name is a store in memory, which begins without files, and another name is that of a file.
/// It tells neither its rows nor what a crash may leave; what a file holds is trusted to `sqlite` and tested.
///
/// A file that is no store, a store of another version, a file without its size and a refused statement are failures that it
/// counts, and they leave the file's contents as they were.
pub struct SqlKeeper {
    rt: HostRuntime,
    store: Store,
    loaded: bool,
    faults: u64,
}

// It is written out, so that a caller does not prove again how each part of a database is dropped.
impl Drop for SqlKeeper {
    fn drop(self) {
        let SqlKeeper {
            rt: _,
            store: _,
            loaded: _,
            faults: _,
        } = self;
    }
}

/// Opens the store of this name, and gives its rows.
fn open(rt: &HostRuntime, alloc: Global, name: &str) -> Result<(Store, Rows), StoreFault> {
    if name.is_empty() {
        let mut connection = Connection::open_in_memory(alloc)?;
        let rows = load_rows(alloc, &mut connection)?;
        Ok((Store::Memory(connection), rows))
    } else {
        let mut connection = Connection::open(rt, name)?;
        let rows = load_rows(alloc, &mut connection)?;
        Ok((Store::OnDisk(connection), rows))
    }
}

impl SqlKeeper {
    /// A keeper with no store yet, which opens files by this handle.
    pub fn new(rt: HostRuntime) -> SqlKeeper
        ensures faults { result.faults ≡ 0 }
        ensures loaded { result.loaded ≡ false }
    {
        SqlKeeper {
            rt,
            store: Store::Closed,
            loaded: false,
            faults: 0,
        }
    }

    /// Opens the store of this name in place of the one that is open, and gives its rows.
    fn open_anew(&mut self, alloc: Global, name: &str) -> Result<Rows, StoreFault>
        ensures faults { self.new.faults ≡ self.old.faults }
        ensures loaded { self.new.loaded ≡ self.old.loaded }
    {
        self.store = Store::Closed;
        let (store, rows) = open(&self.rt, alloc, name)?;
        self.store = store;
        Ok(rows)
    }

    /// The rows of the store of this name. A store in memory that is open stays so.
    fn rows_of(&mut self, alloc: Global, store: &[u8]) -> Result<Rows, StoreFault>
        ensures faults { self.new.faults ≡ self.old.faults }
        ensures loaded { self.new.loaded ≡ self.old.loaded }
    {
        let Ok(name) = std::str::from_utf8(store) else {
            return Err(StoreFault::Refused);
        };
        match &mut self.store {
            Store::Memory(connection) if name.is_empty() => load_rows(alloc, connection),
            _ => self.open_anew(alloc, name),
        }
    }

    /// Makes the changes in the store that is open.
    fn change(&mut self, changes: &Changes) -> Result<(), StoreFault>
        ensures faults { self.new.faults ≡ self.old.faults }
        ensures loaded { self.new.loaded ≡ self.old.loaded }
    {
        match &mut self.store {
            Store::Closed => Err(StoreFault::Refused),
            Store::Memory(connection) => make_changes(connection, changes),
            Store::OnDisk(connection) => make_changes(connection, changes),
        }
    }

    /// Counts a fault that isn't want of memory.
    fn counted(&mut self, fault: StoreFault) -> KeepFault
        ensures cause { IsCounted self.old.faults self.new.faults result }
        ensures loaded { self.new.loaded ≡ self.old.loaded }
    {
        match fault {
            StoreFault::OutOfMemory => KeepFault::OutOfMemory,
            StoreFault::Refused => {
                self.faults = self.faults.saturating_add(1);
                KeepFault::Failed
            }
        }
    }
}

impl Keeper for SqlKeeper {
    ghost use Rattle.std.specs.Prelude.{None, false};
    ghost use Rattle.std.proofs.lemmas.Bool.{false≢true};

    ghost faults = { λ k. k.faults };

    ghost is_loaded = { λ k. k.loaded };

    ghost rows = { λ _. None };

    ghost listed = { λ _. None };

    ghost listed_are_rows = { λ k. tt };

    ghost tells_crashes = { λ _. false };

    ghost clock = { λ _. 0 };

    ghost may_leave = { λ _ _ _. Unit {0} };

    ghost crashes_tell_rows = { λ k h. absurd (false≢true h) };

    ghost crash_times = { λ k earlier later map tells within left. tt };

    fn load(&mut self, alloc: Global, store: &[u8]) -> Result<Rows, KeepFault> {
        self.loaded = false;
        match self.rows_of(alloc, store) {
            Ok(rows) => {
                self.loaded = rows.have_names();
                Ok(rows)
            }
            Err(fault) => Err(self.counted(fault)),
        }
    }

    fn apply(&mut self, _alloc: Global, changes: &Changes) -> Result<(), KeepFault> {
        match self.change(changes) {
            Ok(()) => Ok(()),
            Err(fault) => Err(self.counted(fault)),
        }
    }
}
