ghost use Rattle.std.specs.Prelude.{◌≡◌, ◌+◌, ◌<◌, ◌≤◌, [], OnOk};
ghost use Rattle.std.specs.Option.{option_copied};
ghost use Rattle.std.specs.FinMap.{find, put as put_lem};
ghost use Rattle.vr_files.specs.Changes.{applied, changed};
ghost use Rattle.vr_files.specs.Entries.{AreSorted};
ghost use Rattle.vr_files.specs.FileMaps.{FileMap, path_cmp};

use crate::body::FileBody;
use crate::entries;
use std::alloc::Global;
use std::marker::Model;
use vr_base::{NoMemory, Path};

/// What became of the files of a store, apart from the store: at most one change a path, in the order of the bytes of
/// the paths. Contracts see the changes and for how many paths more there is room.
#[derive(Debug, Drop)]
pub struct Edits {
    entries: Vec<(Path, Option<FileBody>)>,
}

impl Model for Edits {
    ghost use Rattle.std.specs.Prelude.{◌-◌, vec_len, vec_capacity};
    ghost use Rattle.vr_files.specs.Changes.{EditTable, coded_edits};
    ghost use Rattle.vr_files.specs.Entries.{AreSorted};

    ghost Value = { EditTable };

    ghost coded = { coded_edits };

    ghost view = { λ e. record {
      changes = e.entries.items;
      spare = vec_capacity e.entries - vec_len e.entries;
    } };

    ghost invariant = { λ e. AreSorted e.entries.items };
}

impl Edits {
    /// No changes.
    pub fn new(alloc: Global) -> Edits
        ensures { result.changes ≡ [] }
    {
        Edits {
            entries: Vec::new(alloc),
        }
    }

    /// The change of a name, where it is a path that has one.
    pub fn get(&self, name: &[u8]) -> Option<&Option<FileBody>>
        ensures { option_copied result ≡ find path_cmp name.now self.now.changes }
    {
        match entries::place_of_name(&self.entries, name) {
            Ok(place) => Some(&self.entries[place].1),
            Err(_) => None,
        }
    }

    pub fn as_slice(&self) -> &[(Path, Option<FileBody>)]
        ensures changes { result.now ≡ self.now.changes }
        ensures in_order { AreSorted self.now.changes }
    {
        self.entries.as_slice()
    }

    /// Makes room for so many paths more.
    pub fn reserve(&mut self, more: usize) -> Result<(), NoMemory>
        ensures same { self.new.changes ≡ self.old.changes }
        ensures room { OnOk result (more ≤ self.new.spare) }
    {
        self.entries.reserve(more)?;
        Ok(())
    }

    /// Puts a change in the place of the path's earlier one. It takes no memory.
    pub fn put(&mut self, path: Path, body: Option<FileBody>)
        requires { 0 < self.old.spare }
        ensures spare { self.old.spare ≤ self.new.spare + 1 }
        ensures applied { (files : FileMap) →
            applied files self.new.changes ≡ changed (applied files self.old.changes) path body }
    {
        match entries::put(&mut self.entries, path, body) {
            Ok(()) => {}
            Err(_) => unreachable!(),
        }
    }
}
