ghost use Rattle.std.specs.Prelude.{◌≡◌, ◌+◌, ◌<◌, ◌≤◌, ◌++◌, length, is_some, option_map, OnOk, IfOk, IsTrue, slice_get, ◌↔◌};
ghost use Rattle.std.specs.Option.{option_copied};
ghost use Rattle.std.specs.FinMap as map;
ghost use Rattle.vr_files.specs.Bodies.{Becomes};
ghost use Rattle.vr_files.specs.Changes.{applied};
ghost use Rattle.vr_files.specs.FileMaps.{no_files, bytes_at, stored};

use crate::body::FileBody;
use crate::changes::Changes;
use crate::faults::FileFault;
use crate::kept::{self, Entry, Room};
use std::alloc::Global;
use std::marker::Model;
use vr_base::{NoMemory, Path};

/// Files by their paths. Contracts see the map and for how many paths more there is room.
#[derive(Debug, Drop)]
pub struct Files {
    entries: Vec<Entry>,
    rooms: Vec<Room>,
}

impl Model for Files {
    ghost use Rattle.std.specs.Prelude.{◌-◌, min, vec_len, vec_capacity};
    ghost use Rattle.std.specs.FinMap.{from_sorted};
    ghost use Rattle.vr_files.specs.FileMaps.{FileTable, coded_table};
    ghost use Rattle.vr_files.specs.Entries.{AreSorted};

    ghost Value = { FileTable };

    ghost coded = { coded_table };

    ghost view = { λ f. record {
      map = from_sorted f.entries.items;
      spare = min (vec_capacity f.entries - vec_len f.entries) (vec_len f.rooms);
    } };

    ghost invariant = { λ f. AreSorted f.entries.items };
}

impl Files {
    /// No files.
    pub fn new(alloc: Global) -> Files
        ensures { result.map ≡ no_files }
    {
        Files {
            entries: Vec::new(alloc),
            rooms: Vec::new(alloc),
        }
    }

    pub fn len(&self) -> usize
        ensures { result ≡ map.len self.now.map }
    {
        self.entries.len()
    }

    pub fn is_empty(&self) -> bool
        ensures { IsTrue result ↔ (self.now.map ≡ no_files) }
    {
        self.len() == 0
    }

    pub fn get(&self, path: &Path) -> Option<&FileBody>
        ensures { option_copied result ≡ map.get self.now.map path.now }
    {
        match kept::place_of(&self.entries, path) {
            Ok(place) => Some(self.entries[place].body()),
            Err(_) => None,
        }
    }

    /// File `k`, counted from 0 in the order of the bytes of the paths. None comes where there are at most `k` files.
    pub fn entry(&self, k: usize) -> Option<(&Path, &FileBody)>
        ensures { option_map (λ e. (e.0.now, e.1.now)) result
            ≡ slice_get (map.entries self.now.map) k }
    {
        Some(self.entries.get(k)?.file())
    }

    /// Makes room for so many paths more.
    pub fn reserve(&mut self, more: usize) -> Result<(), NoMemory>
        ensures same { self.new.map ≡ self.old.map }
        ensures room { OnOk result (more ≤ self.new.spare) }
    {
        self.entries.reserve(more)?;
        kept::make_rooms(&mut self.rooms, more)
    }

    /// Replaces a file, or makes it. TooLarge comes where there are more than 16,777,216 bytes.
    pub fn put(&mut self, path: &Path, body: &[u8]) -> Result<(), FileFault>
        ensures { Becomes self.old.map self.new.map result (stored self.old.map path.now body.now) }
    {
        let alloc = *self.entries.allocator();
        let body = FileBody::from_slice(alloc, body)?;
        kept::put(&mut self.entries, Entry::new(alloc, path.copy()?, body)?)?;
        Ok(())
    }

    /// Takes a file out, and answers whether it was there.
    pub fn remove(&mut self, path: &Path) -> bool
        ensures there { result ≡ is_some (map.get self.old.map path.now) }
        ensures removed { self.new.map ≡ map.remove self.old.map path.now }
        ensures spare { self.old.spare ≤ self.new.spare }
    {
        kept::remove(&mut self.entries, path)
    }

    /// Adds a piece at the end of a file, or makes the file of it. TooLarge comes where there would be more than
    /// 16,777,216 bytes.
    pub fn append(&mut self, path: &Path, piece: &[u8]) -> Result<(), FileFault>
        ensures { let body = bytes_at self.old.map path.now ++ piece.now in
            Becomes self.old.map self.new.map result (stored self.old.map path.now body) }
    {
        let alloc = *self.entries.allocator();
        match kept::place_of(&self.entries, path) {
            Ok(place) => self.entries[place].append(alloc, piece),
            Err(_) => self.put(path, piece),
        }
    }

    /// The same files. It copies a handle a file, and no bytes of one.
    pub fn share(&self) -> Result<Files, NoMemory>
        ensures { IfOk result (λ files. files.map ≡ self.now.map) }
    {
        let alloc = *self.entries.allocator();
        let mut entries = Vec::with_capacity(alloc, self.entries.len())?;
        for entry in &self.entries {
            entries.push(entry.share(alloc)?)?;
        }
        Ok(Files {
            entries,
            rooms: Vec::new(alloc),
        })
    }

    /// Makes the changes, for which there is room, so that it can't fail.
    pub fn apply(&mut self, changes: Changes)
        requires { length changes ≤ self.old.spare }
        ensures { self.new.map ≡ applied self.old.map changes }
    {
        let alloc = *self.entries.allocator();
        for (path, body) in changes.into_vec() {
            match body {
                Some(body) => {
                    let entry = Entry::in_room(alloc, (path, body), &mut self.rooms);
                    match kept::put(&mut self.entries, entry) {
                        Ok(()) => {}
                        Err(_) => unreachable!(),
                    }
                }
                None => {
                    kept::remove(&mut self.entries, &path);
                }
            }
        }
    }
}
