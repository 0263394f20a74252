//! A file of a store and its path, which stores share by handles.
ghost use Rattle.std.specs.Prelude.{◌≡◌, ◌+◌, ◌<◌, ◌≤◌, ◌++◌, is_some, vec_len, vec_capacity, IsOk, IfOk, IfErr, OnOk, OnErr};
ghost use Rattle.std.specs.FinMap.{find, put as put_lem};
ghost use Rattle.vr_files.specs.Bodies.{Becomes, sized};
ghost use Rattle.vr_files.specs.Entries.{AreSorted, IsAt, IsGap, without};
ghost use Rattle.vr_files.specs.FileMaps.{path_cmp};

use crate::body::FileBody;
use crate::faults::FileFault;
use std::alloc::Global;
use std::marker::Model;
use std::sync::Arc;
use vr_base::{NoMemory, Path};

/// A path, and the body of its file.
pub(crate) type File = (Path, FileBody);

/// Room for a file, made before the file is there.
pub(crate) type Room = Box<Option<File>>;

#[derive(Debug, Drop)]
enum Kept {
    /// Other stores may have the same file.
    Shared(Arc<File>),
    /// No memory was left for a handle, so that the file stands in room that was made before.
    Own(Room),
}

/// A file that is kept with its path. Contracts see both.
#[derive(Debug, Drop)]
pub(crate) struct Entry {
    kept: Kept,
}

impl Model for Entry {
    ghost use Rattle.std.specs.Prelude.{List, ℕ};
    ghost use Rattle.vr_files.specs.Kept.{kept_file, IsKept};

    ghost Value = { List ℕ × List ℕ };

    ghost view = { λ e. kept_file e.kept };

    ghost invariant = { λ e. IsKept e.kept };
}

impl Entry {
    pub(crate) fn new(alloc: Global, path: Path, body: FileBody) -> Result<Entry, NoMemory>
        ensures { IfOk result (λ entry. entry ≡ (path, body)) }
    {
        Ok(Entry {
            kept: Kept::Shared(Arc::new(alloc, (path, body))?),
        })
    }

    /// An entry that takes a room where memory ran out.
    pub(crate) fn in_room(alloc: Global, file: File, rooms: &mut Vec<Room>) -> Entry
        requires { 0 < vec_len rooms.old }
        ensures entry { result ≡ file }
        ensures rooms { vec_len rooms.old ≤ vec_len rooms.new + 1 }
    {
        match Arc::new(alloc, file) {
            Ok(file) => Entry {
                kept: Kept::Shared(file),
            },
            Err(refused) => own(refused.value, rooms),
        }
    }

    pub(crate) fn file(&self) -> (&Path, &FileBody)
        ensures path { result.0.now ≡ self.now.0 }
        ensures body { result.1.now ≡ self.now.1 }
    {
        let file = match &self.kept {
            Kept::Shared(file) => &**file,
            Kept::Own(room) => match &**room {
                Some(file) => file,
                None => unreachable!(),
            },
        };
        (&file.0, &file.1)
    }

    pub(crate) fn path(&self) -> &Path
        ensures { result.now ≡ self.now.0 }
    {
        self.file().0
    }

    pub(crate) fn body(&self) -> &FileBody
        ensures { result.now ≡ self.now.1 }
    {
        self.file().1
    }

    /// Adds a piece at the end of the body. A file that no other store has is changed in its place, and else copied first.
    pub(crate) fn append(&mut self, alloc: Global, piece: &[u8]) -> Result<(), FileFault>
        ensures path { self.new.0 ≡ self.old.0 }
        ensures body { Becomes self.old.1 self.new.1 result (sized (self.old.1 ++ piece.now)) }
    {
        if let Kept::Shared(file) = &mut self.kept {
            if let Some(file) = Arc::get_mut(file) {
                return file.1.append(piece);
            }
        }
        let mut body = self.body().share()?;
        body.append(piece)?;
        let path = self.path().copy()?;
        *self = Entry::new(alloc, path, body)?;
        Ok(())
    }

    /// The same file with the same path, by a handle.
    pub(crate) fn share(&self, alloc: Global) -> Result<Entry, NoMemory>
        ensures { IfOk result (λ entry. entry ≡ self.now) }
    {
        match &self.kept {
            Kept::Shared(file) => Ok(Entry {
                kept: Kept::Shared(file.clone()?),
            }),
            Kept::Own(_) => self.copy(alloc),
        }
    }

    /// A copy of the path, and the body's pages by their handles.
    fn copy(&self, alloc: Global) -> Result<Entry, NoMemory>
        ensures { IfOk result (λ entry. entry ≡ self.now) }
    {
        let (path, body) = self.file();
        Entry::new(alloc, path.copy()?, body.share()?)
    }
}

/// Makes rooms until there are so many.
pub(crate) fn make_rooms(rooms: &mut Vec<Room>, count: usize) -> Result<(), NoMemory>
    ensures { OnOk result (count ≤ vec_len rooms.new) }
{
    let alloc = *rooms.allocator();
    while rooms.len() < count {
        rooms.push(Box::new(alloc, None)?)?;
    }
    Ok(())
}

/// The file in one of the rooms.
fn own(file: File, rooms: &mut Vec<Room>) -> Entry
    requires { 0 < vec_len rooms.old }
    ensures entry { result ≡ file }
    ensures rooms { vec_len rooms.old ≤ vec_len rooms.new + 1 }
{
    match rooms.pop() {
        Some(mut room) => {
            *room = Some(file);
            Entry {
                kept: Kept::Own(room),
            }
        }
        None => unreachable!(),
    }
}

/// Where a name stands among the paths of the entries, or would stand.
fn place_of_name(entries: &[Entry], name: &[u8]) -> Result<usize, usize>
    requires { AreSorted entries.now }
    ensures found { IfOk result (IsAt name.now entries.now) }
    ensures absent { IfErr result (IsGap name.now entries.now) }
{
    entries.binary_search_by(|entry| entry.path().as_slice().cmp(name))
}

/// Where the path stands among the entries, or would stand.
pub(crate) fn place_of(entries: &[Entry], path: &Path) -> Result<usize, usize>
    requires { AreSorted entries.now }
    ensures found { IfOk result (IsAt path.now entries.now) }
    ensures absent { IfErr result (IsGap path.now entries.now) }
{
    place_of_name(entries, path.as_slice())
}

/// Puts an entry in the place of the path's earlier one. It takes memory only for a path more, where there is no room.
pub(crate) fn put(entries: &mut Vec<Entry>, entry: Entry) -> Result<(), NoMemory>
    requires { AreSorted entries.old.items }
    ensures ok { OnOk result (entries.new.items
        ≡ put_lem path_cmp entry.0 entry.1 entries.old.items) }
    ensures err { OnErr result (entries.new.items ≡ entries.old.items) }
    ensures succeeds { vec_len entries.old < vec_capacity entries.old → IsOk result }
    ensures len { vec_len entries.new ≤ vec_len entries.old + 1 }
    ensures capacity { vec_capacity entries.old ≤ vec_capacity entries.new }
{
    match place_of(entries, entry.path()) {
        Ok(place) => {
            entries[place] = entry;
            Ok(())
        }
        Err(place) => Ok(entries.insert(place, entry)?),
    }
}

/// Takes a path out, and answers whether it was there.
pub(crate) fn remove(entries: &mut Vec<Entry>, path: &Path) -> bool
    requires { AreSorted entries.old.items }
    ensures there { result ≡ is_some (find path_cmp path.now entries.old.items) }
    ensures entries { entries.new.items ≡ without path.now entries.old.items }
    ensures len { vec_len entries.new ≤ vec_len entries.old }
    ensures capacity { vec_capacity entries.new ≡ vec_capacity entries.old }
{
    match place_of(entries, path) {
        Ok(place) => {
            entries.remove(place);
            true
        }
        Err(_) => false,
    }
}
