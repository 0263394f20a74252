ghost use Rattle.std.specs.Prelude.{◌≡◌, filter, is_some, IsSome, IfOk, OnOk, OnErr};
ghost use Rattle.std.specs.Option.{option_copied};
ghost use Rattle.std.specs.FinMap as map;
ghost use Rattle.vr_files.specs.Bodies.{Becomes, written, resized};
ghost use Rattle.vr_files.specs.Changes.{AreDifferences, layered, without_file, body_of, same_file, differs};
ghost use Rattle.vr_files.specs.Entries.{AreSorted};
ghost use Rattle.vr_files.specs.FileMaps.{bytes_at};
ghost use Rattle.vr_files.specs.Overlays.{OwnsBody};

use crate::body::FileBody;
use crate::changes::Changes;
use crate::entries;
use crate::faults::FileFault;
use crate::files::Files;
use std::alloc::Global;
use std::marker::Model;
use vr_base::{NoMemory, Path};

/// Files that are changed while those under them stay as they are. Contracts see both maps.
#[derive(Debug, Drop)]
pub struct Overlay {
    base: Files,
    changed: Vec<(Path, Option<FileBody>)>,
}

impl Model for Overlay {
    ghost use Rattle.vr_files.specs.Changes.{Layers, coded_layers, applied};
    ghost use Rattle.vr_files.specs.Entries.{AreSorted};

    ghost Value = { Layers };

    ghost coded = { coded_layers };

    ghost view = { λ o. record { base = o.base.map; files = applied o.base.map o.changed.items } };

    ghost invariant = { λ o. AreSorted o.changed.items };
}

impl Overlay {
    /// The files, with nothing changed yet.
    pub fn new(alloc: Global, base: Files) -> Overlay
        ensures base { result.base ≡ base.map }
        ensures files { result.files ≡ base.map }
    {
        Overlay {
            base,
            changed: Vec::new(alloc),
        }
    }

    pub fn get(&self, path: &Path) -> Option<&FileBody>
        ensures { option_copied result ≡ map.get self.now.files path.now }
    {
        match entries::get(&self.changed, path) {
            Some(changed) => changed.as_ref(),
            None => self.base.get(path),
        }
    }

    /// Replaces a file, or makes it. TooLarge comes where there are more than 16,777,216 bytes.
    pub fn put(&mut self, path: &Path, body: &[u8]) -> Result<(), FileFault>
        ensures { Becomes self.old self.new result (layered self.old path.now body.now) }
    {
        let alloc = *self.changed.allocator();
        let body = FileBody::from_slice(alloc, body)?;
        entries::put(&mut self.changed, path.copy()?, Some(body))?;
        Ok(())
    }

    /// Takes a file out, and answers whether it was there.
    pub fn remove(&mut self, path: &Path) -> Result<bool, NoMemory>
        ensures there { IfOk result (λ there. there ≡ is_some (map.get self.old.files path.now)) }
        ensures ok { OnOk result (self.new ≡ without_file self.old path.now) }
        ensures err { OnErr result (self.new ≡ self.old) }
    {
        let there = self.get(path).is_some();
        entries::put(&mut self.changed, path.copy()?, None)?;
        Ok(there)
    }

    /// Writes a piece into a file from a place on, with a gap of zeros before it where it begins past the end. An empty
    /// piece changes nothing. TooLarge comes where there would be more than 16,777,216 bytes.
    pub fn write_at(&mut self, path: &Path, at: u64, piece: &[u8]) -> Result<(), FileFault>
        requires { IsSome (map.get self.old.files path.now) }
        ensures { let body = written (bytes_at self.old.files path.now) at piece.now in
            Becomes self.old self.new result (layered self.old path.now body) }
    {
        let place = own(&mut self.changed, &self.base, path)?;
        match &mut self.changed[place].1 {
            Some(body) => body.write_at(at, piece),
            None => unreachable!(),
        }
    }

    /// Cuts a file to a size, or fills it up with zeros. TooLarge comes where the size is more than 16,777,216.
    pub fn set_size(&mut self, path: &Path, size: u64) -> Result<(), FileFault>
        requires { IsSome (map.get self.old.files path.now) }
        ensures { let body = resized (bytes_at self.old.files path.now) size in
            Becomes self.old self.new result (layered self.old path.now body) }
    {
        let place = own(&mut self.changed, &self.base, path)?;
        match &mut self.changed[place].1 {
            Some(body) => body.set_size(size),
            None => unreachable!(),
        }
    }

    /// What becomes of each path that isn't as before, in the order of the bytes of the paths.
    pub fn changes(self) -> Result<Changes, NoMemory>
        ensures { IfOk result (AreDifferences self.base self.files) }
    {
        let Overlay { base, changed } = self;
        Ok(Changes::of(differing(&base, changed)?))
    }
}

/// Sees to it that the file of a path, which is there, is among the changed ones, and answers its place.
fn own(
    changed: &mut Vec<(Path, Option<FileBody>)>,
    base: &Files,
    path: &Path,
) -> Result<usize, NoMemory>
    requires sorted { AreSorted changed.old.items }
    requires there { IsSome (body_of base.now.map changed.old.items path.now) }
    ensures ok { IfOk result (OwnsBody base.now.map changed.old.items changed.new.items path.now) }
    ensures err { OnErr result (changed.new.items ≡ changed.old.items) }
{
    match entries::place_of(changed, path) {
        Ok(place) => Ok(place),
        Err(place) => {
            let body = match base.get(path) {
                Some(body) => body.share()?,
                None => unreachable!(),
            };
            changed.insert(place, (path.copy()?, Some(body)))?;
            Ok(place)
        }
    }
}

/// The changes that make a difference to the files.
fn differing(
    base: &Files,
    changed: Vec<(Path, Option<FileBody>)>,
) -> Result<Vec<(Path, Option<FileBody>)>, NoMemory>
    ensures { IfOk result (λ kept. kept.items ≡ filter (differs base.now.map) changed.items) }
{
    let mut kept = Vec::new(*changed.allocator());
    for (path, body) in changed {
        if !is_same(base.get(&path), body.as_ref()) {
            kept.push((path, body))?;
        }
    }
    Ok(kept)
}

/// Whether two paths have the same file, or none.
fn is_same(a: Option<&FileBody>, b: Option<&FileBody>) -> bool
    ensures { result ≡ same_file (option_copied a.entry) (option_copied b.entry) }
{
    match (a, b) {
        (None, None) => true,
        (Some(a), Some(b)) => a == b,
        _ => false,
    }
}
