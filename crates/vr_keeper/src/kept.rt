ghost use Rattle.std.specs.Prelude.{◌≡◌, ◌≤◌, ◌++◌, filter, vec_len, IfOk, OnOk, OnErr};
ghost use Rattle.vr_files.specs.Changes.{applied};
ghost use Rattle.vr_files.specs.FileMaps.{FileMap};
ghost use Rattle.vr_keeper.specs.Keepers.{rows_map, is_untouched, edited_rows, changed_rows};

use crate::rows::Rows;
use std::alloc::Global;
use std::marker::Model;
use vr_base::{Bytes, NoMemory, Path};
use vr_files::{Changes, Edits, FileBody};

/// Rows in memory: those of a store, and what became of them since. Contracts see the list of the rows, where the last of
/// one name counts.
#[derive(Debug, Drop)]
pub(crate) struct Kept {
    opening: Rows,
    edits: Edits,
}

impl Model for Kept {
    ghost use Rattle.std.specs.Prelude.{List};
    ghost use Rattle.vr_keeper.specs.Keepers.{Row, changed_rows};

    ghost Value = { List Row };

    ghost view = { λ k. changed_rows k.opening k.edits.changes };
}

impl Kept {
    pub(crate) fn new(alloc: Global, rows: Rows) -> Kept
        ensures { result ≡ rows }
    {
        Kept {
            opening: rows,
            edits: Edits::new(alloc),
        }
    }

    /// The rows, copied.
    pub(crate) fn list(&self, alloc: Global) -> Result<Rows, NoMemory>
        ensures { IfOk result (λ rows. rows ≡ self.now) }
    {
        let mut rows = untouched(alloc, self.opening.as_slice(), &self.edits)?;
        add_files(&mut rows, self.edits.as_slice())?;
        Ok(Rows::of(rows))
    }

    /// Makes the changes, or none where memory runs out.
    pub(crate) fn apply(&mut self, alloc: Global, changes: &Changes) -> Result<(), NoMemory>
        ensures ok { OnOk result
            (rows_map self.new ≡ applied (rows_map self.old) changes.now) }
        ensures err { OnErr result (self.new ≡ self.old) }
    {
        let shared = share(alloc, changes.as_slice())?;
        self.edits.reserve(shared.len())?;
        // The slices tell that the edits are in order.
        let _before = self.edits.as_slice();
        put_all(&mut self.edits, shared);
        let _after = self.edits.as_slice();
        Ok(())
    }
}

/// The rows that have no edit.
fn untouched(
    alloc: Global,
    rows: &[(Bytes, Bytes)],
    edits: &Edits,
) -> Result<Vec<(Bytes, Bytes)>, NoMemory>
    ensures { IfOk result (λ kept. kept.items ≡ filter (is_untouched edits.now.changes) rows.now) }
{
    let mut kept = Vec::new(alloc);
    for (name, bytes) in rows {
        if edits.get(name.as_slice()).is_none() {
            kept.push((name.copy()?, bytes.copy()?))?;
        }
    }
    Ok(kept)
}

/// Adds a row for each file that the edits make.
fn add_files(
    rows: &mut Vec<(Bytes, Bytes)>,
    edits: &[(Path, Option<FileBody>)],
) -> Result<(), NoMemory>
    ensures { OnOk result (rows.new.items ≡ rows.old.items ++ edited_rows edits.now) }
{
    let alloc = *rows.allocator();
    for (path, body) in edits {
        if let Some(body) = body {
            rows.push((Bytes::from_slice(alloc, path.as_slice())?, body.to_bytes()?))?;
        }
    }
    Ok(())
}

/// The changes with their bodies shared.
fn share(
    alloc: Global,
    changes: &[(Path, Option<FileBody>)],
) -> Result<Vec<(Path, Option<FileBody>)>, NoMemory>
    ensures { IfOk result (λ shared. shared.items ≡ changes.now) }
{
    let mut shared = Vec::with_capacity(alloc, changes.len())?;
    for (path, body) in changes {
        let body = match body {
            Some(body) => Some(body.share()?),
            None => None,
        };
        shared.push((path.copy()?, body))?;
    }
    Ok(shared)
}

/// Puts the changes one after the other.
fn put_all(edits: &mut Edits, changes: Vec<(Path, Option<FileBody>)>)
    requires { vec_len changes ≤ edits.old.spare }
    ensures { (files : FileMap) →
        applied files edits.new.changes ≡ applied (applied files edits.old.changes) changes.items }
{
    for (path, body) in changes {
        edits.put(path, body);
    }
}
