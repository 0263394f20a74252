ghost use Rattle.std.specs.Prelude.{◌≡◌, map, option_map};
ghost use Rattle.vr_base.specs.Outside.{file_of};
ghost use Rattle.vr_memory_links.specs.Folders.{named};

use crate::failing::Failing;
use std::alloc::Global;
use vr_base::{Bytes, Folder, FolderFault, NoMemory};

/// A folder in memory, which tells its files.
#[derive(Debug, Drop)]
pub struct MemFolder {
    files: Vec<(String, Bytes)>,
    calls: Failing,
    absences: u64,
}

impl MemFolder {
    /// A folder of these files. The reads fail whose numbers, counted from 0, are listed. Of two files with one name the
    /// first counts.
    pub fn new(files: Vec<(String, Bytes)>, failing: Vec<u64>) -> MemFolder
        ensures { result ≡ record {
          files = files;
          calls = record { listed = failing; calls = 0; faults = 0 };
          absences = 0;
        } }
    {
        MemFolder {
            files,
            calls: Failing::new(failing),
            absences: 0,
        }
    }
}

fn find<'a>(files: &'a Vec<(String, Bytes)>, name: &str) -> Option<&'a Bytes>
    ensures { option_map (λ bytes. bytes.now) result ≡
        file_of name.now (map named files.now.items) }
{
    for (held, bytes) in files {
        if held.as_str() == name {
            return Some(bytes);
        }
    }
    None
}

impl Folder for MemFolder {
    ghost use Rattle.std.specs.Prelude.{◌≡◌, ◌≢◌, ◌≤◌, [], length, Err, IfOk};
    ghost use Rattle.vr_base.specs.Outside.{HasFolderCause, Holds, IsNotThere};
    ghost use Rattle.vr_memory_links.specs.Folders.{files_told, counts_told};

    ghost files = { files_told };

    ghost counts = { counts_told };

    /// As the trait says. Only a read that is listed fails.
    fn read(&mut self, alloc: Global, name: &str, most: usize) -> Result<Bytes, FolderFault>
        ensures same { files_told self.new ≡ files_told self.old }
        ensures within { IfOk result (λ bytes. length bytes ≤ most) }
        ensures bytes { IfOk result (λ bytes. Holds (files_told self.old) name.now most bytes) }
        ensures not_there { result ≡ Err FolderFault.Absent →
            IsNotThere (files_told self.old) name.now }
        ensures cause { HasFolderCause (counts_told self.old) (counts_told self.new) result }
        ensures listed { self.new.calls.listed ≡ self.old.calls.listed }
        ensures sound { self.old.calls.listed.items ≡ [] → result ≢ Err FolderFault.Failed }
    {
        if self.calls.call().is_err() {
            return Err(FolderFault::Failed);
        }
        let Some(bytes) = find(&self.files, name) else {
            self.absences = self.absences.saturating_add(1);
            return Err(FolderFault::Absent);
        };
        let bytes = bytes.as_slice();
        match Bytes::from_slice(alloc, &bytes[..bytes.len().min(most)]) {
            Ok(prefix) => Ok(prefix),
            Err(NoMemory) => Err(FolderFault::OutOfMemory),
        }
    }
}
