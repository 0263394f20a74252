ghost use Rattle.std.specs.Prelude.{◌≡◌, ◌≤◌, IfOk, IfSome, length, vec_len};
ghost use Rattle.vr_base.specs.Outside.{TakesPart};

use std::alloc::Global;
use std::io::{ErrorKind, Read, Write};
use std::rt::Files;
use std::{fs, io};
use vr_base::{Bytes, Failed, Folder, FolderFault, Sink};

/// The folder in which the program runs, and all files that a path leads to. It doesn't tell what they hold.
#[derive(Drop)]
pub struct DiskFolder<R: Files + Drop> {
    rt: R,
    faults: u64,
    absences: u64,
}

impl<R: Files + Drop> DiskFolder<R> {
    /// The folder, of which nothing was read yet.
    pub fn new(rt: R) -> DiskFolder<R>
        ensures faults { result.faults ≡ 0 }
        ensures absences { result.absences ≡ 0 }
    {
        DiskFolder {
            rt,
            faults: 0,
            absences: 0,
        }
    }
}

/// The first `most` bytes of a file.
fn read_prefix<R: Files>(rt: &R, alloc: Global, name: &str, most: usize) -> io::Result<Vec<u8>>
    ensures { IfOk result (λ bytes. vec_len bytes ≤ most) }
{
    let file = fs::open(rt, name)?;
    let mut bytes = Vec::new(alloc);
    file.take(most as u64).read_to_end(&mut bytes)?;
    bytes.truncate(most);
    Ok(bytes)
}

impl<R: Files + Drop> Folder for DiskFolder<R> {
    ghost use Rattle.std.specs.Prelude.{None};

    ghost files = { λ _. None };

    ghost counts = { λ folder. record { absences = folder.absences; faults = folder.faults } };

    /// A file that isn't there is absent; a folder, a file that may not be read and every other fault is a fault.
    fn read(&mut self, alloc: Global, name: &str, most: usize) -> Result<Bytes, FolderFault> {
        match read_prefix(&self.rt, alloc, name, most) {
            Ok(bytes) => Ok(Bytes::of(bytes)),
            Err(e) => match e.kind() {
                ErrorKind::NotFound => {
                    self.absences = self.absences.saturating_add(1);
                    Err(FolderFault::Absent)
                }
                ErrorKind::OutOfMemory => Err(FolderFault::OutOfMemory),
                _ => {
                    self.faults = self.faults.saturating_add(1);
                    Err(FolderFault::Failed)
                }
            },
        }
    }
}

/// Standard output. It doesn't tell what was written.
#[derive(Drop)]
pub struct StdSink<R: Print + Drop> {
    rt: R,
    faults: u64,
}

impl<R: Print + Drop> StdSink<R> {
    /// Standard output, to which nothing was written yet.
    pub fn new(rt: R) -> StdSink<R>
        ensures { result.faults ≡ 0 }
    {
        StdSink { rt, faults: 0 }
    }
}

/// How many bytes of the piece were written, at least one where there are any, or none where the write failed.
fn write_prefix<R: Print>(rt: &R, piece: &[u8]) -> Option<usize>
    ensures { IfSome result (λ count. TakesPart count (length piece.now)) }
{
    let count = io::writer(rt).write(piece).ok()?;
    if count == 0 && !piece.is_empty() {
        return None;
    }
    Some(count)
}

impl<R: Print + Drop> Sink for StdSink<R> {
    ghost use Rattle.std.specs.Prelude.{None};
    ghost use Rattle.vr_base.specs.Outside.{nothing_beside};

    ghost written = { λ _. None };

    ghost faults = { λ sink. sink.faults };

    ghost beside = { λ _. nothing_beside };

    fn write(&mut self, piece: &[u8]) -> Result<usize, Failed> {
        match write_prefix(&self.rt, piece) {
            Some(count) => Ok(count),
            None => {
                self.faults = self.faults.saturating_add(1);
                Err(Failed)
            }
        }
    }
}
