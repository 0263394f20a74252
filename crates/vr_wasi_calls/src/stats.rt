//! The calls that tell of descriptors and files.

ghost use Rattle.std.specs.Prelude.{◌≡◌, IsTrue};
ghost use Rattle.vr_wasi_abi.specs.Layouts.{filestat};
ghost use Rattle.vr_wasi_calls.specs.Calls.{after, fd_fdstat_get_call, fd_filestat_get_call, fd_prestat_dir_name_call, fd_prestat_get_call, path_filestat_get_call, size_at, stat_check};
ghost use Rattle.vr_wasi_calls.specs.Checks.{Becomes, Finds};
ghost use Rattle.vr_wasm_num.specs.Memory.{is_within, with_piece};

use crate::checks::{check_range, check_right, read_path, refuse_if};
use crate::descriptors::{Descriptor, REGULAR_FILE};
use crate::errno::{Errno, Refusal};
use crate::results::put_bytes;
use crate::state::State;
use vr_base::{FD_FILESTAT_GET, PATH_FILESTAT_GET};
use vr_wasi_abi::{
    FDSTAT_SIZE, FILESTAT_SIZE, PRESTAT_SIZE, put_fdstat, put_filestat, put_prestat,
};
use vr_wasm_num::Memory;

/// Writes what is told of a file.
fn put_file_stat(memory: &mut Memory, at: u32, sort: u8, size: u64)
    requires { IsTrue (is_within memory.old.bytes at 64) }
    ensures { memory.new ≡ with_piece memory.old at (filestat sort size) }
{
    let _ = put_filestat(memory, at, sort, size);
}

impl State {
    /// Refuses an open file whose facts may not be told; other descriptors tell them always.
    fn check_stat(&self, descriptor: &Descriptor) -> Result<(), Errno>
        ensures { Finds result (stat_check descriptor.now) }
    {
        match descriptor {
            Descriptor::File(file) => check_right(file.base.word(), FD_FILESTAT_GET),
            _ => Ok(()),
        }
    }

    /// The size of an open file; other descriptors have none.
    fn size(&self, descriptor: &Descriptor) -> Result<u64, Errno>
        ensures { Finds result (size_at self.now descriptor.now) }
    {
        match descriptor {
            Descriptor::File(file) => Ok(self.body(file)?.len()),
            _ => Ok(0),
        }
    }

    pub fn fd_fdstat_get(&self, memory: &mut Memory, fd: u32, out: u32) -> Result<(), Refusal>
        ensures { Becomes (after self.now memory.old) (after self.now memory.new) result
            (fd_fdstat_get_call self.now memory.old fd out) }
    {
        let descriptor = self.open(fd)?;
        check_range(memory, out, FDSTAT_SIZE as u64)?;
        let _ = put_fdstat(memory, out, &descriptor.stat());
        Ok(())
    }

    pub fn fd_filestat_get(&self, memory: &mut Memory, fd: u32, out: u32) -> Result<(), Refusal>
        ensures { Becomes (after self.now memory.old) (after self.now memory.new) result
            (fd_filestat_get_call self.now memory.old fd out) }
    {
        let descriptor = self.open(fd)?;
        self.check_stat(descriptor)?;
        check_range(memory, out, FILESTAT_SIZE as u64)?;
        let size = self.size(descriptor)?;
        put_file_stat(memory, out, descriptor.file_type(), size);
        Ok(())
    }

    pub fn path_filestat_get(
        &self,
        memory: &mut Memory,
        fd: u32,
        at: u32,
        len: u64,
        out: u32,
    ) -> Result<(), Refusal>
        ensures { Becomes (after self.now memory.old) (after self.now memory.new) result
            (path_filestat_get_call self.now memory.old fd at len out) }
    {
        self.check_directory(fd)?;
        check_range(memory, at, len)?;
        check_range(memory, out, FILESTAT_SIZE as u64)?;
        let path = read_path(self.alloc(), memory, at, len)?;
        check_right(self.word_on(&path), PATH_FILESTAT_GET)?;
        let size = self.file(&path).ok_or(Errno::Noent)?.len();
        put_file_stat(memory, out, REGULAR_FILE, size);
        Ok(())
    }

    pub fn fd_prestat_get(&self, memory: &mut Memory, fd: u32, out: u32) -> Result<(), Refusal>
        ensures { Becomes (after self.now memory.old) (after self.now memory.new) result
            (fd_prestat_get_call self.now memory.old fd out) }
    {
        self.check_preopened(fd)?;
        check_range(memory, out, PRESTAT_SIZE as u64)?;
        let _ = put_prestat(memory, out, 1);
        Ok(())
    }

    pub fn fd_prestat_dir_name(
        &self,
        memory: &mut Memory,
        fd: u32,
        at: u32,
        len: u64,
    ) -> Result<(), Refusal>
        ensures { Becomes (after self.now memory.old) (after self.now memory.new) result
            (fd_prestat_dir_name_call self.now memory.old fd at len) }
    {
        self.check_preopened(fd)?;
        refuse_if(len == 0, Errno::Inval)?;
        check_range(memory, at, 1)?;
        put_bytes(memory, u64::from(at), b"/");
        Ok(())
    }
}
