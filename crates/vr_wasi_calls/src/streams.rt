//! The calls that read and write.

ghost use Rattle.std.specs.Prelude.{◌≡◌, ◌+◌, ◌<◌, ◌≤◌, Ok, OnOk, OnErr, length};
ghost use Rattle.vr_files.specs.declared.pages.TheConstants.{MOST_BYTES};
ghost use Rattle.vr_wasi_calls.specs.Calls.{after, fd_filestat_set_size_call, fd_write_call, file_with, room_check, start_of, written_at};
ghost use Rattle.vr_wasi_calls.specs.Checks.{Becomes, Finds};
ghost use Rattle.vr_wasi_calls.specs.Pieces.{AreThere, bytes_in, size_of};
ghost use Rattle.vr_wasi_calls.specs.Worlds.{IsThere, descriptor_at};
ghost use Rattle.vr_wasi_calls.specs.declared.descriptors.TheConstants.{DESCRIPTORS};

use crate::checks::{check_range, check_right, refuse_if};
use crate::descriptors::{Descriptor, OpenFile};
use crate::errno::{Errno, Refusal};
use crate::pieces::{bytes_of, gather, read_pieces, size_of};
use crate::results::put_u32;
use crate::state::State;
use vr_base::{FD_FILESTAT_SET_SIZE, FD_WRITE, NoMemory};
use vr_files::FileBody;
use vr_wasi_abi::Iovec;
use vr_wasm_num::Memory;

/// The most bytes of a program's output.
const MOST_OUTPUT: u64 = 1_048_576;

/// The most bytes of a file.
const MOST_FILE: u64 = 16_777_216;

/// Where a write begins: at the end of a file that is appended to, else at the position.
fn start_of(file: &OpenFile, body: &FileBody) -> u64
    ensures { result ≡ start_of file.now body.now }
{
    if file.appends {
        body.len()
    } else {
        file.position
    }
}

impl State {
    /// Refuses more bytes than a stream has room for.
    fn check_room(&self, stream: &Descriptor, size: u64) -> Result<(), Errno>
        ensures { Finds result (room_check self.now stream.now size) }
    {
        match stream {
            Descriptor::Output => {
                let full = (self.output_len() as u64).saturating_add(size) > MOST_OUTPUT;
                refuse_if(full, Errno::Nospc)
            }
            Descriptor::Errors => refuse_if(size > MOST_OUTPUT, Errno::Nospc),
            Descriptor::File(file) => {
                let end = start_of(file, self.body(file)?).saturating_add(size);
                refuse_if(end > MOST_FILE, Errno::Fbig)
            }
            _ => Err(Errno::Badf),
        }
    }

    /// Writes bytes to a stream that has room for them.
    fn write_stream(&mut self, fd: u32, bytes: &[u8]) -> Result<(), NoMemory>
        requires within { fd < DESCRIPTORS }
        requires room { room_check self.old (descriptor_at self.old fd) (length bytes.now) ≡ Ok tt }
        ensures ok { OnOk result
            (self.new ≡ written_at self.old fd (descriptor_at self.old fd) bytes.now) }
        ensures err { OnErr result (self.new ≡ self.old) }
    {
        match self.at(fd) {
            Descriptor::Output => self.push_output(bytes),
            Descriptor::File(file) => {
                let start = start_of(file, self.body(file).unwrap());
                self.write_file(fd, start, bytes)
            }
            _ => Ok(()),
        }
    }

    /// Writes bytes into an open file from a place on, and moves it behind them. To write none
    /// moves nothing.
    fn write_file(&mut self, fd: u32, start: u64, bytes: &[u8]) -> Result<(), NoMemory>
        requires within { fd < DESCRIPTORS }
        requires there { IsThere self.old (descriptor_at self.old fd) }
        requires room { start + length bytes.now ≤ MOST_BYTES }
        ensures ok { OnOk result
            (self.new ≡ file_with self.old fd (descriptor_at self.old fd) start bytes.now) }
        ensures err { OnErr result (self.new ≡ self.old) }
    {
        if bytes.is_empty() {
            return Ok(());
        }
        self.patch(fd, start, bytes)?;
        self.set_position(fd, start + bytes.len() as u64);
        Ok(())
    }

    /// Writes the bytes of pieces to a stream that has room for them.
    #[tactic(auto, using(crate::proofs::StreamLemmas::one_piece, crate::proofs::StreamLemmas::bytes_sized))]
    fn write_pieces(&mut self, memory: &Memory, fd: u32, pieces: &[Iovec]) -> Result<(), NoMemory>
        requires within { fd < DESCRIPTORS }
        requires there { AreThere memory.now pieces.now }
        requires room { room_check self.old (descriptor_at self.old fd) (size_of pieces.now)
            ≡ Ok tt }
        ensures ok { OnOk result (self.new
            ≡ written_at self.old fd (descriptor_at self.old fd) (bytes_in memory.now pieces.now)) }
        ensures err { OnErr result (self.new ≡ self.old) }
    {
        match pieces {
            [piece] => self.write_stream(fd, bytes_of(memory, piece)),
            _ => {
                let bytes = gather(self.alloc(), memory, pieces)?;
                self.write_stream(fd, &bytes)
            }
        }
    }

    pub fn fd_write(
        &mut self,
        memory: &mut Memory,
        fd: u32,
        at: u32,
        count: u32,
        out: u32,
    ) -> Result<(), Refusal>
        ensures { Becomes (after self.old memory.old) (after self.new memory.new) result
            (fd_write_call self.old memory.old fd at count out) }
    {
        let stream = self.stream(fd)?;
        stream.check_base(FD_WRITE)?;
        let pieces = read_pieces(self.alloc(), memory, at, count)?;
        check_range(memory, out, 4)?;
        let size = size_of(pieces.as_slice());
        self.check_room(stream, size)?;
        self.write_pieces(memory, fd, pieces.as_slice())?;
        put_u32(memory, out, size);
        Ok(())
    }

    pub fn fd_filestat_set_size(
        &mut self,
        memory: &Memory,
        fd: u32,
        size: u64,
    ) -> Result<(), Refusal>
        ensures { Becomes (after self.old memory.now) (after self.new memory.now) result
            (fd_filestat_set_size_call self.old memory.now fd size) }
    {
        let file = self.open_file(fd)?;
        check_right(file.base.word(), FD_FILESTAT_SET_SIZE)?;
        refuse_if(size > MOST_FILE, Errno::Fbig)?;
        self.body(file)?;
        self.resize(fd, size)?;
        Ok(())
    }
}
