//! The call that reads.

ghost use Rattle.std.specs.Prelude.{◌≡◌, ◌+◌, ◌^◌, ◌<◌, ◌≤◌, IsTrue, drop, length, take};
ghost use Rattle.vr_files.specs.declared.pages.TheConstants.{MOST_BYTES};
ghost use Rattle.vr_wasi_abi.specs.declared.iovecs.TheConstants.{MAX_IOVECS};
ghost use Rattle.vr_wasi_calls.specs.Calls.{after, count_read, fd_read_call, with_number};
ghost use Rattle.vr_wasi_calls.specs.Checks.{Becomes};
ghost use Rattle.vr_wasi_calls.specs.Pieces.{AreThere, spread};
ghost use Rattle.vr_wasi_calls.specs.Worlds.{with_taken};
ghost use Rattle.vr_wasm_num.specs.Memory.{is_within, with_piece};

use crate::checks::check_range;
use crate::descriptors::Descriptor;
use crate::errno::{Errno, Refusal};
use crate::pieces::{read_pieces, size_of};
use crate::results::{put_bytes, put_u32};
use crate::state::State;
use vr_base::FD_READ;
use vr_files::{FileBody, PAGE};
use vr_wasi_abi::Iovec;
use vr_wasm_num::Memory;

/// Lays bytes into pieces in order, as far as they reach.
#[tactic(auto, using(crate::proofs::ReadLemmas::spread_step, crate::proofs::ReadLemmas::spread_end, crate::proofs::ReadLemmas::there_in, crate::proofs::ReadLemmas::part_within))]
fn lay(memory: &mut Memory, pieces: &[Iovec], bytes: &[u8])
    requires { AreThere memory.old pieces.now }
    ensures laid { memory.new ≡ spread memory.old pieces.now bytes.now }
    ensures size { length memory.new.bytes ≡ length memory.old.bytes }
{
    let mut left = bytes;
    for piece in pieces {
        let count = left.len().min(piece.length as usize);
        put_bytes(memory, u64::from(piece.pointer), &left[..count]);
        left = &left[count..];
    }
}

/// The bytes of a body from a place on that stand in one page. There are none past the end.
fn run_at(body: &FileBody, from: u64) -> &[u8]
    ensures some { from < length body.now → 0 < length result.now }
    ensures bytes { result.now ≡ take (length result.now) (drop from body.now) }
{
    match body.page(from / PAGE as u64) {
        Some(page) => &page[((from % PAGE as u64) as usize).min(page.len())..],
        None => &[],
    }
}

/// Lays so many bytes of a body from a place on, all of which are there, into the memory, page by
/// page.
#[tactic(auto, using(crate::proofs::RunLemmas::nothing_laid, crate::proofs::RunLemmas::laid_more))]
fn lay_run(memory: &mut Memory, at: u32, body: &FileBody, from: u64, count: u64)
    requires small { length body.now ≤ MOST_BYTES }
    requires there { count ≤ length (drop from body.now) }
    requires within { IsTrue (is_within memory.old.bytes at count) }
    ensures { memory.new ≡ with_piece memory.old at (take count (drop from body.now)) }
{
    let mut done = 0;
    while done < count {
        let run = run_at(body, from + done);
        let run = &run[..run.len().min((count - done) as usize)];
        put_bytes(memory, u64::from(at) + done, run);
        done += run.len() as u64;
    }
}

/// Lays the bytes of a file from a place on into pieces in order, as far as they reach, and answers
/// their number.
#[tactic(auto, using(crate::proofs::ReadLemmas::spread_step, crate::proofs::ReadLemmas::spread_end, crate::proofs::ReadLemmas::there_in, crate::proofs::ReadLemmas::part_within))]
fn lay_body(memory: &mut Memory, pieces: &[Iovec], body: &FileBody, from: u64) -> u64
    requires { AreThere memory.old pieces.now }
    ensures laid { memory.new ≡ spread memory.old pieces.now (drop from body.now) }
    ensures count { result ≡ count_read (drop from body.now) pieces.now }
    ensures end { from + result < 2 ^ 64 }
    ensures size { length memory.new.bytes ≡ length memory.old.bytes }
{
    let size = body.len();
    let mut place = from;
    for piece in pieces {
        let count = size.saturating_sub(place).min(u64::from(piece.length));
        lay_run(memory, piece.pointer, body, place, count);
        place += count;
    }
    place - from
}

impl State {
    /// Reads from the input into pieces, and tells how many bytes were read.
    #[tactic(auto, using(crate::proofs::ReadLemmas::same_within))]
    fn read_input(&mut self, memory: &mut Memory, pieces: &[Iovec], out: u32)
        requires few { length pieces.now ≤ MAX_IOVECS }
        requires there { AreThere memory.old pieces.now }
        requires within { IsTrue (is_within memory.old.bytes out 4) }
        ensures world { let left = drop self.old.taken self.old.input in
            self.new ≡ with_taken self.old (self.old.taken + count_read left pieces.now) }
        ensures memory { let left = drop self.old.taken self.old.input in
            memory.new ≡ with_number (spread memory.old pieces.now left) out 4
            (count_read left pieces.now) }
    {
        let left = self.input_left();
        let count = left.len().min(size_of(pieces) as usize);
        lay(memory, pieces, left);
        self.take_input(count);
        put_u32(memory, out, count as u64);
    }

    #[tactic(auto, using(crate::proofs::ReadLemmas::same_within))]
    pub fn fd_read(
        &mut self,
        memory: &mut Memory,
        fd: u32,
        at: u32,
        count: u32,
        out: u32,
    ) -> Result<(), Refusal>
        ensures { Becomes (after self.old memory.old) (after self.new memory.new) result
            (fd_read_call self.old memory.old fd at count out) }
    {
        let stream = self.stream(fd)?;
        stream.check_base(FD_READ)?;
        let pieces = read_pieces(self.alloc(), memory, at, count)?;
        check_range(memory, out, 4)?;
        match stream {
            Descriptor::Input => {
                self.read_input(memory, pieces.as_slice(), out);
                Ok(())
            }
            Descriptor::File(file) => {
                let place = file.position;
                let body = self.body(file)?;
                let count = lay_body(memory, pieces.as_slice(), body, place);
                self.set_position(fd, place + count);
                put_u32(memory, out, count);
                Ok(())
            }
            _ => Err(Refusal::Check(Errno::Badf)),
        }
    }
}
