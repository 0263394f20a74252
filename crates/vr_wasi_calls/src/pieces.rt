//! The pieces of the memory that a program names for a call.

ghost use Rattle.std.specs.Prelude.{◌≡◌, ◌≤◌, IfOk, length, true};
ghost use Rattle.vr_wasi_abi.specs.Iovecs.{has_buffer};
ghost use Rattle.vr_wasi_abi.specs.declared.iovecs.TheConstants.{MAX_IOVECS};
ghost use Rattle.vr_wasi_calls.specs.Checks.{Gives};
ghost use Rattle.vr_wasi_calls.specs.Pieces.{AreThere, bytes_in, pieces_of, size_of};
ghost use Rattle.vr_wasm_num.specs.Memory.{part};

use crate::errno::{Errno, Refusal};
use std::alloc::Global;
use vr_base::NoMemory;
use vr_wasi_abi::{AbiFault, Iovec, Iovecs, read_iovecs};
use vr_wasm_num::Memory;

/// The pieces of a call, each within the memory.
#[tactic(auto, using(crate::proofs::PieceLemmas::read_few, crate::proofs::PieceLemmas::read_there))]
pub fn read_pieces(alloc: Global, memory: &Memory, at: u32, count: u32) -> Result<Iovecs, Refusal>
    ensures exact { Gives result (pieces_of memory.now at count) }
    ensures few { IfOk result (λ pieces. length pieces ≤ MAX_IOVECS) }
    ensures there { IfOk result (λ pieces. AreThere memory.now pieces) }
{
    match read_iovecs(alloc, memory, at, count) {
        Ok(pieces) => Ok(pieces),
        Err(AbiFault::Inval) => Err(Refusal::Check(Errno::Inval)),
        Err(AbiFault::Fault) => Err(Refusal::Check(Errno::Fault)),
        Err(AbiFault::OutOfMemory) => Err(Refusal::NoMemory),
    }
}

/// How many bytes pieces have.
#[tactic(auto, using(crate::proofs::PieceLemmas::size_more))]
pub fn size_of(pieces: &[Iovec]) -> u64
    requires { length pieces.now ≤ MAX_IOVECS }
    ensures { result ≡ size_of pieces.now }
{
    let mut size = 0;
    for piece in pieces {
        size += u64::from(piece.length);
    }
    size
}

/// The bytes of a piece.
#[tactic(auto, using(crate::proofs::PieceLemmas::within_there))]
pub fn bytes_of<'a>(memory: &'a Memory, piece: &Iovec) -> &'a [u8]
    requires { has_buffer memory.now.bytes piece.now ≡ true }
    ensures { result.now ≡ part memory.now.bytes piece.now.pointer piece.now.length }
{
    memory
        .view(u64::from(piece.pointer), u64::from(piece.length))
        .unwrap()
}

/// The bytes of pieces, one after the other.
#[tactic(auto, using(crate::proofs::PieceLemmas::bytes_more))]
pub fn gather(alloc: Global, memory: &Memory, pieces: &[Iovec]) -> Result<Vec<u8>, NoMemory>
    requires { AreThere memory.now pieces.now }
    ensures { IfOk result (λ bytes. bytes.items ≡ bytes_in memory.now pieces.now) }
{
    let mut bytes = Vec::new(alloc);
    for piece in pieces {
        bytes.extend_from_slice(bytes_of(memory, piece))?;
    }
    Ok(bytes)
}
