//! The vectors of buffers that a program names to read into and to write from.

ghost use Rattle.std.specs.Prelude.{◌≡◌, ◌<◌, ◌^◌, Err};
ghost use Rattle.vr_wasi_abi.specs.Iovecs.{Gives, reading, read_one};

use crate::fault::AbiFault;
use std::alloc::Global;
use std::marker::Model;
use vr_wasm_num::Memory;

/// The most vectors of one call.
pub const MAX_IOVECS: u32 = 1_024;

/// How many bytes a vector takes.
pub const IOVEC_SIZE: u32 = 8;

/// A buffer in linear memory: where it begins, and how many bytes it has.
#[derive(Clone, Copy, Debug)]
pub struct Iovec {
    pub pointer: u32,
    pub length: u32,
}

/// The vectors of one call. Contracts see them as the list of these.
#[derive(Debug, Drop)]
pub struct Iovecs {
    items: Vec<Iovec>,
}

impl Model for Iovecs {
    ghost use Rattle.std.specs.Prelude.{List};
    ghost use Rattle.vr_wasi_abi.specs.declared.iovecs.Iovec.{Iovec};

    ghost Value = { List Iovec };

    ghost view = { λ vectors. vectors.items.items };
}

impl Iovecs {
    /// The vectors, which are not copied.
    pub fn of(items: Vec<Iovec>) -> Iovecs
        ensures { result ≡ items.items }
    {
        Iovecs { items }
    }

    pub fn as_slice(&self) -> &[Iovec]
        ensures { result.now ≡ self.now }
    {
        self.items.as_slice()
    }
}

/// Reads so many vectors from a place on: each is a pointer and then a length, as 4 bytes with the
/// lowest first. More vectors than there may be are refused before any is read.
pub fn read_iovecs(alloc: Global, memory: &Memory, at: u32, count: u32) -> Result<Iovecs, AbiFault>
    ensures reads { Gives result (reading memory.now.bytes at count) }
    ensures many { MAX_IOVECS < count → result ≡ Err AbiFault.Inval }
{
    if count > MAX_IOVECS {
        return Err(AbiFault::Inval);
    }
    let mut items = Vec::with_capacity(alloc, count as usize)?;
    for i in 0..count {
        let vector = read_iovec(memory, u64::from(at) + u64::from(IOVEC_SIZE * i))?;
        items.push(vector)?;
    }
    Ok(Iovecs { items })
}

/// Reads one vector, and looks whether its buffer is there.
fn read_iovec(memory: &Memory, at: u64) -> Result<Iovec, AbiFault>
    requires { at < 2 ^ 33 }
    ensures { result ≡ read_one memory.now.bytes at }
{
    let (Some(pointer), Some(length)) = (memory.load(at, 4), memory.load(at + 4, 4)) else {
        return Err(AbiFault::Fault);
    };
    if memory.view(pointer, length).is_none() {
        return Err(AbiFault::Fault);
    }
    Ok(Iovec {
        pointer: pointer as u32,
        length: length as u32,
    })
}
