//! The checks of calls that need no more than their arguments and the memory, each a function of
//! its own.

ghost use Rattle.std.specs.Prelude.{◌≡◌, ◌<◌, IsTrue, OnOk, not};
ghost use Rattle.vr_base.specs.Rights.{has_bit};
ghost use Rattle.vr_wasi_calls.specs.Checks.{Finds, Gives, refuse_if};
ghost use Rattle.vr_wasi_calls.specs.Paths.{path_in, range_check};
ghost use Rattle.vr_wasm_num.specs.Memory.{is_within};

use crate::errno::{Errno, Refusal};
use std::alloc::Global;
use vr_base::{Path, PathFault, parse_path};
use vr_wasm_num::Memory;

/// Refuses where the test finds the fault.
pub fn refuse_if(test: bool, errno: Errno) -> Result<(), Errno>
    ensures { Finds result (refuse_if test errno) }
{
    if test { Err(errno) } else { Ok(()) }
}

/// Whether a word has a bit.
pub fn has_bit(word: u32, bit: u8) -> bool
    requires { bit < 32 }
    ensures { result ≡ has_bit word bit }
{
    (word >> bit) % 2 == 1
}

/// Refuses a word without the bit.
pub fn check_right(word: u32, bit: u8) -> Result<(), Errno>
    requires { bit < 32 }
    ensures exact { Finds result (refuse_if (not (has_bit word bit)) Errno.Notcapable) }
    ensures has { OnOk result (IsTrue (has_bit word bit)) }
{
    refuse_if(!has_bit(word, bit), Errno::Notcapable)
}

/// Refuses a range that isn't within the memory.
pub fn check_range(memory: &Memory, at: u32, len: u64) -> Result<(), Errno>
    ensures exact { Finds result (range_check memory.now at len) }
    ensures within { OnOk result (IsTrue (is_within memory.now.bytes at len)) }
{
    match memory.view(u64::from(at), len) {
        Some(_) => Ok(()),
        None => Err(Errno::Fault),
    }
}

/// The path that a range of the memory spells.
pub fn read_path(alloc: Global, memory: &Memory, at: u32, len: u64) -> Result<Path, Refusal>
    requires { IsTrue (is_within memory.now.bytes at len) }
    ensures { Gives result (path_in memory.now at len) }
{
    let name = memory.view(u64::from(at), len).unwrap();
    match parse_path(alloc, name) {
        Ok(path) => Ok(path),
        Err(PathFault::OutOfMemory) => Err(Refusal::NoMemory),
        Err(_) => Err(Refusal::Check(Errno::Inval)),
    }
}
