//! What calls write into the memory, where there is room for it.

ghost use Rattle.std.specs.Prelude.{◌≡◌, IsTrue, length};
ghost use Rattle.vr_wasi_calls.specs.Calls.{with_number};
ghost use Rattle.vr_wasm_num.specs.Memory.{is_within, with_piece};

use vr_wasm_num::Memory;

/// Writes the lowest four bytes of a number, the lowest one first.
pub fn put_u32(memory: &mut Memory, at: u32, number: u64)
    requires { IsTrue (is_within memory.old.bytes at 4) }
    ensures { memory.new ≡ with_number memory.old at 4 number }
{
    let _ = memory.store(u64::from(at), 4, number);
}

/// Writes the eight bytes of a number, the lowest one first.
pub fn put_u64(memory: &mut Memory, at: u32, number: u64)
    requires { IsTrue (is_within memory.old.bytes at 8) }
    ensures { memory.new ≡ with_number memory.old at 8 number }
{
    let _ = memory.store(u64::from(at), 8, number);
}

/// Writes bytes.
pub fn put_bytes(memory: &mut Memory, at: u64, bytes: &[u8])
    requires { IsTrue (is_within memory.old.bytes at (length bytes.now)) }
    ensures { memory.new ≡ with_piece memory.old at bytes.now }
{
    let _ = memory.write(at, bytes);
}
