//! The results that calls write: each is written whole, or nothing is.

ghost use Rattle.std.specs.Prelude.{◌≡◌, ◌+◌, ◌≤◌, ◌↔◌, IsTrue, length, if◌then◌else◌};
ghost use Rattle.vr_wasm_num.specs.Memory.{with_piece, bytes_of};
ghost use Rattle.vr_wasi_abi.specs.Layouts.{fdstat, filestat, prestat};

use vr_wasm_num::Memory;

/// How many bytes an `fdstat` takes.
pub const FDSTAT_SIZE: usize = 24;

/// How many bytes a `filestat` takes.
pub const FILESTAT_SIZE: usize = 64;

/// How many bytes a `prestat` takes.
pub const PRESTAT_SIZE: usize = 8;

/// What is told of a descriptor: the type of its file, its flags, what may be done with it, and
/// what with the descriptors that are opened by it.
#[derive(Clone, Copy, Debug)]
pub struct FdStat {
    pub filetype: u8,
    pub flags: u16,
    pub base: u64,
    pub inheriting: u64,
}

/// Writes what is told of a descriptor. False says that a byte of it would lie past the end, and
/// nothing is written.
pub fn put_fdstat(memory: &mut Memory, at: u32, stat: &FdStat) -> bool
    ensures fits { IsTrue result ↔ (at + FDSTAT_SIZE ≤ length memory.old.bytes) }
    ensures written { memory.new ≡
        (if result then with_piece memory.old at (fdstat stat.now) else memory.old) }
{
    memory.write(
        u64::from(at),
        &fdstat_bytes(stat.filetype, stat.flags, stat.base, stat.inheriting),
    )
}

fn fdstat_bytes(filetype: u8, flags: u16, base: u64, inheriting: u64) -> [u8; FDSTAT_SIZE]
    ensures { result ≡ fdstat
        (record { filetype = filetype; flags = flags; base = base; inheriting = inheriting }) }
{
    let mut bytes = [0; FDSTAT_SIZE];
    bytes[0] = filetype;
    bytes[2..4].copy_from_slice(&flags.to_le_bytes());
    bytes[8..16].copy_from_slice(&base.to_le_bytes());
    bytes[16..24].copy_from_slice(&inheriting.to_le_bytes());
    bytes
}

/// Writes what is told of a file, which has one link. False says that a byte of it would lie past
/// the end, and nothing is written.
pub fn put_filestat(memory: &mut Memory, at: u32, filetype: u8, size: u64) -> bool
    ensures fits { IsTrue result ↔ (at + FILESTAT_SIZE ≤ length memory.old.bytes) }
    ensures written { memory.new ≡
        (if result then with_piece memory.old at (filestat filetype size) else memory.old) }
{
    memory.write(u64::from(at), &filestat_bytes(filetype, size))
}

fn filestat_bytes(filetype: u8, size: u64) -> [u8; FILESTAT_SIZE]
    ensures { result ≡ filestat filetype size }
{
    let mut bytes = [0; FILESTAT_SIZE];
    bytes[16] = filetype;
    bytes[24] = 1;
    bytes[32..40].copy_from_slice(&size.to_le_bytes());
    bytes
}

/// Writes what is told of a directory that was opened beforehand, whose name has so many bytes.
/// False says that a byte of it would lie past the end, and nothing is written.
pub fn put_prestat(memory: &mut Memory, at: u32, len: u32) -> bool
    ensures fits { IsTrue result ↔ (at + PRESTAT_SIZE ≤ length memory.old.bytes) }
    ensures written { memory.new ≡
        (if result then with_piece memory.old at (prestat len) else memory.old) }
{
    memory.write(u64::from(at), &prestat_bytes(len))
}

fn prestat_bytes(len: u32) -> [u8; PRESTAT_SIZE]
    ensures { result ≡ prestat len }
{
    let mut bytes = [0; PRESTAT_SIZE];
    bytes[4..8].copy_from_slice(&len.to_le_bytes());
    bytes
}

/// Writes 4 bytes, the lowest first. False says that one would lie past the end, and nothing is
/// written.
pub fn put_u32(memory: &mut Memory, at: u32, value: u32) -> bool
    ensures fits { IsTrue result ↔ (at + 4 ≤ length memory.old.bytes) }
    ensures written { memory.new ≡
        (if result then with_piece memory.old at (bytes_of 4 value) else memory.old) }
{
    memory.store(u64::from(at), 4, u64::from(value))
}

/// Writes 8 bytes, the lowest first. False says that one would lie past the end, and nothing is
/// written.
pub fn put_u64(memory: &mut Memory, at: u32, value: u64) -> bool
    ensures fits { IsTrue result ↔ (at + 8 ≤ length memory.old.bytes) }
    ensures written { memory.new ≡
        (if result then with_piece memory.old at (bytes_of 8 value) else memory.old) }
{
    memory.store(u64::from(at), 8, value)
}
