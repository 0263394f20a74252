//! Linear memory (WebAssembly Core 1.0, sections 4.2.8 and 4.4.4, and the later copy and fill).

ghost use Rattle.std.specs.Prelude.{◌≡◌, ◌+◌, ◌*◌, ◌^◌, ◌<◌, ◌≤◌, ◌↔◌, IsTrue, is_some, IsSome, IfOk, IfSome, OnSome, IfNone, length, replicate, if◌then◌else◌};

use std::alloc::{AllocError, Global};
use std::marker::Model;

/// How many bytes a page has.
pub const PAGE_SIZE: usize = 65_536;

/// Memory ran out: the one refusal of a call that only allocates.
#[derive(Clone, Copy, Debug, PartialEq, Eq)]
pub struct NoMemory;

impl From<AllocError> for NoMemory {
    fn from(_refused: AllocError) -> NoMemory {
        NoMemory
    }
}

/// A linear memory. Contracts see its bytes, and how many pages it may have.
#[derive(Drop)]
pub struct Memory {
    bytes: Vec<u8>,
    most: u32,
}

impl Model for Memory {
    ghost use Rattle.std.specs.Prelude.{vec_capacity};
    ghost use Rattle.vr_wasm_num.specs.Memory.{Contents, IsReserved};

    ghost Value = { Contents };

    ghost view = { λ m. record { bytes = m.bytes.items; most = m.most } };

    ghost invariant = { λ m.
        IsReserved (record { bytes = m.bytes.items; most = m.most }) (vec_capacity m.bytes) };
}

impl Memory {
    ghost use Rattle.vr_wasm_num.specs.Memory.{Contents, IsPaged, IsWidth, is_within, pages_of, number_of, bytes_of, part, with_piece, with_pages};

    /// So many pages of zeros, with room for so many pages at most. The room is reserved,
    /// and only the pages are written.
    pub fn new(alloc: Global, pages: u32, most: u32) -> Result<Memory, NoMemory>
        requires pages { pages ≤ most }
        requires most { most ≤ 1024 }
        ensures { IfOk result (λ m.
            m ≡ record { bytes = replicate (pages * PAGE_SIZE) 0; most = most }) }
    {
        let mut bytes = Vec::with_capacity(alloc, most as usize * PAGE_SIZE)?;
        bytes.resize(pages as usize * PAGE_SIZE, 0)?;
        Ok(Memory { bytes, most })
    }

    /// The size in pages. Contracts above this crate learn here that a memory has whole pages.
    pub fn size(&self) -> u32
        ensures size { result ≡ pages_of self.now }
        ensures paged { IsPaged self.now }
    {
        (self.bytes.len() / PAGE_SIZE) as u32
    }

    /// Adds pages of zeros. The answer is the size before, in pages.
    pub fn grow(&mut self, more: u32) -> Option<u32>
        ensures fits { IsSome result ↔ (pages_of self.old + more ≤ self.old.most) }
        ensures size { IfSome result (λ pages. pages ≡ pages_of self.old) }
        ensures grown { OnSome result (self.new ≡ with_pages self.old more) }
        ensures same { IfNone result (self.new ≡ self.old) }
    {
        let pages = self.size();
        if more > self.most - pages {
            return None;
        }
        let size = (pages + more) as usize * PAGE_SIZE;
        self.bytes.resize(size, 0).unwrap();
        Some(pages)
    }

    /// So many bytes from a place on, or `None` where one of them lies past the end. No bytes are
    /// there wherever they begin.
    pub fn view(&self, at: u64, len: u64) -> Option<&[u8]>
        ensures fits { is_some result ≡ is_within self.now.bytes at len }
        ensures bytes { IfSome result (λ bytes. bytes.now ≡ part self.now.bytes at len) }
    {
        if len == 0 {
            return Some(&self.bytes[..0]);
        }
        self.bytes_at(at, len)
    }

    /// The number that 1, 2, 4 or 8 bytes spell, the lowest byte first, or `None` where
    /// one of them lies past the end.
    pub fn load(&self, at: u64, width: u8) -> Option<u64>
        requires { IsWidth width }
        ensures fits { IsSome result ↔ (at + width ≤ length self.now.bytes) }
        ensures number { IfSome result (λ number.
            number ≡ number_of (part self.now.bytes at width)) }
        ensures below { IfSome result (λ number. number < 2 ^ (8 * width)) }
    {
        let bytes = self.bytes_at(at, u64::from(width))?;
        Some(match width {
            1 => u64::from(bytes[0]),
            2 => u64::from(u16::from_le_bytes([bytes[0], bytes[1]])),
            4 => u64::from(u32::from_le_bytes([bytes[0], bytes[1], bytes[2], bytes[3]])),
            _ => u64::from_le_bytes([
                bytes[0], bytes[1], bytes[2], bytes[3], bytes[4], bytes[5], bytes[6], bytes[7],
            ]),
        })
    }

    /// Writes bytes from a place on. Where one of them would lie past the end, nothing is written.
    /// To write none succeeds wherever they would begin.
    pub fn write(&mut self, at: u64, bytes: &[u8]) -> bool
        ensures fits { result ≡ is_within self.old.bytes at (length bytes.now) }
        ensures written { self.new
            ≡ (if result then with_piece self.old at bytes.now else self.old) }
    {
        bytes.is_empty() || self.place(at, bytes)
    }

    /// Writes the lowest 1, 2, 4 or 8 bytes of a number, the lowest first. Where one of them would
    /// lie past the end, nothing is written.
    pub fn store(&mut self, at: u64, width: u8, value: u64) -> bool
        requires { IsWidth width }
        ensures fits { IsTrue result ↔ (at + width ≤ length self.old.bytes) }
        ensures written { self.new ≡
            (if result then with_piece self.old at (bytes_of width value) else self.old) }
    {
        self.place(at, &value.to_le_bytes()[..usize::from(width)])
    }

    /// Copies so many bytes from one place to another, as they were before: the two ranges may
    /// overlap. Where either passes the end, nothing is written.
    pub fn copy_within(&mut self, to: u64, from: u64, len: u64) -> bool
        ensures fits { IsTrue result ↔
            ((to + len ≤ length self.old.bytes) × (from + len ≤ length self.old.bytes)) }
        ensures copied { self.new ≡
            (if result then with_piece self.old to (part self.old.bytes from len) else self.old) }
    {
        match (self.range(to, len), self.range(from, len)) {
            (Some((to, _)), Some((start, end))) => {
                self.bytes.copy_within(start..end, to);
                true
            }
            _ => false,
        }
    }

    /// Writes one byte so many times. Where the range passes the end, nothing is written.
    pub fn fill(&mut self, at: u64, byte: u8, len: u64) -> bool
        ensures fits { IsTrue result ↔ (at + len ≤ length self.old.bytes) }
        ensures filled { self.new ≡
            (if result then with_piece self.old at (replicate len byte) else self.old) }
    {
        match self.range(at, len) {
            Some((start, end)) => {
                self.bytes[start..end].fill(byte);
                true
            }
            None => false,
        }
    }

    /// The bytes of a range that doesn't pass the end.
    fn bytes_at(&self, at: u64, len: u64) -> Option<&[u8]>
        ensures fits { IsSome result ↔ (at + len ≤ length self.now.bytes) }
        ensures bytes { IfSome result (λ bytes. bytes.now ≡ part self.now.bytes at len) }
    {
        let (start, end) = self.range(at, len)?;
        Some(&self.bytes[start..end])
    }

    /// Writes bytes over a range that doesn't pass the end.
    fn place(&mut self, at: u64, bytes: &[u8]) -> bool
        ensures fits { IsTrue result ↔ (at + length bytes.now ≤ length self.old.bytes) }
        ensures written { self.new
            ≡ (if result then with_piece self.old at bytes.now else self.old) }
    {
        match self.range(at, bytes.len() as u64) {
            Some((start, end)) => {
                self.bytes[start..end].copy_from_slice(bytes);
                true
            }
            None => false,
        }
    }

    /// The range of so many bytes from a place on, where it doesn't pass the end.
    fn range(&self, at: u64, len: u64) -> Option<(usize, usize)>
        ensures fits { IsSome result ↔ (at + len ≤ length self.now.bytes) }
        ensures ends { IfSome result (λ range. (range.0 ≡ at) × (range.1 ≡ at + len)) }
    {
        let size = self.bytes.len() as u64;
        let end = at.checked_add(len)?;
        if end > size {
            return None;
        }
        Some((at as usize, end as usize))
    }
}
