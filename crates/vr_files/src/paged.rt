//! Bytes that are kept in pages.
ghost use Rattle.std.specs.Prelude.{◌≡◌, ◌+◌, ◌-◌, ◌*◌, ◌<◌, ◌≤◌, ◌↔◌, ◌++◌, [], length, take, drop, min, IsTrue, IsSome, IfOk, IfSome, OnOk, OnErr};
ghost use Rattle.vr_files.specs.Bodies.{written, resized, page_at, padded};

use crate::pages::{
    MOST_BYTES, PAGE, Page, cut_pages, extend_pages, page_count, read_pages, same_pages,
    write_pages,
};
use std::alloc::{AllocError, Global};
use std::marker::Model;
use std::sync::Arc;

/// At most 16,777,216 bytes, kept in pages of 4,096. The bytes of the last page past their end are zero.
#[derive(Debug, Drop)]
pub(crate) struct Paged {
    len: usize,
    pages: Vec<Arc<Page>>,
}

impl Model for Paged {
    ghost use Rattle.std.specs.Prelude.{List, ℕ, take};
    ghost use Rattle.vr_files.specs.PageLists.{bytes_of, IsPaged};

    ghost Value = { List ℕ };

    ghost view = { λ b. take b.len (bytes_of b.pages.items) };

    ghost invariant = { λ b. IsPaged b.len b.pages.items };
}

impl Paged {
    pub(crate) fn new(alloc: Global) -> Paged
        ensures { result ≡ [] }
    {
        Paged {
            len: 0,
            pages: Vec::new(alloc),
        }
    }

    pub(crate) fn len(&self) -> usize
        ensures len { result ≡ length self.now }
        ensures most { length self.now ≤ MOST_BYTES }
    {
        self.len
    }

    /// Copies the bytes from a place on, as many as there are and fit, and answers their number.
    pub(crate) fn read_at(&self, at: usize, into: &mut [u8]) -> usize
        ensures count { result ≡ min (length into.old) (length self.now - at) }
        ensures bytes { into.new ≡ take result (drop at self.now) ++ drop result into.old }
    {
        if self.len <= at {
            return 0;
        }
        let count = into.len().min(self.len - at);
        read_pages(&self.pages, at, &mut into[..count]);
        count
    }

    /// Writes a piece from a place on, with a gap of zeros before it where it begins past the end. Where memory runs out
    /// the bytes stay as they are.
    pub(crate) fn write_at(&mut self, at: usize, piece: &[u8]) -> Result<(), AllocError>
        requires { at + length piece.now ≤ MOST_BYTES }
        ensures ok { OnOk result (self.new ≡ written self.old at piece.now) }
        ensures err { OnErr result (self.new ≡ self.old) }
    {
        if piece.is_empty() {
            return Ok(());
        }
        write_pages(&mut self.pages, at, piece)?;
        self.len = self.len.max(at + piece.len());
        Ok(())
    }

    /// Cuts the bytes to a size, or fills them up with zeros. Where memory runs out they stay as they are.
    pub(crate) fn set_size(&mut self, size: usize) -> Result<(), AllocError>
        requires { size ≤ MOST_BYTES }
        ensures ok { OnOk result (self.new ≡ resized self.old size) }
        ensures err { OnErr result (self.new ≡ self.old) }
    {
        if size <= self.len {
            cut_pages(&mut self.pages, size)?;
        } else {
            extend_pages(&mut self.pages, page_count(size))?;
        }
        self.len = size;
        Ok(())
    }

    /// The bytes of page `k`, counted from 0. The last one may be shorter than 4,096 bytes.
    pub(crate) fn page(&self, k: usize) -> Option<&[u8]>
        ensures some { IsSome result ↔ (PAGE * k < length self.now) }
        ensures bytes { IfSome result (λ page. page.now ≡ page_at k self.now) }
    {
        let page = self.pages.get(k)?;
        Some(&page.bytes[..PAGE.min(self.len - PAGE * k)])
    }

    /// Page `k` itself.
    pub(crate) fn shared_page(&self, k: usize) -> Option<&Arc<Page>>
        ensures some { IsSome result ↔ (PAGE * k < length self.now) }
        ensures bytes { IfSome result (λ page. page.now.value.bytes ≡ padded (page_at k self.now)) }
    {
        self.pages.get(k)
    }
}

impl Paged {
    /// A copy of the bytes.
    pub(crate) fn to_vec(&self) -> Result<Vec<u8>, AllocError>
        ensures { IfOk result (λ bytes. bytes.items ≡ self.now) }
    {
        let mut bytes = Vec::with_capacity(*self.pages.allocator(), self.len)?;
        for page in &self.pages {
            let count = PAGE.min(self.len - bytes.len());
            bytes.extend_from_slice(&page.bytes[..count])?;
        }
        Ok(bytes)
    }

    /// Whether two have the same bytes.
    pub(crate) fn is_same(&self, other: &Paged) -> bool
        ensures { IsTrue result ↔ (self.now ≡ other.now) }
    {
        self.len == other.len && same_pages(&self.pages, &other.pages)
    }
}

/// A clone shares the pages.
impl Clone for Paged {
    ghost use Rattle.std.specs.Prelude.{◌≡◌};

    ghost is_clone = { λ bytes clone. clone ≡ bytes };

    fn clone(&self) -> Result<Paged, AllocError> {
        Ok(Paged {
            len: self.len,
            pages: self.pages.clone()?,
        })
    }
}
