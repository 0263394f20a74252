ghost use Rattle.std.specs.Prelude.{◌≡◌, ◌+◌, ◌-◌, ◌*◌, ◌<◌, ◌≤◌, ◌↔◌, ◌++◌, [], length, take, drop, min, bytes_eq, IsTrue, IsSome, IfOk, IfErr, IfSome, OnOk};
ghost use Rattle.std.specs.Cmp.{partial_equiv_from_equiv};
ghost use Rattle.std.specs.Cmp.Lexicographic.{nat_list_eq_equiv};
ghost use Rattle.vr_files.specs.Bodies.{Becomes, Gives, sized, written, resized, page_at, padded};

use crate::faults::FileFault;
use crate::paged::Paged;
use crate::pages::{MOST_BYTES, PAGE, Page};
use std::alloc::Global;
use std::marker::Model;
use std::sync::Arc;
use vr_base::{Bytes, NoMemory};

/// The bytes of a file, at most 16,777,216. They are kept in pages of 4,096, which are shared between the bodies that
/// came of each other and copied where one of them is written. Contracts see the bytes alone.
#[derive(Debug, Drop)]
pub struct FileBody {
    content: Arc<Paged>,
}

impl Model for FileBody {
    ghost use Rattle.std.specs.Prelude.{List, ℕ, length, ◌≤◌};
    ghost use Rattle.vr_files.specs.declared.pages.TheConstants.{MOST_BYTES};

    ghost Value = { List ℕ };

    ghost view = { λ b. b.content.value };

    ghost invariant = { λ b. length b.content.value ≤ MOST_BYTES };
}

impl FileBody {
    /// A body without bytes.
    pub fn new(alloc: Global) -> Result<FileBody, NoMemory>
        ensures { IfOk result (λ body. body ≡ []) }
    {
        let content = Arc::new(alloc, Paged::new(alloc))?;
        Ok(FileBody { content })
    }

    /// A copy of the bytes. TooLarge comes where they are more than 16,777,216.
    pub fn from_slice(alloc: Global, bytes: &[u8]) -> Result<FileBody, FileFault>
        ensures { Gives result (sized bytes.now) }
    {
        check_size(bytes.len() as u64)?;
        let mut content = Paged::new(alloc);
        content.write_at(0, bytes)?;
        Ok(FileBody {
            content: Arc::new(alloc, content)?,
        })
    }

    pub fn len(&self) -> u64
        ensures len { result ≡ length self.now }
        ensures most { length self.now ≤ MOST_BYTES }
    {
        self.content.len() as u64
    }

    pub fn is_empty(&self) -> bool
        ensures { IsTrue result ↔ (self.now ≡ []) }
    {
        self.content.len() == 0
    }

    /// Copies the bytes from a place on, as many as there are and fit, and answers their number.
    pub fn read_at(&self, at: u64, into: &mut [u8]) -> usize
        ensures count { result ≡ min (length into.old) (length self.now - at) }
        ensures bytes { into.new ≡ take result (drop at self.now) ++ drop result into.old }
    {
        self.content.read_at(at as usize, into)
    }

    /// A copy of the bytes.
    pub fn to_bytes(&self) -> Result<Bytes, NoMemory>
        ensures { IfOk result (λ bytes. bytes ≡ self.now) }
    {
        Ok(Bytes::of(self.content.to_vec()?))
    }

    /// The bytes of page `k`, counted from 0: those from 4,096 k on, and as many as are there, 4,096 at most. None comes
    /// where there are none.
    pub fn page(&self, k: u64) -> Option<&[u8]>
        ensures some { IsSome result ↔ (PAGE * k < length self.now) }
        ensures bytes { IfSome result (λ page. page.now ≡ page_at k self.now) }
    {
        self.content.page(k as usize)
    }

    /// Page `k` as it is kept, with zeros after its bytes. None comes where `page` has none.
    pub fn shared_page(&self, k: u64) -> Option<&Arc<Page>>
        ensures some { IsSome result ↔ (PAGE * k < length self.now) }
        ensures bytes { IfSome result (λ page. page.now.value.bytes ≡ padded (page_at k self.now)) }
    {
        self.content.shared_page(k as usize)
    }

    /// The same bytes, in the same pages.
    pub fn share(&self) -> Result<FileBody, NoMemory>
        ensures { IfOk result (λ body. body ≡ self.now) }
    {
        Ok(FileBody {
            content: self.content.clone()?,
        })
    }

    /// Writes a piece from a place on, with a gap of zeros before it where it begins past the end. An empty piece changes
    /// nothing. TooLarge comes where there would be more than 16,777,216 bytes.
    #[tactic(auto, using(crate::proofs::SizeLemmas::size_of_written, crate::proofs::SizeLemmas::written_nothing))]
    pub fn write_at(&mut self, at: u64, piece: &[u8]) -> Result<(), FileFault>
        ensures { Becomes self.old self.new result (sized (written self.old at piece.now)) }
    {
        let len = self.len();
        if piece.is_empty() {
            return Ok(());
        }
        check_size(len.max(at.saturating_add(piece.len() as u64)))?;
        Arc::make_mut(&mut self.content)?.write_at(at as usize, piece)?;
        Ok(())
    }

    /// Adds a piece at the end. It copies no more than the last page and the piece. TooLarge comes where there would be
    /// more than 16,777,216 bytes.
    pub fn append(&mut self, piece: &[u8]) -> Result<(), FileFault>
        ensures { Becomes self.old self.new result (sized (self.old ++ piece.now)) }
    {
        self.write_at(self.len(), piece)
    }

    /// Cuts the body to a size, or fills it up with zeros. TooLarge comes where the size is more than 16,777,216.
    pub fn set_size(&mut self, size: u64) -> Result<(), FileFault>
        ensures { Becomes self.old self.new result (sized (resized self.old size)) }
    {
        check_size(size)?;
        Arc::make_mut(&mut self.content)?.set_size(size as usize)?;
        Ok(())
    }
}

impl PartialEq for FileBody {
    ghost eq = { bytes_eq };

    ghost laws = { partial_equiv_from_equiv nat_list_eq_equiv };

    fn eq(&self, other: &FileBody) -> bool {
        self.content.is_same(&other.content)
    }
}

impl Eq for FileBody {
    ghost laws = { nat_list_eq_equiv };
}

/// A file may have so many bytes.
fn check_size(size: u64) -> Result<(), FileFault>
    ensures ok { OnOk result (size ≤ MOST_BYTES) }
    ensures err { IfErr result (λ fault. (MOST_BYTES < size) × (fault ≡ FileFault.TooLarge size)) }
{
    if size > MOST_BYTES as u64 {
        Err(FileFault::TooLarge(size))
    } else {
        Ok(())
    }
}
