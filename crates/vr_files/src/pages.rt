ghost use Rattle.std.specs.Prelude.{◌≡◌, ◌+◌, ◌-◌, ◌*◌, ◌^◌, ◌<◌, ◌≤◌, ◌↔◌, ◌++◌, length, take, drop, max, replicate, vec_len, IsTrue, IsFalse, IfOk, OnOk, OnErr};
ghost use Rattle.std.specs.Int.{div_ceil};
ghost use Rattle.vr_files.specs.Bodies.{overwritten};
ghost use Rattle.vr_files.specs.PageLists.{bytes_of, AreFull, AddsZeros, Overwrites, Cuts};

use std::alloc::{AllocError, Global};
use std::sync::Arc;

/// The bytes of a page.
pub const PAGE: usize = 4096;

/// The most bytes of a file.
pub const MOST_BYTES: usize = 16_777_216;

/// A page of a file. Past the file's end it is zero.
#[derive(Debug, Drop, PartialEq, Eq)]
pub struct Page {
    pub bytes: [u8; PAGE],
}

impl Page {
    fn zeros(alloc: Global) -> Result<Arc<Page>, AllocError>
        ensures { IfOk result (λ page. page.value.bytes ≡ replicate PAGE 0) }
    {
        Ok(Arc::new(alloc, Page { bytes: [0; PAGE] })?)
    }

    /// A copy of the page with the piece written over it.
    fn overwritten(&self, alloc: Global, at: usize, piece: &[u8]) -> Result<Arc<Page>, AllocError>
        requires { at + length piece.now ≤ PAGE }
        ensures bytes { IfOk result (λ page.
            page.value.bytes ≡ overwritten self.now.bytes at piece.now) }
        ensures len { IfOk result (λ page. length page.value.bytes ≡ PAGE) }
    {
        let mut bytes = self.bytes;
        bytes[at..at + piece.len()].copy_from_slice(piece);
        Ok(Arc::new(alloc, Page { bytes })?)
    }

    /// A copy of the page that is zero from a place on.
    fn cut(&self, alloc: Global, size: usize) -> Result<Arc<Page>, AllocError>
        requires { size ≤ PAGE }
        ensures bytes { IfOk result (λ page.
            page.value.bytes ≡ take size self.now.bytes ++ replicate (PAGE - size) 0) }
        ensures len { IfOk result (λ page. length page.value.bytes ≡ PAGE) }
    {
        let mut bytes = self.bytes;
        bytes[size..].fill(0);
        Ok(Arc::new(alloc, Page { bytes })?)
    }
}

/// How many pages it takes to hold so many bytes.
pub(crate) fn page_count(size: usize) -> usize
    ensures { result ≡ div_ceil size PAGE }
{
    size.div_ceil(PAGE)
}

/// Adds pages of zeros until there are so many.
pub(crate) fn extend_pages(pages: &mut Vec<Arc<Page>>, count: usize) -> Result<(), AllocError>
    ensures ok { OnOk result (AddsZeros pages.old.items pages.new.items count) }
    ensures err { OnErr result (pages.new.items ≡ pages.old.items) }
{
    if pages.len() < count {
        let zeros = Page::zeros(*pages.allocator())?;
        pages.resize(count, zeros)?;
    }
    Ok(())
}

/// Copies of the pages with the piece written over them, from a place in the first one on.
fn overwritten_pages(
    alloc: Global,
    pages: &[Arc<Page>],
    at: usize,
    piece: &[u8],
) -> Result<Vec<Arc<Page>>, AllocError>
    requires full { AreFull pages.now }
    requires first { at ≤ PAGE }
    requires fits { at + length piece.now ≤ PAGE * length pages.now }
    ensures bytes { IfOk result (λ fresh.
        bytes_of fresh.items ≡ overwritten (bytes_of pages.now) at piece.now) }
    ensures full { IfOk result (λ fresh. AreFull fresh.items) }
    ensures count { IfOk result (λ fresh. length fresh.items ≡ length pages.now) }
{
    let mut fresh = Vec::with_capacity(alloc, pages.len())?;
    let mut place = at;
    let mut rest = piece;
    for page in pages {
        let (part, later) = rest.split_at(rest.len().min(PAGE - place));
        fresh.push(page.overwritten(alloc, place, part)?)?;
        place = 0;
        rest = later;
    }
    Ok(fresh)
}

/// Puts others in the place of the pages from one on.
fn replace(pages: &mut [Arc<Page>], first: usize, others: &mut [Arc<Page>])
    requires { first + length others.old ≤ length pages.old }
    ensures { pages.new
        ≡ take first pages.old ++ others.old ++ drop (first + length others.old) pages.old }
{
    pages[first..first + others.len()].swap_with_slice(others);
}

/// Writes the piece into a page in its place, and answers whether it did: nobody else may have the page.
fn write_in_place(page: &mut Arc<Page>, at: usize, piece: &[u8]) -> bool
    requires { at + length piece.now ≤ PAGE }
    ensures written { IsTrue result →
        page.new.value.bytes ≡ overwritten page.old.value.bytes at piece.now }
    ensures full { IsTrue result → length page.new.value.bytes ≡ PAGE }
    ensures same { IsFalse result → page.new ≡ page.old }
{
    match Arc::get_mut(page) {
        Some(page) => {
            page.bytes[at..at + piece.len()].copy_from_slice(piece);
            true
        }
        None => false,
    }
}

/// Writes a piece that lies in one page in its place, and answers whether it did: the page is there, and nobody else
/// has it.
fn write_in_page(pages: &mut Vec<Arc<Page>>, at: usize, piece: &[u8]) -> bool
    requires { AreFull pages.old.items }
    ensures written { IsTrue result → Overwrites pages.old.items pages.new.items at piece.now }
    ensures same { IsFalse result → pages.new.items ≡ pages.old.items }
{
    let place = at / PAGE;
    let from = at % PAGE;
    if place < pages.len() && piece.len() <= PAGE - from {
        write_in_place(&mut pages[place], from, piece)
    } else {
        false
    }
}

/// Writes the piece over the pages from a place on, with as many pages of zeros more as it takes. Where memory runs out
/// the pages stay as they are, so that a piece that lies in several pages is written over copies of them.
pub(crate) fn write_pages(
    pages: &mut Vec<Arc<Page>>,
    at: usize,
    piece: &[u8],
) -> Result<(), AllocError>
    requires full { AreFull pages.old.items }
    requires fits { at + length piece.now ≤ MOST_BYTES }
    ensures ok { OnOk result (Overwrites pages.old.items pages.new.items at piece.now) }
    ensures err { OnErr result (pages.new.items ≡ pages.old.items) }
{
    if write_in_page(pages, at, piece) {
        Ok(())
    } else {
        write_over_copies(pages, at, piece)
    }
}

/// Writes the piece over copies of the pages, and over pages of zeros more.
fn write_over_copies(pages: &mut Vec<Arc<Page>>, at: usize, piece: &[u8]) -> Result<(), AllocError>
    requires full { AreFull pages.old.items }
    requires fits { at + length piece.now ≤ MOST_BYTES }
    ensures ok { OnOk result (Overwrites pages.old.items pages.new.items at piece.now) }
    ensures err { OnErr result (pages.new.items ≡ pages.old.items) }
{
    let alloc = *pages.allocator();
    let count = pages.len();
    let first = at / PAGE;
    let last = page_count(at + piece.len());
    extend_pages(pages, last)?;
    match overwritten_pages(alloc, &pages[first..last], at % PAGE, piece) {
        Ok(mut fresh) => {
            replace(pages, first, &mut fresh);
            Ok(())
        }
        Err(refused) => {
            pages.truncate(count);
            Err(refused)
        }
    }
}

/// Cuts the pages to a size, and makes them zero past it. Where memory runs out the pages stay as they are.
pub(crate) fn cut_pages(pages: &mut Vec<Arc<Page>>, size: usize) -> Result<(), AllocError>
    requires full { AreFull pages.old.items }
    requires within { size ≤ PAGE * vec_len pages.old }
    ensures ok { OnOk result (Cuts pages.old.items pages.new.items size) }
    ensures err { OnErr result (pages.new.items ≡ pages.old.items) }
{
    let count = page_count(size);
    let rest = size % PAGE;
    if rest != 0 {
        let last = pages[count - 1].cut(*pages.allocator(), rest)?;
        pages[count - 1] = last;
    }
    pages.truncate(count);
    Ok(())
}

/// Copies the bytes of the pages from a place on.
pub(crate) fn read_pages(pages: &[Arc<Page>], at: usize, into: &mut [u8])
    requires full { AreFull pages.now }
    requires within { at + length into.old ≤ PAGE * length pages.now }
    requires fits { at + length into.old < 2 ^ 64 }
    ensures { into.new ≡ take (length into.old) (drop at (bytes_of pages.now)) }
{
    let mut done = 0;
    while done < into.len() {
        let page = &pages[(at + done) / PAGE];
        let from = (at + done) % PAGE;
        let count = (PAGE - from).min(into.len() - done);
        into[done..done + count].copy_from_slice(&page.bytes[from..from + count]);
        done += count;
    }
}

/// Whether the pages of two lists have the same bytes.
pub(crate) fn same_pages(a: &[Arc<Page>], b: &[Arc<Page>]) -> bool
    requires first { AreFull a.now }
    requires second { AreFull b.now }
    ensures { IsTrue result ↔ (bytes_of a.now ≡ bytes_of b.now) }
{
    a == b
}
