ghost use Rattle.std.specs.Prelude.{◌≡◌, ◌≤◌, length, vec_len};
ghost use Rattle.vr_base.specs.Causes.{HasCauseOf};
ghost use Rattle.vr_http.specs.Inboxes.{unread, stream, Gathers};
ghost use Rattle.vr_http.specs.Reading.{ReadsMore, ReadsBlank, ReadsText, IfPlace, IsPlaced, LocatesHead, FillsWhole, ReadsRest, ReadsBody};

use crate::faults::HttpFault;
use crate::heads::MOST_LINES;
use crate::inbox::Inbox;
use crate::search::{Search, blank_length, count_lines, search_end};
use std::alloc::Global;
use vr_base::{Bytes, Source};

/// Where a head text is among the unread bytes.
#[derive(Clone, Copy)]
pub struct Place {
    pub start: usize,
    pub end: usize,
}

/// Reads more of a head, and answers how many bytes came, none at the source's end.
fn read_more<S: Source>(inbox: &mut Inbox, source: &mut S) -> Result<usize, HttpFault>
    ensures gathered { Gathers (unread inbox.old) (unread inbox.new)
        (S.left source.old) (S.left source.new) }
    ensures more { ReadsMore (unread inbox.old) (unread inbox.new) (S.left source.new) result }
    ensures beside { S.beside source.new ≡ S.beside source.old }
    ensures cause { HasCauseOf HttpFault.ReadFault
        (S.faults source.old) (S.faults source.new) result }
{
    if inbox.is_full() {
        return Err(HttpFault::HeadTooLarge);
    }
    Ok(inbox.fill(source)?)
}

/// Reads until a byte of a head text is held, and answers how many CR and LF bytes come before it.
fn read_blank<S: Source>(inbox: &mut Inbox, source: &mut S) -> Result<Option<usize>, HttpFault>
    ensures gathered { Gathers (unread inbox.old) (unread inbox.new)
        (S.left source.old) (S.left source.new) }
    ensures blank { ReadsBlank (unread inbox.new) (S.left source.new) result }
    ensures beside { S.beside source.new ≡ S.beside source.old }
    ensures cause { HasCauseOf HttpFault.ReadFault
        (S.faults source.old) (S.faults source.new) result }
{
    let mut blank = 0;
    loop {
        blank += blank_length(&inbox.unread()[blank..]);
        if blank < inbox.unread().len() {
            return Ok(Some(blank));
        }
        if read_more(inbox, source)? == 0 {
            return Ok(None);
        }
    }
}

/// Reads until the head text that begins at the place has ended, and answers its end.
fn read_text<S: Source>(inbox: &mut Inbox, source: &mut S, start: usize) -> Result<usize, HttpFault>
    requires { start ≤ length (unread inbox.old) }
    ensures gathered { Gathers (unread inbox.old) (unread inbox.new)
        (S.left source.old) (S.left source.new) }
    ensures text { ReadsText start (unread inbox.new) (S.left source.new) result }
    ensures beside { S.beside source.new ≡ S.beside source.old }
    ensures cause { HasCauseOf HttpFault.ReadFault
        (S.faults source.old) (S.faults source.new) result }
{
    let mut at = start;
    loop {
        match search_end(inbox.unread(), at) {
            Search::Ended(end) => return Ok(end),
            Search::GoesOn(next) => at = next,
        }
        if read_more(inbox, source)? == 0 {
            return Err(HttpFault::CutShort);
        }
    }
}

/// Reads until the inbox holds the first head of the stream, and answers where, or that there is none.
pub fn read_head<S: Source>(inbox: &mut Inbox, source: &mut S) -> Result<Option<Place>, HttpFault>
    ensures gathered { Gathers (unread inbox.old) (unread inbox.new)
        (S.left source.old) (S.left source.new) }
    ensures placed { IfPlace result (IsPlaced (unread inbox.new)) }
    ensures found { LocatesHead (stream (unread inbox.old) (S.left source.old))
        (unread inbox.new) result }
    ensures beside { S.beside source.new ≡ S.beside source.old }
    ensures cause { HasCauseOf HttpFault.ReadFault
        (S.faults source.old) (S.faults source.new) result }
{
    let Some(start) = read_blank(inbox, source)? else {
        return Ok(None);
    };
    let end = read_text(inbox, source, start)?;
    if count_lines(&inbox.unread()[start..end]) > MOST_LINES + 2 {
        return Err(HttpFault::HeadTooLarge);
    }
    Ok(Some(Place { start, end }))
}

/// Fills the whole buffer.
fn read_exact<S: Source>(source: &mut S, into: &mut [u8]) -> Result<(), HttpFault>
    ensures filled { FillsWhole into.new (S.left source.old) (S.left source.new) result }
    ensures beside { S.beside source.new ≡ S.beside source.old }
    ensures cause { HasCauseOf HttpFault.ReadFault
        (S.faults source.old) (S.faults source.new) result }
{
    let mut at = 0;
    while at < into.len() {
        let count = source.read(&mut into[at..])?;
        if count == 0 {
            return Err(HttpFault::CutShort);
        }
        at += count;
    }
    Ok(())
}

/// Reads behind what is there until there are so many bytes.
fn read_rest<S: Source>(source: &mut S, body: &mut Vec<u8>, size: usize) -> Result<(), HttpFault>
    requires { vec_len body.old ≤ size }
    ensures rest { ReadsRest size body.old.items body.new.items
        (S.left source.old) (S.left source.new) result }
    ensures beside { S.beside source.new ≡ S.beside source.old }
    ensures cause { HasCauseOf HttpFault.ReadFault
        (S.faults source.old) (S.faults source.new) result }
{
    let held = body.len();
    body.resize(size, 0)?;
    read_exact(source, &mut body[held..])
}

/// Takes a body of so many bytes. What isn't held is read into its place, without a copy.
pub fn read_body<S: Source>(
    alloc: Global,
    inbox: &mut Inbox,
    source: &mut S,
    size: usize,
) -> Result<Bytes, HttpFault>
    ensures body { ReadsBody size (stream (unread inbox.old) (S.left source.old))
        (stream (unread inbox.new) (S.left source.new)) result }
    ensures beside { S.beside source.new ≡ S.beside source.old }
    ensures cause { HasCauseOf HttpFault.ReadFault
        (S.faults source.old) (S.faults source.new) result }
{
    let mut body = Vec::with_capacity(alloc, size)?;
    let held = inbox.unread().len().min(size);
    body.extend_from_slice(&inbox.unread()[..held])?;
    inbox.skip(held);
    read_rest(source, &mut body, size)?;
    Ok(Bytes::of(body))
}
