//! Cases of sessions: `DESK PIECE FAILING | FAILING | ROWS | INPUT`. The book is over a keeper as in cases of books. The
//! connection moves at most `PIECE` bytes in a call, and its calls fail that have the first numbers. The desk is
//! - `plain`, of one thread: it is told how the session ends and what it writes, and what a case of a book tells in the end,
//! - `shared`, the one desk of a shared book: how the session ends, what it writes, and how many entries there are after a
//!   last call, which writes `abc` to `/in`,
//! - `listened`, of the worker that serves a listener of this one connection: how serving ends, what is written on the
//!   connections that came back, and what a case of a book tells in the end.
ghost use Rattle.std.specs.Prelude.{◌≡◌, []};
ghost use Rattle.vr_memory_links.specs.Links.{IsNewLink};

use crate::books::print_ended;
use crate::links::{both_keys, read_link};
use crate::shown::{print_fault, print_reply, print_text};
use crate::world::{read_keeper, start};
use anyhow::{Context, Result, bail};
use std::alloc::Global;
use std::sync::Wait;
use std::thread::Threads;
use vr_base::{Bytes, Call, Desk, Front, NoGate, Reply};
use vr_core::{Book, PlainDesk};
use vr_face::{AttendFault, SessionEnd, serve_session};
use vr_keeper::MemKeeper;
use vr_memory_links::{MemLink, MemListener};
use vr_session::{Shared, SharedDesk, attend_all};

fn serve<D: Desk>(alloc: Global, desk: &mut D, link: &mut MemLink) -> Result<SessionEnd> {
    let keys = both_keys(alloc)?;
    Ok(serve_session(alloc, desk, &keys, link))
}

/// Serves over a new book at the desk of one thread. Gives how the session ends, and the book.
pub fn served(
    alloc: Global,
    book: Book<MemKeeper>,
    link: &mut MemLink,
) -> Result<(SessionEnd, Book<MemKeeper>)>
    requires { book.journal ≡ [] }
{
    let mut desk = PlainDesk::new(book);
    let end = serve(alloc, &mut desk, link)?;
    Ok((end, desk.into_book()))
}

/// Prints how a session ended and what it wrote.
fn print_session(rt: &impl Print, end: SessionEnd, written: &[u8]) -> Result<()> {
    println!(rt; "  {end:?}")?;
    print_text(rt, written)
}

fn over_plain(
    rt: &(impl Print + AllocGlobal),
    policy: &str,
    book: Book<MemKeeper>,
    link: MemLink,
) -> Result<()>
    requires { book.journal ≡ [] }
{
    let mut link = link;
    let (end, book) = served(rt.alloc(), book, &mut link)?;
    print_session(rt, end, link.written())?;
    print_ended(rt, policy, book)
}

/// The write of `abc` to `/in`.
fn write_of_abc(alloc: Global) -> Result<Call> {
    let name = Bytes::from_slice(alloc, b"/in").ok().context("memory")?;
    let body = Bytes::from_slice(alloc, b"abc").ok().context("memory")?;
    Ok(Call::Write { name, body })
}

/// Has identity 1 write `abc` to `/in`, and prints the reply and how many entries there are then.
fn write_last<D: Desk>(rt: &(impl Print + AllocGlobal), desk: &mut D) -> Result<()> {
    let (reply, Front { entries }) = desk.ask(1, write_of_abc(rt.alloc())?);
    print_reply(rt, &reply)?;
    println!(rt; "  {entries} entries")?;
    Ok(())
}

fn over_desk<D: Desk>(rt: &(impl Print + AllocGlobal), desk: &mut D, link: MemLink) -> Result<()> {
    let mut link = link;
    let end = serve(rt.alloc(), desk, &mut link)?;
    print_session(rt, end, link.written())?;
    write_last(rt, desk)
}

fn over_shared(
    rt: &(impl Print + AllocGlobal + Wait),
    book: Book<MemKeeper>,
    link: MemLink,
) -> Result<()>
    requires { book.journal ≡ [] }
{
    // The journal of each book is legal, and its calls say so.
    let _entries = book.journal();
    let Ok((shared, seat)) = Shared::new(rt.alloc(), book, NoGate, 1) else {
        bail!("memory");
    };
    let mut desk = SharedDesk::new(rt, &shared, seat);
    over_desk(rt, &mut desk, link)
}

/// A listener of one connection.
fn listener_of(alloc: Global, link: MemLink) -> Result<MemListener>
    requires { IsNewLink link }
{
    let links = vec![in alloc; link]?;
    let listener = MemListener::new(alloc, links, Vec::new(alloc)).ok();
    listener.context("memory")
}

/// How serving over a listener ends, and what comes back.
type Attended = (
    std::result::Result<(), AttendFault>,
    MemListener,
    Book<MemKeeper>,
);

/// Serves over a listener of the one connection, by one worker.
fn attended(
    rt: &(impl AllocGlobal + Threads + Wait + Sync),
    book: Book<MemKeeper>,
    link: MemLink,
) -> Result<Attended>
    requires empty { book.journal ≡ [] }
    requires fresh { IsNewLink link }
{
    let alloc = rt.alloc();
    let keys = both_keys(alloc)?;
    let listener = listener_of(alloc, link)?;
    Ok(attend_all(rt, alloc, book, NoGate, &keys, listener, 1, 1))
}

fn over_listener(
    rt: &(impl Print + AllocGlobal + Threads + Wait + Sync),
    policy: &str,
    book: Book<MemKeeper>,
    link: MemLink,
) -> Result<()>
    requires empty { book.journal ≡ [] }
    requires fresh { IsNewLink link }
{
    let (answer, listener, book) = attended(rt, book, link)?;
    println!(rt; "  {answer:?}")?;
    for link in listener.ended() {
        print_text(rt, link.written())?;
    }
    print_ended(rt, policy, book)
}

/// Serves over a book that was started, at the desk of this name.
fn serve_at(
    rt: &(impl Print + AllocGlobal + Threads + Wait + Sync),
    policy: &str,
    desk: &str,
    book: Book<MemKeeper>,
    link: MemLink,
) -> Result<()>
    requires empty { book.journal ≡ [] }
    requires fresh { IsNewLink link }
{
    match desk {
        "plain" => over_plain(rt, policy, book, link),
        "shared" => over_shared(rt, book, link),
        "listened" => over_listener(rt, policy, book, link),
        _ => bail!("no kind of desk"),
    }
}

fn serve_case(
    rt: &(impl Print + AllocGlobal + Threads + Wait + Sync),
    policy: &str,
    desk: &str,
    keeper: MemKeeper,
    link: MemLink,
) -> Result<()>
    requires { IsNewLink link }
{
    match start(rt.alloc(), policy, keeper)? {
        Ok(book) => serve_at(rt, policy, desk, book, link),
        Err((fault, _)) => print_fault(rt, fault),
    }
}

pub fn run_session(
    rt: &(impl Print + AllocGlobal + Threads + Wait + Sync),
    policy: &str,
    words: &str,
) -> Result<()> {
    let mut parts = words.split(" | ");
    let first = parts.next().context("a desk")?;
    let (desk, link) = first.split_once(' ').context("a connection")?;
    let failing = parts.next().context("numbers")?;
    let rows = parts.next().context("rows")?;
    let input = parts.next().context("an input")?;
    let keeper = read_keeper(rt.alloc(), failing, rows)?;
    let link = read_link(rt.alloc(), link, input)?;
    serve_case(rt, policy, desk, keeper, link)
}
