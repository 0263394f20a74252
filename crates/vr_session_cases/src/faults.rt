//! Cases of faults in turn: `ROWS | INPUT`. A session over the input is served in which the first call of the connection
//! fails, another in which the second one fails, and so on until one is served to its end. Each byte takes a call. It is
//! told how each ends, how many bytes it writes and the last of them, and then the entries and the files.
ghost use Rattle.std.specs.Prelude.{◌≡◌, []};

use crate::links::connection;
use crate::sessions::served;
use crate::shown::{print_book, print_text};
use crate::world::{read_bytes, read_keeper, start};
use anyhow::{Context, Result, bail};
use vr_core::Book;
use vr_face::SessionEnd;
use vr_keeper::MemKeeper;
use vr_memory_links::MemLink;

/// How many calls of a connection fail in turn at most.
const MOST_FAULTS: u64 = 4_096;

/// How many of the bytes that were written are printed.
const MOST_SHOWN: usize = 16;

/// Prints how a session ended, how many bytes were written, and the last of them.
fn print_count(rt: &impl Print, end: SessionEnd, written: &[u8]) -> Result<()> {
    print!(rt; "  {end:?} {}", written.len())?;
    print_text(rt, &written[written.len().saturating_sub(MOST_SHOWN)..])
}

fn serve_over(
    rt: &(impl Print + AllocGlobal),
    book: Book<MemKeeper>,
    link: MemLink,
) -> Result<SessionEnd>
    requires { book.journal ≡ [] }
{
    let mut link = link;
    let (end, book) = served(rt.alloc(), book, &mut link)?;
    print_count(rt, end, link.written())?;
    print_book(rt, &book)?;
    Ok(end)
}

/// Serves over a new book, and prints what came of it.
fn serve_anew(
    rt: &(impl Print + AllocGlobal),
    policy: &str,
    rows: &str,
    link: MemLink,
) -> Result<SessionEnd> {
    let keeper = read_keeper(rt.alloc(), "-", rows)?;
    match start(rt.alloc(), policy, keeper)? {
        Ok(book) => serve_over(rt, book, link),
        Err(_) => bail!("a book"),
    }
}

pub fn fail_in_turn(rt: &(impl Print + AllocGlobal), policy: &str, words: &str) -> Result<()> {
    let (rows, input) = words.split_once(" | ").context("an input")?;
    for number in 0..MOST_FAULTS {
        let failing = vec![in rt.alloc(); number]?;
        let link = connection(rt.alloc(), read_bytes(rt.alloc(), input)?, 1, failing)?;
        if serve_anew(rt, policy, rows, link)? == SessionEnd::Closed {
            break;
        }
    }
    Ok(())
}
