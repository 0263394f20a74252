//! Cases of letters: over the first connection `a` is written to a file, over the second one `b`, and so on, and then the
//! file is read. What is read depends on who comes first, and the journal tells it: after the one write of the letter, the
//! next entry of the same seat is the read. It is printed how many entries there are, from how many seats, and for each
//! connection what was written on it before what its seat read. The text of the server is printed without the files in
//! which it ends.

use crate::links::{find_link, read_bytes};
use crate::servers::Served;
use crate::shown::{print_end, print_text};
use anyhow::{Context, Result, bail};
use vr_base::{Bytes, Call, Entry, Reply};
use vr_cli::Kept;
use vr_core::Book;
use vr_keeper::NeverFails;
use vr_report::file_text;

/// How many workers a server has at most.
const MOST_WORKERS: u32 = 16;

/// Prints bytes without those with which they end, which have to be these.
fn print_before(rt: &impl Print, bytes: &[u8], end: &[u8]) -> Result<()> {
    match bytes.strip_suffix(end) {
        Some(before) => print_text(rt, before),
        None => Ok(println!(rt; "  another end")?),
    }
}

fn writes(entry: &Entry, letter: &[u8]) -> bool {
    match &entry.call {
        Call::Write { name: _, body } => body.as_slice() == letter,
        _ => false,
    }
}

/// The only write of a letter, and the entries after it.
fn only_write<'a>(journal: &'a [Entry], letter: &[u8]) -> Option<(&'a Entry, &'a [Entry])> {
    let place = journal.iter().position(|entry| writes(entry, letter))?;
    let (entry, later) = journal[place..].split_first()?;
    if later.iter().any(|entry| writes(entry, letter)) {
        return None;
    }
    Some((entry, later))
}

/// What the next call from the seat that wrote a letter read.
fn read_after<'a>(journal: &'a [Entry], letter: &[u8]) -> Option<&'a Bytes> {
    let (write, later) = only_write(journal, letter)?;
    let next = later.iter().find(|entry| entry.seat == write.seat)?;
    match &next.reply {
        Reply::Read { body } => Some(body),
        _ => None,
    }
}

/// From how many seats there are entries.
fn count_seats(journal: &[Entry]) -> usize {
    let seats = 0..=MOST_WORKERS;
    seats
        .filter(|seat| journal.iter().any(|entry| entry.seat == *seat))
        .count()
}

fn print_letter(
    rt: &(impl Print + AllocGlobal),
    served: &Served,
    journal: &[Entry],
    letter: u8,
    input: &str,
) -> Result<()> {
    let input = read_bytes(rt.alloc(), input)?;
    let link = find_link(rt.alloc(), served.listener.ended(), &input)?;
    match (link, read_after(journal, &[letter])) {
        (Some(link), Some(body)) => print_before(rt, link.written(), body.as_slice()),
        (None, _) => Ok(println!(rt; "  not back")?),
        (_, None) => Ok(println!(rt; "  not read")?),
    }
}

fn print_book(
    rt: &(impl Print + AllocGlobal),
    inputs: &str,
    served: &Served,
    book: &Book<NeverFails>,
) -> Result<()> {
    let files = file_text(rt.alloc(), book.files()).ok().context("memory")?;
    print_before(rt, served.text.written(), files.as_slice())?;
    let journal = book.journal();
    println!(rt;
        "  {} entries from {} seats",
        journal.len(),
        count_seats(journal)
    )?;
    for (letter, input) in (b'a'..=b'z').zip(inputs.split(' ')) {
        print_letter(rt, served, journal, letter, input)?;
    }
    Ok(())
}

pub fn print_letters(rt: &(impl Print + AllocGlobal), inputs: &str, served: &Served) -> Result<()> {
    print_end(rt, served)?;
    match &served.kept {
        Kept::Book(book) => print_book(rt, inputs, served, book),
        Kept::Store(_) => bail!("a book"),
    }
}
