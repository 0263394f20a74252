//! What cases print.

use anyhow::{Context, Result};
use vr_base::{Entry, Reply};
use vr_core::{Book, StartFault};
use vr_files::Files;
use vr_keeper::MemKeeper;
use vr_report::{file_text, reply_text};

/// Prints bytes as a text in quotes, or that they are none.
pub fn print_text(rt: &impl Print, bytes: &[u8]) -> Result<()> {
    match str::from_utf8(bytes) {
        Ok(text) => println!(rt; "  {text:?}")?,
        Err(_) => println!(rt; "  no text")?,
    }
    Ok(())
}

pub fn print_reply(rt: &(impl Print + AllocGlobal), reply: &Reply) -> Result<()> {
    let text = reply_text(rt.alloc(), reply).ok().context("memory")?;
    println!(rt;
        "  {}",
        str::from_utf8(text.as_slice()).ok().context("a text")?
    )?;
    Ok(())
}

/// A line for each file.
pub fn print_files(rt: &(impl Print + AllocGlobal), files: &Files) -> Result<()> {
    let text = file_text(rt.alloc(), files).ok().context("memory")?;
    let text = str::from_utf8(text.as_slice()).ok().context("a text")?;
    for line in text.lines() {
        println!(rt; "  {line}")?;
    }
    Ok(())
}

/// A line for each entry: its seat, its identity and the number of its reply.
fn print_journal(rt: &impl Print, journal: &[Entry]) -> Result<()> {
    for entry in journal {
        println!(rt;
            "  seat {} of {}: {}",
            entry.seat,
            entry.who,
            entry.reply.number()
        )?;
    }
    Ok(())
}

/// The entries of a book, and its files.
pub fn print_book(rt: &(impl Print + AllocGlobal), book: &Book<MemKeeper>) -> Result<()> {
    print_journal(rt, book.journal())?;
    print_files(rt, book.files())
}

pub fn print_fault(rt: &impl Print, fault: StartFault) -> Result<()> {
    println!(rt; "  {fault:?}")?;
    Ok(())
}
