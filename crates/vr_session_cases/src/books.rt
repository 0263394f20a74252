//! Cases of books: `FAILING | ROWS | CALLS`. The keeper has the rows, and its calls fail that have the numbers `FAILING`, of
//! which 0 is the load. The calls are lines of a script, and a semicolon stands after each but the last. A line tells the
//! reply to each. Then come the entries and the files of the book, and the files that are loaded from its keeper anew.

use crate::shown::{print_book, print_fault, print_files, print_reply};
use crate::world::{read_keeper, start};
use anyhow::{Context, Result};
use vr_core::{Book, StartFault};
use vr_keeper::MemKeeper;
use vr_report::{Line, read_script};

fn make_call(
    rt: &(impl Print + AllocGlobal),
    book: &mut Book<MemKeeper>,
    line: &str,
) -> Result<()> {
    let script = read_script(rt.alloc(), line.as_bytes()).ok();
    for Line { who, call, .. } in script.context("a call")?.into_vec() {
        let reply = book.step(0, who, call);
        print_reply(rt, &reply)?;
    }
    Ok(())
}

fn make_calls(
    rt: &(impl Print + AllocGlobal),
    book: &mut Book<MemKeeper>,
    calls: &str,
) -> Result<()> {
    if calls != "-" {
        for line in calls.split("; ") {
            make_call(rt, book, line)?;
        }
    }
    Ok(())
}

/// Prints the files that are loaded from a keeper, or why none are.
fn print_stored(rt: &(impl Print + AllocGlobal), policy: &str, keeper: MemKeeper) -> Result<()> {
    println!(rt; "  stored")?;
    match start(rt.alloc(), policy, keeper)? {
        Ok(book) => print_files(rt, book.files()),
        Err((fault, _)) => print_fault(rt, fault),
    }
}

/// Ends a book. Prints its entries and its files, and the files that are loaded from its keeper anew.
pub fn print_ended(
    rt: &(impl Print + AllocGlobal),
    policy: &str,
    book: Book<MemKeeper>,
) -> Result<()> {
    print_book(rt, &book)?;
    print_stored(rt, policy, book.finish())
}

fn run_calls(
    rt: &(impl Print + AllocGlobal),
    policy: &str,
    book: Book<MemKeeper>,
    calls: &str,
) -> Result<()> {
    let mut book = book;
    make_calls(rt, &mut book, calls)?;
    print_ended(rt, policy, book)
}

fn print_unstarted(
    rt: &(impl Print + AllocGlobal),
    policy: &str,
    refusal: (StartFault, MemKeeper),
) -> Result<()> {
    let (fault, keeper) = refusal;
    print_fault(rt, fault)?;
    print_stored(rt, policy, keeper)
}

pub fn run_book(rt: &(impl Print + AllocGlobal), policy: &str, words: &str) -> Result<()> {
    let mut parts = words.split(" | ");
    let failing = parts.next().context("numbers")?;
    let rows = parts.next().context("rows")?;
    let calls = parts.next().context("calls")?;
    let keeper = read_keeper(rt.alloc(), failing, rows)?;
    match start(rt.alloc(), policy, keeper)? {
        Ok(book) => run_calls(rt, policy, book, calls),
        Err(refusal) => print_unstarted(rt, policy, refusal),
    }
}
