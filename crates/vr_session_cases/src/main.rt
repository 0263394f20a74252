//! Answers cases of books and of sessions over their desks, each on a line of standard input. A line `policy TEXT` gives the
//! policy of the cases after it. Another is `KIND NAME | PART | PART ..`, and a dash stands for a part without anything.
//! `books.rt`, `sessions.rt` and `faults.rt` say what the parts are.
#![tactic(auto)]

mod books;
mod faults;
mod links;
mod sessions;
mod shown;
mod world;

use crate::books::run_book;
use crate::faults::fail_in_turn;
use crate::sessions::run_session;
use anyhow::{Context, Result, bail};
use std::io;
use std::sync::Wait;
use std::thread::Threads;

/// Runs a case of this kind.
fn run_case(
    rt: &(impl Print + AllocGlobal + Threads + Wait + Sync),
    kind: &str,
    policy: &str,
    words: &str,
) -> Result<()> {
    match kind {
        "book" => run_book(rt, policy, words),
        "session" => run_session(rt, policy, words),
        "faults" => fail_in_turn(rt, policy, words),
        _ => bail!("no kind of case"),
    }
}

/// Runs the case of a line, which begins with its kind and its name.
fn run_line(
    rt: &(impl Print + AllocGlobal + Threads + Wait + Sync),
    policy: &str,
    line: &str,
) -> Result<()> {
    let (name, words) = line.split_once(" | ").context("a name")?;
    println!(rt; "{name}")?;
    let (kind, _) = name.split_once(' ').context("a kind")?;
    run_case(rt, kind, policy, words)
}

fn main(rt: HostRuntime) -> Result<()> {
    let text = io::read_to_string(rt.alloc(), rt.reader())?;
    let mut policy = "";
    for line in text.lines() {
        if let Some(text) = line.strip_prefix("policy ") {
            policy = text;
        } else {
            run_line(&rt, policy, line).context(format_args!("at {line}"))?;
        }
    }
    Ok(())
}
