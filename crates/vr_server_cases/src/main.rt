//! Answers cases of servers over connections in memory, each on a line of standard input. A line `policy TEXT` gives the
//! policy of the cases after it. Another is `KIND NAME | CALLS TURNS | FAILING | WORDS | INPUT INPUT ..`:
//! - each of the first `CALLS` calls is held up until so many are there, for at most `TURNS` turns of yielding,
//! - the listener's calls fail that have the numbers `FAILING`, of which 0 is to listen, and a dash stands for none,
//! - the words are those of a command line, of which `policy` and `keys` name the two files,
//! - there is a connection with each of these inputs.
//!
//! It is told the exit status, whether the calls were there in time, how many connections came back, and what `texts.rt`
//! or `letters.rt` says.
#![tactic(auto)]

mod gate;
mod letters;
mod links;
mod servers;
mod shown;
mod texts;

use crate::letters::print_letters;
use crate::servers::{Served, serve_case};
use crate::texts::print_texts;
use anyhow::{Context, Result, bail};
use std::io;
use std::sync::Wait;
use std::thread::Threads;

/// Prints what a server came to, as a case of this kind tells it.
fn print_served(
    rt: &(impl Print + AllocGlobal),
    kind: &str,
    inputs: &str,
    served: &Served,
) -> Result<()> {
    match kind {
        "texts" => print_texts(rt, inputs, served),
        "letters" => print_letters(rt, inputs, served),
        _ => bail!("no kind of case"),
    }
}

/// Runs the case of a line, which begins with its kind and its name.
fn run_line(
    rt: &(impl Print + AllocGlobal + Threads + Wait + Sync),
    policy: &str,
    line: &str,
) -> Result<()> {
    let mut parts = line.split(" | ");
    let name = parts.next().context("a name")?;
    let calls = parts.next().context("calls")?;
    let failing = parts.next().context("numbers")?;
    let words = parts.next().context("words")?;
    let inputs = parts.next().context("inputs")?;
    let (kind, _) = name.split_once(' ').context("a kind")?;
    println!(rt; "{name}")?;
    let served = serve_case(rt, policy, calls, failing, words, inputs)?;
    print_served(rt, kind, inputs, &served)
}

fn main(rt: HostRuntime) -> Result<()> {
    let text = io::read_to_string(rt.alloc(), rt.reader())?;
    let mut policy = "";
    for line in text.lines() {
        if let Some(text) = line.strip_prefix("policy ") {
            policy = text;
        } else {
            run_line(&rt, policy, line).context(format_args!("at {line}"))?;
        }
    }
    Ok(())
}
