//! Reads a command line a line, and prints what it asks for, or the place of the first word that is out of place.
//! `tests/words.py` makes the lines, and what has to be printed for them.
//!
//! A line begins with the set of commands, `c` for those that end by themselves and `s` for the server, and each word follows
//! a bar: `c|replay|P|S`.
#![tactic(auto)]

use std::alloc::{AllocError, Global};
use std::io;
use vr_words::{Command, Verbs, parse};

/// The commands that end by themselves.
const COMMANDS: Verbs = Verbs {
    hash: true,
    check: true,
    flows: true,
    replay: true,
    make: true,
    serve: false,
};

/// The server alone.
const SERVER: Verbs = Verbs {
    hash: false,
    check: false,
    flows: false,
    replay: false,
    make: false,
    serve: true,
};

/// The words of a line, those after its first bar.
fn words_of(alloc: Global, line: &str) -> Result<Vec<String>, AllocError> {
    let mut words = Vec::new(alloc);
    for word in line.split('|').skip(1) {
        words.push(String::from_str(alloc, word)?)?;
    }
    Ok(words)
}

fn print_command(rt: &impl Print, command: Command<'_>) -> io::Result<()> {
    match command {
        Command::Hash { policy } => println!(rt; "hash {}:{}", policy.place, policy.text),
        Command::Check { policy } => println!(rt; "check {}:{}", policy.place, policy.text),
        Command::Flows { policy } => println!(rt; "flows {}:{}", policy.place, policy.text),
        Command::Replay {
            fuel,
            policy,
            script,
        } => {
            print!(rt; "replay {fuel} {}:{}", policy.place, policy.text)?;
            println!(rt; " {}:{}", script.place, script.text)
        }
        Command::Make { count } => println!(rt; "make {count}"),
        Command::Serve {
            serving,
            policy,
            keys,
        } => {
            print!(rt; "serve {} {}", serving.fuel, serving.workers)?;
            print!(rt;
                " {} {} '{}'",
                serving.sessions, serving.port, serving.store
            )?;
            print!(rt; " {}:{}", policy.place, policy.text)?;
            println!(rt; " {}:{}", keys.place, keys.text)
        }
    }
}

fn main(rt: HostRuntime) -> io::Result<()> {
    for line in rt.lines(rt.alloc()) {
        let line = line?;
        let verbs = if line.as_str().starts_with('s') {
            SERVER
        } else {
            COMMANDS
        };
        let words = words_of(rt.alloc(), line.as_str())?;
        match parse(words.as_slice(), verbs) {
            Ok(command) => print_command(&rt, command)?,
            Err(place) => println!(rt; "usage {place}")?,
        }
    }
    Ok(())
}
