//! The program `vr`: it does what its first word names, a command over files or the server.
#![tactic(auto)]

mod usage;

ghost use Rattle.std.specs.Prelude.{◌≡◌, ◌⊎◌, Err};
ghost use Rattle.vr_cli.specs.declared.status.Status.{Status};

use std::alloc::AllocError;
use std::env;
use std::io::ErrorKind;
use std::process::ExitCode;
use std::sync::Wait;
use std::thread::Threads;
use usage::usage_text;
use vr_base::NoGate;
use vr_cli::{Status, command, serve};
use vr_keeper_sql::SqlKeeper;
use vr_system::{DiskFolder, StdSink, TcpDoor};

/// The words after the program's name. A command line that isn't text is no command's.
fn words(rt: &HostRuntime) -> Result<Vec<String>, Status>
    ensures { (status : Status) → result ≡ Err status →
        (status ≡ Status.Usage 0) ⊎ (status ≡ Status.WantOfMemory) }
{
    let mut words = Vec::new(rt.alloc());
    match env::args(rt) {
        Ok(args) => {
            for word in args.skip(1) {
                if words.push(word).is_err() {
                    return Err(Status::WantOfMemory);
                }
            }
            Ok(words)
        }
        Err(e) => match e.kind() {
            ErrorKind::OutOfMemory => Err(Status::WantOfMemory),
            _ => Err(Status::Usage { index: 0 }),
        },
    }
}

/// Prints the status on standard error, where it says something; and how the program is used, where the words ask for
/// nothing.
fn report(rt: &HostRuntime, status: Status, words: &[String]) -> Result<(), AllocError> {
    let text = status.text(rt.alloc(), words)?;
    if !text.is_empty() {
        let _ = eprintln!(rt; "{text}");
    }
    if let Status::Usage { .. } = status {
        let usage = usage_text(rt.alloc())?;
        let _ = eprint!(rt; "{usage}");
    }
    Ok(())
}

/// Whether the words ask for a server.
fn asks_to_serve(words: &[String]) -> bool {
    match words.first() {
        Some(first) => first.as_str() == "serve",
        None => false,
    }
}

/// Does what the words ask for: the server where the first one is `serve`, and else a command.
fn run<R: Threads + Wait + Sync>(threads: &R, rt: HostRuntime, words: &[String]) -> Status {
    let alloc = rt.alloc();
    let (mut folder, mut out) = (DiskFolder::new(rt), StdSink::new(rt));
    if asks_to_serve(words) {
        let (door, keeper) = (TcpDoor::new(rt), SqlKeeper::new(rt));
        let (status, _, _) = serve(
            threads,
            alloc,
            words,
            &mut folder,
            door,
            keeper,
            NoGate,
            &mut out,
        );
        status
    } else {
        command(alloc, words, &mut folder, &mut out)
    }
}

fn main(rt: HostRuntime) -> ExitCode {
    let (status, words) = match words(&rt) {
        Ok(words) => (run(&rt, rt, words.as_slice()), words),
        Err(status) => (status, Vec::new(rt.alloc())),
    };
    let _ = report(&rt, status, words.as_slice());
    ExitCode::from(status.code())
}
