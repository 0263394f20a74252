//! The usage text: the commands of the program, and what each of them takes.

use clap::{Arg, ArgAction, Command};
use std::alloc::{AllocError, Global};

/// A word that has to be there.
fn operand<'a>(alloc: Global, name: &'a str, help: &'a str) -> Arg<'a> {
    Arg::new(alloc, name).required(true).help(help)
}

/// An option with a value.
fn option<'a>(alloc: Global, name: &'a str, value: &'a str, help: &'a str) -> Arg<'a> {
    Arg::new(alloc, name)
        .long(name)
        .value_name(value)
        .action(ArgAction::Set)
        .help(help)
}

fn policy<'a>(alloc: Global) -> Arg<'a> {
    operand(alloc, "POLICY", "The file of a policy")
}

fn fuel<'a>(alloc: Global) -> Arg<'a> {
    let help = "Steps that all programs of a run may make together, from 0 to 1000000000000";
    option(alloc, "fuel", "STEPS", help).default_value("50000000")
}

/// A command, which has no flag for help.
fn command<'a>(alloc: Global, name: &'a str, line: &str) -> Result<Command<'a>, AllocError> {
    Command::new(alloc, name)
        .disable_help_flag(true)
        .bin_name(line)
}

fn hash<'a>(alloc: Global) -> Result<Command<'a>, AllocError> {
    command(alloc, "hash", "vr hash")?.arg(policy(alloc))
}

fn check<'a>(alloc: Global) -> Result<Command<'a>, AllocError> {
    command(alloc, "check", "vr check")?.arg(policy(alloc))
}

fn flows<'a>(alloc: Global) -> Result<Command<'a>, AllocError> {
    command(alloc, "flows", "vr flows")?.arg(policy(alloc))
}

fn replay<'a>(alloc: Global) -> Result<Command<'a>, AllocError> {
    command(alloc, "replay", "vr replay")?
        .arg(fuel(alloc))?
        .arg(policy(alloc))?
        .arg(operand(alloc, "SCRIPT", "The file of a script"))
}

fn make<'a>(alloc: Global) -> Result<Command<'a>, AllocError> {
    command(alloc, "make", "vr make")?.arg(operand(alloc, "N", "Hundreds of calls, from 1 to 1000"))
}

fn workers<'a>(alloc: Global) -> Arg<'a> {
    let help = "How many workers serve at once, from 1 to 16";
    option(alloc, "workers", "W", help).default_value("4")
}

fn sessions<'a>(alloc: Global) -> Arg<'a> {
    let help = "Connections that are served, from 1 to 1000000000";
    option(alloc, "sessions", "S", help).default_value("1000000000")
}

fn port<'a>(alloc: Global) -> Arg<'a> {
    option(alloc, "port", "PORT", "The port, from 0 to 65535").default_value("8080")
}

fn store<'a>(alloc: Global) -> Arg<'a> {
    let help = "The file that keeps files; without it memory does";
    option(alloc, "store", "FILE", help)
}

fn serve<'a>(alloc: Global) -> Result<Command<'a>, AllocError> {
    command(alloc, "serve", "vr serve")?
        .arg(fuel(alloc))?
        .arg(workers(alloc))?
        .arg(sessions(alloc))?
        .arg(port(alloc))?
        .arg(store(alloc))?
        .arg(policy(alloc))?
        .arg(operand(alloc, "KEYS", "The file of the identities' keys"))
}

/// Adds a command to the program, with what it does.
fn with<'a>(
    program: Command<'a>,
    command: Command<'a>,
    about: &'a str,
) -> Result<Command<'a>, AllocError> {
    program.subcommand(command.about(about))
}

/// The program with its commands.
fn program<'a>(alloc: Global) -> Result<Command<'a>, AllocError> {
    let program = command(alloc, "vr", "vr")?
        .disable_help_subcommand(true)
        .subcommand_required(true);
    let program = with(program, hash(alloc)?, "Prints the SHA-256 of a policy")?;
    let program = with(program, check(alloc)?, "Checks a policy by every rule")?;
    let program = with(program, flows(alloc)?, "Prints who learns what from whom")?;
    let program = with(program, replay(alloc)?, "Makes the calls of a script")?;
    let program = with(program, make(alloc)?, "Replays a script made by a rule")?;
    with(program, serve(alloc)?, "Serves calls over HTTP")
}

/// Adds what a command takes.
fn add_help(text: &mut String, command: Command<'_>) -> Result<(), AllocError> {
    let mut command = command;
    text.push_str("\n")?;
    text.push_str(command.render_help()?.as_str())
}

/// The text: the commands, and then what each of them takes.
pub fn usage_text(alloc: Global) -> Result<String, AllocError> {
    let mut text = program(alloc)?.render_help()?;
    add_help(&mut text, hash(alloc)?)?;
    add_help(&mut text, check(alloc)?)?;
    add_help(&mut text, flows(alloc)?)?;
    add_help(&mut text, replay(alloc)?)?;
    add_help(&mut text, make(alloc)?)?;
    add_help(&mut text, serve(alloc)?)?;
    Ok(text)
}
