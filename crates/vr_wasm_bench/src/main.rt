//! Decodes and validates the module in each file that its words name, and prints what it found. After a word `--fuel=N` it
//! runs each module too, with so much fuel. bench/modules.sh and bench/interpreter.sh time it.
#![tactic(auto)]

mod host;

use crate::host::Rest;
use std::alloc::Global;
use std::{env, fmt, fs};
use vr_wasm_decode::{DecodeFault, decode};
use vr_wasm_run::{End, LinkFault, Machine, link};
use vr_wasm_valid::{Invalid, ValidModule, validate};

/// How many bytes a module may have.
const MOST_BYTES: usize = 16_777_216;

/// How many pages of memory a run may have.
const PAGES: u32 = 1024;

/// Why a module is refused.
#[derive(Drop)]
enum Refused {
    TooLong,
    NoModule(DecodeFault),
    NotValid(Invalid),
    NotLinked(LinkFault),
    OutOfMemory,
}

impl fmt::Display for Refused {
    fn fmt<W: fmt::Write>(&self, f: &mut fmt::Formatter<W>) -> fmt::Result {
        match self {
            Refused::TooLong => write!(f, "too long"),
            Refused::NoModule(fault) => write!(f, "{fault:?}"),
            Refused::NotValid(invalid) => write!(f, "{invalid:?}"),
            Refused::NotLinked(fault) => write!(f, "{fault:?}"),
            Refused::OutOfMemory => write!(f, "out of memory"),
        }
    }
}

fn valid_module(alloc: Global, bytes: &[u8]) -> Result<ValidModule, Refused> {
    if bytes.len() > MOST_BYTES {
        return Err(Refused::TooLong);
    }
    let decoded = decode(alloc, bytes).map_err(Refused::NoModule)?;
    match validate(alloc, decoded) {
        Ok(valid) => Ok(valid),
        Err((invalid, _)) => Err(Refused::NotValid(invalid)),
    }
}

/// How the run of a module ends.
fn run(alloc: Global, module: &ValidModule, fuel: u64) -> Result<End, Refused> {
    let linked = match link(alloc, module, &Rest, PAGES) {
        Ok(linked) => linked,
        Err(fault) => return Err(Refused::NotLinked(fault)),
    };
    match Machine::new(alloc, linked, Rest) {
        Ok(machine) => Ok(machine.run(fuel).0),
        Err(_) => Err(Refused::OutOfMemory),
    }
}

/// Whether the bytes are a valid module, and with fuel how its run ends.
fn tried(alloc: Global, bytes: &[u8], fuel: Option<u64>) -> Result<Option<End>, Refused> {
    let module = valid_module(alloc, bytes)?;
    match fuel {
        Some(fuel) => Ok(Some(run(alloc, &module, fuel)?)),
        None => Ok(None),
    }
}

fn main(rt: HostRuntime) -> anyhow::Result<()> {
    let mut fuel = None;
    for word in env::args(&rt)?.skip(1) {
        if let Some(number) = word.as_str().strip_prefix("--fuel=") {
            fuel = Some(number.parse::<u64>()?);
            continue;
        }
        let bytes = fs::read(&rt, word.as_str())?;
        match tried(rt.alloc(), bytes.as_slice(), fuel) {
            Ok(None) => println!(rt; "{word}: valid")?,
            Ok(Some(end)) => println!(rt; "{word}: {end:?}")?,
            Err(refused) => println!(rt; "{word}: {refused}")?,
        }
    }
    Ok(())
}
