//! Runs of modules over a world.

ghost use Rattle.std.specs.Prelude.{◌≤◌};

use crate::modules::valid_module;
use crate::unanswered::Unanswered;
use crate::words::{bytes, counted, two};
use crate::worlds::{push_world, read_case};
use std::alloc::Global;
use vr_wasi_fs::World;
use vr_wasm_run::{End, Machine, link};
use vr_wasm_steps::Host;
use vr_wasm_valid::ValidModule;

/// How many pages of memory a run has at most.
const PAGES: u32 = 16;

/// How a run of a valid module over a host ends, and the host after it.
fn run<H: Host + Drop>(
    alloc: Global,
    module: &ValidModule,
    host: H,
    fuel: u64,
) -> Result<(End, H), Unanswered> {
    let linked = link(alloc, module, &host, PAGES).or(Err(Unanswered::Form))?;
    match Machine::new(alloc, linked, host) {
        Ok(machine) => Ok(machine.run(fuel)),
        Err(_) => Err(Unanswered::NoMemory),
    }
}

fn push_end(told: &mut String, end: End) -> Result<(), Unanswered> {
    match end {
        End::Ended { code, used } => Ok(write!(told, "ended {code} used {used}\n")?),
        End::Trapped { kind, used } => Ok(write!(told, "trapped {kind} used {used}\n")?),
        End::OutOfFuel => Ok(told.push_str("out of fuel\n")?),
        End::HostStopped => Err(Unanswered::NoMemory),
    }
}

/// Adds how a run of a module over a world ends, and what it leaves.
fn push_ended(
    told: &mut String,
    alloc: Global,
    module: &ValidModule,
    world: World,
    fuel: u64,
) -> Result<(), Unanswered> {
    let (end, world) = run(alloc, module, world, fuel)?;
    push_end(told, end)?;
    push_world(told, alloc, world)
}

fn read_module(alloc: Global, word: &str) -> Result<ValidModule, Unanswered> {
    let bytes = bytes(alloc, word)?;
    valid_module(alloc, &bytes)
}

fn read_world(alloc: Global, parts: &str) -> Result<World, Unanswered> {
    Ok(read_case(alloc, parts)?.world)
}

/// Adds what comes of a module over the world of these parts.
fn push_run_over(
    told: &mut String,
    alloc: Global,
    module: &ValidModule,
    parts: &str,
    fuel: u64,
) -> Result<(), Unanswered> {
    let world = read_world(alloc, parts)?;
    push_ended(told, alloc, module, world, fuel)
}

/// `FUEL MODULE PATH; PART..`: how a run of the module, in hex, ends over this world, and what it leaves.
pub fn push_run(told: &mut String, alloc: Global, words: &str) -> Result<(), Unanswered> {
    let (fuel, words) = counted(words)?;
    let (module, parts) = two(words)?;
    let module = read_module(alloc, module)?;
    push_run_over(told, alloc, &module, parts, fuel)
}
