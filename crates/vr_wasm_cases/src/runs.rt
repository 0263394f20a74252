//! How runs end.

ghost use Rattle.std.specs.Prelude.{◌≤◌};

use crate::host::Notes;
use crate::modules::valid_module;
use anyhow::Result;
use std::alloc::{AllocError, Global};
use vr_wasm_run::{End, LinkFault, Machine, link};
use vr_wasm_valid::ValidModule;

/// How many pages of memory a run may have at most.
const MOST_PAGES: u32 = 1024;

fn told_end(alloc: Global, end: End) -> Result<String, AllocError> {
    match end {
        End::Ended { code, used } => format!(in alloc; "ended {code} {used}"),
        End::Trapped { kind, used } => format!(in alloc; "trapped {kind} {used}"),
        End::OutOfFuel => String::from_str(alloc, "out of fuel"),
        End::HostStopped => String::from_str(alloc, "stopped"),
    }
}

fn told_fault(alloc: Global, fault: LinkFault) -> Result<String, AllocError> {
    let kind = fault.kind.number();
    let index = fault.index;
    format!(in alloc; "link {kind} {index}")
}

/// How the run of a valid module ends, and what was noted last, if anything was.
fn told_run(
    alloc: Global,
    module: &ValidModule,
    pages: u32,
    fuel: u64,
) -> Result<String, AllocError>
    requires { pages ≤ 1024 }
{
    let host = Notes { noted: 0, stops: 0 };
    let linked = match link(alloc, module, &host, pages) {
        Ok(linked) => linked,
        Err(fault) => return told_fault(alloc, fault),
    };
    let Ok(machine) = Machine::new(alloc, linked, host) else {
        return String::from_str(alloc, "out of memory");
    };
    let (end, host) = machine.run(fuel);
    let told = told_end(alloc, end)?;
    match host.noted {
        0 => Ok(told),
        noted => format!(in alloc; "{told} noted {noted}"),
    }
}

/// `run FUEL PAGES BYTES`: how a run with so much fuel and so many pages at most ends: `ended CODE STEPS`, `trapped KIND
/// STEPS`, `out of fuel` or `stopped`, and what was noted last; or `link KIND INDEX`, why the module isn't linked.
pub fn told_module(alloc: Global, bytes: &[u8], pages: u32, fuel: u64) -> Result<String> {
    if pages > MOST_PAGES {
        return Ok(String::from_str(alloc, "too many pages")?);
    }
    match valid_module(alloc, bytes) {
        Ok(valid) => Ok(told_run(alloc, &valid, pages, fuel)?),
        Err(refused) => Ok(format!(in alloc; "{refused}")?),
    }
}
