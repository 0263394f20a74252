//! Prints the flows of each policy on standard input, one policy a line: for each identity a line
//! with the identities of its reach and the regions. The policies on which it is run say in their
//! member `note`, which nothing reads, why their flows are these. bench/flows.sh times it.
#![tactic(auto)]

use std::alloc::{AllocError, Global};
use std::fmt::Write;
use std::io;
use std::io::{BufRead, BufReader};
use vr_base::NoMemory;
use vr_flow::{Flows, Reach};
use vr_policy_check::{CheckedPolicy, check};
use vr_policy_read::read_policy;
use vr_rights::Regions;

/// Why a line has no flows.
#[derive(Debug, Drop)]
enum Refused {
    Unread,
    Unchecked,
    NoMemory,
}

impl From<NoMemory> for Refused {
    fn from(_refused: NoMemory) -> Refused {
        Refused::NoMemory
    }
}

impl From<AllocError> for Refused {
    fn from(_refused: AllocError) -> Refused {
        Refused::NoMemory
    }
}

fn read_checked(alloc: Global, line: &[u8]) -> Result<CheckedPolicy, Refused> {
    match read_policy(alloc, line) {
        Ok(policy) => check(alloc, policy).map_err(|_| Refused::Unchecked),
        Err(_) => Err(Refused::Unread),
    }
}

/// Adds the line of an identity's reach.
fn add_reach(
    text: &mut String,
    alloc: Global,
    policy: &CheckedPolicy,
    regions: &Regions,
    id: u32,
    reach: &Reach,
) -> Result<(), AllocError> {
    write!(text, "flow {id} identities")?;
    for (place, identity) in policy.policy().identities.as_slice().iter().enumerate() {
        if reach.has_identity(place as u32) {
            let id = identity.id;
            write!(text, " {id}")?;
        }
    }
    text.push_str(" regions")?;
    for region in 0..regions.count() {
        if reach.has_region(region) {
            text.push_str(" ")?;
            for byte in regions.name_of(region).as_slice() {
                text.push(char::from(*byte))?;
            }
        }
    }
    text.push_str("\n")
}

/// The lines of a policy.
fn flows(alloc: Global, line: &[u8]) -> Result<String, Refused> {
    let policy = read_checked(alloc, line)?;
    let regions = Regions::new(alloc, &policy)?;
    let flows = Flows::new(alloc, &policy, &regions)?;
    let mut text = String::new(alloc);
    for (place, identity) in policy.policy().identities.as_slice().iter().enumerate() {
        let reach = flows.reach(alloc, place as u32)?;
        add_reach(&mut text, alloc, &policy, &regions, identity.id, &reach)?;
    }
    Ok(text)
}

fn main(rt: HostRuntime) -> io::Result<()> {
    for line in BufReader::new(rt.alloc(), rt.reader())?.lines(rt.alloc()) {
        match flows(rt.alloc(), line?.as_bytes()) {
            Ok(text) => println!(rt; "{text}")?,
            Err(refused) => println!(rt; "{refused:?}")?,
        }
    }
    Ok(())
}
