//! Prints the size and the SHA-256 of the policy and of the script of each number that its words name.
//! `tests/generator.py N sums` prints the same, written apart from the program.
#![tactic(auto)]

use sha2::{Digest, Sha256};
use std::{env, io};
use vr_generator::generate;

fn print_sums(rt: &(impl Print + AllocGlobal), n: u32) -> io::Result<()> {
    if n > 1000 {
        return println!(rt; "{n} is too great");
    }
    match generate(rt.alloc(), n) {
        Ok((policy, script)) => {
            print_sum(rt, n, "policy", policy.as_slice())?;
            print_sum(rt, n, "script", script.as_slice())
        }
        Err(_) => println!(rt; "{n}: out of memory"),
    }
}

fn print_sum(rt: &impl Print, n: u32, name: &str, text: &[u8]) -> io::Result<()> {
    let size = text.len();
    print!(rt; "{n} {name} {size} ")?;
    for byte in Sha256::digest(text) {
        print!(rt; "{byte:02x}")?;
    }
    println!(rt;)
}

fn main(rt: HostRuntime) -> io::Result<()> {
    for word in env::args(&rt)?.skip(1) {
        if let Ok(n) = word.as_str().parse::<u32>() {
            print_sums(&rt, n)?;
        }
    }
    Ok(())
}
