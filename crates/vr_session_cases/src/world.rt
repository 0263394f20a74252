//! What cases give: bytes, numbers, rows of a store, policies, and books over them.
ghost use Rattle.std.specs.Prelude.{◌≡◌, [], IfOk};

use anyhow::{Context, Result};
use std::alloc::Global;
use vr_base::Bytes;
use vr_core::{Book, StartFault};
use vr_keeper::{MemKeeper, Rows};
use vr_policy_check::{CheckedPolicy, check};
use vr_policy_read::{policy_hash, read_policy};

/// How many steps the programs of a run may make together.
const FUEL: u64 = 1_000;

/// Adds what a token stands for: hex digits, or hex digits of which so many copies are meant.
fn add_token(alloc: Global, bytes: &mut Vec<u8>, token: &str) -> Result<()> {
    let (digits, count) = match token.split_once('*') {
        Some((digits, count)) => (digits, count.parse::<u32>()?),
        None => (token, 1),
    };
    let piece = hex::decode(alloc, digits).ok().context("hex digits")?;
    for _ in 0..count {
        bytes.extend_from_slice(piece.as_slice())?;
    }
    Ok(())
}

/// The bytes that tokens stand for, which commas part.
pub fn read_bytes(alloc: Global, tokens: &str) -> Result<Bytes> {
    let mut bytes = Vec::new(alloc);
    if tokens != "-" {
        for token in tokens.split(',') {
            add_token(alloc, &mut bytes, token)?;
        }
    }
    Ok(Bytes::of(bytes))
}

/// Numbers, which commas part.
pub fn read_numbers(alloc: Global, text: &str) -> Result<Vec<u64>> {
    let mut numbers = Vec::new(alloc);
    if text != "-" {
        for number in text.split(',') {
            numbers.push(number.parse::<u64>()?)?;
        }
    }
    Ok(numbers)
}

fn read_row(alloc: Global, word: &str) -> Result<(Bytes, Bytes)> {
    let (name, tokens) = word.split_once('=').context("a row")?;
    let name = Bytes::from_slice(alloc, name.as_bytes()).ok();
    Ok((name.context("memory")?, read_bytes(alloc, tokens)?))
}

/// Rows `NAME=BYTES`, which spaces part.
fn read_rows(alloc: Global, text: &str) -> Result<Rows> {
    let mut rows = Vec::new(alloc);
    if text != "-" {
        for word in text.split(' ') {
            rows.push(read_row(alloc, word)?)?;
        }
    }
    Ok(Rows::of(rows))
}

/// A keeper of rows, of which the calls fail that have these numbers.
pub fn read_keeper(alloc: Global, failing: &str, rows: &str) -> Result<MemKeeper> {
    let rows = read_rows(alloc, rows)?;
    Ok(MemKeeper::new(rows, read_numbers(alloc, failing)?))
}

fn checked(alloc: Global, text: &str) -> Result<CheckedPolicy> {
    let policy = read_policy(alloc, text.as_bytes()).ok();
    let policy = policy.context("a policy")?;
    check(alloc, policy).ok().context("the rules")
}

/// What a start of a book comes to.
pub type Started = std::result::Result<Book<MemKeeper>, (StartFault, MemKeeper)>;

/// Starts a book under the policy of this text.
pub fn start(alloc: Global, text: &str, keeper: MemKeeper) -> Result<Started>
    ensures { IfOk result (λ started. IfOk started (λ book. book.journal ≡ [])) }
{
    let policy = checked(alloc, text)?;
    let hash = policy_hash(text.as_bytes());
    Ok(Book::start(alloc, policy, hash, keeper, b"", FUEL))
}
