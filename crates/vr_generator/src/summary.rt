ghost use Rattle.std.specs.Prelude.{◌≡◌, ◌++◌, IfOk, OnOk, string_bytes};
ghost use Rattle.std.specs.List.{flat_map, enumerate_from};
ghost use Rattle.vr_generator.specs.Summary.{number_line, reply_line, summary_text};

use std::alloc::{AllocError, Global};
use std::fmt::Write;
use vr_base::{Bytes, NoMemory};

/// What a replay of what was generated came to.
#[derive(Debug, Drop)]
pub struct Summary {
    /// The number for which it was generated.
    pub made: u32,
    pub calls: u64,
    /// How many replies had each number from 0 to 13.
    pub replies: [u64; 14],
    /// How many files are left, and the sum of their sizes.
    pub files: u64,
    pub bytes: u128,
    /// The SHA-256 of the text of the replay, in hex digits.
    pub hash: [u8; 64],
}

/// Adds a line for each number of a reply.
fn write_replies(text: &mut String, replies: &[u64]) -> Result<(), AllocError>
    ensures { OnOk result (string_bytes text.new
        ≡ string_bytes text.old ++ flat_map reply_line (enumerate_from 0 replies.now)) }
{
    for (number, count) in replies.iter().enumerate() {
        writeln!(text, "reply {number} {count}")?;
    }
    Ok(())
}

/// Adds a line of a word and a number.
fn write_number(text: &mut String, name: &str, number: u128) -> Result<(), AllocError>
    ensures { OnOk result (string_bytes text.new
        ≡ string_bytes text.old ++ number_line name.now number) }
{
    writeln!(text, "{name} {number}")
}

/// The lines of a summary.
pub fn summary_text(alloc: Global, summary: &Summary) -> Result<Bytes, NoMemory>
    ensures { IfOk result (λ text. text ≡ summary_text summary.now) }
{
    let mut text = String::new(alloc);
    write_number(&mut text, "made", u128::from(summary.made))?;
    write_number(&mut text, "calls", u128::from(summary.calls))?;
    write_replies(&mut text, &summary.replies)?;
    write_number(&mut text, "files", u128::from(summary.files))?;
    write_number(&mut text, "bytes", summary.bytes)?;
    text.push_str("hash ")?;
    let mut lines = Bytes::of(text.into_bytes());
    lines.push_slice(&summary.hash)?;
    lines.push_slice(b"\n")?;
    Ok(lines)
}
