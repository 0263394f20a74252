ghost use Rattle.std.specs.Prelude.{◌≡◌};
ghost use Rattle.vr_report.specs.Script.{Gives, line_of, most_script, script_of};

use crate::reading::{LineFault, read_call};
use std::alloc::{AllocFailed, Global};
use vr_base::{Call, List};
use vr_text::{cut_line, is_skipped};

/// The most bytes of a script.
pub const MOST_SCRIPT: usize = 67_108_864;

/// A call that a script asks for.
#[derive(Debug, Drop)]
pub struct Line {
    /// The line in the script, counted from 1. Lines that ask for nothing count too.
    pub line: u32,
    /// The identity that calls.
    pub who: u32,
    pub call: Call,
}

/// The calls of a script, in order.
pub type Script = List<Line>;

/// Why a text is no script.
#[derive(Clone, Copy, Debug, PartialEq, Eq)]
pub enum ScriptFault {
    /// The first line that is outside the form, counted from 1, or 0 where the text is too long.
    Line(u32),
    OutOfMemory,
}

impl<T: Drop> From<AllocFailed<T>> for ScriptFault {
    ghost use Rattle.vr_report.specs.declared.script.ScriptFault.TheVariants.{OutOfMemory};
    ghost use Rattle.std.specs.Prelude.{◌≡◌};

    ghost from_gives = { λ _ e. e ≡ OutOfMemory };

    fn from(_refused: AllocFailed<T>) -> ScriptFault {
        ScriptFault::OutOfMemory
    }
}

/// The call of the line of this number, where the line isn't passed over.
fn read_line(alloc: Global, number: u32, text: &[u8]) -> Result<Option<Line>, ScriptFault>
    ensures { Gives result (line_of number text.now) }
{
    if is_skipped(text) {
        return Ok(None);
    }
    match read_call(alloc, text) {
        Ok((who, call)) => Ok(Some(Line {
            line: number,
            who,
            call,
        })),
        Err(LineFault::Form) => Err(ScriptFault::Line(number)),
        Err(LineFault::OutOfMemory) => Err(ScriptFault::OutOfMemory),
    }
}

/// The calls of a script. It has at most 67,108,864 bytes. Each of its lines ends with an LF, which the last may lack, and
/// a CR before the LF is dropped. Empty lines and lines that begin with `#` are passed over. Another line is words with
/// one space between each two:
///
/// - `ID read NAME`, `ID write NAME CONTENT`, `ID append NAME CONTENT`, `ID run PIPELINE` and `ID hash`;
/// - a content is `empty`, or `text` and all that is left of the line after a space, or `hex` and an even number of hex
///   digits, two at least, or `fill` with a byte in two hex digits and how often it comes, at most 16,777,217 times.
///
/// An identity and a pipeline are 0 to 4,294,967,295, in decimal digits without a leading zero. A name is one byte or more, whether it
/// stands for a path or not, and is kept as it is.
///
/// The fault is that of the first line in another form.
pub fn read_script(alloc: Global, bytes: &[u8]) -> Result<Script, ScriptFault>
    ensures { Gives result (script_of most_script bytes.now) }
{
    if bytes.len() > MOST_SCRIPT {
        return Err(ScriptFault::Line(0));
    }
    let mut calls = Vec::new(alloc);
    let mut number = 1;
    let mut left = bytes;
    while !left.is_empty() {
        let (text, rest) = cut_line(left);
        if let Some(line) = read_line(alloc, number, text)? {
            calls.push(line)?;
        }
        number += 1;
        left = rest;
    }
    Ok(List::of(calls))
}
