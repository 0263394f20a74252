ghost use Rattle.std.specs.Prelude.{◌≡◌, [], IfOk};
ghost use Rattle.vr_cli.specs.Gathering.{HandsIn, Writes};
ghost use Rattle.vr_base.specs.Causes.{HasCauseOf};

use std::alloc::Global;
use vr_base::{Bytes, Failed, NoMemory, Sink, write_all};

/// How many bytes of a text are gathered before the sink sees them, so that it sees large pieces and not each line.
const PIECE: usize = 65_536;

/// Why a text was not written whole.
#[derive(Clone, Copy, Debug, PartialEq, Eq)]
pub enum TextFault {
    /// A write failed.
    Failed,
    OutOfMemory,
}

impl From<Failed> for TextFault {
    ghost use Rattle.std.specs.Prelude.{◌≡◌};
    ghost use Rattle.vr_cli.specs.declared.gathering.TextFault.TheVariants as faults;

    ghost from_gives = { λ _ fault. fault ≡ faults.Failed };

    fn from(_failed: Failed) -> TextFault {
        TextFault::Failed
    }
}

impl From<NoMemory> for TextFault {
    ghost use Rattle.std.specs.Prelude.{◌≡◌};
    ghost use Rattle.vr_cli.specs.declared.gathering.TextFault.TheVariants as faults;

    ghost from_gives = { λ _ fault. fault ≡ faults.OutOfMemory };

    fn from(_refused: NoMemory) -> TextFault {
        TextFault::OutOfMemory
    }
}

/// No text yet, and room for a piece of it.
pub fn gather(alloc: Global) -> Result<Bytes, NoMemory>
    ensures { IfOk result (λ text. text ≡ []) }
{
    Ok(Bytes::of(Vec::with_capacity(alloc, PIECE)?))
}

fn emptied(text: Bytes) -> Bytes
    ensures { result ≡ [] }
{
    let mut bytes = text.into_vec();
    bytes.clear();
    Bytes::of(bytes)
}

/// Writes the text where it is a piece. The answer is what is left to be written.
pub fn pass_on<O: Sink>(text: Bytes, out: &mut O) -> Result<Bytes, TextFault>
    ensures text { HandsIn result (O.written out.old) (O.written out.new) text [] }
    ensures cause { HasCauseOf TextFault.Failed (O.faults out.old) (O.faults out.new) result }
{
    if text.as_slice().len() < PIECE {
        return Ok(text);
    }
    write_all(out, text.as_slice())?;
    Ok(emptied(text))
}

/// Writes the whole text.
pub fn finish<O: Sink>(text: Bytes, out: &mut O) -> Result<(), TextFault>
    ensures text { Writes result (O.written out.old) (O.written out.new) text }
    ensures cause { HasCauseOf TextFault.Failed (O.faults out.old) (O.faults out.new) result }
{
    write_all(out, text.as_slice())?;
    Ok(())
}
