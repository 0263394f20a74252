ghost use Rattle.std.specs.Prelude.{◌≡◌, ◌++◌, IfOk};
ghost use Rattle.vr_text.specs.Refusals.{fault_text, refusal_text, why_text};

use crate::writer::Writer;
use vr_base::{NoMemory, PathFault, Reply, Why};

/// Adds why a program is none.
#[tactic(auto, using(std::proofs::Common::append_assoc))]
fn write_why(text: Writer, why: &Why) -> Result<Writer, NoMemory>
    ensures { IfOk result (λ written. written ≡ text ++ why_text why.now) }
{
    match why {
        Why::Decode { kind, at } => text
            .bytes(b" decode")?
            .number(*kind)?
            .bytes(b" at")?
            .number(*at),
        Why::Invalid { part, index } => text.bytes(b" invalid")?.number(*part)?.number(*index),
        Why::Link { kind, index } => text.bytes(b" link")?.number(*kind)?.number(*index),
    }
}

/// Adds the number of a name's fault, and the offset of a bad byte.
#[tactic(auto, using(std::proofs::Common::append_assoc))]
fn write_fault(text: Writer, fault: PathFault) -> Result<Writer, NoMemory>
    ensures { IfOk result (λ written. written ≡ text ++ fault_text fault) }
{
    match fault {
        PathFault::EmptySegment => text.bytes(b"1"),
        PathFault::BadByte(at) => text.bytes(b"2 at")?.number(at),
        PathFault::DotSegment => text.bytes(b"3"),
        PathFault::TooLong => text.bytes(b"4"),
        PathFault::OutOfMemory => text.bytes(b"5"),
    }
}

/// Adds what a refusal says, and nothing where the call was done.
#[tactic(auto, using(std::proofs::Common::append_assoc, crate::proofs::NoText::nothing_more))]
pub fn write_refusal(text: Writer, reply: &Reply) -> Result<Writer, NoMemory>
    ensures { IfOk result (λ written. written ≡ text ++ refusal_text reply.now) }
{
    match reply {
        Reply::Stored | Reply::Read { .. } | Reply::Ended { .. } | Reply::PolicyHash { .. } => {
            Ok(text)
        }
        Reply::NoSuchFile { path } => text.about(b"no such file", path),
        Reply::Denied { path, right } => text.about(b"denied", path)?.word(right.name().as_bytes()),
        Reply::NoSuchPipeline { id } => text.bytes(b"no such pipeline")?.number(*id),
        Reply::PinMissing { path } => text.about(b"pin missing", path),
        Reply::PinMismatch { path, found } => text.about(b"pin mismatch", path)?.word(found),
        Reply::TooLarge { size } => text.bytes(b"too large")?.number(*size),
        Reply::BadProgram { path, why } => write_why(text.about(b"bad program", path)?, why),
        Reply::Trapped { path, kind } => text.about(b"trapped", path)?.number(*kind),
        Reply::OutOfFuel { path } => text.about(b"out of fuel", path),
        Reply::BadPath { fault } => write_fault(text.bytes(b"bad path ")?, *fault),
        Reply::Unavailable => text.bytes(b"unavailable"),
        Reply::OutOfMemory => text.bytes(b"out of memory"),
        Reply::Unkeyed => text.bytes(b"unkeyed"),
        Reply::QuotaReached { name, size } => text
            .bytes(b"quota")?
            .word(name.as_slice())?
            .number(*size),
    }
}
