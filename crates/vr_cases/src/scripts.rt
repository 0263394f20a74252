//! Scripts, read by themselves.

use crate::texts::push_shown;
use crate::unanswered::Unanswered;
use std::alloc::Global;
use vr_base::Call;
use vr_report::{Line, ScriptFault, read_script};

/// How many bytes of a body are shown, and of a longer one its first and last ones.
const SHOWN: usize = 32;

fn push_digits(told: &mut String, bytes: &[u8]) -> Result<(), Unanswered> {
    for byte in bytes {
        write!(told, "{byte:02x}")?;
    }
    Ok(())
}

fn push_body(told: &mut String, body: &[u8]) -> Result<(), Unanswered> {
    let len = body.len();
    if len <= SHOWN {
        return push_digits(told, body);
    }
    push_digits(told, body.get(..4).unwrap_or(body))?;
    told.push_str("..")?;
    push_digits(told, body.get(len - 4..).unwrap_or(body))?;
    Ok(write!(told, " of {len} bytes")?)
}

fn push_named(told: &mut String, verb: &str, name: &[u8]) -> Result<(), Unanswered> {
    told.push_str(verb)?;
    push_shown(told, name)
}

fn push_change(told: &mut String, verb: &str, name: &[u8], body: &[u8]) -> Result<(), Unanswered> {
    push_named(told, verb, name)?;
    told.push_str(" \"")?;
    push_body(told, body)?;
    told.push_str("\"")?;
    Ok(())
}

fn push_call(told: &mut String, call: &Call) -> Result<(), Unanswered> {
    match call {
        Call::Read { name } => push_named(told, "read ", name.as_slice()),
        Call::Write { name, body } => {
            push_change(told, "write ", name.as_slice(), body.as_slice())
        }
        Call::Append { name, body } => {
            push_change(told, "append ", name.as_slice(), body.as_slice())
        }
        Call::Run { pipeline } => Ok(write!(told, "run {pipeline}")?),
        Call::Hash => Ok(told.push_str("hash")?),
    }
}

fn push_lines(told: &mut String, lines: &[Line]) -> Result<(), Unanswered> {
    for line in lines {
        write!(told, "[{} {} ", line.line, line.who)?;
        push_call(told, &line.call)?;
        told.push_str("]")?;
    }
    Ok(())
}

fn push_fault(told: &mut String, fault: ScriptFault) -> Result<(), Unanswered> {
    match fault {
        ScriptFault::Line(line) => Ok(write!(told, "refused at line {line}")?),
        ScriptFault::OutOfMemory => Ok(told.push_str("out of memory")?),
    }
}

/// `script TEXT`: the calls of a script with their lines and callers, bodies in hex; or the first line outside the form.
pub fn push_script(told: &mut String, alloc: Global, text: &[u8]) -> Result<(), Unanswered> {
    match read_script(alloc, text) {
        Ok(script) => push_lines(told, script.as_slice()),
        Err(fault) => push_fault(told, fault),
    }
}
