//! What bytes decode to, and whether that is valid.

use anyhow::Result;
use std::alloc::Global;
use std::fmt;
use vr_wasm_decode::{DecodeFault, DecodeKind, decode};
use vr_wasm_valid::{Invalid, ValidModule, validate};

/// How many bytes a module may have.
const MOST_BYTES: usize = 16_777_216;

/// Why bytes are no valid module.
#[derive(Clone, Copy, PartialEq, Eq)]
pub enum Refused {
    TooLong,
    NoModule(DecodeFault),
    NotValid(Invalid),
}

impl fmt::Display for Refused {
    fn fmt<W: fmt::Write>(&self, f: &mut fmt::Formatter<W>) -> fmt::Result {
        match self {
            Refused::TooLong => write!(f, "too long"),
            Refused::NoModule(fault) => write!(f, "{:?} at {}", fault.kind, fault.at),
            Refused::NotValid(Invalid::Part { part, index }) => write!(f, "part {part} at {index}"),
            Refused::NotValid(Invalid::OutOfMemory) => write!(f, "out of memory"),
        }
    }
}

/// The valid module of these bytes.
pub fn valid_module(alloc: Global, bytes: &[u8]) -> Result<ValidModule, Refused> {
    if bytes.len() > MOST_BYTES {
        return Err(Refused::TooLong);
    }
    let module = decode(alloc, bytes).map_err(Refused::NoModule)?;
    match validate(alloc, module) {
        Ok(valid) => Ok(valid),
        Err((invalid, _)) => Err(Refused::NotValid(invalid)),
    }
}

/// Why the bytes are no module, if so.
fn decode_refusal(alloc: Global, bytes: &[u8]) -> Option<Refused> {
    if bytes.len() > MOST_BYTES {
        return Some(Refused::TooLong);
    }
    decode(alloc, bytes).err().map(Refused::NoModule)
}

/// `decode BYTES`: `a module`, or the fault and its offset.
pub fn told_decoding(alloc: Global, bytes: &[u8]) -> Result<String> {
    match decode_refusal(alloc, bytes) {
        Some(refused) => Ok(format!(in alloc; "{refused}")?),
        None => Ok(String::from_str(alloc, "a module")?),
    }
}

/// `validate BYTES`: `valid`, or the part that isn't and its index.
pub fn told_validation(alloc: Global, bytes: &[u8]) -> Result<String> {
    match valid_module(alloc, bytes) {
        Ok(_) => Ok(String::from_str(alloc, "valid")?),
        Err(refused) => Ok(format!(in alloc; "{refused}")?),
    }
}

/// `tree BYTES`: the module, as it is decoded.
pub fn told_tree(alloc: Global, bytes: &[u8]) -> Result<String> {
    if bytes.len() > MOST_BYTES {
        return Ok(String::from_str(alloc, "too long")?);
    }
    match decode(alloc, bytes) {
        Ok(module) => Ok(format!(in alloc; "{module:?}")?),
        Err(fault) => Ok(format!(in alloc; "{:?} at {}", fault.kind, fault.at)?),
    }
}

/// `validated BYTES`: the module, as it comes back from its validation.
pub fn told_validated(alloc: Global, bytes: &[u8]) -> Result<String> {
    match valid_module(alloc, bytes) {
        Ok(valid) => Ok(format!(in alloc; "{:?}", valid.module())?),
        Err(refused) => Ok(format!(in alloc; "{refused}")?),
    }
}

/// `types A B BYTES`: whether two types of a module are `alike`.
pub fn told_types(alloc: Global, first: usize, second: usize, bytes: &[u8]) -> Result<String> {
    let valid = match valid_module(alloc, bytes) {
        Ok(valid) => valid,
        Err(refused) => return Ok(format!(in alloc; "{refused}")?),
    };
    let types = valid.module().types.as_slice();
    let told = match (types.get(first), types.get(second)) {
        (Some(one), Some(other)) if one.equals(other) => "alike",
        (Some(_), Some(_)) => "unlike",
        _ => "no such type",
    };
    Ok(String::from_str(alloc, told)?)
}

/// Whether the bytes are a module, or have a fault up to this offset.
fn is_within(refused: Option<Refused>, end: usize) -> bool {
    match refused {
        Some(Refused::NoModule(fault)) => fault.at as usize <= end,
        Some(_) => false,
        None => true,
    }
}

/// Whether the bytes up to a place have a fault within them, and all with `ff` at that place too.
fn is_within_at(alloc: Global, bytes: &[u8], at: usize) -> Result<bool> {
    let mut other = bytes.to_vec(alloc)?;
    if let Some(byte) = other.get_mut(at) {
        *byte = 0xff;
    }
    let cut = bytes.get(..at).unwrap_or(bytes);
    Ok(
        is_within(decode_refusal(alloc, cut), at)
            && is_within(decode_refusal(alloc, &other), bytes.len()),
    )
}

/// `spoil BYTES`: `within` where a module that is cut at any place, or has `ff` at any place, is read or refused at an
/// offset within it.
pub fn told_spoiled(alloc: Global, bytes: &[u8]) -> Result<String> {
    if let Some(refused) = decode_refusal(alloc, bytes) {
        return Ok(format!(in alloc; "{refused}")?);
    }
    for at in 0..bytes.len() {
        if !is_within_at(alloc, bytes, at)? {
            return Ok(format!(in alloc; "not within at {at}")?);
        }
    }
    Ok(String::from_str(alloc, "within")?)
}

/// The kinds of faults.
const KINDS: [DecodeKind; 11] = [
    DecodeKind::OutOfMemory,
    DecodeKind::Magic,
    DecodeKind::Truncated,
    DecodeKind::Leb,
    DecodeKind::SectionOrder,
    DecodeKind::SectionSize,
    DecodeKind::BadByte,
    DecodeKind::Utf8,
    DecodeKind::Counts,
    DecodeKind::Float,
    DecodeKind::TooMany,
];

/// `fault NAME`: the number of a kind of faults.
pub fn told_kind(alloc: Global, name: &str) -> Result<String> {
    for kind in KINDS {
        let known = format!(in alloc; "{kind:?}")?;
        if known.as_str() == name {
            return Ok(format!(in alloc; "{}", kind.number())?);
        }
    }
    Ok(String::from_str(alloc, "none")?)
}
