//! Names of files and of grants, and rights.

use crate::texts::{push_shown, two};
use crate::unanswered::Unanswered;
use std::alloc::Global;
use vr_base::{GrantName, Grants, Path, Right, RightsWord, parse_grant_name, parse_path};

/// `path NAME`: the path for which a name stands, or its first fault.
pub fn push_path(told: &mut String, alloc: Global, name: &[u8]) -> Result<(), Unanswered> {
    match parse_path(alloc, name) {
        Ok(path) => push_shown(told, path.as_slice()),
        Err(fault) => Ok(write!(told, "{fault:?}")?),
    }
}

fn push_grant_name(told: &mut String, name: &GrantName) -> Result<(), Unanswered> {
    let kind = if name.is_dir() { "directory " } else { "file " };
    told.push_str(kind)?;
    push_shown(told, name.as_slice())
}

/// `grant NAME`: the name of a grant as it is kept, and whether it is a directory's.
pub fn push_grant(told: &mut String, alloc: Global, name: &[u8]) -> Result<(), Unanswered> {
    match parse_grant_name(alloc, name) {
        Ok(name) => push_grant_name(told, &name),
        Err(fault) => Ok(write!(told, "{fault:?}")?),
    }
}

/// The path of a name.
pub fn path_of(alloc: Global, name: &str) -> Result<Path, Unanswered> {
    Ok(parse_path(alloc, name.as_bytes())?)
}

fn rights_of(word: &str) -> Result<RightsWord, Unanswered> {
    Ok(RightsWord::new(word.parse::<u32>()?))
}

/// The grant of a word `NAME=WORD`.
fn grant(alloc: Global, text: &str) -> Result<(GrantName, RightsWord), Unanswered> {
    let (name, word) = text.split_once("=").ok_or(Unanswered::Form)?;
    let word = rights_of(word)?;
    Ok((parse_grant_name(alloc, name.as_bytes())?, word))
}

/// The grants of words.
fn grants(alloc: Global, words: &str) -> Result<Grants, Unanswered> {
    let mut items = Vec::new(alloc);
    for text in words.split(' ') {
        items.push(grant(alloc, text)?)?;
    }
    Ok(Grants::of(items))
}

fn push_rights(told: &mut String, rights: RightsWord) -> Result<(), Unanswered> {
    Ok(write!(told, "{}", rights.word())?)
}

/// `word PATH NAME=WORD NAME=WORD..`: the word that the grants give on a path.
pub fn push_word(told: &mut String, alloc: Global, words: &str) -> Result<(), Unanswered> {
    let (name, words) = two(words)?;
    let path = path_of(alloc, name)?;
    let grants = grants(alloc, words)?;
    push_rights(told, grants.word_on(&path))
}

/// `letters TEXT`: the word for which letters stand.
pub fn push_letters(told: &mut String, letters: &[u8]) -> Result<(), Unanswered> {
    match RightsWord::of_letters(letters) {
        Some(rights) => push_rights(told, rights),
        None => Ok(told.push_str("none")?),
    }
}

fn push_named(told: &mut String, right: Option<Right>) -> Result<(), Unanswered> {
    match right {
        Some(right) => Ok(write!(told, "{} {}", right.bit(), right.name())?),
        None => Ok(told.push_str("none")?),
    }
}

/// `missing HELD NEEDED`: the bit and the name of the lowest right that the one word lacks of the other.
pub fn push_missing(told: &mut String, words: &str) -> Result<(), Unanswered> {
    let (held, needed) = two(words)?;
    push_named(told, rights_of(held)?.missing(rights_of(needed)?))
}

/// `right BIT`: the bit and the name of a right.
pub fn push_right(told: &mut String, bit: &str) -> Result<(), Unanswered> {
    push_named(told, Right::new(bit.parse::<u8>()?))
}

/// `mask WORD`: the word without the bits that have no meaning.
pub fn push_mask(told: &mut String, word: &str) -> Result<(), Unanswered> {
    push_rights(told, rights_of(word)?)
}
