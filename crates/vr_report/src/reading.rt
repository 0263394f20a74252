ghost use Rattle.std.specs.Prelude.{◌≡◌, ◌==◌, [], ◌∷◌};
ghost use Rattle.std.specs.List.{list_any};
ghost use Rattle.std.specs.Option.{option_copied};
ghost use Rattle.vr_base.specs.Cuts.{parts_at, parts_left};
ghost use Rattle.vr_base.specs.Signs.{space, carriage_return};
ghost use Rattle.vr_report.specs.Lines.{Gives, number_of, name_of, empty_of, text_of, hex_of, byte_of, count_of, fill_of, content_of, call_of, asked_by};
ghost use Rattle.vr_text.specs.Lines.{words_of};

use hex::FromHexError;
use std::alloc::{AllocError, Global};
use vr_base::{Bytes, Call, NoMemory, cut_at};
use vr_text::read_id;

/// The most bytes that a line fills: one more than a file may have.
const MOST_FILL: u32 = 16_777_217;

/// Why a line, or a word of it, was not read.
#[derive(Clone, Copy, Debug)]
pub enum LineFault {
    /// It is outside the form.
    Form,
    OutOfMemory,
}

impl From<NoMemory> for LineFault {
    ghost use Rattle.vr_report.specs.declared.reading.LineFault.TheVariants.{OutOfMemory};
    ghost use Rattle.std.specs.Prelude.{◌≡◌};

    ghost from_gives = { λ _ e. e ≡ OutOfMemory };

    fn from(_refused: NoMemory) -> LineFault {
        LineFault::OutOfMemory
    }
}

impl From<AllocError> for LineFault {
    ghost use Rattle.vr_report.specs.declared.reading.LineFault.TheVariants.{OutOfMemory};
    ghost use Rattle.std.specs.Prelude.{◌≡◌};

    ghost from_gives = { λ _ e. e ≡ OutOfMemory };

    fn from(_refused: AllocError) -> LineFault {
        LineFault::OutOfMemory
    }
}

/// The number of 32 bits that a word names.
fn read_number(word: &[u8]) -> Result<u32, LineFault>
    ensures { Gives result (number_of word.now) }
{
    read_id(word).ok_or(LineFault::Form)
}

fn has_return(word: &[u8]) -> bool
    ensures { result ≡ list_any (λ b. b == carriage_return) word.now }
{
    word.iter().any(|b| *b == b'\r')
}

/// A file's name as it is, which need not be a path's.
fn read_name(alloc: Global, word: &[u8]) -> Result<Bytes, LineFault>
    ensures { Gives result (name_of word.now) }
{
    if word.is_empty() || has_return(word) {
        return Err(LineFault::Form);
    }
    Ok(Bytes::from_slice(alloc, word)?)
}

/// No bytes, where nothing comes after their kind.
#[tactic(auto, using(crate::proofs::Contents::empty_without_words))]
fn read_empty(alloc: Global, rest: Option<&[u8]>) -> Result<Bytes, LineFault>
    ensures { Gives result (empty_of (parts_left space (option_copied rest.entry))) }
{
    match rest {
        None => Ok(Bytes::of(Vec::new(alloc))),
        Some(_) => Err(LineFault::Form),
    }
}

/// All that is left of a line.
#[tactic(auto, using(crate::proofs::Contents::text_of_words))]
fn read_text(alloc: Global, rest: Option<&[u8]>) -> Result<Bytes, LineFault>
    ensures { Gives result (text_of (parts_left space (option_copied rest.entry))) }
{
    match rest {
        None => Err(LineFault::Form),
        Some(text) => Ok(Bytes::from_slice(alloc, text)?),
    }
}

/// The bytes that hex digits spell.
fn read_digits(alloc: Global, digits: &[u8]) -> Result<Bytes, LineFault>
    ensures { Gives result (hex_of (digits.now ∷ [])) }
{
    if digits.is_empty() {
        return Err(LineFault::Form);
    }
    match hex::decode(alloc, digits) {
        Ok(bytes) => Ok(Bytes::of(bytes)),
        Err(FromHexError::OutOfMemory) => Err(LineFault::OutOfMemory),
        Err(_) => Err(LineFault::Form),
    }
}

/// The bytes that one word of hex digits spells.
#[tactic(auto, using(crate::proofs::Contents::hex_of_more))]
fn read_hex(alloc: Global, rest: Option<&[u8]>) -> Result<Bytes, LineFault>
    ensures { Gives result (hex_of (parts_left space (option_copied rest.entry))) }
{
    let Some(words) = rest else {
        return Err(LineFault::Form);
    };
    match cut_at(words, b' ') {
        (digits, None) => read_digits(alloc, digits),
        (_, Some(_)) => Err(LineFault::Form),
    }
}

/// The byte that two hex digits spell.
fn read_byte(digits: &[u8]) -> Result<u8, LineFault>
    ensures { Gives result (byte_of digits.now) }
{
    let mut byte = [0];
    match hex::decode_to_slice(digits, &mut byte) {
        Ok(()) => Ok(byte[0]),
        Err(_) => Err(LineFault::Form),
    }
}

/// How many bytes a line fills.
fn read_count(word: &[u8]) -> Result<u32, LineFault>
    ensures { Gives result (count_of word.now) }
{
    let count = read_number(word)?;
    if count > MOST_FILL {
        return Err(LineFault::Form);
    }
    Ok(count)
}

/// A byte, so many times.
fn read_times(alloc: Global, digits: &[u8], count: &[u8]) -> Result<Bytes, LineFault>
    ensures { Gives result (fill_of (digits.now ∷ count.now ∷ [])) }
{
    let byte = read_byte(digits)?;
    let times = read_count(count)?;
    Ok(Bytes::of(vec![in alloc; byte; times as usize]?))
}

/// A byte and how many times it comes, in two words.
#[tactic(auto, using(crate::proofs::Contents::fill_of_more))]
fn read_fill(alloc: Global, rest: Option<&[u8]>) -> Result<Bytes, LineFault>
    ensures { Gives result (fill_of (parts_left space (option_copied rest.entry))) }
{
    let Some(words) = rest else {
        return Err(LineFault::Form);
    };
    let (digits, Some(words)) = cut_at(words, b' ') else {
        return Err(LineFault::Form);
    };
    match cut_at(words, b' ') {
        (count, None) => read_times(alloc, digits, count),
        (_, Some(_)) => Err(LineFault::Form),
    }
}

/// What is written: its kind, and what comes after that and a space.
fn read_content(alloc: Global, kind: &[u8], rest: Option<&[u8]>) -> Result<Bytes, LineFault>
    ensures { Gives result (content_of kind.now (parts_left space (option_copied rest.entry))) }
{
    if kind == b"empty".as_slice() {
        read_empty(alloc, rest)
    } else if kind == b"text".as_slice() {
        read_text(alloc, rest)
    } else if kind == b"hex".as_slice() {
        read_hex(alloc, rest)
    } else if kind == b"fill".as_slice() {
        read_fill(alloc, rest)
    } else {
        Err(LineFault::Form)
    }
}

/// The call of a word alone.
fn read_bare(verb: &[u8]) -> Result<Call, LineFault>
    ensures { Gives result (call_of (verb.now ∷ [])) }
{
    if verb == b"hash".as_slice() {
        Ok(Call::Hash)
    } else {
        Err(LineFault::Form)
    }
}

/// The call of a word and the name of a file or the number of a pipeline.
fn read_named(alloc: Global, verb: &[u8], word: &[u8]) -> Result<Call, LineFault>
    ensures { Gives result (call_of (verb.now ∷ word.now ∷ [])) }
{
    if verb == b"read".as_slice() {
        let name = read_name(alloc, word)?;
        Ok(Call::Read { name })
    } else if verb == b"run".as_slice() {
        let pipeline = read_number(word)?;
        Ok(Call::Run { pipeline })
    } else {
        Err(LineFault::Form)
    }
}

/// The call of a word, a name and what is written.
#[tactic(auto, using(crate::proofs::Contents::call_of_content))]
fn read_full(alloc: Global, verb: &[u8], name: &[u8], content: &[u8]) -> Result<Call, LineFault>
    ensures { Gives result (call_of (verb.now ∷ name.now ∷ parts_at space content.now)) }
{
    let (kind, rest) = cut_at(content, b' ');
    if verb == b"write".as_slice() {
        let name = read_name(alloc, name)?;
        let body = read_content(alloc, kind, rest)?;
        Ok(Call::Write { name, body })
    } else if verb == b"append".as_slice() {
        let name = read_name(alloc, name)?;
        let body = read_content(alloc, kind, rest)?;
        Ok(Call::Append { name, body })
    } else {
        Err(LineFault::Form)
    }
}

/// The call of the words after a line's first.
fn read_words(alloc: Global, words: &[u8]) -> Result<Call, LineFault>
    ensures { Gives result (call_of (parts_at space words.now)) }
{
    let (verb, rest) = cut_at(words, b' ');
    match rest {
        None => read_bare(verb),
        Some(rest) => {
            let (name, rest) = cut_at(rest, b' ');
            match rest {
                None => read_named(alloc, verb, name),
                Some(content) => read_full(alloc, verb, name, content),
            }
        }
    }
}

/// The identity and the call of a line.
pub fn read_call(alloc: Global, line: &[u8]) -> Result<(u32, Call), LineFault>
    ensures { Gives result (asked_by (words_of line.now)) }
{
    let (id, rest) = cut_at(line, b' ');
    let who = read_number(id)?;
    match rest {
        Some(words) => Ok((who, read_words(alloc, words)?)),
        None => Err(LineFault::Form),
    }
}
