ghost use Rattle.std.specs.Prelude.{◌≡◌, ◌∷◌, ◌&&◌, [], map, Some, None, if◌then◌else◌};
ghost use Rattle.std.specs.Char.{is_ascii_hexdigit, to_ascii_lowercase};
ghost use Rattle.std.specs.List.{list_all};
ghost use Rattle.std.specs.Option.{option_copied};
ghost use Rattle.vr_base.specs.Cuts.{parts_left};
ghost use Rattle.vr_base.specs.Signs.{space};
ghost use Rattle.vr_http.specs.Fields.{is_key, key_by};
ghost use Rattle.vr_face.specs.Keys.{keyed_by, keys_of, listed_id, most_keys};
ghost use Rattle.vr_face.specs.Holders.{AddsLine, GivesKeys, who};

use std::alloc::{AllocFailed, Global};
use std::collections::BTreeMap;
use vr_base::cut_at;
use vr_text::{cut_line, is_skipped, read_id};

/// The most bytes of a keys file.
const MOST_KEYS: usize = 1_048_576;

/// How many hex digits a key has.
const KEY_DIGITS: usize = 64;

type Key = [u8; KEY_DIGITS];

/// The identity that holds each key.
type Holders = BTreeMap<Key, u32>;

/// Who holds which key.
#[derive(Debug, Drop)]
pub struct Keys {
    holders: Holders,
}

/// Why a text is no keys file.
#[derive(Clone, Copy, Debug, PartialEq, Eq)]
pub enum KeysFault {
    /// The first line that is refused, counted from 1, or 0 where the text is too long.
    Line(u32),
    OutOfMemory,
}

impl<T: Drop> From<AllocFailed<T>> for KeysFault {
    ghost use Rattle.vr_face.specs.declared.keys.KeysFault.TheVariants.{OutOfMemory};
    ghost use Rattle.std.specs.Prelude.{◌≡◌};

    ghost from_gives = { λ _ fault. fault ≡ OutOfMemory };

    fn from(_refused: AllocFailed<T>) -> KeysFault {
        KeysFault::OutOfMemory
    }
}

fn are_hex_digits(word: &[u8]) -> bool
    ensures { result ≡ list_all is_ascii_hexdigit word.now }
{
    word.iter().all(|b| b.is_ascii_hexdigit())
}

fn is_key(word: &[u8]) -> bool
    ensures { result ≡ is_key word.now }
{
    word.len() == KEY_DIGITS && are_hex_digits(word)
}

/// The key that a word spells, in lower case.
fn read_key(word: &[u8]) -> Option<Key>
    ensures { result ≡ key_by (word.now ∷ []) }
{
    if !is_key(word) {
        return None;
    }
    let mut key = [0; KEY_DIGITS];
    key.copy_from_slice(word);
    key.make_ascii_lowercase();
    Some(key)
}

/// The identity of the policy that a word names.
fn read_listed(policy: &[u32], word: &[u8]) -> Option<u32>
    ensures { result ≡ listed_id policy.now word.now }
{
    match read_id(word) {
        Some(id) if policy.contains(&id) => Some(id),
        _ => None,
    }
}

/// The one word that is left of a line, as a key.
#[tactic(auto, using(crate::proofs::KeyLemmas::no_key_of_more))]
fn read_last(rest: Option<&[u8]>) -> Option<Key>
    ensures { result ≡ keyed_by (parts_left space (option_copied rest.entry)) }
{
    let words = rest?;
    match cut_at(words, b' ') {
        (word, None) => read_key(word),
        (_, Some(_)) => None,
    }
}

/// Adds the key of the line of this number, where the line isn't passed over.
fn add_line(
    holders: &mut Holders,
    policy: &[u32],
    number: u32,
    line: &[u8],
) -> Result<(), KeysFault>
    ensures { AddsLine policy.now number line.now holders.old holders.new result }
{
    if is_skipped(line) {
        return Ok(());
    }
    let (word, rest) = cut_at(line, b' ');
    let Some(who) = read_listed(policy, word) else {
        return Err(KeysFault::Line(number));
    };
    let Some(key) = read_last(rest) else {
        return Err(KeysFault::Line(number));
    };
    match holders.insert(key, who)? {
        None => Ok(()),
        Some(_) => Err(KeysFault::Line(number)),
    }
}

/// The keys of a file. It has at most 1,048,576 bytes. Each of its lines ends with an LF, which the
/// last may lack, and a CR before the LF is dropped. Empty lines and lines that begin with `#` are
/// passed over. Another line is `ID KEY`, with one space between: an identity of the policy, in
/// decimal digits without a leading zero, and 64 hex digits of either case, which are the key of no
/// line before.
///
/// The fault is that of the first line that is refused.
pub fn read_keys(alloc: Global, bytes: &[u8], policy: &[u32]) -> Result<Keys, KeysFault>
    ensures { GivesKeys result (keys_of most_keys policy.now bytes.now) }
{
    if bytes.len() > MOST_KEYS {
        return Err(KeysFault::Line(0));
    }
    let mut holders = BTreeMap::new(alloc);
    let mut number = 1;
    let mut left = bytes;
    while !left.is_empty() {
        let (line, rest) = cut_line(left);
        add_line(&mut holders, policy, number, line)?;
        number += 1;
        left = rest;
    }
    Ok(Keys { holders })
}

impl Keys {
    /// The identity of the line that has the key, which is in lower case.
    pub fn who(&self, key: &[u8; 64]) -> Option<u32>
        ensures { result ≡ who self.now key.now }
    {
        self.holders.get(key).copied()
    }
}
