ghost use Rattle.std.specs.Prelude.{◌≡◌, All, length, reverse, map, min, Some, None, if◌then◌else◌};
ghost use Rattle.std.specs.Char.{is_ascii_hexdigit, to_ascii_lowercase};
ghost use Rattle.std.specs.List.{list_all};
ghost use Rattle.std.specs.Str.{str_eq_ignore_ascii_case};
ghost use Rattle.std.specs.Str.Parse.{digits_value};
ghost use Rattle.httparse.specs.Grammar.{skip_ows, trim_ows};
ghost use Rattle.httparse.specs.Spans.{IsHeaderWithin};
ghost use Rattle.vr_http.specs.Fields.{asks_close, is_close, is_key, is_number, needs_length, sized};

use crate::faults::HttpFault;
use httparse::is_space_or_tab;
use httparse::spans::HeaderSpan;
use vr_base::cut_at;

/// The most bytes of a body.
const MOST_BODY: usize = 16_777_216;

/// How many hex digits a key has.
const KEY_DIGITS: usize = 64;

/// The fields of a head, by their places in its text.
#[derive(Clone, Copy)]
pub struct Fields<'a> {
    pub text: &'a [u8],
    pub spans: &'a [HeaderSpan],
    ghost within: { All (IsHeaderWithin (length text.now)) spans.now },
}

/// The values of the fields with one name.
#[derive(Clone, Copy)]
pub enum Named<'a> {
    Absent,
    Once(&'a [u8]),
    Repeated,
}

fn is_same_word(word: &[u8], other: &[u8]) -> bool
    ensures { result ≡ str_eq_ignore_ascii_case word.now other.now }
{
    word.eq_ignore_ascii_case(other)
}

fn trim_start(mut bytes: &[u8]) -> &[u8]
    ensures { result.now ≡ skip_ows bytes.now }
{
    while let [first, rest @ ..] = bytes
        && is_space_or_tab(*first)
    {
        bytes = rest;
    }
    bytes
}

fn trim_end(mut bytes: &[u8]) -> &[u8]
    ensures { result.now ≡ reverse (skip_ows (reverse bytes.now)) }
{
    while let [rest @ .., last] = bytes
        && is_space_or_tab(*last)
    {
        bytes = rest;
    }
    bytes
}

#[tactic(auto, unfolding(httparse::specs::Grammar::trim_ows))]
fn trim(bytes: &[u8]) -> &[u8]
    ensures { result.now ≡ trim_ows bytes.now }
{
    trim_end(trim_start(bytes))
}

fn is_close(part: &[u8]) -> bool
    ensures { result ≡ is_close part.now }
{
    is_same_word(trim(part), b"close")
}

fn asks_close(value: &[u8]) -> bool
    ensures { result ≡ asks_close value.now }
{
    let mut left = Some(value);
    while let Some(bytes) = left {
        let (part, others) = cut_at(bytes, b',');
        if is_close(part) {
            return true;
        }
        left = others;
    }
    false
}

/// The number that decimal digits give, or one past the limit where it is greater.
fn read_number(digits: &[u8]) -> Option<usize>
    ensures { result ≡ (if is_number digits.now
        then Some (min (digits_value 10 digits.now) 16777217) else None) }
{
    if digits.is_empty() {
        return None;
    }
    let mut number = 0;
    for digit in digits {
        if !digit.is_ascii_digit() {
            return None;
        }
        number = (number * 10 + usize::from(*digit - b'0')).min(MOST_BODY + 1);
    }
    Some(number)
}

fn read_size(value: &[u8]) -> Result<usize, HttpFault>
    ensures { result ≡ sized value.now }
{
    match read_number(value) {
        None => Err(HttpFault::BadHead),
        Some(size) if size > MOST_BODY => Err(HttpFault::BodyTooLarge),
        Some(size) => Ok(size),
    }
}

fn needs_length(method: &[u8], target: &[u8]) -> bool
    ensures { result ≡ needs_length method.now target.now }
{
    method == b"PUT".as_slice() || method == b"POST".as_slice() && target.starts_with(b"/files/")
}

fn are_hex_digits(word: &[u8]) -> bool
    ensures { result ≡ list_all is_ascii_hexdigit word.now }
{
    word.iter().all(|b| b.is_ascii_hexdigit())
}

fn is_key(value: &[u8]) -> bool
    ensures { result ≡ is_key value.now }
{
    value.len() == KEY_DIGITS && are_hex_digits(value)
}

fn read_key(value: &[u8]) -> Option<[u8; KEY_DIGITS]>
    ensures { result
        ≡ (if is_key value.now then Some (map to_ascii_lowercase value.now) else None) }
{
    if !is_key(value) {
        return None;
    }
    let mut key = [0; KEY_DIGITS];
    key.copy_from_slice(value);
    key.make_ascii_lowercase();
    Some(key)
}

impl<'a> Fields<'a> {
    ghost use Rattle.std.specs.Prelude.{codes};
    ghost use Rattle.std.specs.List.{list_any};
    ghost use Rattle.vr_http.specs.Fields.{body_size, closes, key_of, values_of};
    ghost use Rattle.vr_http.specs.HeadFields.{named_values, IsNamedBy};

    /// The fields with the name, compared without case.
    fn named(&self, name: &[u8]) -> Named<'a>
        ensures { IsNamedBy (values_of name.now (named_values self.now)) result }
    {
        let mut found = Named::Absent;
        for span in self.spans {
            if is_same_word(span.name.of(self.text), name) {
                match found {
                    Named::Absent => found = Named::Once(span.value.of(self.text)),
                    _ => return Named::Repeated,
                }
            }
        }
        found
    }

    fn ask_close(&self) -> bool
        ensures { result ≡ list_any asks_close
            (values_of (codes "connection") (named_values self.now)) }
    {
        for span in self.spans {
            if is_same_word(span.name.of(self.text), b"connection")
                && asks_close(span.value.of(self.text))
            {
                return true;
            }
        }
        false
    }

    /// Whether the connection ends after a request with these fields, of HTTP/1.`minor`.
    pub fn close(&self, minor: u8) -> bool
        ensures { result ≡ closes minor (named_values self.now) }
    {
        minor == 0 || self.ask_close()
    }

    /// The key of who asks, in lower case.
    pub fn key(&self) -> Option<[u8; KEY_DIGITS]>
        ensures { result ≡ key_of (named_values self.now) }
    {
        match self.named(b"party-key") {
            Named::Once(value) => read_key(value),
            _ => None,
        }
    }

    /// The length of the body after a head with these fields.
    pub fn body_size(&self, method: &[u8], target: &[u8]) -> Result<usize, HttpFault>
        ensures { result ≡ body_size method.now target.now (named_values self.now) }
    {
        let Named::Absent = self.named(b"transfer-encoding") else {
            return Err(HttpFault::Coding);
        };
        let Named::Absent = self.named(b"expect") else {
            return Err(HttpFault::Expect);
        };
        match self.named(b"content-length") {
            Named::Absent if needs_length(method, target) => Err(HttpFault::NoLength),
            Named::Absent => Ok(0),
            Named::Once(value) => read_size(value),
            Named::Repeated => Err(HttpFault::BadHead),
        }
    }
}
