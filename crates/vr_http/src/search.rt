ghost use Rattle.std.specs.Prelude.{◌≡◌, ◌≤◌, ℕ, List, ◌++◌, length, count_by, IfSome, IfNone};
ghost use Rattle.vr_http.specs.Heads.{is_line_feed, is_newline, blank_length, empty_line_length};
ghost use Rattle.vr_http.specs.Searches.{GoesOn, IsLineEndAt, IsUndecided, Finds};

use vr_base::cut_at;

/// What a search for the end of a head text found.
#[derive(Clone, Copy)]
pub enum Search {
    /// The head text ends here.
    Ended(usize),
    /// It hasn't ended. The search goes on here, when more bytes have come.
    GoesOn(usize),
}

fn is_newline(b: u8) -> bool
    ensures { result ≡ is_newline b }
{
    b == b'\r' || b == b'\n'
}

/// How many CR and LF bytes come first.
pub fn blank_length(bytes: &[u8]) -> usize
    ensures { result ≡ blank_length bytes.now }
{
    bytes.iter().take_while(|b| is_newline(**b)).count()
}

/// How many LF bytes there are.
pub fn count_lines(bytes: &[u8]) -> usize
    ensures { result ≡ count_by is_line_feed bytes.now }
{
    bytes.iter().filter(|b| **b == b'\n').count()
}

/// How long the empty line is that the bytes begin with, 0 where they begin with another, and none
/// where bytes that follow decide it.
fn empty_line(bytes: &[u8]) -> Option<usize>
    ensures known { IfSome result (λ n. (more : List ℕ) →
        empty_line_length (bytes.now ++ more) ≡ n) }
    ensures within { IfSome result (λ n. n ≤ length bytes.now) }
    ensures unknown { IfNone result (IsUndecided bytes.now) }
{
    match bytes {
        [b'\n', ..] => Some(1),
        [b'\r', b'\n', ..] => Some(2),
        [] | [b'\r'] => None,
        _ => Some(0),
    }
}

/// The place of the first LF from the place on.
fn line_feed_from(bytes: &[u8], from: usize) -> Option<usize>
    requires { from ≤ length bytes.now }
    ensures found { IfSome result (λ place. IsLineEndAt bytes.now from place) }
    ensures none { IfNone result (GoesOn bytes.now from (length bytes.now)) }
{
    let (line, rest) = cut_at(&bytes[from..], b'\n');
    match rest {
        Some(_) => Some(from + line.len()),
        None => None,
    }
}

/// Looks for the end of a head text, from a place in it on.
pub fn search_end(bytes: &[u8], from: usize) -> Search
    requires { from ≤ length bytes.now }
    ensures { Finds bytes.now from result }
{
    let mut at = from;
    while let Some(place) = line_feed_from(bytes, at) {
        match empty_line(&bytes[place + 1..]) {
            None => return Search::GoesOn(place),
            Some(0) => at = place + 1,
            Some(size) => return Search::Ended(place + 1 + size),
        }
    }
    Search::GoesOn(bytes.len())
}
