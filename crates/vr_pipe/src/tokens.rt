ghost use Rattle.std.specs.Prelude.{◌≡◌, ◌≢◌, ℕ, ◌+◌, ◌<◌, ◌≤◌, ◌^◌, true, false, [], ◌∷◌, length, MatchOption, IfSome, slice_index};
ghost use Rattle.std.specs.List.{prefix_len};
ghost use Rattle.vr_pipe.specs.Pieces.{Piece, is_blank, is_sign, is_word_byte, word_piece, sign_piece, pieces_from};
ghost use Rattle.vr_pipe.specs.Tokens.{piece_of, BeginsWith};

/// A word or a sign of a pipeline's text.
#[derive(Clone, Copy, Debug)]
pub enum Token<'a> {
    /// A word that is no keyword.
    Name(&'a [u8]),
    If,
    Else,
    /// `|`
    Bar,
    /// `;`
    Semicolon,
    /// `{`
    Open,
    /// `}`
    Close,
}

/// A word or a sign, the offset of its first byte, that of the byte after it,
/// and the bytes from there on.
#[derive(Clone, Copy, Debug)]
pub struct Placed<'a> {
    pub token: Token<'a>,
    pub at: usize,
    pub end: usize,
    pub rest: &'a [u8],
}

fn is_blank(byte: u8) -> bool
    ensures { result ≡ is_blank byte }
{
    byte == b' ' || byte == b'\t' || byte == b'\n' || byte == b'\r'
}

fn is_sign(byte: u8) -> bool
    ensures { result ≡ is_sign byte }
{
    byte == b';' || byte == b'|' || byte == b'{' || byte == b'}'
}

fn blank_length(bytes: &[u8]) -> usize
    ensures length { result ≡ prefix_len is_blank bytes.now }
    ensures within { result ≤ length bytes.now }
    ensures stops { result < length bytes.now →
        is_blank (slice_index bytes.now result) ≡ false }
{
    bytes.iter().take_while(|b| is_blank(**b)).count()
}

fn word_length(bytes: &[u8]) -> usize
    ensures length { result ≡ prefix_len is_word_byte bytes.now }
    ensures within { result ≤ length bytes.now }
{
    bytes
        .iter()
        .take_while(|b| !(is_blank(**b) || is_sign(**b)))
        .count()
}

fn word_token(word: &[u8]) -> Token<'_>
    ensures { piece_of result ≡ word_piece word.now }
{
    if word == b"if".as_slice() {
        Token::If
    } else if word == b"else".as_slice() {
        Token::Else
    } else {
        Token::Name(word)
    }
}

fn sign_token<'a>(sign: u8) -> Token<'a>
    ensures { piece_of result ≡ sign_piece sign }
{
    match sign {
        b';' => Token::Semicolon,
        b'|' => Token::Bar,
        b'{' => Token::Open,
        _ => Token::Close,
    }
}

/// The word or sign that bytes at an offset begin with, where no blank comes first.
fn first_token(bytes: &[u8], at: usize) -> Placed<'_>
    requires fits { at + length bytes.now < 2 ^ 64 }
    requires some { 0 < length bytes.now }
    requires no_blank { is_blank (slice_index bytes.now 0) ≡ false }
    ensures pieces { BeginsWith at bytes.now result }
    ensures rest { result.end + length result.rest.now ≡ at + length bytes.now }
    ensures shorter { length result.rest.now < length bytes.now }
{
    let first = bytes[0];
    if is_sign(first) {
        Placed {
            token: sign_token(first),
            at,
            end: at + 1,
            rest: &bytes[1..],
        }
    } else {
        let length = word_length(bytes);
        let (word, rest) = bytes.split_at(length);
        Placed {
            token: word_token(word),
            at,
            end: at + length,
            rest,
        }
    }
}

/// The first word or sign of bytes that are at an offset.
pub fn next_token(bytes: &[u8], at: usize) -> Option<Placed<'_>>
    requires { at + length bytes.now < 2 ^ 64 }
    ensures pieces { MatchOption result (pieces_from at false bytes.now ≡ [])
        (λ found. BeginsWith at bytes.now found) }
    ensures rest { IfSome result (λ found.
        found.end + length found.rest.now ≡ at + length bytes.now) }
    ensures shorter { IfSome result (λ found. length found.rest.now < length bytes.now) }
{
    let blanks = blank_length(bytes);
    let rest = &bytes[blanks..];
    if rest.is_empty() {
        return None;
    }
    Some(first_token(rest, at + blanks))
}
