ghost use Rattle.std.specs.Prelude.{◌≡◌};
ghost use Rattle.std.specs.Char.{is_ascii_digit};
ghost use Rattle.std.specs.List.{list_all};
ghost use Rattle.vr_text.specs.Numerals.{has_leading_zero, id_of, is_numeral};

fn are_digits(word: &[u8]) -> bool
    ensures { result ≡ list_all is_ascii_digit word.now }
{
    word.iter().all(|b| b.is_ascii_digit())
}

fn has_leading_zero(word: &[u8]) -> bool
    ensures { result ≡ has_leading_zero word.now }
{
    word.len() > 1 && word.starts_with(b"0")
}

/// Whether a word is decimal digits without a leading zero.
pub fn is_numeral(word: &[u8]) -> bool
    ensures { result ≡ is_numeral word.now }
{
    !word.is_empty() && are_digits(word) && !has_leading_zero(word)
}

/// The number of 32 bits that a word names.
pub fn read_id(word: &[u8]) -> Option<u32>
    ensures { result ≡ id_of word.now }
{
    if !is_numeral(word) {
        return None;
    }
    let Ok(digits) = std::str::from_utf8(word) else {
        return None;
    };
    digits.parse::<u32>().ok()
}
