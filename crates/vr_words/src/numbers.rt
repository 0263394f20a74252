ghost use Rattle.std.specs.Prelude.{◌≡◌};
ghost use Rattle.vr_words.specs.Numbers.{number_within};

use vr_text::is_numeral;

/// The number that a word stands for, where it is within the bounds.
pub fn read_number(word: &str, least: u64, most: u64) -> Option<u64>
    ensures { result ≡ number_within least most word.now }
{
    if !is_numeral(word.as_bytes()) {
        return None;
    }
    let number = word.parse::<u64>().ok()?;
    (least <= number && number <= most).then_some(number)
}
