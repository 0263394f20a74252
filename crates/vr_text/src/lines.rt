ghost use Rattle.std.specs.Prelude.{◌≡◌, ◌∷◌, ◌<◌, length};
ghost use Rattle.std.specs.Str.Lines.{lines, strip_carriage_return};
ghost use Rattle.vr_text.specs.Lines.{is_skipped};

use vr_base::cut_at;

/// A part before an LF without the CR at its end.
fn strip_return(part: &[u8]) -> &[u8]
    ensures { result.now ≡ strip_carriage_return part.now }
{
    part.strip_suffix(b"\r").unwrap_or(part)
}

/// The first line of a text, and the text after it.
#[tactic(auto, using(crate::proofs::LineLemmas::lines_cut))]
pub fn cut_line(text: &[u8]) -> (&[u8], &[u8])
    requires { 0 < length text.now }
    ensures lines { lines text.now ≡ result.0.now ∷ lines result.1.now }
    ensures shorter { length result.1.now < length text.now }
{
    let (part, rest) = cut_at(text, b'\n');
    match rest {
        Some(rest) => (strip_return(part), rest),
        None => (part, &text[text.len()..]),
    }
}

/// Whether a line is passed over.
pub fn is_skipped(line: &[u8]) -> bool
    ensures { result ≡ is_skipped line.now }
{
    line.is_empty() || line.starts_with(b"#")
}
