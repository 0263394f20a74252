ghost use Rattle.std.specs.Prelude.{◌≡◌, ◌≢◌, ◌∷◌, ◌<◌, All, length, MatchOption, IfSome};
ghost use Rattle.std.specs.Option.{option_copied};
ghost use Rattle.vr_base.specs.Cuts.{parts_at, parts_left, IsFirstPlace, Rejoins};

/// The place of the first `sign`.
fn place_of(bytes: &[u8], sign: u8) -> Option<usize>
    ensures { MatchOption result (All (λ b. b ≢ sign) bytes.now) (IsFirstPlace sign bytes.now) }
{
    bytes.iter().position(|b| *b == sign)
}

/// The bytes before the first `sign`, and those after it, where there is one.
#[tactic(auto, using(crate::proofs::Places::parts_whole))]
pub fn cut_at(bytes: &[u8], sign: u8) -> (&[u8], Option<&[u8]>)
    ensures whole { Rejoins sign bytes.now result.0.now (option_copied result.1) }
    ensures first { All (λ b. b ≢ sign) result.0.now }
    ensures parts { parts_at sign bytes.now
        ≡ result.0.now ∷ parts_left sign (option_copied result.1) }
    ensures shorter { IfSome result.1 (λ rest. length rest.now < length bytes.now) }
{
    match place_of(bytes, sign) {
        Some(at) => (&bytes[..at], Some(&bytes[at + 1..])),
        None => (bytes, None),
    }
}
