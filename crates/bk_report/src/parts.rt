ghost use Rattle.std.specs.Prelude.{◌≡◌, ◌==◌, ◌<◌, ◌∷◌, [], length, IfSome, IfNone};
ghost use Rattle.std.specs.List.{position, slice_split};

/// The place of the first such byte.
fn place_of(text: &[u8], at: u8) -> Option<usize>
    ensures { result ≡ position (λ b. b == at) text.now }
{
    text.iter().position(|b| *b == at)
}

/// What stands before the first such byte, and what stands after it.
#[tactic(auto, using(crate::proofs::Splitting::split_found, crate::proofs::Splitting::split_not_found))]
pub fn cut(text: &[u8], at: u8) -> Option<(&[u8], &[u8])>
    ensures found { IfSome result (λ r. slice_split (λ b. b == at) text.now ≡ r.0.now ∷ slice_split (λ b. b == at) r.1.now) }
    ensures shorter { IfSome result (λ r. length r.1.now < length text.now) }
    ensures none { IfNone result (slice_split (λ b. b == at) text.now ≡ text.now ∷ []) }
{
    let place = place_of(text, at)?;
    Some((text.split_at(place).0, text.split_at(place + 1).1))
}
