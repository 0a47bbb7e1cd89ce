//! The parts of a text between the places of one byte are those that its first cut leaves.

ghost use Rattle.std.specs.Prelude.{◌≡◌, ◌+◌, ◌<◌, ◌==◌, [], ◌∷◌, length, MatchOption, IfSome, position};
ghost use Rattle.std.specs.List.{slice_split};

/// The place of a byte's first occurrence; None where there is none.
fn place_of(text: &[u8], byte: u8) -> Option<usize>
    ensures { result ≡ position (λ b. b == byte) text.now }
{
    text.iter().position(|b| *b == byte)
}

/// What stands before a byte's first occurrence, and what stands after it; None where there is none.
pub fn cut_at(text: &[u8], byte: u8) -> Option<(&[u8], &[u8])>
    ensures parts { MatchOption result (slice_split (λ b. b == byte) text.now ≡ text.now ∷ [])
        (λ parts. slice_split (λ b. b == byte) text.now ≡ parts.0.now ∷ slice_split (λ b. b == byte) parts.1.now) }
    ensures shorter { IfSome result (λ parts. length parts.0.now + length parts.1.now + 1 ≡ length text.now) }
{
    let place = place_of(text, byte)?;
    Some((&text[..place], &text[place + 1..]))
}
