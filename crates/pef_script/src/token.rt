//! A line's tokens are what stands between its spaces.

ghost use Rattle.std.specs.Prelude.{◌≡◌, ◌+◌, ◌<◌, ◌≤◌, [], ◌∷◌, length, MatchOption, IfSome};
ghost use Rattle.pef_script.specs.Token.{tokens_of, pair_in};

use crate::number::parse_number;
use crate::parts::cut_at;

/// A pair of numbers.
#[derive(Clone, Copy)]
pub struct Pair {
    pub left: u64,
    pub right: u64,
}

/// The first token, and what stands behind it; None where there is none.
pub fn next_token(text: &[u8]) -> Option<(&[u8], &[u8])>
    ensures token { MatchOption result (tokens_of text.now ≡ [])
        (λ found. tokens_of text.now ≡ found.0.now ∷ tokens_of found.1.now) }
    ensures shorter { IfSome result (λ found. length found.1.now < length text.now) }
{
    let mut rest = text;
    while let Some((part, more)) = cut_at(rest, b' ') {
        if !part.is_empty() {
            return Some((part, more));
        }
        rest = more;
    }
    if rest.is_empty() {
        None
    } else {
        Some((rest, &[]))
    }
}

/// How many tokens there are.
pub fn count_tokens(text: &[u8]) -> usize
    ensures count { result ≡ length (tokens_of text.now) }
    ensures few { result ≤ length text.now }
{
    let mut count = 0;
    let mut rest = text;
    while let Some((_, more)) = next_token(rest) {
        count += 1;
        rest = more;
    }
    count
}

/// A number, or two with | between them; None where the token is none.
pub fn parse_pair(token: &[u8]) -> Option<Pair>
    ensures { result ≡ pair_in token.now }
{
    let Some((left, right)) = cut_at(token, b'|') else {
        let number = parse_number(token)?;
        return Some(Pair {
            left: number,
            right: number,
        });
    };
    match cut_at(right, b'|') {
        Some(_) => None,
        None => Some(Pair {
            left: parse_number(left)?,
            right: parse_number(right)?,
        }),
    }
}
