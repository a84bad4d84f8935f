ghost use Rattle.std.specs.Prelude.{◌≡◌, ◌<◌, ◌==◌, ◌++◌, ◌∷◌, true, length, position, IfSome, IfNone};
ghost use Rattle.std.specs.Option.{option_copied, option_map};
ghost use Rattle.text_grammar.specs.Cut.{behind, cut, lacks};

use memchr::memchr;

/// What comes before the first such byte of the text, and what comes after it; `None` if the text has no such byte.
#[tactic(auto, using(crate::proofs::CutLaws::cut_within, crate::proofs::CutLaws::cut_split, crate::proofs::CutLaws::cut_first, crate::proofs::CutLaws::cut_none))]
pub fn cut(text: &[u8], byte: u8) -> Option<(&[u8], &[u8])>
    ensures exact { option_map (λ parts. (parts.0.now, parts.1.now)) result ≡ cut byte text.now }
    ensures split { IfSome result (λ parts. text.now ≡ parts.0.now ++ byte ∷ parts.1.now) }
    ensures first { IfSome result (λ parts. lacks byte parts.0.now ≡ true) }
    ensures none { IfNone result (lacks byte text.now ≡ true) }
    ensures shorter { IfSome result (λ parts. length parts.1.now < length text.now) }
{
    let Some(place) = first_place(text, byte) else {
        return None;
    };
    let (front, _) = text.split_at(place);
    let (_, rest) = text.split_at(place + 1);
    Some((front, rest))
}

/// What comes after this prefix of the text; `None` if the text doesn't begin with it.
#[tactic(auto, using(crate::proofs::CutLaws::behind_split))]
pub fn behind<'a>(text: &'a [u8], front: &[u8]) -> Option<&'a [u8]>
    ensures exact { option_copied result ≡ behind front.now text.now }
    ensures split { IfSome result (λ rest. text.now ≡ front.now ++ rest.now) }
{
    match text.strip_prefix(front) {
        Some(rest) => Some(rest),
        None => None,
    }
}

/// Where the first such byte is.
#[tactic(auto, using(crate::proofs::PlaceLaws::first_is))]
fn first_place(text: &[u8], byte: u8) -> Option<usize>
    ensures { result ≡ position (λ b. b == byte) text.now }
{
    memchr(byte, text)
}
