ghost use Rattle.std.specs.Prelude.{◌≡◌, IfSome};
ghost use Rattle.std.specs.Option.{option_map};
ghost use Rattle.text_grammar.specs.Cut.{lacks};
ghost use Rattle.passport_json.specs.Parts.{AreParts, parts_of, one_is_empty, signing_of, dot};
ghost use Rattle.passport_json.specs.Seen.{texts_of};

use text_grammar::cut;

/// The three texts of a token, as they were received.
#[derive(Clone, Copy)]
pub(crate) struct Parts<'a> {
    pub(crate) header: &'a [u8],
    pub(crate) payload: &'a [u8],
    pub(crate) signature: &'a [u8],
}

/// The texts around exactly two dots.
pub(crate) fn parts_of(text: &[u8]) -> Option<Parts<'_>>
    ensures exact { option_map texts_of result ≡ parts_of text.now }
    ensures found { IfSome result (λ parts. AreParts text.now (texts_of parts)) }
{
    let Some((header, rest)) = cut(text, b'.') else {
        return None;
    };
    let Some((payload, signature)) = cut(rest, b'.') else {
        return None;
    };
    if !lacks_dot(signature) {
        return None;
    }
    Some(Parts {
        header,
        payload,
        signature,
    })
}

/// Whether no byte is a dot.
#[tactic(auto, using(crate::proofs::PartLaws::has_dot))]
fn lacks_dot(text: &[u8]) -> bool
    ensures { result ≡ lacks dot text.now }
{
    match cut(text, b'.') {
        Some(_) => false,
        None => true,
    }
}

/// Exactly one of two texts is empty.
pub(crate) fn one_is_empty(header: &[u8], payload: &[u8]) -> bool
    ensures { result ≡ one_is_empty header.now payload.now }
{
    match (header, payload) {
        ([], [_, ..]) | ([_, ..], []) => true,
        _ => false,
    }
}

/// What is signed: the text before its second dot, as it was received.
#[tactic(auto, using(crate::proofs::PartLaws::signing_taken, crate::proofs::PartLaws::signing_within))]
pub(crate) fn signing_of<'a>(text: &'a [u8], parts: &Parts<'_>) -> &'a [u8]
    requires { AreParts text.now (texts_of parts.now) }
    ensures { result.now ≡ signing_of (texts_of parts.now) }
{
    let (signing, _) = text.split_at(parts.header.len() + 1 + parts.payload.len());
    signing
}
