ghost use Rattle.std.specs.Prelude.{◌≡◌, ◌≤◌, length, codes};
ghost use Rattle.text_grammar.specs.Bytes as bytes;
ghost use Rattle.text_grammar.specs.Reading.{run_at, many_at};
ghost use Rattle.text_grammar.specs.Gives.{Gives, slice_view, split_view};
ghost use Rattle.identity_header.specs.Parts as parts;
ghost use Rattle.identity_header.specs.Reading as reading;
ghost use Rattle.identity_header.specs.Views.{parts_of, state_view};

use crate::bytes::{DIGEST_MOST, URI_MOST, bare_len, digest_len, quoted_len};
use text_grammar::{
    Stop, byte_at, front, is_word, name_len, skip_blanks, some_at, uri_len, word_at,
};

/// The parts that a reader has met so far.
#[derive(Clone, Copy, Debug)]
pub(crate) struct Seen<'a> {
    pub(crate) token: &'a [u8],
    pub(crate) info: &'a [u8],
    pub(crate) alg: Option<&'a [u8]>,
    pub(crate) ppt: Option<&'a [u8]>,
}

/// The token, and what comes after it.
fn digest_at(text: &[u8]) -> Result<(&[u8], &[u8]), Stop<'_>>
    ensures { Gives split_view result (run_at parts.is_digest_byte 8192 text.now) }
{
    some_at(digest_len(front(text, DIGEST_MOST)), text)
}

/// The uri, and what comes after it.
fn uri_at(text: &[u8]) -> Result<(&[u8], &[u8]), Stop<'_>>
    ensures { Gives split_view result (run_at bytes.is_uri_byte 2048 text.now) }
{
    some_at(uri_len(front(text, URI_MOST)), text)
}

/// After an opening quote: the text up to the closing one, and what comes after that.
#[tactic(auto, unfolding(crate::specs::Reading::quoted_at))]
fn quoted_at(text: &[u8]) -> Result<(&[u8], &[u8]), Stop<'_>>
    ensures { Gives split_view result (reading.quoted_at text.now) }
{
    let (value, rest) = text.split_at(quoted_len(text));
    let rest = byte_at(b'"', rest)?;
    Ok((value, rest))
}

/// A value, bare or between quotes, and what comes after it.
#[tactic(auto, unfolding(crate::specs::Reading::value_at))]
fn value_at(text: &[u8]) -> Result<(&[u8], &[u8]), Stop<'_>>
    ensures { Gives split_view result (reading.value_at text.now) }
{
    match text {
        [b'"', rest @ ..] => quoted_at(rest),
        _ => some_at(bare_len(text), text),
    }
}

/// The equals sign and a value, and what comes after it.
#[tactic(auto, unfolding(crate::specs::Reading::equals_at))]
fn equals_at(text: &[u8]) -> Result<(&[u8], &[u8]), Stop<'_>>
    ensures { Gives split_view result (reading.equals_at text.now) }
{
    let rest = byte_at(b'=', skip_blanks(text))?;
    value_at(skip_blanks(rest))
}

/// After the name `alg`.
#[tactic(auto, unfolding(crate::specs::Reading::alg_at))]
fn alg_at<'a>(seen: Seen<'a>, text: &'a [u8]) -> Result<(Seen<'a>, &'a [u8]), Stop<'a>>
    ensures { Gives state_view result (reading.alg_at (parts_of seen.entry) text.now) }
{
    if seen.alg.is_some() {
        return Err(Stop { left: text });
    }
    let (value, rest) = equals_at(text)?;
    Ok((
        Seen {
            alg: Some(value),
            ..seen
        },
        rest,
    ))
}

/// After the name `ppt`.
#[tactic(auto, unfolding(crate::specs::Reading::ppt_at))]
fn ppt_at<'a>(seen: Seen<'a>, text: &'a [u8]) -> Result<(Seen<'a>, &'a [u8]), Stop<'a>>
    ensures { Gives state_view result (reading.ppt_at (parts_of seen.entry) text.now) }
{
    if seen.ppt.is_some() {
        return Err(Stop { left: text });
    }
    let (value, rest) = equals_at(text)?;
    Ok((
        Seen {
            ppt: Some(value),
            ..seen
        },
        rest,
    ))
}

/// After the name of another parameter and the blanks there: what comes after its value, if it has one.
#[tactic(auto, unfolding(crate::specs::Reading::optional_at))]
fn optional_at(text: &[u8]) -> Result<&[u8], Stop<'_>>
    ensures { Gives slice_view result (reading.optional_at text.now) }
{
    match text {
        [] => Err(Stop { left: text }),
        [b'=', rest @ ..] => {
            let (_, rest) = value_at(skip_blanks(rest))?;
            Ok(rest)
        }
        _ => Ok(text),
    }
}

/// After the name of another parameter, where the value may end.
#[tactic(auto, unfolding(crate::specs::Reading::other_at))]
fn other_at(text: &[u8]) -> Result<&[u8], Stop<'_>>
    ensures { Gives slice_view result (reading.other_at text.now) }
{
    if text.is_empty() {
        return Ok(text);
    }
    optional_at(skip_blanks(text))
}

/// After the name of a parameter.
#[tactic(auto, unfolding(crate::specs::Reading::named_at))]
fn named_at<'a>(
    seen: Seen<'a>,
    name: &[u8],
    text: &'a [u8],
) -> Result<(Seen<'a>, &'a [u8]), Stop<'a>>
    ensures { Gives state_view result (reading.named_at (parts_of seen.entry) name.now text.now) }
{
    if is_word(name, b"info") {
        return Err(Stop { left: text });
    }
    if is_word(name, b"alg") {
        return alg_at(seen, text);
    }
    if is_word(name, b"ppt") {
        return ppt_at(seen, text);
    }
    let rest = other_at(text)?;
    Ok((seen, rest))
}

/// A name, and what comes after it.
fn name_at(text: &[u8]) -> Result<(&[u8], &[u8]), Stop<'_>>
    ensures { Gives split_view result (many_at bytes.is_name_byte text.now) }
{
    some_at(name_len(text), text)
}

/// One parameter with its semicolon, and what comes after it.
#[tactic(auto, unfolding(crate::specs::Reading::param_at))]
fn param_at<'a>(seen: Seen<'a>, text: &'a [u8]) -> Result<(Seen<'a>, &'a [u8]), Stop<'a>>
    ensures { Gives state_view result (reading.param_at (parts_of seen.entry) text.now) }
{
    let rest = byte_at(b';', skip_blanks(text))?;
    let (name, rest) = name_at(skip_blanks(rest))?;
    named_at(seen, name, rest)
}

/// All parameters up to the end of the value.
#[tactic(auto, using(crate::proofs::Turns::turn_ok, crate::proofs::Turns::turn_err, crate::proofs::Turns::turn_last))]
fn params_at<'a>(seen: Seen<'a>, text: &'a [u8]) -> Result<Seen<'a>, Stop<'a>>
    ensures { Gives parts_of result (reading.params_at (parts_of seen.entry) text.now) }
{
    let mut seen = seen;
    let mut left = text;
    'params: while !left.is_empty() {
        let (next, rest) = param_at(seen, left)?;
        seen = next;
        left = rest;
    }
    Ok(seen)
}

/// What comes before the parameters.
#[tactic(auto, unfolding(crate::specs::Reading::head_at))]
fn head_at(value: &[u8]) -> Result<(Seen<'_>, &[u8]), Stop<'_>>
    ensures { Gives state_view result (reading.head_at value.now) }
{
    let (token, rest) = digest_at(value)?;
    let rest = byte_at(b';', skip_blanks(rest))?;
    let rest = word_at(b"info", skip_blanks(rest))?;
    let rest = byte_at(b'=', skip_blanks(rest))?;
    let rest = byte_at(b'<', skip_blanks(rest))?;
    let (info, rest) = uri_at(rest)?;
    let rest = byte_at(b'>', rest)?;
    Ok((
        Seen {
            token,
            info,
            alg: None,
            ppt: None,
        },
        rest,
    ))
}

/// The parts of a value, or the rest from where it can't go on.
#[tactic(auto, unfolding(crate::specs::Reading::field_at))]
pub(crate) fn field_at(value: &[u8]) -> Result<Seen<'_>, Stop<'_>>
    ensures { Gives parts_of result (reading.field_at value.now) }
{
    let (seen, rest) = head_at(value)?;
    params_at(seen, rest)
}
