//! The value of a header field, put together from its lines.
ghost use Rattle.std.specs.Prelude.{◌≡◌, ◌∷◌, ◌++◌, IfOk, OnOk};
ghost use Rattle.sip_message.specs.Lines.{behind_continuations, continuations};
ghost use Rattle.sip_message.specs.Seen.{value_seen};
ghost use Rattle.sip_message.specs.Value.{extended, trimmed, trimmed_end, trimmed_front, value_of};

use crate::lines::Lines;
use std::alloc::{AllocError, Global};

/// A value: a view if it is in one line, its own bytes if it was joined of several.
#[derive(Debug, Drop)]
pub(crate) enum Value<'a> {
    View(&'a [u8]),
    Joined(Vec<u8>),
}

impl<'a> Value<'a> {
    /// The bytes of the value.
    pub(crate) fn bytes(&self) -> &[u8]
        ensures { result.now ≡ value_seen self.now }
    {
        match self {
            Value::View(text) => text,
            Value::Joined(bytes) => bytes.as_slice(),
        }
    }

    /// The value with one more part.
    fn extended(self, alloc: Global, part: &'a [u8]) -> Result<Value<'a>, AllocError>
        ensures { IfOk result (λ value. value_seen value ≡ extended (value_seen self.entry) part.now) }
    {
        if part.is_empty() {
            return Ok(self);
        }
        if self.bytes().is_empty() {
            return Ok(Value::View(part));
        }
        match self {
            Value::View(text) => joined(text.to_vec(alloc)?, part),
            Value::Joined(bytes) => joined(bytes, part),
        }
    }
}

/// The value with a space and one more part after it.
fn joined<'a>(mut bytes: Vec<u8>, part: &[u8]) -> Result<Value<'a>, AllocError>
    ensures { IfOk result (λ value. value_seen value ≡ bytes.items ++ 32 ∷ part.now) }
{
    bytes.push(b' ')?;
    bytes.extend_from_slice(part)?;
    Ok(Value::Joined(bytes))
}

/// Reads the value that begins with `rest` and goes on over the continuations at the beginning of the lines.
#[tactic(auto, using(crate::proofs::ValueSteps::value_joined))]
pub(crate) fn read_value<'a>(
    alloc: Global,
    rest: &'a [u8],
    lines: &mut Lines<'a>,
) -> Result<Value<'a>, AllocError>
    ensures value { IfOk result (λ value. value_seen value ≡ value_of rest.now (continuations lines.old)) }
    ensures left { OnOk result (lines.new ≡ behind_continuations lines.old) }
{
    let mut value = Value::View(trimmed(rest));
    'parts: while let Some(text) = lines.next_continuation() {
        value = value.extended(alloc, trimmed(text))?;
    }
    Ok(value)
}

/// A text without the blanks at its ends.
pub(crate) fn trimmed(text: &[u8]) -> &[u8]
    ensures { result.now ≡ trimmed text.now }
{
    trimmed_end(trimmed_front(text))
}

/// A text without the blanks at its beginning.
fn trimmed_front(text: &[u8]) -> &[u8]
    ensures { result.now ≡ trimmed_front text.now }
{
    let mut left = text;
    'blanks: while let [b' ' | b'\t', rest @ ..] = left {
        left = rest;
    }
    left
}

/// A text without the blanks at its end.
pub(crate) fn trimmed_end(text: &[u8]) -> &[u8]
    ensures { result.now ≡ trimmed_end text.now }
{
    let mut left = text;
    'blanks: while let [rest @ .., b' ' | b'\t'] = left {
        left = rest;
    }
    left
}
