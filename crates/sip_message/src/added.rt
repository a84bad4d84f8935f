//! A message with one more header field.
ghost use Rattle.std.specs.Prelude.{◌≡◌, ◌≤◌, length, Ok, IfOk, IsTrue};
ghost use Rattle.sip_message.specs.Added.{added, is_addable, is_field_value, sized, with_last, with_line_at};
ghost use Rattle.sip_message.specs.Head.{Head};
ghost use Rattle.sip_message.specs.Message.{MessageView};
ghost use Rattle.sip_message.specs.Reading.{read};
ghost use Rattle.sip_message.specs.Seen.{Gives};
ghost use Rattle.text_grammar.specs.Cut.{lacks};

use crate::alphabet::is_name;
use crate::fault::{FormFault, MessageFault};
use crate::known::Known;
use crate::message::{MOST_BYTES, SIZE};
use crate::text::MessageText;
use crate::value::trimmed;
use std::alloc::{AllocError, Global};

/// Whether a header field of this name may be added to a message: it is a field name (RFC 3261, section 25.1) other
/// than From and To and their short forms, of which a message has exactly one each.
pub fn is_addable(name: &[u8]) -> bool
    ensures { result ≡ is_addable name.now }
{
    is_name(name) && !(Known::From.is_named(name) || Known::To.is_named(name))
}

/// Whether a text can be the value of a header field in one line as it is: it isn't empty, has no space or tab at
/// either end, and neither CR nor LF in it.
pub fn is_field_value(value: &[u8]) -> bool
    ensures { result ≡ is_field_value value.now }
{
    match value {
        [] => false,
        _ => trimmed(value) == value && lacks(value, b'\r') && lacks(value, b'\n'),
    }
}

/// Whether no byte of a text is this one.
fn lacks(text: &[u8], byte: u8) -> bool
    ensures { result ≡ lacks byte text.now }
{
    text.iter().all(|other| *other != byte)
}

/// The bytes of a message with one more header field: its name, a colon, a space, its value, CR and LF come directly
/// before the empty line that ends the head (RFC 3261, section 7.5). Reading them gives the same message with this
/// field as the last.
///
/// If the bytes are no message, the fault is theirs. Else it is 1, the size, if they would be more than 65,535 with the
/// field. `Memory` comes only if memory runs out. [`is_addable`] tells of the name and [`is_field_value`] of the value.
pub fn with_field(
    alloc: Global,
    bytes: &[u8],
    name: &[u8],
    value: &[u8],
) -> Result<Vec<u8>, MessageFault>
    requires name { IsTrue (is_addable name.now) }
    requires value { IsTrue (is_field_value value.now) }
    ensures exact { Gives (λ out. out.items) result (added bytes.now name.now value.now) }

    // The line is at the place of the empty line that ends the head.
    ensures placed { (message : MessageView) (head : Head bytes.now message)
        → IfOk result (λ out. out.items ≡ with_line_at head.empty.place bytes.now name.now value.now) }

    // What comes out is the message with the field after all others, and is read as this.
    ensures head { (message : MessageView) → Head bytes.now message
        → IfOk result (λ out. Head out.items (with_last message name.now value.now)) }
    ensures read_again { (message : MessageView) → read bytes.now ≡ Ok message
        → IfOk result (λ out. read out.items ≡ Ok (with_last message name.now value.now)) }
{
    with_field_exactly(alloc, bytes, name, value)
}

/// The same, or the first fault.
#[tactic(auto, unfolding(crate::specs::Added::added))]
fn with_field_exactly(
    alloc: Global,
    bytes: &[u8],
    name: &[u8],
    value: &[u8],
) -> Result<Vec<u8>, MessageFault>
    ensures { Gives (λ out. out.items) result (added bytes.now name.now value.now) }
{
    let text = MessageText::read(alloc, bytes)?;
    text.with_field_exactly(alloc, name, value)
}

/// The bytes with the field in a line at this place, if they aren't too many.
pub(crate) fn sized_with_line_at(
    alloc: Global,
    bytes: &[u8],
    place: usize,
    name: &[u8],
    value: &[u8],
) -> Result<Vec<u8>, MessageFault>
    requires { place ≤ length bytes.now }
    ensures { Gives (λ out. out.items) result (sized (with_line_at place bytes.now name.now value.now)) }
{
    let out = with_line_at(alloc, bytes, place, name, value)?;
    if out.len() > MOST_BYTES {
        return Err(MessageFault::Form(FormFault {
            kind: SIZE,
            place: MOST_BYTES as u32,
        }));
    }
    Ok(out)
}

/// The bytes with the field in a line at this place.
fn with_line_at(
    alloc: Global,
    bytes: &[u8],
    place: usize,
    name: &[u8],
    value: &[u8],
) -> Result<Vec<u8>, AllocError>
    requires { place ≤ length bytes.now }
    ensures { IfOk result (λ out. out.items ≡ with_line_at place bytes.now name.now value.now) }
{
    let (head, rest) = bytes.split_at(place);
    let mut out = Vec::new(alloc);
    out.extend_from_slice(head)?;
    out.extend_from_slice(name)?;
    out.extend_from_slice(b": ")?;
    out.extend_from_slice(value)?;
    out.extend_from_slice(b"\r\n")?;
    out.extend_from_slice(rest)?;
    Ok(out)
}
