//! A message with another request URI (RFC 3261, section 7.1).
ghost use Rattle.std.specs.Prelude.{◌≡◌, Ok, IfOk, IsTrue};
ghost use Rattle.sip_message.specs.Head.{Head};
ghost use Rattle.sip_message.specs.HeadAlphabet.{is_target};
ghost use Rattle.sip_message.specs.Message.{MessageView};
ghost use Rattle.sip_message.specs.Reading.{read};
ghost use Rattle.sip_message.specs.Seen.{Gives};
ghost use Rattle.sip_message.specs.Target.{HasOtherUri, targeted, to_uri, with_uri};

use crate::fault::{FormFault, MessageFault};
use crate::message::{MOST_BYTES, Message, SIZE};
use std::alloc::{AllocError, Global};
use text_grammar::cut;

/// The bytes of a message with another request URI: between the first two spaces is this URI, and all else is as it
/// was. Reading them gives the same message with this URI.
///
/// If the bytes are no message, the fault is theirs. Else it is 1, the size, if they would be more than 65,535 with
/// this URI. `Memory` comes only if memory runs out. [`crate::is_target`] tells of the URI.
pub fn with_target(alloc: Global, bytes: &[u8], uri: &[u8]) -> Result<Vec<u8>, MessageFault>
    requires uri { IsTrue (is_target uri.now) }
    ensures exact { Gives (λ out. out.items) result (targeted bytes.now uri.now) }

    // Between its first two spaces is the URI, and before and after them is what was there.
    ensures written { IfOk result (λ out. HasOtherUri bytes.now uri.now out.items) }

    // What comes out is the message with this URI, and is read as this.
    ensures head { (message : MessageView) → Head bytes.now message
        → IfOk result (λ out. Head out.items (to_uri message uri.now)) }
    ensures read_again { (message : MessageView) → read bytes.now ≡ Ok message
        → IfOk result (λ out. read out.items ≡ Ok (to_uri message uri.now)) }
{
    with_target_exactly(alloc, bytes, uri)
}

/// The same, or the first fault.
#[tactic(auto, unfolding(crate::specs::Target::targeted))]
fn with_target_exactly(alloc: Global, bytes: &[u8], uri: &[u8]) -> Result<Vec<u8>, MessageFault>
    ensures { Gives (λ out. out.items) result (targeted bytes.now uri.now) }
{
    Message::read(alloc, bytes)?;
    let out = with_uri(alloc, bytes, uri)?;
    if out.len() > MOST_BYTES {
        return Err(MessageFault::Form(FormFault {
            kind: SIZE,
            place: MOST_BYTES as u32,
        }));
    }
    Ok(out)
}

/// The bytes with this between their first two spaces; nothing if there aren't two.
fn with_uri(alloc: Global, bytes: &[u8], uri: &[u8]) -> Result<Vec<u8>, AllocError>
    ensures { IfOk result (λ out. out.items ≡ with_uri bytes.now uri.now) }
{
    let mut out = Vec::new(alloc);
    let Some((method, rest)) = cut(bytes, b' ') else {
        return Ok(out);
    };
    let Some((_, behind)) = cut(rest, b' ') else {
        return Ok(out);
    };
    out.extend_from_slice(method)?;
    out.extend_from_slice(b" ")?;
    out.extend_from_slice(uri)?;
    out.extend_from_slice(b" ")?;
    out.extend_from_slice(behind)?;
    Ok(out)
}
