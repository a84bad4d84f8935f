//! A message with the bytes that it was read from.
ghost use Rattle.std.specs.Prelude.{◌≡◌, Ok, IfOk, IsTrue};
ghost use Rattle.sip_message.specs.Added.{added, is_addable, is_field_value, with_last, with_line_at};
ghost use Rattle.sip_message.specs.Head.{Head};
ghost use Rattle.sip_message.specs.Message.{MessageView};
ghost use Rattle.sip_message.specs.Reading.{read};
ghost use Rattle.sip_message.specs.Seen.{Gives};

use crate::added::sized_with_line_at;
use crate::fault::MessageFault;
use crate::message::{Message, message_of, read_parts};
use std::alloc::Global;
use std::marker::Model;

/// A message with the bytes that it was read from, so that a field is put into them without reading them again.
#[derive(Drop)]
pub struct MessageText<'a> {
    bytes: &'a [u8],
    message: Message<'a>,
    end: u32,
}

impl<'a> Model for MessageText<'a> {
    ghost use Rattle.sip_message.specs.MessageText.{IsReadAs, MessageTextView};

    ghost Value = { MessageTextView };

    ghost view = { λ t. record { bytes = t.bytes.now; message = t.message } };

    ghost invariant = { λ t. IsReadAs t.bytes.now t.message t.end };
}

impl<'a> MessageText<'a> {
    /// Reads the head of a message, as [`Message::read`] does, with the same faults.
    #[tactic(auto, using(crate::proofs::ShortLaws::read_short))]
    pub fn read(alloc: Global, bytes: &'a [u8]) -> Result<MessageText<'a>, MessageFault>
        ensures exact { Gives (λ text. text.message) result (read bytes.now) }
        ensures bytes { IfOk result (λ text. text.bytes ≡ bytes.now) }
    {
        let parts = read_parts(alloc, bytes)?;
        let end = parts.end;
        Ok(MessageText {
            bytes,
            message: message_of(parts),
            end,
        })
    }

    /// The message.
    pub fn message(&self) -> &Message<'a>
        ensures message { result.now ≡ self.now.message }
        ensures read { read self.now.bytes ≡ Ok self.now.message }
    {
        &self.message
    }

    /// The bytes with one more header field, as [`with_field`](crate::with_field) gives them.
    ///
    /// The fault is 1, the size, if they would be more than 65,535. `Memory` comes only if memory runs out.
    pub fn with_field(
        &self,
        alloc: Global,
        name: &[u8],
        value: &[u8],
    ) -> Result<Vec<u8>, MessageFault>
        requires name { IsTrue (is_addable name.now) }
        requires value { IsTrue (is_field_value value.now) }
        ensures exact { Gives (λ out. out.items) result (added self.now.bytes name.now value.now) }

        // The line is at the place of the empty line that ends the head.
        ensures placed { (message : MessageView) (head : Head self.now.bytes message)
            → IfOk result (λ out. out.items ≡ with_line_at head.empty.place self.now.bytes name.now value.now) }

        // What comes out is the message with the field after all others, and is read as this.
        ensures head { (message : MessageView) → Head self.now.bytes message
            → IfOk result (λ out. Head out.items (with_last message name.now value.now)) }
        ensures read_again { IfOk result (λ out. read out.items ≡ Ok (with_last self.now.message name.now value.now)) }
    {
        self.with_field_exactly(alloc, name, value)
    }

    /// The same, or the fault of the size.
    #[tactic(auto, unfolding(crate::specs::Added::added), using(crate::proofs::EndLaws::end_within))]
    pub(crate) fn with_field_exactly(
        &self,
        alloc: Global,
        name: &[u8],
        value: &[u8],
    ) -> Result<Vec<u8>, MessageFault>
        ensures exact { Gives (λ out. out.items) result (added self.now.bytes name.now value.now) }
        ensures read { read self.now.bytes ≡ Ok self.now.message }
    {
        sized_with_line_at(alloc, self.bytes, self.end as usize, name, value)
    }
}
