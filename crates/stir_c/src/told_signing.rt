//! What is told of a message that is signed by the key of a chain, or of the digest that is to be signed.
ghost use Rattle.std.specs.Prelude.{None};
ghost use Rattle.open_calls.specs.Key.{key_of};
ghost use Rattle.open_calls.specs.Order.{given_of};
ghost use Rattle.open_calls.specs.Signing.{IsUnsignedFor};
ghost use Rattle.stir_c.specs.Signing.{ToldCame, ToldUnsigned};

use crate::said::{Said, said_of_unsigned};
use crate::writing::{Text, told_text};
use open_calls::{Key, Order, Unsigned, to_sign};
use std::alloc::Global;

/// The digest that is to be signed of a message by a key, or why there is none.
#[tactic(auto, using(crate::proofs::SigningLaws::told_unsigned))]
pub(crate) fn told_to_sign(alloc: Global, key: &Key<'_>, order: &Order<'_>, message: &[u8]) -> Said
    ensures { ToldUnsigned (IsUnsignedFor (key_of key.now) (given_of order.now) message.now None) result }
{
    said_of_unsigned(to_sign(alloc, key, order, message))
}

/// A signed message, written into the room and told; or why there is none.
pub(crate) fn told_message(came: Result<Text, Unsigned>, room: &mut [u8]) -> Said
    ensures { ToldCame came room.old room.new result }
{
    match came {
        Ok(text) => told_text(&text, room),
        Err(unsigned) => said_of_unsigned(unsigned),
    }
}
