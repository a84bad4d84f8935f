//! What is signed by the key of a chain that a handle holds: by its first certificate, and the code table and the local
//! numbering of the world under which it was opened.
ghost use Rattle.std.specs.Prelude.{IfErr, IfOk, None, Some};
ghost use Rattle.der_reader.specs.Elem.{AllBytes};
ghost use Rattle.open_calls.specs.Order.{given_of};
ghost use Rattle.open_calls.specs.Signing.{IsSignedBy, IsUnsignedFor, IsUnsignedWith};
ghost use Rattle.stir_c.specs.Keys.{HasKeyOn, key_in};
ghost use Rattle.stir_c.specs.Owned.{view_of_chain};
ghost use Rattle.stir_c.specs.Signing.{ToldUnsigned};

use crate::owner::HeldChain;
use crate::said::Said;
use crate::told_signing::told_to_sign;
use crate::writing::Text;
use open_calls::{Key, OpenChain, Order, Unsigned, leaf_law, signed};
use std::alloc::Global;

/// The digest that is to be signed of a message by the key of a chain, or why there is none.
pub(crate) fn told_digest(
    alloc: Global,
    held: &HeldChain,
    order: &Order<'_>,
    message: &[u8],
) -> Said
    ensures { ToldUnsigned (IsUnsignedFor (key_in (view_of_chain held.now)) (given_of order.now) message.now None)
        result }
{
    let key = Key {
        leaf: held.chain.leaf(),
        table: held.world.table(),
        local: held.world.settings().local,
    };
    told_to_sign(alloc, &key, order, message)
}

/// The message signed by the key of a chain, or why there is none.
pub(crate) fn signed_text(
    alloc: Global,
    held: &HeldChain,
    order: &Order<'_>,
    message: &[u8],
    signature: &[u8],
) -> Result<Text, Unsigned>
    ensures signed { IfOk result (λ text. IsSignedBy (key_in (view_of_chain held.now)) (given_of order.now) message.now
        (Some signature.now) text.bytes.items) }
    ensures unsigned { IfErr result
        (IsUnsignedWith (key_in (view_of_chain held.now)) (given_of order.now) message.now signature.now) }
{
    let key = Key {
        leaf: held.chain.leaf(),
        table: held.world.table(),
        local: held.world.settings().local,
    };
    match signed(alloc, &key, order, message, signature) {
        Ok(bytes) => Ok(Text { bytes }),
        Err(unsigned) => Err(unsigned),
    }
}

/// Does nothing: of whatever bytes a chain was opened, its key is that of these.
#[tactic(auto, using(crate::proofs::KeyLaws::key_on))]
pub(crate) fn key_law(held: &HeldChain)
    ensures { HasKeyOn (view_of_chain held.now) }
{
    leaf_law();
    are_bytes_of(&held.chain);
}

/// Does nothing: the bytes of a chain are bytes.
fn are_bytes_of(chain: &OpenChain)
    ensures { AllBytes chain.now.bytes }
{
    are_bytes(chain.bytes());
}

/// Does nothing: bytes are bytes.
fn are_bytes(bytes: &[u8])
    ensures { AllBytes bytes.now }
{
    let _ = bytes;
}
