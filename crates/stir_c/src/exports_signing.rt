//! What C calls to have a message signed by the key of a chain. `include/stir.h` declares the same.
ghost use Rattle.std.specs.Prelude.{◌≡◌};
ghost use Rattle.open_calls.specs.Order.{diversion, given_of};
ghost use Rattle.stir_c.specs.Handles.{chain_held};
ghost use Rattle.stir_c.specs.Signing.{origin_given};
ghost use Rattle.stir_c.specs.SigningCalls.{TellsSigned, TellsToSign};

use crate::handles::ChainHandle;
use crate::key::{key_law, signed_text, told_digest};
use crate::said::Said;
use crate::told_signing::told_message;
use open_calls::Order;
use std::alloc::Global;

/// What is to be signed of where a call comes from: C's `stir_order`.
#[repr(C)]
#[derive(Clone, Copy)]
pub struct SigningOrder {
    /// When it is signed, in Unix seconds.
    pub iat: u64,
    /// The number of the form: 0 without a type, 1 compact, and for `shaken` the letter of the attestation.
    pub form: u8,
    /// The identifier of the call in 36 characters, if the form is `shaken`; else it isn't looked at.
    pub origid: [u8; 36],
}

impl SigningOrder {
    /// The same with the URI of the key's certificates.
    fn origin<'a>(&'a self, x5u: &'a [u8]) -> Order<'a>
        ensures { given_of result ≡ origin_given self.now x5u.now }
    {
        Order::Origin {
            iat: self.iat,
            form: self.form,
            origid: &self.origid,
            x5u,
        }
    }
}

/// Tells what has to be signed so that a message gets an Identity field (RFC 8224, section 4.1). The field has the
/// PASSporT of the message's calling number and that of To. Kind 0: `ticket` is the digest to be signed. Kind 1:
/// nothing may be signed, for the cause `rule`: 1 the message can't be, 2 it lacks a number, 3 the first certificate of
/// the chain doesn't cover the calling number. Kind 2: the input of this number is at fault; they are looked at in this
/// order: 7 the first certificate, which has to have an authority list, 8 the order. Kind 5: the handle is closed.
#[unsafe(no_mangle)]
pub extern "C" fn stir_to_sign(
    alloc: Global,
    key: &mut ChainHandle,
    order: &SigningOrder,
    x5u: &[u8],
    message: &[u8],
) -> Said
    ensures { TellsToSign (origin_given order.now x5u.now) message.now (chain_held key.old)
        (chain_held key.new) result }
{
    to_sign_on(alloc, key, &order.origin(x5u), message)
}

/// Writes the message with its Identity field, which has this signature over the digest that `stir_to_sign` gives for
/// the same inputs. Whether the signature is good isn't looked at. The kinds are those of `stir_to_sign`; of kind 0
/// `size` bytes are written. Kind 2 may also name the signature, 9, which is looked at first. Kind 4: there is no room
/// for the message.
#[unsafe(no_mangle)]
pub extern "C" fn stir_signed(
    alloc: Global,
    key: &mut ChainHandle,
    order: &SigningOrder,
    x5u: &[u8],
    message: &[u8],
    signature: &[u8],
    room: &mut [u8],
) -> Said
    ensures { TellsSigned (origin_given order.now x5u.now) message.now signature.now (chain_held key.old)
        (chain_held key.new) room.old room.new result }
{
    signed_on(alloc, key, &order.origin(x5u), message, signature, room)
}

/// Tells what has to be signed so that a message tells of its diversion (RFC 8946, section 4.1). The field has a
/// PASSporT of the type `div` from the calling number to that of the request URI; `earlier` is the number that was
/// called before, 1 to 15 bytes of digits, `*` and `#`. The kinds are those of `stir_to_sign`, with the request URI in
/// place of To; the first certificate has to cover the earlier number.
#[unsafe(no_mangle)]
pub extern "C" fn stir_to_divert(
    alloc: Global,
    key: &mut ChainHandle,
    iat: u64,
    earlier: &[u8],
    x5u: &[u8],
    message: &[u8],
) -> Said
    ensures { TellsToSign (diversion iat earlier.now x5u.now) message.now (chain_held key.old)
        (chain_held key.new) result }
{
    let order = Order::Diversion { iat, earlier, x5u };
    to_sign_on(alloc, key, &order, message)
}

/// Writes the message with the Identity field that tells of its diversion, which has this signature over the digest
/// that `stir_to_divert` gives for the same inputs. Whether the signature is good isn't looked at. The kinds are those
/// of `stir_signed`.
#[unsafe(no_mangle)]
pub extern "C" fn stir_diverted(
    alloc: Global,
    key: &mut ChainHandle,
    iat: u64,
    earlier: &[u8],
    x5u: &[u8],
    message: &[u8],
    signature: &[u8],
    room: &mut [u8],
) -> Said
    ensures { TellsSigned (diversion iat earlier.now x5u.now) message.now signature.now (chain_held key.old)
        (chain_held key.new) room.old room.new result }
{
    let order = Order::Diversion { iat, earlier, x5u };
    signed_on(alloc, key, &order, message, signature, room)
}

/// Tells what has to be signed so that a message gets the Identity field of an order.
#[tactic(auto, using(crate::proofs::SigningLaws::to_sign_closed))]
fn to_sign_on(alloc: Global, key: &mut ChainHandle, order: &Order<'_>, message: &[u8]) -> Said
    ensures { TellsToSign (given_of order.now) message.now (chain_held key.old) (chain_held key.new) result }
{
    let owner = match key.take(alloc) {
        Some(owner) => owner,
        None => return Said::closed(),
    };
    let chain = owner.chain();
    let said = told_digest(alloc, chain, order, message);
    key_law(chain);
    *key = ChainHandle::of(owner);
    said
}

/// Writes the message with the Identity field of an order, which has this signature.
#[tactic(auto, using(crate::proofs::SigningLaws::signed_closed))]
fn signed_on(
    alloc: Global,
    key: &mut ChainHandle,
    order: &Order<'_>,
    message: &[u8],
    signature: &[u8],
    room: &mut [u8],
) -> Said
    ensures { TellsSigned (given_of order.now) message.now signature.now (chain_held key.old) (chain_held key.new)
        room.old room.new result }
{
    let owner = match key.take(alloc) {
        Some(owner) => owner,
        None => return Said::closed(),
    };
    let chain = owner.chain();
    let came = signed_text(alloc, chain, order, message, signature);
    key_law(chain);
    *key = ChainHandle::of(owner);
    told_message(came, room)
}
