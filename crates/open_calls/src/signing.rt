//! A message signed by a signature that is handed in, or the digest for which there is none yet.
ghost use Rattle.std.specs.Prelude.{◌≡◌, IfErr, IfOk, None, Some};
ghost use Rattle.open_calls.specs.Key.{key_of};
ghost use Rattle.open_calls.specs.Order.{given_of};
ghost use Rattle.open_calls.specs.Signing.{IsSignedBy, IsUnsignedFor, IsUnsignedWith, signature_in};

use crate::key::Key;
use crate::order::Order;
use crate::unsigned::{Unread, Unsigned};
use std::alloc::Global;

/// What is signed of a message by a key, by this signature or by none.
#[tactic(auto, using(crate::proofs::SigningLaws::signed_by, crate::proofs::SigningLaws::unsigned_for, crate::proofs::SigningLaws::bad_order))]
fn sign_by(
    alloc: Global,
    key: &Key<'_>,
    order: &Order<'_>,
    message: &[u8],
    made: Option<[u8; 64]>,
) -> Result<Vec<u8>, Unsigned>
    ensures signed { IfOk result (λ out. IsSignedBy (key_of key.now) (given_of order.now) message.now made out.items) }
    ensures unsigned { IfErr result (IsUnsignedFor (key_of key.now) (given_of order.now) message.now made) }
{
    let Some(holder) = key.holder() else {
        return Err(Unsigned::Input(Unread::Certificate));
    };
    let Some(wanted) = order.wanted(key.local) else {
        return Err(Unsigned::Input(Unread::Order));
    };
    match wanted.sign(alloc, message, &holder, made) {
        Ok(out) => Ok(out),
        Err(unsigned) => Err(unsigned),
    }
}

/// What has to be signed so that a message gets the Identity field of an order (RFC 8224, section 4.1; RFC 8946,
/// section 4.1): without a signature nothing is signed, at the best since there is none for a digest. The key's first
/// certificate is looked at first, and then the order.
#[tactic(auto, using(crate::proofs::SigningLaws::not_signed))]
pub fn to_sign(alloc: Global, key: &Key<'_>, order: &Order<'_>, message: &[u8]) -> Unsigned
    // Nothing is withheld, and this is the digest of what has to be signed; or why nothing may be, or which input is at
    // fault.
    ensures { IsUnsignedFor (key_of key.now) (given_of order.now) message.now None result }
{
    match sign_by(alloc, key, order, message, None) {
        Ok(_) => unreachable!(),
        Err(unsigned) => unsigned,
    }
}

/// The message with its Identity field, which has these bytes as its signature: r and s in 32 bytes each (RFC 7518,
/// section 3.4). Whether they are a good one isn't looked at. How many they are is looked at first.
#[tactic(auto, using(crate::proofs::SigningLaws::signed_with, crate::proofs::SigningLaws::unsigned_with, crate::proofs::SigningLaws::no_signature))]
pub fn signed(
    alloc: Global,
    key: &Key<'_>,
    order: &Order<'_>,
    message: &[u8],
    signature: &[u8],
) -> Result<Vec<u8>, Unsigned>
    ensures signed { IfOk result
        (λ out. IsSignedBy (key_of key.now) (given_of order.now) message.now (Some signature.now) out.items) }
    ensures unsigned { IfErr result (IsUnsignedWith (key_of key.now) (given_of order.now) message.now signature.now) }
{
    let Some(made) = signature_in(signature) else {
        return Err(Unsigned::Input(Unread::Signature));
    };
    match sign_by(alloc, key, order, message, Some(made)) {
        Ok(out) => Ok(out),
        Err(unsigned) => Err(unsigned),
    }
}

/// The signature that bytes are.
pub(crate) fn signature_in(bytes: &[u8]) -> Option<[u8; 64]>
    ensures { result ≡ signature_in bytes.now }
{
    match <[u8; 64]>::try_from(bytes) {
        Ok(signature) => Some(signature),
        Err(_) => None,
    }
}
