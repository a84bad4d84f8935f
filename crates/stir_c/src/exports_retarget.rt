//! What C calls to send a call on to another number. `include/stir.h` declares the same.
ghost use Rattle.std.specs.Prelude.{◌≡◌, ◌≤◌, ◌⊎◌, None, Some};
ghost use Rattle.open_calls.specs.Unmoved.{IsMovedBy, IsUnmovedFor, IsUnmovedWith};
ghost use Rattle.stir_c.specs.Handles.{call_held, chain_held};
ghost use Rattle.stir_c.specs.Retarget.{IfBothOpen, ToldMoved, ToldUnmoved, given_on};

use crate::handles::{CallHandle, ChainHandle};
use crate::moving::{Moving, moved_text, told_moved, told_unmoved};
use crate::said::Said;
use std::alloc::Global;

/// Tells what has to be signed so that a call goes on to a target (RFC 8946, section 4): the call is judged over the
/// chains that were handed in, by `good` as of `stir_call_judge`. Kind 0: it passes and may go on there; `ticket` is
/// the digest to be signed. Kind 1: it breaks `rule` first, at `field` and `part`; or it passes and can't go on there,
/// for the cause `rule`, 21 to 25. Kind 2: the input of this number is at fault; they are looked at in this order: 7
/// the first certificate of the key's chain, which has to have an authority list, 8 the x5u and the second. Kind 5: a
/// handle is closed.
#[unsafe(no_mangle)]
pub extern "C" fn stir_to_retarget(
    alloc: Global,
    call: &mut CallHandle,
    good: &[u8],
    key: &mut ChainHandle,
    iat: u64,
    target: &[u8],
    x5u: &[u8],
) -> Said
    ensures kinds { (result.kind ≤ 3) ⊎ (result.kind ≡ 5) }
    ensures call_stays { call_held call.new ≡ call_held call.old }
    ensures key_stays { chain_held key.new ≡ chain_held key.old }

    // What the gateway promises over exactly these chains and these answers, without a signature.
    ensures told { IfBothOpen (call_held call.old) (chain_held key.old)
        (λ held by. ToldUnmoved (IsUnmovedFor (given_on held by good.now target.now x5u.now iat) None) result) result }
    ensures closed { result.kind ≡ 5 → (call_held call.old ≡ None) ⊎ (chain_held key.old ≡ None) }
{
    let owner = match call.take(alloc) {
        Some(owner) => owner,
        None => return Said::closed(),
    };
    let signer = match key.take(alloc) {
        Some(signer) => signer,
        None => {
            *call = CallHandle::of(owner);
            return Said::closed();
        }
    };
    let moving = Moving {
        good,
        uri: target,
        x5u,
        iat,
    };
    let said = told_unmoved(alloc, owner.call(), signer.chain(), &moving);
    *call = CallHandle::of(owner);
    *key = ChainHandle::of(signer);
    said
}

/// Writes the message that goes on: the call's with the target as its request URI and one more Identity field, which
/// has this signature over the digest that `stir_to_retarget` gives for the same inputs. Whether the signature is good
/// isn't looked at. The kinds are those of `stir_to_retarget`; of kind 0 `size` bytes are written. Kind 2 may also name
/// the signature, 9, which is looked at first. Kind 4: there is no room for the message.
#[unsafe(no_mangle)]
pub extern "C" fn stir_retargeted(
    alloc: Global,
    call: &mut CallHandle,
    good: &[u8],
    key: &mut ChainHandle,
    iat: u64,
    target: &[u8],
    x5u: &[u8],
    signature: &[u8],
    room: &mut [u8],
) -> Said
    ensures kinds { result.kind ≤ 5 }
    ensures call_stays { call_held call.new ≡ call_held call.old }
    ensures key_stays { chain_held key.new ≡ chain_held key.old }

    // What the gateway promises over exactly these chains and these answers, by this signature.
    ensures told { IfBothOpen (call_held call.old) (chain_held key.old) (λ held by.
        ToldMoved (IsMovedBy (given_on held by good.now target.now x5u.now iat) (Some signature.now)) (IsUnmovedWith
        (given_on held by good.now target.now x5u.now iat) signature.now) room.old room.new result) result }
    ensures closed { result.kind ≡ 5 → (call_held call.old ≡ None) ⊎ (chain_held key.old ≡ None) }
    ensures as_was { 1 ≤ result.kind → room.new ≡ room.old }
{
    let owner = match call.take(alloc) {
        Some(owner) => owner,
        None => return Said::closed(),
    };
    let signer = match key.take(alloc) {
        Some(signer) => signer,
        None => {
            *call = CallHandle::of(owner);
            return Said::closed();
        }
    };
    let moving = Moving {
        good,
        uri: target,
        x5u,
        iat,
    };
    let came = moved_text(alloc, owner.call(), signer.chain(), &moving, signature);
    *call = CallHandle::of(owner);
    *key = ChainHandle::of(signer);
    told_moved(came, room)
}
