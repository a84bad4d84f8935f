//! An open call sent on by a signature that is handed in, or the digest for which there is none yet.
ghost use Rattle.std.specs.Prelude.{◌≡◌, IfErr, IfOk, IsTrue, None, Some, length};
ghost use Rattle.open_calls.specs.OpenChains.{states_of};
ghost use Rattle.auth_service.specs.Order.{holder_of};
ghost use Rattle.open_calls.specs.Signing.{signature_in, signs_of};
ghost use Rattle.retarget.specs.Hop.{hop_of, is_hop};
ghost use Rattle.retarget.specs.Screened.{IsScreenedFor};
ghost use Rattle.open_calls.specs.Going.{given_of, going_by};
ghost use Rattle.open_calls.specs.Onward.{IsHeld, IsOnward};
ghost use Rattle.open_calls.specs.Unmoved.{IsMovedBy, IsNamed, IsUnmovedFor, IsUnmovedWith};

use crate::chains::OpenChains;
use crate::confirmed::Confirmed;
use crate::key::Key;
use crate::retargeting::Retargeting;
use crate::signing::signature_in;
use crate::unmoved::{Unmoved, why};
use crate::unsigned::Unread;
use auth_service::Holder;
use cert_store::Question;
use retarget::{Hop, HopFault, retarget};
use std::alloc::Global;
use verify_rules::Screened;

/// What has to be signed so that a call goes on to a target, over its chains, one for each PASSporT, if these of its
/// own questions were confirmed: there is a byte for each, which is 0 if it wasn't. Without a signature nothing goes
/// on, at the best since there is none for a digest. The first certificate is looked at first, then the URI and the
/// second, and then the call.
#[tactic(auto, using(crate::proofs::MovedLaws::not_moved))]
pub fn to_retarget(alloc: Global, retargeting: &Retargeting<'_>) -> Unmoved
    // The call passes and may go on there, and this is the digest of what has to be signed; or why it doesn't, or which
    // input is at fault.
    ensures { IsUnmovedFor (given_of retargeting.now) None result }
{
    match move_by(alloc, retargeting, None) {
        Ok(_) => unreachable!(),
        Err(unmoved) => unmoved,
    }
}

/// The message that goes on, with the target as its request URI and one more Identity field, which has these bytes as
/// its signature: r and s in 32 bytes each (RFC 7518, section 3.4). Whether they are a good one isn't looked at. How
/// many they are is looked at first.
#[tactic(auto, using(crate::proofs::MovedLaws::moved_with, crate::proofs::MovedLaws::unmoved_with, crate::proofs::MovedLaws::no_memory_with, crate::proofs::MovedLaws::no_signature))]
pub fn retargeted(
    alloc: Global,
    retargeting: &Retargeting<'_>,
    signature: &[u8],
) -> Result<Vec<u8>, Unmoved>
    ensures moved { IfOk result (λ out. IsMovedBy (given_of retargeting.now) (Some signature.now) out.items) }
    ensures unmoved { IfErr result (IsUnmovedWith (given_of retargeting.now) signature.now) }
{
    let Some(made) = signature_in(signature) else {
        return Err(Unmoved::Input(Unread::Signature));
    };
    match move_by(alloc, retargeting, Some(made)) {
        Ok(out) => Ok(out),
        // There is a signature for each digest, so this doesn't come.
        Err(Unmoved::Digest(_)) => Err(Unmoved::Input(Unread::Memory)),
        Err(unmoved) => Err(unmoved),
    }
}

/// The same by this signature or by none.
fn move_by(
    alloc: Global,
    retargeting: &Retargeting<'_>,
    made: Option<[u8; 64]>,
) -> Result<Vec<u8>, Unmoved>
    ensures moved { IfOk result (λ out. IsMovedBy (given_of retargeting.now) made out.items) }
    ensures unmoved { IfErr result (IsUnmovedFor (given_of retargeting.now) made) }
{
    let Retargeting {
        world,
        call,
        chains,
        good,
        target,
    } = *retargeting;
    let local = call.settings().local;
    let key = Key {
        leaf: target.leaf,
        table: world.table(),
        local,
    };
    let Some(holder) = key.holder() else {
        return Err(Unmoved::Input(Unread::Certificate));
    };
    let hop = target.hop(local);
    if !hop.is_valid() {
        return Err(Unmoved::Input(Unread::Order));
    }
    let screened = match call.screened() {
        Ok(screened) => screened,
        Err(refusal) => return Err(Unmoved::Refused(refusal)),
    };
    let asked = match call.questions(alloc, world, chains) {
        Ok(asked) => asked,
        Err(_) => return Err(Unmoved::Input(Unread::Memory)),
    };
    let mut host = Confirmed::new(asked.questions.as_slice(), good, made);
    match onward(
        alloc,
        call.message(),
        screened,
        chains,
        call.moment(),
        &hop,
        &holder,
        &mut host,
    ) {
        Ok(out) => Ok(out),
        Err(fault) => Err(why(fault)),
    }
}

/// What the gateway does with a screened call, by what its host confirmed.
#[tactic(auto, using(crate::proofs::OnwardLaws::named))]
fn onward(
    alloc: Global,
    bytes: &[u8],
    screened: &Screened,
    chains: &OpenChains<'_>,
    moment: u64,
    hop: &Hop<'_>,
    holder: &Holder<'_>,
    host: &mut Confirmed<'_>,
) -> Result<Vec<u8>, HopFault>
    requires screened { IsScreenedFor bytes.now moment hop.now.local screened.now }
    requires one_each { length (states_of chains.now) ≡ length screened.now.readings }
    requires hop { IsTrue (is_hop (hop_of hop.now)) }
    ensures onward { IfOk result
        (λ out. IsOnward (going_by bytes.now moment screened.now.readings (states_of chains.now) host.old.good
        (hop_of hop.now) (holder_of holder.now)) (signs_of host.old.made) out.items) }
    ensures held { IfErr result (IsHeld (going_by bytes.now moment screened.now.readings (states_of chains.now)
        host.old.good (hop_of hop.now) (holder_of holder.now)) (signs_of host.old.made)) }
    ensures named { IfErr result IsNamed }
{
    chains.known();
    match retarget(alloc, bytes, screened, chains, moment, hop, holder, host) {
        Ok(out) => Ok(out),
        Err(fault) => Err(fault),
    }
}
