//! What is told of a call that a handle holds, and that is to go on.
ghost use Rattle.std.specs.Prelude.{◌≡◌, IfErr, IfOk, None, Some};
ghost use Rattle.open_calls.specs.Going.{given_of};
ghost use Rattle.open_calls.specs.Unmoved.{IsMovedBy, IsUnmovedFor, IsUnmovedWith};
ghost use Rattle.stir_c.specs.Owned.{view_of_call, view_of_chain};
ghost use Rattle.stir_c.specs.Retarget.{ToldCame, ToldUnmoved, given_by};

use crate::owner::{HeldCall, HeldChain};
use crate::said::{Said, said_of_unmoved};
use crate::writing::{Text, told_text};
use open_calls::{OpenChains, Retargeting, Target, Unmoved, Unread, retargeted, to_retarget};
use std::alloc::Global;

/// What is handed in beside a call and a key.
#[derive(Clone, Copy)]
pub(crate) struct Moving<'a> {
    /// Which of the call's own questions are confirmed.
    pub(crate) good: &'a [u8],
    /// The request URI of the message that goes on.
    pub(crate) uri: &'a [u8],
    /// The URI of the key's chain.
    pub(crate) x5u: &'a [u8],
    /// When it is signed.
    pub(crate) iat: u64,
}

impl<'a> Moving<'a> {
    /// The call that a handle holds, over these chains of it, and where it goes on by a key.
    fn retargeting(
        &self,
        held: &'a HeldCall,
        by: &'a HeldChain,
        chains: &'a OpenChains<'a>,
    ) -> Retargeting<'a>
        requires { chains.now ≡ held.now.chains }
        ensures { given_of result ≡ given_by (view_of_call held.now) (view_of_chain by.now) self.now }
    {
        Retargeting {
            world: &held.world,
            call: &held.call,
            chains,
            good: self.good,
            target: Target {
                uri: self.uri,
                leaf: by.chain.leaf(),
                x5u: self.x5u,
                iat: self.iat,
            },
        }
    }
}

/// Why a call doesn't go on without a signature, at the best since there is none for a digest.
pub(crate) fn told_unmoved(
    alloc: Global,
    held: &HeldCall,
    by: &HeldChain,
    moving: &Moving<'_>,
) -> Said
    ensures { ToldUnmoved (IsUnmovedFor (given_by (view_of_call held.now) (view_of_chain by.now) moving.now) None)
        result }
{
    let chains = match held.chains.open(alloc) {
        Ok(chains) => chains,
        Err(_) => return Said::no_memory(),
    };
    told_by(alloc, held, by, &chains, moving)
}

/// The same, over chains that are lent.
fn told_by(
    alloc: Global,
    held: &HeldCall,
    by: &HeldChain,
    chains: &OpenChains<'_>,
    moving: &Moving<'_>,
) -> Said
    requires { chains.now ≡ held.now.chains }
    ensures { ToldUnmoved (IsUnmovedFor (given_by (view_of_call held.now) (view_of_chain by.now) moving.now) None)
        result }
{
    let retargeting = moving.retargeting(held, by, chains);
    said_of_unmoved(to_retarget(alloc, &retargeting))
}

/// The message that goes on, or why there is none.
pub(crate) fn moved_text(
    alloc: Global,
    held: &HeldCall,
    by: &HeldChain,
    moving: &Moving<'_>,
    signature: &[u8],
) -> Result<Text, Unmoved>
    ensures moved { IfOk result (λ text. IsMovedBy (given_by (view_of_call held.now) (view_of_chain by.now) moving.now)
        (Some signature.now) text.bytes.items) }
    ensures unmoved { IfErr result
        (IsUnmovedWith (given_by (view_of_call held.now) (view_of_chain by.now) moving.now) signature.now) }
{
    let chains = match held.chains.open(alloc) {
        Ok(chains) => chains,
        Err(_) => return Err(Unmoved::Input(Unread::Memory)),
    };
    text_by(alloc, held, by, &chains, moving, signature)
}

/// The same, over chains that are lent.
fn text_by(
    alloc: Global,
    held: &HeldCall,
    by: &HeldChain,
    chains: &OpenChains<'_>,
    moving: &Moving<'_>,
    signature: &[u8],
) -> Result<Text, Unmoved>
    requires { chains.now ≡ held.now.chains }
    ensures moved { IfOk result (λ text. IsMovedBy (given_by (view_of_call held.now) (view_of_chain by.now) moving.now)
        (Some signature.now) text.bytes.items) }
    ensures unmoved { IfErr result
        (IsUnmovedWith (given_by (view_of_call held.now) (view_of_chain by.now) moving.now) signature.now) }
{
    let retargeting = moving.retargeting(held, by, chains);
    match retargeted(alloc, &retargeting, signature) {
        Ok(bytes) => Ok(Text { bytes }),
        Err(unmoved) => Err(unmoved),
    }
}

/// A message that goes on, written into the room and told; or why there is none.
pub(crate) fn told_moved(came: Result<Text, Unmoved>, room: &mut [u8]) -> Said
    ensures { ToldCame came room.old room.new result }
{
    match came {
        Ok(text) => told_text(&text, room),
        Err(unmoved) => said_of_unmoved(unmoved),
    }
}
