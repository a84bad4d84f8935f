//! What the authentication service is asked to sign, and what it answers.
ghost use Rattle.std.specs.Prelude.{◌≡◌, false, IfErr, IfOk, IsTrue, Some};
ghost use Rattle.auth_service.specs.Answer.{is_provider};
ghost use Rattle.auth_service.specs.Order.{holder_of, is_order};
ghost use Rattle.auth_service.specs.Promise.{IsPromised};
ghost use Rattle.open_calls.specs.Order.{wanted_of};
ghost use Rattle.open_calls.specs.Signing.{GivesMessage, IsUnsignedBy, signs_of, why_of};

use crate::confirmed::Confirmed;
use crate::unsigned::{Unread, Unsigned};
use auth_service::{DivertOrder, Holder, SignFault, SignOrder, divert, sign};
use std::alloc::Global;

/// What the authentication service is asked to sign.
#[derive(Clone, Copy)]
pub(crate) enum Wanted<'a> {
    /// Where the call comes from.
    Origin(SignOrder<'a>),
    /// That it goes to another number than before.
    Diversion(DivertOrder<'a>),
}

impl Wanted<'_> {
    /// Whether its URI, its second and the identifier of the call are of their forms.
    pub(crate) fn is_valid(&self) -> bool
        ensures { result ≡ is_order (wanted_of self.now) }
    {
        match self {
            Wanted::Origin(order) => order.is_valid(),
            Wanted::Diversion(order) => order.is_valid(),
        }
    }

    /// The message with its field, by this signature or none.
    #[tactic(auto, using(crate::proofs::SigningLaws::gives_of, crate::proofs::SigningLaws::why_unsigned))]
    pub(crate) fn sign(
        &self,
        alloc: Global,
        message: &[u8],
        holder: &Holder<'_>,
        made: Option<[u8; 64]>,
    ) -> Result<Vec<u8>, Unsigned>
        requires { IsTrue (is_order (wanted_of self.now)) }
        ensures signed { IfOk result
            (λ out. GivesMessage message.now (wanted_of self.now) (holder_of holder.now) made out.items) }
        ensures unsigned { IfErr result (IsUnsignedBy message.now (wanted_of self.now) (holder_of holder.now) made) }
    {
        match self.sign_once(alloc, message, holder, made) {
            Ok(out) => Ok(out),
            Err(fault) => Err(why(fault)),
        }
    }

    /// The same in the words of the authentication service, whose provider never fails.
    #[tactic(auto, using(crate::proofs::SigningLaws::never_fails))]
    fn sign_once(
        &self,
        alloc: Global,
        message: &[u8],
        holder: &Holder<'_>,
        made: Option<[u8; 64]>,
    ) -> Result<Vec<u8>, SignFault>
        requires { IsTrue (is_order (wanted_of self.now)) }
        ensures promised { IsPromised (λ out. out.items) message.now (wanted_of self.now) (Some (holder_of holder.now))
            (signs_of made) result }
        ensures steady { IfErr result (λ fault. is_provider fault ≡ false) }
    {
        let mut signer = Confirmed::new(&[], &[], made);
        match self {
            Wanted::Origin(order) => sign(alloc, message, order, Some(holder), &mut signer),
            Wanted::Diversion(order) => divert(alloc, message, order, Some(holder), &mut signer),
        }
    }
}

/// Why no message comes out.
fn why(fault: SignFault) -> Unsigned
    requires { is_provider fault ≡ false }
    ensures { result ≡ why_of fault }
{
    match fault {
        SignFault::Form => Unsigned::Withheld(1),
        SignFault::NoNumber => Unsigned::Withheld(2),
        SignFault::Authority => Unsigned::Withheld(3),
        SignFault::NoSignature { digest } => Unsigned::Digest(digest),
        SignFault::Provider => unreachable!(),
        SignFault::Memory => Unsigned::Input(Unread::Memory),
    }
}
