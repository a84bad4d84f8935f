//! The message that goes on.
ghost use Rattle.std.specs.Prelude.{◌≡◌, ◌+◌, ◌≤◌, IfErr, IfOk, IsTrue};
ghost use Rattle.lists.specs.Given.{Gives};
ghost use Rattle.stir_outside.specs.Stays.{ProviderStays};
ghost use Rattle.auth_service.specs.Order.{holder_of};
ghost use Rattle.sip_message.specs.HeadAlphabet.{is_target};
ghost use Rattle.retarget.specs.Answer.{decided};
ghost use Rattle.retarget.specs.Asking.{IsAskedOnce, IsLeftAlone};
ghost use Rattle.retarget.specs.Hop.{hop_of, is_hop};
ghost use Rattle.retarget.specs.Written.{CannotSign, IsWritten, Why, written_to};

use crate::fault::HopFault;
use crate::hop::Hop;
use auth_service::{Holder, divert};
use sip_message::{MessageFault, with_target};
use std::alloc::Global;
use stir_outside::Provider;
use tn_values::Number;

/// The message with the hop's request URI and one more Identity field, which tells of the diversion from the earlier
/// number; or the first of the faults `Size`, `Authority` and `NoSignature`. The bytes are an INVITE that has its
/// numbers.
#[tactic(auto, using(crate::proofs::WrittenLaws::order_valid, crate::proofs::WrittenLaws::exact_long, crate::proofs::WrittenLaws::exact_ok, crate::proofs::WrittenLaws::named_as), unfolding(crate::specs::Written::written_to))]
pub(crate) fn written<P: Provider>(
    alloc: Global,
    bytes: &[u8],
    earlier: Number,
    hop: &Hop<'_>,
    holder: &Holder<'_>,
    provider: &mut P,
) -> Result<Vec<u8>, HopFault>
    requires hop { IsTrue (is_hop (hop_of hop.now)) }
    requires target { IsTrue (is_target hop.now.target.now) }
    ensures exact { Gives decided (λ out. out.items) result
        (written_to bytes.now earlier (hop_of hop.now) (holder_of holder.now) (P.signs provider.old)) }
    ensures is_written { IfOk result
        (λ out. IsWritten bytes.now earlier (hop_of hop.now) (holder_of holder.now) (P.signs provider.old) out.items) }
    ensures causes { IfErr result
        (λ fault. Why bytes.now earlier (hop_of hop.now) (holder_of holder.now) (P.signs provider.old) fault) }
    ensures asked { IsAskedOnce P.Provider provider.old provider.new result }
    ensures provider { ProviderStays P.Provider provider.old provider.new }
    ensures withheld { CannotSign bytes.now earlier (hop_of hop.now) (holder_of holder.now)
        → IsLeftAlone (P.asks provider.old) (P.asks provider.new) result }
{
    let moved = match with_target(alloc, bytes, hop.target) {
        Ok(moved) => moved,
        Err(MessageFault::Form(_)) => return Err(HopFault::Size),
        Err(MessageFault::Memory) => return Err(HopFault::Memory),
    };
    let order = hop.order(earlier);
    match divert(alloc, &moved, &order, Some(holder), provider) {
        Ok(out) => Ok(out),
        Err(fault) => Err(HopFault::of(fault)),
    }
}
