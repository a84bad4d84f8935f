//! Signing a message.
ghost use Rattle.std.specs.Prelude.{◌≡◌, Err, IfOk, IsTrue};
ghost use Rattle.lists.specs.Given.{Gives};
ghost use Rattle.stir_outside.specs.Stays.{ProviderStays};
ghost use Rattle.auth_service.specs.Answer.{decided};
ghost use Rattle.auth_service.specs.Asking.{IsAskedOnce, IsLeftAlone};
ghost use Rattle.auth_service.specs.Causes.{IsWithheld};
ghost use Rattle.auth_service.specs.Order.{IsInForm, divert_order_of, holder_seen, is_order, order_of, wanted_of};
ghost use Rattle.auth_service.specs.Outcome.{IsSigned};
ghost use Rattle.auth_service.specs.Promise.{IsPromised};
ghost use Rattle.auth_service.specs.Signed.{claims_for, signature_of, signed};
ghost use Rattle.auth_service.specs.declared.fault.SignFault.{SignFault};

use crate::fault::SignFault;
use crate::identity::{field_value, with_identity};
use crate::order::{DivertOrder, Holder, SignOrder};
use crate::passport::to_sign;
use crate::wanted::Wanted;
use passport_json::{ticket, token_bytes_law};
use sip_message::head_law;
use std::alloc::Global;
use stir_outside::{Failed, Provider};
use verify_rules::covers_kind_law;

/// Signs a message (RFC 8224, section 4.1): the bytes with one more Identity header field, in the last line of the
/// head. It holds a PASSporT from the calling number to the number of To, in the order's form, signed by the order's
/// key. The order is one that [`is_valid`](SignOrder::is_valid) takes.
///
/// The faults are tried in the order of [`SignFault`]. The provider is asked at most once, and only if `Form`,
/// `NoNumber` and `Authority` don't come. `Provider` comes only if its count of faults rose, and `Memory` only if
/// memory ran out.
#[tactic(auto, using(crate::proofs::OrderLaws::valid_as, crate::proofs::OrderLaws::in_form))]
pub fn sign<P: Provider>(
    alloc: Global,
    bytes: &[u8],
    order: &SignOrder<'_>,
    holder: Option<&Holder<'_>>,
    provider: &mut P,
) -> Result<Vec<u8>, SignFault>
    requires { IsTrue (is_order (order_of order.now)) }

    // The bytes that come out, or the first fault of the four that message, order, holder and key decide. What was
    // signed: the message with one more field, which is read as the PASSporT of the message's numbers and the key's
    // signature. And each of these faults in the words of what shows it.
    ensures promised { IsPromised (λ out. out.items) bytes.now (order_of order.now) (holder_seen holder.entry)
        (P.signs provider.old) result }

    // It is of the form's type, and compact exactly if the form is.
    ensures form { IsInForm order.now.form (order_of order.now).shape }

    // The provider is asked at most once, and its failure has its count. If one of the first three faults is there, it
    // isn't asked, and isn't named.
    ensures asked { IsAskedOnce P.Provider provider.old provider.new result }
    ensures withheld { IsWithheld bytes.now (order_of order.now) (holder_seen holder.entry)
        → IsLeftAlone (P.asks provider.old) (P.asks provider.new) result }
    ensures provider { ProviderStays P.Provider provider.old provider.new }
{
    let wanted = order.wanted();
    sign_wanted(alloc, bytes, &wanted, holder, provider)
}

/// Signs a message that goes to another number than before (RFC 8946, section 4.1), as [`sign`] does: the PASSporT is
/// of the type `div`, from the calling number to that of the request URI, and its diverted number is the order's
/// earlier one. The order is one that [`is_valid`](DivertOrder::is_valid) takes. The faults are those of [`sign`], with
/// the request URI in place of To; the holder has to cover the earlier number.
#[tactic(auto, using(crate::proofs::OrderLaws::valid_as))]
pub fn divert<P: Provider>(
    alloc: Global,
    bytes: &[u8],
    order: &DivertOrder<'_>,
    holder: Option<&Holder<'_>>,
    provider: &mut P,
) -> Result<Vec<u8>, SignFault>
    requires { IsTrue (is_order (divert_order_of order.now)) }

    // What is said of `sign`, by what this order wants.
    ensures promised { IsPromised (λ out. out.items) bytes.now (divert_order_of order.now) (holder_seen holder.entry)
        (P.signs provider.old) result }
    ensures asked { IsAskedOnce P.Provider provider.old provider.new result }
    ensures withheld { IsWithheld bytes.now (divert_order_of order.now) (holder_seen holder.entry)
        → IsLeftAlone (P.asks provider.old) (P.asks provider.new) result }
    ensures provider { ProviderStays P.Provider provider.old provider.new }
{
    let wanted = order.wanted();
    sign_wanted(alloc, bytes, &wanted, holder, provider)
}

/// What either call does, by what is wanted.
fn sign_wanted<P: Provider>(
    alloc: Global,
    bytes: &[u8],
    wanted: &Wanted<'_>,
    holder: Option<&Holder<'_>>,
    provider: &mut P,
) -> Result<Vec<u8>, SignFault>
    requires { IsTrue (is_order (wanted_of wanted.now)) }
    ensures promised { IsPromised (λ out. out.items) bytes.now (wanted_of wanted.now) (holder_seen holder.entry)
        (P.signs provider.old) result }
    ensures asked { IsAskedOnce P.Provider provider.old provider.new result }
    ensures provider { ProviderStays P.Provider provider.old provider.new }
    ensures withheld { IsWithheld bytes.now (wanted_of wanted.now) (holder_seen holder.entry)
        → IsLeftAlone (P.asks provider.old) (P.asks provider.new) result }
{
    head_law();
    token_bytes_law();
    covers_kind_law();
    sign_exactly(alloc, bytes, wanted, holder, provider)
}

/// The same, of one exit.
#[tactic(auto, unfolding(crate::specs::Signed::signed))]
fn sign_exactly<P: Provider>(
    alloc: Global,
    bytes: &[u8],
    wanted: &Wanted<'_>,
    holder: Option<&Holder<'_>>,
    provider: &mut P,
) -> Result<Vec<u8>, SignFault>
    requires { IsTrue (is_order (wanted_of wanted.now)) }
    ensures exact { Gives decided (λ out. out.items) result
        (signed bytes.now (wanted_of wanted.now) (holder_seen holder.entry) (P.signs provider.old)) }
    ensures signed { IfOk result
        (λ out. IsSigned bytes.now (wanted_of wanted.now) (holder_seen holder.entry) (P.signs provider.old) out.items) }
    ensures asked { IsAskedOnce P.Provider provider.old provider.new result }
    ensures provider { ProviderStays P.Provider provider.old provider.new }
    ensures withheld { (fault : SignFault) → claims_for bytes.now (wanted_of wanted.now) (holder_seen holder.entry)
        ≡ Err fault → IsLeftAlone (P.asks provider.old) (P.asks provider.new) result }
{
    head_law();
    token_bytes_law();
    covers_kind_law();
    let one = to_sign(alloc, bytes, wanted, holder)?;
    let signature = signature_of(wanted.key, &one.signing, provider)?;
    let value = field_value(alloc, wanted, &one, &signature)?;
    with_identity(alloc, &one.draft.text, &value)
}

/// The key's signature over what is signed.
fn signature_of<P: Provider>(
    key: &[u8],
    signing: &[u8],
    provider: &mut P,
) -> Result<[u8; 64], SignFault>
    ensures exact { Gives decided (λ signature. signature) result
        (signature_of (P.signs provider.old) key.now signing.now) }
    ensures asked { IsAskedOnce P.Provider provider.old provider.new result }
    ensures provider { ProviderStays P.Provider provider.old provider.new }
{
    let digest = ticket(signing);
    match provider.sign(key, &digest) {
        Ok(Some(signature)) => Ok(signature),
        Ok(None) => Err(SignFault::NoSignature { digest }),
        Err(Failed) => Err(SignFault::Provider),
    }
}
