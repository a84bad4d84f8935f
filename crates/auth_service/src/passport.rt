//! The PASSporT that is signed.
ghost use Rattle.std.specs.Prelude.{◌≡◌, false, IfOk, IsTrue, Ok};
ghost use Rattle.lists.specs.Given.{Gives};
ghost use Rattle.sip_message.specs.Reading.{read};
ghost use Rattle.passport_claims.specs.Signed.{IsSignable, signing_of};
ghost use Rattle.passport_claims.specs.declared.fault.ClaimFault.{ClaimFault};
ghost use Rattle.auth_service.specs.declared.fault.SignFault.{SignFault};
ghost use Rattle.auth_service.specs.Answer.{names_provider, decided};
ghost use Rattle.auth_service.specs.Order.{holder_seen, is_order, wanted_of};
ghost use Rattle.auth_service.specs.Written.{IsFor};
ghost use Rattle.auth_service.specs.Signed.{called_number, claims_by, claims_for, claims_in, claims_of, invite_in};
ghost use Rattle.auth_service.specs.Signed.{is_allowed, is_dated, is_second};

use crate::fault::SignFault;
use crate::identity::is_too_long;
use crate::order::Holder;
use crate::wanted::{Shape, Wanted};
use passport_claims::{ClaimFault, Passport};
use passport_json::token_bytes_law;
use sip_message::{Message, MessageFault, MessageText};
use std::alloc::Global;
use tn_values::Number;
use verify_rules::covers_passport;

/// The message that was read, and the PASSporT that is wanted of it.
#[derive(Drop)]
pub(crate) struct Draft<'a> {
    pub(crate) text: MessageText<'a>,
    pub(crate) passport: Passport,
}

/// A draft, and the text that is signed for its PASSporT.
#[derive(Drop)]
pub(crate) struct Signable<'a> {
    pub(crate) draft: Draft<'a>,
    pub(crate) signing: Vec<u8>,
}

/// What is to be signed of the message, or the first of the faults `Form`, `NoNumber` and `Authority`.
pub(crate) fn to_sign<'a>(
    alloc: Global,
    bytes: &'a [u8],
    order: &Wanted<'_>,
    holder: Option<&Holder<'_>>,
) -> Result<Signable<'a>, SignFault>
    requires { IsTrue (is_order (wanted_of order.now)) }
    ensures exact { Gives decided (λ one. one.draft.passport) result
        (claims_for bytes.now (wanted_of order.now) (holder_seen holder.entry)) }
    ensures text { IfOk result (λ one. one.draft.text.bytes ≡ bytes.now) }
    ensures signing { IfOk result (λ one. one.signing.items ≡ signing_of one.draft.passport) }
    ensures signable { IfOk result (λ one. IsSignable one.draft.passport) }
    ensures ordered { IfOk result (λ one. IsFor (wanted_of order.now) one.draft.passport) }
    ensures apart { names_provider result ≡ false }
{
    token_bytes_law();
    let draft = draft_of(alloc, bytes, order)?;
    let signing = draft.passport.signing_text()?;
    if is_too_long(bytes, order, &signing) {
        return Err(SignFault::Form);
    }
    if !is_allowed(holder, &draft.passport) {
        return Err(SignFault::Authority);
    }
    Ok(Signable { draft, signing })
}

/// The message, read once, and the PASSporT that is wanted of it.
#[tactic(auto, unfolding(crate::specs::Signed::claims_in))]
fn draft_of<'a>(alloc: Global, bytes: &'a [u8], order: &Wanted<'_>) -> Result<Draft<'a>, SignFault>
    requires { IsTrue (is_order (wanted_of order.now)) }
    ensures exact { Gives decided (λ draft. draft.passport) result (claims_in (wanted_of order.now) (read bytes.now)) }
    ensures ordered { IfOk result (λ draft. IsFor (wanted_of order.now) draft.passport) }
    ensures text { IfOk result (λ draft. draft.text.bytes ≡ bytes.now) }
    ensures apart { names_provider result ≡ false }
{
    let text = read_invite(alloc, bytes)?;
    let passport = passport_for(alloc, text.message(), order)?;
    Ok(Draft { text, passport })
}

/// The PASSporT that is wanted of the message.
#[tactic(auto, unfolding(crate::specs::Signed::claims_of))]
fn passport_for(
    alloc: Global,
    message: &Message<'_>,
    order: &Wanted<'_>,
) -> Result<Passport, SignFault>
    requires { IsTrue (is_order (wanted_of order.now)) }
    ensures exact { Gives decided (λ passport. passport) result (claims_of (wanted_of order.now) message.now) }
    ensures ordered { IfOk result (λ passport. IsFor (wanted_of order.now) passport) }
    ensures apart { names_provider result ≡ false }
{
    if !is_dated(order, message) {
        return Err(SignFault::Form);
    }
    let Some(orig) = message.calling_number(&order.local) else {
        return Err(SignFault::NoNumber);
    };
    let Some(dest) = called_number(order, message) else {
        return Err(SignFault::NoNumber);
    };
    passport_between(alloc, order, orig, dest)
}

/// The message, if it is an INVITE.
fn read_invite<'a>(alloc: Global, bytes: &'a [u8]) -> Result<MessageText<'a>, SignFault>
    ensures exact { Gives decided (λ text. text.message) result (invite_in (read bytes.now)) }
    ensures text { IfOk result (λ text. text.bytes ≡ bytes.now) }
    ensures apart { names_provider result ≡ false }
{
    match MessageText::read(alloc, bytes) {
        Ok(text) => {
            if text.message().is_invite() {
                Ok(text)
            } else {
                Err(SignFault::Form)
            }
        }
        Err(MessageFault::Form(_)) => Err(SignFault::Form),
        Err(MessageFault::Memory) => Err(SignFault::Memory),
    }
}

/// Whether the message's Date is the order's second, if the compact form leaves it to the message.
fn is_dated(order: &Wanted<'_>, message: &Message<'_>) -> bool
    ensures { result ≡ is_dated (wanted_of order.now) message.now }
{
    match order.shape {
        Shape::Full(_) => true,
        Shape::Compact => is_second(order.iat, message.date()),
    }
}

/// Whether there is a date, and it is this second.
fn is_second(iat: u64, date: Option<u64>) -> bool
    ensures { result ≡ is_second iat date }
{
    match date {
        Some(seconds) => seconds == iat,
        None => false,
    }
}

/// The number that is called: that of the request URI by a diversion, and else that of To.
fn called_number(order: &Wanted<'_>, message: &Message<'_>) -> Option<Number>
    ensures { result ≡ called_number (wanted_of order.now) message.now }
{
    match order.shape.kind().div() {
        None => message.to_number(&order.local),
        Some(_) => message.target_number(&order.local),
    }
}

/// The PASSporT from one number to another.
fn passport_between(
    alloc: Global,
    order: &Wanted<'_>,
    orig: Number,
    dest: Number,
) -> Result<Passport, SignFault>
    requires { IsTrue (is_order (wanted_of order.now)) }
    ensures exact { Gives decided (λ passport. passport) result (Ok (claims_by (wanted_of order.now) orig dest)) }
    ensures ordered { IfOk result (λ passport. IsFor (wanted_of order.now) passport) }
    ensures apart { names_provider result ≡ false }
{
    match Passport::new(
        alloc,
        order.shape.kind(),
        order.x5u,
        order.iat,
        orig,
        &[dest],
    ) {
        Ok(passport) => Ok(passport),
        Err(fault) => Err(out_of_memory(fault)),
    }
}

/// Out of memory, the one fault for which a PASSporT of a valid order isn't made.
fn out_of_memory(fault: ClaimFault) -> SignFault
    requires { fault ≡ ClaimFault.Memory }
    ensures { result ≡ SignFault.Memory }
{
    let _ = fault;
    SignFault::Memory
}

/// Whether the holder, if one is given, may speak for what the PASSporT vouches for.
fn is_allowed(holder: Option<&Holder<'_>>, passport: &Passport) -> bool
    ensures { result ≡ is_allowed (holder_seen holder.entry) passport.now }
{
    match holder {
        Some(holder) => covers_passport(holder.table, holder.list, passport),
        None => true,
    }
}
