//! Whether a call may go on to a number.
ghost use Rattle.std.specs.Prelude.{◌≡◌, ◌≤◌, drop, length};
ghost use Rattle.std.specs.List.{list_any};
ghost use Rattle.std.specs.Str.{bytes_eq};
ghost use Rattle.passport_claims.specs.Links.{dest_of, div_of};
ghost use Rattle.verify_rules.specs.Call.{called_by, facts_of};
ghost use Rattle.retarget.specs.Hop.{hop_of};
ghost use Rattle.retarget.specs.Onward.{has_been_at, is_at, is_full, onward};

use crate::fault::HopFault;
use crate::hop::Hop;
use passport_claims::{Kind, Passport};
use sip_message::Message;
use tn_values::{Local, Number};
use verify_rules::Screened;

/// The most Identity fields that a message has.
const MOST_FIELDS: usize = 16;

/// The most PASSporTs that a call is judged by: the originating one and 8 diversions.
const MOST_JUDGED: usize = 9;

/// The number to which the call goes on, or the first of the faults `Target`, `Loop` and `Full`.
#[tactic(auto, unfolding(crate::specs::Onward::onward))]
pub(crate) fn onward(
    message: &Message<'_>,
    earlier: &Number,
    screened: &Screened,
    hop: &Hop<'_>,
) -> Result<Number, HopFault>
    ensures { result ≡ onward message.now earlier.now screened.now.readings (hop_of hop.now) }
{
    let Some(number) = hop.number() else {
        return Err(HopFault::Target);
    };
    if has_been_at(screened, earlier, &number) {
        return Err(HopFault::Loop);
    }
    if is_full(message, screened) {
        return Err(HopFault::Full);
    }
    Ok(number)
}

/// The number that is called before the call goes on: To's if the call has no diversions, else that of the request URI.
#[tactic(auto, using(crate::proofs::BeenLaws::called_first, crate::proofs::BeenLaws::called_later))]
pub(crate) fn called_now(
    message: &Message<'_>,
    screened: &Screened,
    local: &Local,
) -> Option<Number>
    ensures called { result ≡ called_by (facts_of local.now message.now) (drop 1 screened.now.readings) }
    ensures some { 1 ≤ length screened.now.readings }
{
    if screened.count() == 1 {
        return message.to_number(local);
    }
    message.target_number(local)
}

/// Whether there is no room for one Identity field or one diversion more.
fn is_full(message: &Message<'_>, screened: &Screened) -> bool
    ensures { result ≡ is_full message.now screened.now.readings }
{
    message.identity_count() >= MOST_FIELDS || screened.count() >= MOST_JUDGED
}

/// Whether the call has been at a number: the one that the first diversion came from, or one that a diversion led to;
/// and of a call without diversions the number that is called.
#[tactic(auto, using(crate::proofs::BeenLaws::been_undiverted, crate::proofs::BeenLaws::been_diverted, crate::proofs::BeenLaws::has_second))]
fn has_been_at(screened: &Screened, earlier: &Number, number: &Number) -> bool
    ensures { result ≡ has_been_at earlier.now number.now (drop 1 screened.now.readings) }
{
    if screened.count() == 1 {
        return earlier == number;
    }
    let is_start = has_div(screened.passport(1), number);
    is_start || is_dest(screened, number)
}

/// Whether a PASSporT is of a diversion from this number. A number has a byte or more, so no other type has it.
fn has_div(link: &Passport, number: &Number) -> bool
    ensures { result ≡ bytes_eq (div_of link.now) number.now }
{
    let _some = number.bytes();
    match link.kind() {
        Kind::Div { div } => div == *number,
        Kind::Base | Kind::Shaken { .. } => false,
    }
}

/// Whether a diversion of the call led to this number.
#[tactic(auto, using(crate::proofs::BeenLaws::dest_more, crate::proofs::BeenLaws::dest_here, crate::proofs::BeenLaws::dest_done))]
fn is_dest(screened: &Screened, number: &Number) -> bool
    ensures { result ≡ list_any (is_at number.now) (drop 1 screened.now.readings) }
{
    'links: for i in 1..screened.count() {
        if dest_of(screened.passport(i)) == *number {
            return true;
        }
    }
    false
}

/// The number to which a call was diverted, the first that a PASSporT calls.
fn dest_of(link: &Passport) -> Number
    ensures { result ≡ dest_of link.now }
{
    link.dest()[0]
}
