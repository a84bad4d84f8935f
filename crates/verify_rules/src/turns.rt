//! Rules 7 and 8: the calling number, and the order in which the call went.
ghost use Rattle.std.specs.Prelude.{◌≡◌, ◌≤◌, length, if◌then◌else◌};
ghost use Rattle.passport_claims.specs.Passport.{is_text};
ghost use Rattle.verify_rules.specs.Rules.{each, field_at, other_calling};
ghost use Rattle.verify_rules.specs.Screened.{judged_seen};
ghost use Rattle.verify_rules.specs.Seen.{GivesOrder, IsChainable};

use crate::facts::Facts;
use crate::judged_passport::JudgedPassport;
use crate::readings::Readings;
use crate::refusal::Place;
use passport_claims::{Order, Passports, chain_of};
use tn_values::Number;

/// The place of the first PASSporT for another calling number, in message order.
#[tactic(auto, using(crate::proofs::TurnSteps::orig_more, crate::proofs::TurnSteps::orig_here, crate::proofs::TurnSteps::orig_done))]
pub(crate) fn other_calling(readings: &Readings, facts: &Facts) -> Option<Place>
    ensures { result ≡ each (other_calling facts.now.calling) readings.now }
{
    'readings: for i in 0..readings.len() {
        if let Some(bad) = foreign_orig_at(readings.at(i), facts) {
            return Some(bad);
        }
    }
    None
}

/// The place of this PASSporT, if it is for another calling number.
#[tactic(auto, unfolding(crate::specs::Rules::other_calling))]
fn foreign_orig_at(one: &JudgedPassport, facts: &Facts) -> Option<Place>
    ensures { result ≡ other_calling facts.now.calling (judged_seen one.now) }
{
    if is_calling(facts.calling, one.claims.orig()) {
        return None;
    }
    Some(Place::new(one.field, 0))
}

/// Whether this is the calling number.
fn is_calling(calling: Option<Number>, number: Number) -> bool
    ensures { result ≡ is_text number calling }
{
    match calling {
        Some(calling) => calling == number,
        None => false,
    }
}

/// The order of the links, or where they show that there is none.
#[tactic(auto, using(crate::proofs::TurnSteps::rest_links, crate::proofs::TurnSteps::order_is, crate::proofs::TurnSteps::order_turned, crate::proofs::TurnSteps::no_order_is))]
pub(crate) fn order_of(readings: &Readings, facts: &Facts) -> Result<Order, Place>
    requires some { 1 ≤ length readings.now }
    requires kept { IsChainable readings.now }
    ensures { GivesOrder facts.now readings.now result }
{
    let origin = readings.at(0);
    let links = readings.links();
    let called = called(facts, links.count() == 0);
    match chain_of(&origin.claims, &links, called) {
        Ok(order) => Ok(order),
        Err(fault) => Err(Place::new(
            field_at(readings, usize::from(fault.link)),
            u32::from(fault.kind),
        )),
    }
}

/// The called number: To's if there is no link, else that of the request URI.
fn called(facts: &Facts, is_direct: bool) -> Option<Number>
    ensures { result ≡ (if is_direct then facts.now.to else facts.now.target) }
{
    if is_direct { facts.to } else { facts.target }
}

/// The number of the field of the PASSporT at this index; 0 if there is none.
#[tactic(auto, using(crate::proofs::TurnSteps::field_there, crate::proofs::TurnSteps::field_behind))]
fn field_at(readings: &Readings, i: usize) -> u32
    ensures { result ≡ field_at readings.now i }
{
    if i < readings.len() {
        readings.at(i).field
    } else {
        0
    }
}
