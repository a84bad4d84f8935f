//! The rules of the call, tried in their order.
ghost use Rattle.std.specs.Prelude.{◌≡◌, ◌≤◌, List, map, IfOk};
ghost use Rattle.verify_rules.specs.Call.{call_of, fields_of, read_call};
ghost use Rattle.verify_rules.specs.Places.{SpeaksOfPlace};
ghost use Rattle.verify_rules.specs.Rules.{Rule, early_rules, field_rules};
ghost use Rattle.verify_rules.specs.Screened.{IsFirstBefore, IsLeast, IsScreenedBy};
ghost use Rattle.verify_rules.specs.Seen.{field_seen};
ghost use Rattle.verify_rules.specs.Words.{SaysWords};

use crate::facts::Facts;
use crate::fields::{foreign_alg, originating, read_fields};
use crate::identity_field::NumberedField;
use crate::passports::read_all;
use crate::refusal::{Place, ScreenFault, Stop};
use crate::screened::{Screened, stale};
use crate::settings::Settings;
use crate::turns::{order_of, other_calling};
use identity_header::field_law;
use passport_claims::{claims_law, order_law};
use passport_json::{token_found_law, token_law};
use sip_message::{Message, MessageFault, head_law};
use std::alloc::Global;

/// Tries the rules of the call (RFC 8224, section 6.2) on the bytes of a message that came at a moment, in Unix
/// seconds. The first that is broken refuses the call; a call that breaks none is screened.
#[tactic(auto, using(crate::proofs::FirstLaws::least, crate::proofs::FirstLaws::first_before, crate::proofs::FreshLaws::still_fresh))]
pub fn screen(
    alloc: Global,
    bytes: &[u8],
    moment: u64,
    settings: &Settings,
) -> Result<Screened, ScreenFault>

    // Refused exactly with what the rules give first; and screened if they give nothing, as what they see of the call.
    ensures exact { IsScreenedBy early_rules (call_of settings.now moment bytes.now) result }

    // The rule that refuses is the least that is broken: all before it hold.
    ensures least { IsLeast early_rules (call_of settings.now moment bytes.now) result }

    // Whatever rules come after these nine, a refused call is refused so, and a screened one is left to them.
    ensures first { (late : List Rule) → IsFirstBefore early_rules late (call_of settings.now moment bytes.now) result }

    // A screened call is fresh.
    ensures fresh { IfOk result (λ screened. moment ≤ screened.last) }

    // Each rule in its own words, in the grammars and claims of the message that came: it holds of a screened call; if
    // it refuses, it doesn't hold, and those before it do.
    ensures words { SaysWords bytes.now (call_of settings.now moment bytes.now) result }

    // Where the rule that refuses is broken: at the first Identity field or PASSporT of which it doesn't hold.
    ensures places { SpeaksOfPlace bytes.now (call_of settings.now moment bytes.now) result }
{
    head_law();
    field_law();
    token_law();
    token_found_law();
    claims_law();
    order_law();
    screen_exactly(alloc, bytes, moment, settings)
}

/// The first broken rule, or what is screened.
#[tactic(auto, using(crate::proofs::EarlySteps::refused_form, crate::proofs::EarlySteps::as_read))]
fn screen_exactly(
    alloc: Global,
    bytes: &[u8],
    moment: u64,
    settings: &Settings,
) -> Result<Screened, ScreenFault>
    ensures { IsScreenedBy early_rules (call_of settings.now moment bytes.now) result }
{
    match Message::read(alloc, bytes) {
        Ok(message) => screen_message(alloc, &message, moment, settings),
        Err(fault) => match fault {
            MessageFault::Form(fault) => Err(ScreenFault::broken(1, Place::new(0, fault.place))),
            MessageFault::Memory => Err(ScreenFault::Memory),
        },
    }
}

/// All rules on a message that was read.
#[tactic(auto, using(crate::proofs::EarlySteps::refused_method, crate::proofs::EarlySteps::refused_none, crate::proofs::EarlySteps::refused_value, crate::proofs::EarlySteps::fields_are))]
fn screen_message(
    alloc: Global,
    message: &Message<'_>,
    moment: u64,
    settings: &Settings,
) -> Result<Screened, ScreenFault>
    ensures { IsScreenedBy early_rules (read_call settings.now moment message.now) result }
{
    if !message.is_invite() {
        return Err(ScreenFault::broken(1, Place::new(0, 0)));
    }
    if message.identity_count() == 0 {
        return Err(ScreenFault::broken(2, Place::new(0, 0)));
    }
    match read_fields(alloc, message) {
        Ok(fields) => screen_fields(alloc, message, fields.as_slice(), moment, settings),
        Err(stop) => match stop {
            Stop::Broken(place) => Err(ScreenFault::broken(3, place)),
            Stop::Memory => Err(ScreenFault::Memory),
        },
    }
}

/// Rules 4 to 9 on the Identity fields of a message.
#[tactic(auto, using(crate::proofs::EarlySteps::refused_origin, crate::proofs::EarlySteps::refused_alg, crate::proofs::EarlySteps::refused_token, crate::proofs::EarlySteps::refused_orig, crate::proofs::EarlySteps::refused_order, crate::proofs::EarlySteps::refused_stale, crate::proofs::EarlySteps::none_refused))]
fn screen_fields(
    alloc: Global,
    message: &Message<'_>,
    fields: &[NumberedField<'_>],
    moment: u64,
    settings: &Settings,
) -> Result<Screened, ScreenFault>
    requires fields { map field_seen fields.now ≡ fields_of (read_call settings.now moment message.now) }
    ensures { IsScreenedBy field_rules (read_call settings.now moment message.now) result }
{
    let Some(origin) = originating(fields) else {
        return Err(ScreenFault::broken(4, Place::new(0, 0)));
    };
    if let Some(place) = foreign_alg(origin, fields) {
        return Err(ScreenFault::broken(5, place));
    }
    let facts = Facts::for_judged(message, &settings.local, origin, fields);
    let readings = match read_all(alloc, &facts, origin, fields) {
        Ok(readings) => readings,
        Err(stop) => match stop {
            Stop::Broken(place) => return Err(ScreenFault::broken(6, place)),
            Stop::Memory => return Err(ScreenFault::Memory),
        },
    };
    if let Some(place) = other_calling(&readings, &facts) {
        return Err(ScreenFault::broken(7, place));
    }
    let order = match order_of(&readings, &facts) {
        Ok(order) => order,
        Err(place) => return Err(ScreenFault::broken(8, place)),
    };
    let screened = Screened::new(readings, order, settings);
    if let Some(place) = stale(&screened, moment, settings) {
        return Err(ScreenFault::broken(9, place));
    }
    Ok(screened)
}
