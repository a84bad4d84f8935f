//! A call that was screened.
ghost use Rattle.std.specs.Prelude.{◌≡◌, ◌<◌, ◌≤◌, length, option_and_then, take, Some};
ghost use Rattle.std.specs.List.{slice_get};
ghost use Rattle.std.specs.Option.{option_map};
ghost use Rattle.serde_json.specs.View.{view};
ghost use Rattle.verify_rules.specs.Call.{in_turn, passport_in, payload_of, reading};
ghost use Rattle.verify_rules.specs.Rules.{each, stale};
ghost use Rattle.verify_rules.specs.Screened.{IsTurned, digest_in, field_in, iat_or_none, judged_seen, last_of};
ghost use Rattle.verify_rules.specs.Screened.{screened_by, signature_in};

use crate::judged_passport::JudgedPassport;
use crate::readings::Readings;
use crate::refusal::Place;
use crate::settings::Settings;
use passport_claims::{Order, Passport};
use serde_json::Value;
use std::marker::Model;

/// A call that breaks none of the rules of the call: its judged PASSporTs in the order in which the call went, the
/// originating one first, and the last second at which the last of them is fresh. In contracts it is the record of
/// these two.
#[derive(Drop)]
pub struct Screened {
    readings: Readings,
    turn: [u8; 8],
    links: u8,
    last: u64,
}

impl Model for Screened {
    ghost use Rattle.std.specs.Prelude.{take};
    ghost use Rattle.verify_rules.specs.Call.{in_turn};
    ghost use Rattle.verify_rules.specs.Screened.{IsTurned, ScreenedView};

    ghost Value = { ScreenedView };

    ghost view = { λ s. record { readings = in_turn s.readings (take s.links s.turn); last = s.last } };

    ghost invariant = { λ s. IsTurned s.readings s.links s.turn };
}

impl Screened {
    /// The PASSporTs in this order, fresh for as long as the settings say.
    #[tactic(auto, unfolding(crate::specs::Screened::screened_by))]
    pub(crate) fn new(readings: Readings, order: Order, settings: &Settings) -> Screened
        requires turned { IsTurned readings order.length order.turn }
        ensures { result ≡ screened_by settings.now (in_turn readings (take order.length order.turn)) }
    {
        let turn = order.turn;
        let mut screened = Screened {
            readings,
            turn,
            links: order.length,
            last: 0,
        };
        let last = screened.last_iat() + settings.past;
        screened.last = last;
        screened
    }

    /// How many PASSporTs were judged: at least one, and at most nine.
    #[tactic(auto, using(crate::proofs::ScreenedLaws::turned_count))]
    pub fn count(&self) -> usize
        ensures count { result ≡ length self.now.readings }
        ensures some { 1 ≤ result }
        ensures few { result ≤ 9 }
    {
        usize::from(self.links) + 1
    }

    /// What the PASSporT at this index says.
    pub fn passport(&self, i: usize) -> &Passport
        requires { i < length self.now.readings }
        ensures { option_map passport_in (slice_get self.now.readings i) ≡ Some result.now }
    {
        &self.at(i).claims
    }

    /// The number of the Identity field of the PASSporT at this index, counted from 1 in message order.
    pub fn field(&self, i: usize) -> u32
        requires { i < length self.now.readings }
        ensures { option_map field_in (slice_get self.now.readings i) ≡ Some result }
    {
        self.at(i).field
    }

    /// The digest of what was signed as the PASSporT at this index: SHA-256 (FIPS 180-4).
    pub fn digest(&self, i: usize) -> &[u8; 32]
        requires { i < length self.now.readings }
        ensures { option_map digest_in (slice_get self.now.readings i) ≡ Some result.now }
    {
        &self.at(i).digest
    }

    /// The payload of the PASSporT at this index: the JSON object in what was signed (RFC 8225, section 5).
    pub fn payload(&self, i: usize) -> &Value
        requires { i < length self.now.readings }
        ensures { option_and_then payload_of (slice_get self.now.readings i) ≡ Some (view result.now) }
    {
        self.at(i).signed.payload()
    }

    /// The signature of the PASSporT at this index.
    pub fn signature(&self, i: usize) -> &[u8; 64]
        requires { i < length self.now.readings }
        ensures { option_map signature_in (slice_get self.now.readings i) ≡ Some result.now }
    {
        &self.at(i).signature
    }

    /// The ticket by which the call is known again: the digest of its last PASSporT.
    #[tactic(auto, using(crate::proofs::ScreenedLaws::last_digest))]
    pub fn ticket(&self) -> &[u8; 32]
        ensures { option_map digest_in (last_of self.now.readings) ≡ Some result.now }
    {
        let count = self.count();
        self.digest(count - 1)
    }

    /// The last second at which the call is fresh: the iat of its last PASSporT plus `past` of the settings, in Unix
    /// time.
    pub fn last(&self) -> u64
        ensures { result ≡ self.now.last }
    {
        self.last
    }

    /// The iat of the last PASSporT.
    #[tactic(auto, using(crate::proofs::ScreenedLaws::last_iat_is))]
    fn last_iat(&self) -> u64
        ensures value { result ≡ iat_or_none (last_of self.now.readings) }
        ensures within { result ≤ 253402300799 }
    {
        let count = self.count();
        self.passport(count - 1).iat()
    }

    /// The PASSporT at this index, with what is kept of it.
    #[tactic(auto, using(crate::proofs::ScreenedLaws::turned_first, crate::proofs::ScreenedLaws::turned_low, crate::proofs::ScreenedLaws::turned_some, crate::proofs::ScreenedLaws::turned_within, crate::proofs::ScreenedLaws::turned_at))]
    pub(crate) fn at(&self, i: usize) -> &JudgedPassport
        requires { i < length self.now.readings }
        ensures { slice_get self.now.readings i ≡ Some (judged_seen result.now) }
    {
        if i == 0 {
            return self.readings.at(0);
        }
        self.readings.at(usize::from(self.turn[i - 1]))
    }
}

/// The place of the first PASSporT that is too old or too far ahead, in the order in which the call went.
#[tactic(auto, using(crate::proofs::TurnSteps::stale_more, crate::proofs::TurnSteps::stale_here, crate::proofs::TurnSteps::stale_done))]
pub(crate) fn stale(screened: &Screened, moment: u64, settings: &Settings) -> Option<Place>
    ensures { result ≡ each (stale settings.now moment) screened.now.readings }
{
    'readings: for i in 0..screened.count() {
        if let Some(bad) = stale_at(screened.at(i), moment, settings) {
            return Some(bad);
        }
    }
    None
}

/// The place of this PASSporT, if it is too old or too far ahead.
#[tactic(auto, unfolding(crate::specs::Rules::stale))]
fn stale_at(one: &JudgedPassport, moment: u64, settings: &Settings) -> Option<Place>
    ensures { result ≡ stale settings.now moment (judged_seen one.now) }
{
    let iat = one.claims.iat();
    let is_old = moment.saturating_sub(iat) > settings.past;
    let is_early = iat.saturating_sub(moment) > settings.future;
    if is_old || is_early {
        return Some(Place::new(one.field, 0));
    }
    None
}
