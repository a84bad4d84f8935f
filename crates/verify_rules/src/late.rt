//! The rules of the chains but 16, each asked of one PASSporT and of what is known of its chain.
ghost use Rattle.std.specs.Prelude.{◌≡◌};
ghost use Rattle.verify_rules.specs.Late.{by_answer, by_part, number, or_broken, tell, tell_judged, tell_long};
ghost use Rattle.verify_rules.specs.Late.{tell_missing};
ghost use Rattle.verify_rules.specs.Screened.{judged_seen};
ghost use Rattle.verify_rules.specs.States.{seen};

use crate::chains::ChainState;
use crate::judged_passport::JudgedPassport;
use crate::leaf_authority::covers_leaf;
use crate::refusal::{Place, Refusal};
use crate::unmet::first_unmet;
use cert_store::{Asked, Judged};
use tn_auth_list::CodeTable;

/// A rule that asks nothing of the provider.
#[derive(Clone, Copy)]
pub(crate) enum LateRule {
    /// Rule 10: there is a chain (RFC 8224, section 6.2.2).
    Listed,
    /// Rule 11: it is at most six certificates of the profile.
    Profile,
    /// Rule 12: it is a path up to a trust anchor (RFC 5280, section 6.1).
    Shape,
    /// Rule 13: its certificates are valid at the moment (RFC 5280, section 6.1.3).
    Dates,
    /// Rule 14: the authority of each lies within its issuer's (RFC 9060).
    Authority,
    /// Rule 15: their signatures are good, as far as the provider answered (RFC 5280, section 6.1.3).
    Asked,
    /// Rule 17: the leaf's authority covers what the PASSporT vouches for (ATIS-1000074, section 5.2.3; RFC 8946,
    /// section 4.2).
    Covers,
    /// Rule 19: the PASSporT's payload meets the constraints of each of its certificates that has some (after RFC 8226,
    /// section 8).
    Constraints,
}

/// What a rule says of one PASSporT.
#[derive(Clone, Copy)]
pub(crate) enum RuleResult {
    /// It holds.
    Holds,
    /// It is broken at the certificate of this number, or at 0 if none is meant.
    Broken(u8),
    /// Nothing: the chain isn't known.
    Unknown,
    /// Nothing: the provider failed at the signature of the certificate of this number.
    Unasked(u8),
}

/// What ends the trial of a call.
#[derive(Clone, Copy)]
pub(crate) enum Event {
    /// A rule is broken.
    Refused(Refusal),
    /// The chain of the PASSporT there isn't known.
    Unread(Place),
    /// Whether a certificate there is signed isn't known.
    Unasked(Place),
}

impl LateRule {
    /// The rule's number.
    pub(crate) fn number(self) -> u8
        ensures { result ≡ number self }
    {
        match self {
            LateRule::Listed => 10,
            LateRule::Profile => 11,
            LateRule::Shape => 12,
            LateRule::Dates => 13,
            LateRule::Authority => 14,
            LateRule::Asked => 15,
            LateRule::Covers => 17,
            LateRule::Constraints => 19,
        }
    }

    /// What the rule says of a PASSporT at a moment, in Unix seconds.
    pub(crate) fn tell(
        self,
        table: &CodeTable,
        moment: u64,
        one: &JudgedPassport,
        state: ChainState<'_>,
    ) -> RuleResult
        ensures { result ≡ tell self table.now moment (judged_seen one.now) (seen state.entry) }
    {
        match state {
            ChainState::Have(judged) => self.tell_judged(table, moment, one, judged),
            ChainState::NoChain => self.tell_missing(),
            ChainState::Long => self.tell_long(),
            ChainState::Unread => RuleResult::Unknown,
        }
    }

    /// What it says if the chain was judged.
    fn tell_judged(
        self,
        table: &CodeTable,
        moment: u64,
        one: &JudgedPassport,
        judged: &Judged,
    ) -> RuleResult
        ensures { result ≡ tell_judged self table.now moment (judged_seen one.now) judged.now }
    {
        match self {
            LateRule::Listed => RuleResult::Holds,
            LateRule::Profile => by_part(judged.profile()),
            LateRule::Shape => by_part(judged.shape()),
            LateRule::Dates => by_part(judged.out_of_date(moment)),
            LateRule::Authority => by_part(judged.authority()),
            LateRule::Asked => by_answer(judged.asked()),
            LateRule::Covers => or_broken(covers_leaf(table, &one.claims, judged.leaf())),
            LateRule::Constraints => by_part(first_unmet(judged, &one.signed)),
        }
    }

    /// What it says if there is no chain.
    fn tell_missing(self) -> RuleResult
        ensures { result ≡ tell_missing self }
    {
        match self {
            LateRule::Listed => RuleResult::Broken(0),
            LateRule::Profile
            | LateRule::Shape
            | LateRule::Dates
            | LateRule::Authority
            | LateRule::Asked
            | LateRule::Covers
            | LateRule::Constraints => RuleResult::Holds,
        }
    }

    /// What it says if the chain's file is too long.
    fn tell_long(self) -> RuleResult
        ensures { result ≡ tell_long self }
    {
        match self {
            LateRule::Profile => RuleResult::Broken(0),
            LateRule::Listed
            | LateRule::Shape
            | LateRule::Dates
            | LateRule::Authority
            | LateRule::Asked
            | LateRule::Covers
            | LateRule::Constraints => RuleResult::Holds,
        }
    }
}

/// Broken at the part, if there is one.
fn by_part(part: Option<u8>) -> RuleResult
    ensures { result ≡ by_part part }
{
    match part {
        Some(part) => RuleResult::Broken(part),
        None => RuleResult::Holds,
    }
}

/// Broken if a signature isn't good.
fn by_answer(asked: Asked) -> RuleResult
    ensures { result ≡ by_answer asked }
{
    match asked {
        Asked::NotAsked | Asked::Yes => RuleResult::Holds,
        Asked::No { part } => RuleResult::Broken(part),
        Asked::Failed { part } => RuleResult::Unasked(part),
    }
}

/// Broken unless it holds.
fn or_broken(holds: bool) -> RuleResult
    ensures { result ≡ or_broken holds }
{
    if holds {
        RuleResult::Holds
    } else {
        RuleResult::Broken(0)
    }
}
