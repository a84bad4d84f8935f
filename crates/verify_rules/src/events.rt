//! The first that rules make of the PASSporTs of a call, in the order in which it went.
ghost use Rattle.std.specs.Prelude.{◌≡◌, length};
ghost use Rattle.verify_rules.specs.Late.{at_rule, first_rule, rule_event};
ghost use Rattle.verify_rules.specs.Screened.{judged_seen};
ghost use Rattle.verify_rules.specs.States.{seen};

use crate::chains::{ChainState, Chains};
use crate::judged_passport::JudgedPassport;
use crate::late::{Event, LateRule, RuleResult};
use crate::refusal::{Place, Refusal};
use crate::screened::Screened;
use tn_auth_list::CodeTable;

/// The first that any of these rules makes of the PASSporTs, rule by rule.
#[tactic(auto, using(crate::proofs::LateSteps::rules_more, crate::proofs::LateSteps::rules_here, crate::proofs::LateSteps::rules_done))]
pub(crate) fn first_rule<C: Chains>(
    rules: &[LateRule],
    screened: &Screened,
    chains: &C,
    moment: u64,
    table: &CodeTable,
) -> Option<Event>
    requires one_each { length (C.states chains.now) ≡ length screened.now.readings }
    ensures { result ≡ first_rule rules.now table.now moment screened.now.readings (C.states chains.now) }
{
    for rule in rules {
        if let Some(event) = rule_event(*rule, screened, chains, moment, table) {
            return Some(event);
        }
    }
    None
}

/// The first that this rule makes of them.
#[tactic(auto, using(crate::proofs::LateSteps::rule_event_more, crate::proofs::LateSteps::rule_event_here, crate::proofs::LateSteps::rule_event_done))]
fn rule_event<C: Chains>(
    rule: LateRule,
    screened: &Screened,
    chains: &C,
    moment: u64,
    table: &CodeTable,
) -> Option<Event>
    requires one_each { length (C.states chains.now) ≡ length screened.now.readings }
    ensures { result ≡ rule_event rule table.now moment screened.now.readings (C.states chains.now) }
{
    'passports: for i in 0..screened.count() {
        let one = screened.at(i);
        if let Some(event) = event_at(rule, one, chains.state(i), moment, table) {
            return Some(event);
        }
    }
    None
}

/// What it makes of one of them.
#[tactic(auto, unfolding(crate::specs::Late::at_rule))]
fn event_at(
    rule: LateRule,
    one: &JudgedPassport,
    state: ChainState<'_>,
    moment: u64,
    table: &CodeTable,
) -> Option<Event>
    ensures { result ≡ at_rule rule table.now moment (judged_seen one.now) (seen state.entry) }
{
    let field = one.field;
    match rule.tell(table, moment, one, state) {
        RuleResult::Holds => None,
        RuleResult::Broken(part) => Some(Event::Refused(Refusal {
            rule: rule.number(),
            place: Place::new(field, u32::from(part)),
        })),
        RuleResult::Unknown => Some(Event::Unread(Place::new(field, 0))),
        RuleResult::Unasked(part) => Some(Event::Unasked(Place::new(field, u32::from(part)))),
    }
}
