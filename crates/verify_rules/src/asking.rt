//! Rule 16: the signatures of the PASSporTs, as the provider answers for them.
ghost use Rattle.stir_outside.specs.Stays.{ProviderStays};
ghost use Rattle.std.specs.Prelude.{◌≡◌, ◌+◌, ◌≤◌, length, IfOk, IsSome, OnErr};
ghost use Rattle.std.specs.Option.{option_copied};
ghost use Rattle.stir_outside.specs.Count.{HasCause};
ghost use Rattle.verify_rules.specs.Asking.{IsAsked};
ghost use Rattle.verify_rules.specs.Late.{at_asking, is_signed_by, unless_signed};
ghost use Rattle.verify_rules.specs.Screened.{judged_seen};
ghost use Rattle.verify_rules.specs.States.{seen};
ghost use Rattle.verify_rules.specs.Verdict.{HasLeaf};

use crate::chains::{ChainState, Chains};
use crate::judged_passport::JudgedPassport;
use crate::late::Event;
use crate::refusal::{Place, Refusal};
use crate::screened::Screened;
use stir_outside::{Failed, Provider};
use x509_profile::Certificate;

/// The first that rule 16 makes of the PASSporTs of a call; or where the provider failed, if those before it are good.
/// The provider is asked for the signature of each, in the order in which the call went, up to the first that isn't
/// good.
#[tactic(auto, using(crate::proofs::AskingSteps::asking_more, crate::proofs::AskingSteps::asking_front, crate::proofs::AskingSteps::asking_here, crate::proofs::AskingSteps::asking_open, crate::proofs::AskingSteps::asking_done))]
pub(crate) fn ask<C: Chains, P: Provider>(
    screened: &Screened,
    chains: &C,
    provider: &mut P,
) -> Result<Option<Event>, Place>
    requires one_each { length (C.states chains.now) ≡ length screened.now.readings }
    ensures answer { IsAsked (P.says provider.old) screened.now.readings (C.states chains.now) (P.faults provider.old)
        (P.faults provider.new) result }
    ensures asks { P.asks provider.new ≤ P.asks provider.old + length screened.now.readings }
    ensures asks_stay { P.asks provider.old ≤ P.asks provider.new }
    ensures provider { ProviderStays P.Provider provider.old provider.new }
    ensures signs_nothing { P.sign_faults provider.new ≡ P.sign_faults provider.old }
{
    'passports: for i in 0..screened.count() {
        let one = screened.at(i);
        let asked = match ask_at(one, chains.state(i), provider) {
            Ok(asked) => asked,
            Err(Failed) => return Err(Place::new(one.field, 0)),
        };
        if let Some(event) = asked {
            return Ok(Some(event));
        }
    }
    Ok(None)
}

/// What rule 16 makes of one of them.
#[tactic(auto, unfolding(crate::specs::Late::at_asking))]
fn ask_at<P: Provider>(
    one: &JudgedPassport,
    state: ChainState<'_>,
    provider: &mut P,
) -> Result<Option<Event>, Failed>
    ensures answer { IfOk result
        (λ event. event ≡ at_asking (P.says provider.old) (judged_seen one.now) (seen state.entry)) }
    ensures leaf { OnErr result (HasLeaf (seen state.entry)) }
    ensures cause { HasCause (P.faults provider.old) (P.faults provider.new) result }
    ensures asks { P.asks provider.new ≤ P.asks provider.old + 1 }
    ensures asks_stay { P.asks provider.old ≤ P.asks provider.new }
    ensures provider { ProviderStays P.Provider provider.old provider.new }
    ensures signs_nothing { P.sign_faults provider.new ≡ P.sign_faults provider.old }
{
    let field = one.field;
    match state {
        ChainState::Have(judged) => match is_signed(one, judged.leaf(), provider) {
            Ok(good) => Ok(unless_signed(field, good)),
            Err(Failed) => Err(Failed),
        },
        ChainState::NoChain | ChainState::Long => Ok(None),
        ChainState::Unread => Ok(Some(Event::Unread(Place::new(field, 0)))),
    }
}

/// A PASSporT that isn't signed breaks the rule.
fn unless_signed(field: u32, good: bool) -> Option<Event>
    ensures { result ≡ unless_signed field good }
{
    if good {
        return None;
    }
    Some(Event::Refused(Refusal {
        rule: 16,
        place: Place::new(field, 0),
    }))
}

/// Whether the signature of a PASSporT is good under the leaf's key; it isn't if there is no leaf.
fn is_signed<P: Provider>(
    one: &JudgedPassport,
    leaf: Option<&Certificate>,
    provider: &mut P,
) -> Result<bool, Failed>
    ensures answer { IfOk result
        (λ good. good ≡ is_signed_by (P.says provider.old) (judged_seen one.now) (option_copied leaf.entry)) }
    ensures leaf { OnErr result (IsSome (option_copied leaf.entry)) }
    ensures cause { HasCause (P.faults provider.old) (P.faults provider.new) result }
    ensures asks { P.asks provider.new ≤ P.asks provider.old + 1 }
    ensures asks_stay { P.asks provider.old ≤ P.asks provider.new }
    ensures provider { ProviderStays P.Provider provider.old provider.new }
    ensures signs_nothing { P.sign_faults provider.new ≡ P.sign_faults provider.old }
{
    match leaf {
        Some(leaf) => provider.confirm(leaf.key(), &one.digest, &one.signature),
        None => Ok(false),
    }
}
