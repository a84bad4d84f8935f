//! The rules of the chains, tried in their order.
ghost use Rattle.stir_outside.specs.Stays.{ProviderStays};
ghost use Rattle.std.specs.Prelude.{◌≡◌, ◌+◌, ◌≤◌, length};
ghost use Rattle.verify_rules.specs.Call.{Call};
ghost use Rattle.verify_rules.specs.Causes.{IsCaused};
ghost use Rattle.verify_rules.specs.LatePlaces.{SpeaksOfLatePlace};
ghost use Rattle.verify_rules.specs.LateWords.{SaysLateWords};
ghost use Rattle.verify_rules.specs.Verdict.{IsVerdict, QuietIs, verdict_of};
ghost use Rattle.verify_rules.specs.World.{AreRight, HoldsBytes, IsJudgedBy, VerdictOf, World};

use crate::asking::ask;
use crate::chains::Chains;
use crate::events::first_rule;
use crate::late::{Event, LateRule};
use crate::laws::{late_places_law, late_words_law};
use crate::once::Once;
use crate::refusal::{Place, Refusal};
use crate::screened::Screened;
use cert_store::judged_law;
use stir_outside::Provider;
use tn_auth_list::CodeTable;

/// What the rules of the chains come to.
#[derive(Clone, Copy, Debug, PartialEq, Eq)]
pub enum Verdict {
    /// They hold.
    Passed,
    /// This one is the first that is broken.
    Refused(Refusal),
    /// The chain of the PASSporT there isn't known, and rule 10 holds for those before it.
    Unread(Place),
    /// The provider failed at a signature, and the rules up to it hold. It is that of the certificate of this part,
    /// when the chain was judged; or, if the part is 0, that of the PASSporT, in this call.
    Unasked(Place),
}

/// The rules that are tried before the signatures of the PASSporTs are asked for.
const BEFORE: [LateRule; 6] = [
    LateRule::Listed,
    LateRule::Profile,
    LateRule::Shape,
    LateRule::Dates,
    LateRule::Authority,
    LateRule::Asked,
];

/// Those that are tried after them.
const AFTER: [LateRule; 2] = [LateRule::Covers, LateRule::Constraints];

/// Tries the rules of the chains (RFC 8224, section 6.2) on a call that was screened and came at this moment, in Unix
/// seconds. It judges by what is known of the chains of the call's PASSporTs: one state for each, in the order in which
/// the call went.
///
/// The provider is asked for the signatures of the PASSporTs alone (rule 16), and only if rules 10 to 15 hold; what it
/// says of the certificates' is in the chains. The first rule that is broken refuses the call, unless a chain that
/// isn't known or a signature at which the provider failed comes before it.
#[tactic(auto, using(crate::proofs::VerdictLaws::quiet, crate::proofs::CauseLaws::caused))]
pub fn finish<C: Chains, P: Provider>(
    screened: &Screened,
    chains: &C,
    moment: u64,
    table: &CodeTable,
    provider: &mut P,
) -> Verdict
    requires one_each { length (C.states chains.now) ≡ length screened.now.readings }

    // What the rules give first, over the chains that are handed in.
    ensures verdict { IsVerdict (P.says provider.old) table.now moment screened.now.readings (C.states chains.now)
        (P.faults provider.old) (P.faults provider.new) result }

    // If the chains are right in a world that judges the call, so is the verdict: it is the first broken rule of all,
    // or the call may be set aside.
    ensures right { (world : World) (call : Call)
        → IsJudgedBy world call table.now (P.says provider.old) moment screened.now.readings
        → AreRight world screened.now.readings (C.states chains.now) → VerdictOf world call result }

    // Each of the rules of the chains in its own words, if the files of that world hold bytes: it holds of a call that
    // passes; if it refuses, it doesn't hold, and those before it do.
    ensures words { (world : World) (call : Call) → HoldsBytes world
        → IsJudgedBy world call table.now (P.says provider.old) moment screened.now.readings
        → AreRight world screened.now.readings (C.states chains.now) → SaysLateWords world call result }

    // Where the rule that refuses is broken there: at the first PASSporT, and in it at the first certificate, of which
    // it doesn't hold; and what holds before the place at which the call is set aside.
    ensures places { (world : World) (call : Call) → HoldsBytes world
        → IsJudgedBy world call table.now (P.says provider.old) moment screened.now.readings
        → AreRight world screened.now.readings (C.states chains.now) → SpeaksOfLatePlace world call result }

    // An answer is left open by a chain that was handed in, or by a question that failed in this call.
    ensures causes { IsCaused screened.now.readings (C.states chains.now) (P.faults provider.old)
        (P.faults provider.new) result }

    // If no fault was counted, only a chain that is handed in leaves an answer open.
    ensures quiet { QuietIs screened.now.readings (C.states chains.now) (P.faults provider.old)
        (P.faults provider.new) result }

    // How often the provider was asked, and what that changed of it.
    ensures asks { P.asks provider.new ≤ P.asks provider.old + length screened.now.readings }
    ensures asks_stay { P.asks provider.old ≤ P.asks provider.new }
    ensures provider { ProviderStays P.Provider provider.old provider.new }
    ensures signs_nothing { P.sign_faults provider.new ≡ P.sign_faults provider.old }
{
    judged_law();
    late_words_law();
    late_places_law();
    let _few = screened.count();
    let once = Once::of(chains);
    finish_exactly(screened, &once, moment, table, provider)
}

/// The same, over what is known of the chains, asked for once: the rules are tried in their order.
#[tactic(auto, using(crate::proofs::VerdictLaws::by_before, crate::proofs::VerdictLaws::by_asking, crate::proofs::VerdictLaws::left_open, crate::proofs::VerdictLaws::by_after, crate::proofs::VerdictLaws::by_none))]
fn finish_exactly<P: Provider>(
    screened: &Screened,
    chains: &Once<'_>,
    moment: u64,
    table: &CodeTable,
    provider: &mut P,
) -> Verdict
    requires one_each { length chains.now ≡ length screened.now.readings }
    ensures verdict { IsVerdict (P.says provider.old) table.now moment screened.now.readings chains.now
        (P.faults provider.old) (P.faults provider.new) result }
    ensures asks { P.asks provider.new ≤ P.asks provider.old + length screened.now.readings }
    ensures asks_stay { P.asks provider.old ≤ P.asks provider.new }
    ensures provider { ProviderStays P.Provider provider.old provider.new }
    ensures signs_nothing { P.sign_faults provider.new ≡ P.sign_faults provider.old }
{
    if let Some(event) = first_rule(&BEFORE, screened, chains, moment, table) {
        return verdict_of(event);
    }
    let asked = match ask(screened, chains, provider) {
        Ok(asked) => asked,
        Err(place) => return Verdict::Unasked(place),
    };
    if let Some(event) = asked {
        return verdict_of(event);
    }
    match first_rule(&AFTER, screened, chains, moment, table) {
        Some(event) => verdict_of(event),
        None => Verdict::Passed,
    }
}

/// What is answered at an event.
fn verdict_of(event: Event) -> Verdict
    ensures { result ≡ verdict_of event }
{
    match event {
        Event::Refused(refusal) => Verdict::Refused(refusal),
        Event::Unread(place) => Verdict::Unread(place),
        Event::Unasked(place) => Verdict::Unasked(place),
    }
}
