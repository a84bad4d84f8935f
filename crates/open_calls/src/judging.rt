//! A call judged over the chains of its PASSporTs.
ghost use Rattle.std.specs.Prelude.{◌≡◌, IfOk, List, Ok, Option, length, map};
ghost use Rattle.cert_store.specs.Questions.{seen};
ghost use Rattle.cert_store.specs.Rules.{Says};
ghost use Rattle.call_judging.specs.AskLines.{ask_lines};
ghost use Rattle.open_calls.specs.Confirmed.{confirmed, says_by};
ghost use Rattle.delegation.specs.Coverage.{Table};
ghost use Rattle.call_judging.specs.AlwaysYes.{always_yes};
ghost use Rattle.verify_rules.specs.Call.{Call as RuledCall, in_call_order};
ghost use Rattle.verify_rules.specs.Rules.{early_rules};
ghost use Rattle.verify_rules.specs.Screened.{IsScreenedBy};
ghost use Rattle.verify_rules.specs.States.{State};
ghost use Rattle.verify_rules.specs.Verdict.{IsVerdict};
ghost use Rattle.verify_rules.specs.World.{World};
ghost use Rattle.open_calls.specs.Founds.{IsDecided, IsFound, IsFoundOver, asks_by};
ghost use Rattle.open_calls.specs.OpenCalls.{call_in, judged_in};
ghost use Rattle.open_calls.specs.OpenChains.{AreGiven, GivenChain, states_of};
ghost use Rattle.open_calls.specs.OwnQuestions.{Confirms, all_asked, own_asked};
ghost use Rattle.open_calls.specs.Rightness.{IsWorldFor};

use crate::call::OpenCall;
use crate::chains::OpenChains;
use crate::confirmed::Confirmed;
use crate::found::Found;
use crate::lines::{add_all, add_chains};
use crate::world::OpenWorld;
use call_judging::{AlwaysYes, own_questions, pass_of};
use cert_store::{Question, judged_law, questions_law};
use std::alloc::{AllocError, Global};
use stir_outside::Provider;
use tn_auth_list::CodeTable;
use verify_rules::{Screened, Verdict, finish, unasked_law};

/// The last rule that is tried before the PASSporTs' own signatures are asked for.
const LAST_BEFORE: u8 = 15;

/// What is asked for the PASSporTs of a call by themselves, and what comes of the call if all of it is confirmed.
#[derive(Drop)]
pub struct Asked<'a> {
    /// The questions, in the order in which the call went; none if an earlier rule refuses it.
    pub questions: Vec<Question<'a>>,
    /// What comes of the call.
    pub found: Found,
}

impl OpenCall {
    /// What its verifier is to confirm of its PASSporTs over these chains, one for each PASSporT, and what comes of it
    /// if all of that is confirmed. `AllocError` is the only error.
    pub fn questions<'a>(
        &'a self,
        alloc: Global,
        world: &OpenWorld,
        chains: &'a OpenChains<'_>,
    ) -> Result<Asked<'a>, AllocError>
        requires one_each { length chains.now ≡ length (judged_in self.now) }
        ensures asked { IfOk result (λ asked.
            map seen asked.questions.items ≡ own_asked world.now.table (states_of chains.now) (call_in self.now)) }

        // By whoever confirms all of them this comes of the call.
        ensures found { (says : Says)
            → Confirms says (own_asked world.now.table (states_of chains.now) (call_in self.now)) → IfOk result
            (λ asked. IsFoundOver says world.now.table (states_of chains.now) (call_in self.now) asked.found) }
    {
        unasked_law();
        match &self.screened {
            Ok(screened) => ask(alloc, world.table(), chains, self.moment, screened),
            Err(refusal) => Ok(Asked {
                questions: Vec::new(alloc),
                found: Found::Refused(*refusal),
            }),
        }
    }

    /// What comes of it over these chains, one for each PASSporT, if these of its own questions were confirmed: there
    /// is a byte for each, which is 0 if it wasn't. A question without a byte wasn't. `AllocError` is the only error.
    pub fn judge(
        &self,
        alloc: Global,
        world: &OpenWorld,
        chains: &OpenChains<'_>,
        good: &[u8],
    ) -> Result<Found, AllocError>
        requires one_each { length chains.now ≡ length (judged_in self.now) }

        // What the rules say over exactly these chains and these answers.
        ensures exact { IfOk result (IsFoundOver
            (says_by (confirmed (own_asked world.now.table (states_of chains.now) (call_in self.now)) good.now))
            world.now.table (states_of chains.now) (call_in self.now)) }

        // In each world that leads to the chains that were given, and whose provider says what the host said of them
        // and of these questions, it is what comes of the call by all rules.
        ensures right { (rules : World) (given : List (Option GivenChain)) → AreGiven world.now given chains.now
            → IsWorldFor rules world.now self.now given
            (own_asked world.now.table (states_of chains.now) (call_in self.now)) good.now
            → IfOk result (IsFound rules (call_in self.now)) }
    {
        unasked_law();
        judged_law();
        questions_law();
        let asked = self.questions(alloc, world, chains)?;
        let mut provider = Confirmed::new(asked.questions.as_slice(), good, None);
        let found = self.finish(world, chains, &mut provider);
        Ok(found)
    }

    /// What comes of it by a provider that never fails.
    fn finish<P: Provider>(
        &self,
        world: &OpenWorld,
        chains: &OpenChains<'_>,
        provider: &mut P,
    ) -> Found
        requires never_fails { (p : P) → P.faults p ≡ 0 }
        requires one_each { length chains.now ≡ length (judged_in self.now) }
        ensures { IsFoundOver (P.says provider.old) world.now.table (states_of chains.now) (call_in self.now) result }
    {
        match &self.screened {
            Ok(screened) => finish_with(world.table(), chains, self.moment, screened, provider),
            Err(refusal) => Found::Refused(*refusal),
        }
    }

    /// The lines of an answers file that confirms all that is asked over these chains: of the chains, and of the
    /// PASSporTs by themselves. `AllocError` is the only error.
    #[tactic(auto, using(crate::proofs::LineLaws::both_lines))]
    pub fn lines(
        &self,
        alloc: Global,
        world: &OpenWorld,
        chains: &OpenChains<'_>,
    ) -> Result<Vec<u8>, AllocError>
        requires one_each { length chains.now ≡ length (judged_in self.now) }
        ensures { IfOk result
            (λ lines. lines.items ≡ ask_lines (all_asked world.now.table (states_of chains.now) (call_in self.now))) }
    {
        let mut text = Vec::new(alloc);
        add_chains(alloc, chains, &mut text)?;
        let asked = self.questions(alloc, world, chains)?;
        add_all(alloc, asked.questions.as_slice(), &mut text)?;
        Ok(text)
    }
}

/// The same of a screened call. `AllocError` is the only error.
#[tactic(auto, using(crate::proofs::JudgingLaws::own_none, crate::proofs::JudgingLaws::own_some, crate::proofs::JudgingLaws::readings_are))]
fn ask<'a>(
    alloc: Global,
    table: &CodeTable,
    chains: &'a OpenChains<'_>,
    moment: u64,
    screened: &'a Screened,
) -> Result<Asked<'a>, AllocError>
    requires one_each { length chains.now ≡ length screened.now.readings }
    ensures asked { (call : RuledCall) → IsScreenedBy early_rules call (Ok screened.now) → moment ≡ call.moment
        → IfOk result (λ asked. map seen asked.questions.items ≡ own_asked table.now (states_of chains.now) call) }
    ensures found { (call : RuledCall) → IsScreenedBy early_rules call (Ok screened.now) → moment ≡ call.moment
        → IfOk result (λ asked. IsFoundOver always_yes table.now (states_of chains.now) call asked.found) }
{
    let found = finish_with(table, chains, moment, screened, &mut AlwaysYes::new());
    if !asks_own(&found) {
        return Ok(Asked {
            questions: Vec::new(alloc),
            found,
        });
    }
    let questions = own_questions(alloc, screened, chains)?;
    Ok(Asked { questions, found })
}

/// Whether no rule that is tried before the PASSporTs' own signatures is broken.
fn asks_own(found: &Found) -> bool
    ensures { result ≡ asks_by found.now }
{
    match found {
        Found::Refused(refusal) => refusal.rule > LAST_BEFORE,
        Found::Passes(_) => true,
    }
}

/// What comes of a screened call by a provider that never fails.
#[tactic(auto, using(crate::proofs::JudgingLaws::decided, crate::proofs::JudgingLaws::verdict_in))]
fn finish_with<P: Provider>(
    table: &CodeTable,
    chains: &OpenChains<'_>,
    moment: u64,
    screened: &Screened,
    provider: &mut P,
) -> Found
    requires never_fails { (p : P) → P.faults p ≡ 0 }
    requires one_each { length chains.now ≡ length screened.now.readings }
    ensures { (call : RuledCall) → IsScreenedBy early_rules call (Ok screened.now) → moment ≡ call.moment
        → IsFoundOver (P.says provider.old) table.now (states_of chains.now) call result }
{
    chains.known();
    let verdict = finish(screened, chains, moment, table, provider);
    found_of(verdict, screened)
}

/// What comes of a screened call by its verdict, if that leaves nothing open.
fn found_of(verdict: Verdict, screened: &Screened) -> Found
    requires decided { IsDecided verdict }
    ensures { (call : RuledCall) (says : Says) (table : Table) (states : List State)
        → IsScreenedBy early_rules call (Ok screened.now)
        → IsVerdict says table call.moment (in_call_order call) states 0 0 verdict
        → IsFoundOver says table states call result }
{
    match verdict {
        Verdict::Passed => Found::Passes(pass_of(screened)),
        Verdict::Refused(refusal) => Found::Refused(refusal),
        Verdict::Unread(_) => unreachable!(),
        Verdict::Unasked(_) => unreachable!(),
    }
}
