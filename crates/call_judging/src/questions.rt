//! What a provider of signatures is asked for a call: whether the signatures of its certificates and of its PASSporTs
//! are good.
ghost use Rattle.std.specs.Prelude.{◌≡◌, ◌<◌, ◌≤◌, ◌++◌, map, length, option_to_list, IfOk, OnOk, Some, string_bytes};
ghost use Rattle.std.specs.List.{slice_get};
ghost use Rattle.std.specs.Option.{option_copied, option_map};
ghost use Rattle.cert_store.specs.Questions.{question_at, questions_of, seen};
ghost use Rattle.verify_rules.specs.Call.{Reading};
ghost use Rattle.verify_rules.specs.States.{seen as state_seen};
ghost use Rattle.call_judging.specs.AskLines.{ask_line};
ghost use Rattle.call_judging.specs.CallQuestions.{chain_questions, has_authority, judged_questions, own_question};
ghost use Rattle.call_judging.specs.CallQuestions.{own_questions, under_leaf};
ghost use Rattle.call_judging.specs.Verdicts.{asks_own};

use crate::rule_numbers::FIRST_ON_SIGNATURES;
use cert_store::{Judged, Question};
use std::alloc::{AllocError, Global};
use verify_rules::{ChainState, Chains, Screened, Verdict};
use x509_profile::Certificate;

/// The questions for the signatures of a chain's certificates, from the leaf's on, if rules 10, 11, 12 and 14 hold for
/// it; else none. `AllocError` is the only error.
pub fn chain_questions(
    alloc: Global,
    state: ChainState<'_>,
) -> Result<Vec<Question<'_>>, AllocError>
    ensures { IfOk result (λ asked. map seen asked.items ≡ chain_questions (state_seen state.entry)) }
{
    match state {
        ChainState::Have(judged) => judged_questions(alloc, judged),
        ChainState::NoChain => Ok(Vec::new(alloc)),
        ChainState::Long => Ok(Vec::new(alloc)),
        ChainState::Unread => Ok(Vec::new(alloc)),
    }
}

/// Those of a chain that was judged.
fn judged_questions(alloc: Global, judged: &Judged) -> Result<Vec<Question<'_>>, AllocError>
    ensures { IfOk result (λ asked. map seen asked.items ≡ judged_questions judged.now) }
{
    if !has_authority(judged) {
        return Ok(Vec::new(alloc));
    }
    all_questions(alloc, judged)
}

/// Whether rules 11, 12 and 14 hold for a chain.
fn has_authority(judged: &Judged) -> bool
    ensures { result ≡ has_authority judged.now }
{
    judged.profile().is_none() && judged.shape().is_none() && judged.authority().is_none()
}

/// All questions of a chain.
#[tactic(auto, using(crate::proofs::ChainSteps::none_yet, crate::proofs::ChainSteps::one_more, crate::proofs::ChainSteps::all_there))]
fn all_questions(alloc: Global, judged: &Judged) -> Result<Vec<Question<'_>>, AllocError>
    ensures { IfOk result (λ asked. map seen asked.items ≡ questions_of judged.now) }
{
    let mut asked = Vec::new(alloc);
    'certificates: for before in 0..judged.length() {
        add(&mut asked, judged.question(before + 1))?;
    }
    Ok(asked)
}

/// Adds a question, if there is one.
#[tactic(auto, using(crate::proofs::ChainSteps::added_some, crate::proofs::ChainSteps::added_none))]
fn add<'a>(asked: &mut Vec<Question<'a>>, question: Option<Question<'a>>) -> Result<(), AllocError>
    ensures { OnOk result (map seen asked.new.items ≡ map seen asked.old.items
        ++ option_to_list (option_map seen question.entry)) }
{
    match question {
        Some(question) => {
            asked.push(question)?;
            Ok(())
        }
        None => Ok(()),
    }
}

/// The questions for the signatures of a call's PASSporTs, in the order in which the call went, under the keys of the
/// leaves of their chains. There is one state of a chain for each PASSporT. `AllocError` is the only error.
#[tactic(auto, using(crate::proofs::OwnSteps::none_yet, crate::proofs::OwnSteps::one_more, crate::proofs::OwnSteps::all_there))]
pub fn own_questions<'a, C: Chains>(
    alloc: Global,
    screened: &'a Screened,
    chains: &'a C,
) -> Result<Vec<Question<'a>>, AllocError>
    requires one_each { length (C.states chains.now) ≡ length screened.now.readings }
    ensures { IfOk result (λ asked. map seen asked.items ≡ own_questions screened.now.readings (C.states chains.now)) }
{
    let mut asked = Vec::new(alloc);
    'passports: for i in 0..screened.count() {
        add(&mut asked, own_question(screened, i, chains.state(i)))?;
    }
    Ok(asked)
}

/// That of the PASSporT at an index, if its chain has a leaf.
fn own_question<'a>(screened: &'a Screened, i: usize, state: ChainState<'a>) -> Option<Question<'a>>
    requires { i < length screened.now.readings }
    ensures { (one : Reading) → slice_get screened.now.readings i ≡ Some one
        → option_to_list (option_map seen result) ≡ own_question one (state_seen state.entry) }
{
    match state {
        ChainState::Have(judged) => under_leaf(screened, i, judged.leaf()),
        ChainState::NoChain => None,
        ChainState::Long => None,
        ChainState::Unread => None,
    }
}

/// That under the key of a leaf, if there is one.
fn under_leaf<'a>(
    screened: &'a Screened,
    i: usize,
    leaf: Option<&'a Certificate>,
) -> Option<Question<'a>>
    requires { i < length screened.now.readings }
    ensures { (one : Reading) → slice_get screened.now.readings i ≡ Some one
        → option_to_list (option_map seen result) ≡ under_leaf one (option_copied leaf.entry) }
{
    match leaf {
        Some(leaf) => Some(Question {
            key: leaf.key(),
            digest: screened.digest(i),
            signature: screened.signature(i),
        }),
        None => None,
    }
}

/// Whether the signatures of the PASSporTs are asked for: no rule before the first that asks for a signature is broken,
/// nor left open.
pub fn asks_own(verdict: Verdict) -> bool
    ensures { result ≡ asks_own verdict }
{
    match verdict {
        Verdict::Passed => true,
        Verdict::Refused(refusal) => refusal.rule >= FIRST_ON_SIGNATURES,
        Verdict::Unread(_) => false,
        Verdict::Unasked(_) => true,
    }
}

/// The line of a question, as an answers file confirms it. `AllocError` is the only error.
#[tactic(auto, unfolding(crate::specs::AskLines::ask_line))]
pub fn question_line(alloc: Global, question: &Question<'_>) -> Result<String, AllocError>
    ensures { IfOk result (λ line. string_bytes line ≡ ask_line (seen question.now)) }
{
    let key = hex::encode(alloc, question.key.as_slice())?;
    let digest = hex::encode(alloc, question.digest.as_slice())?;
    let signature = hex::encode(alloc, question.signature.as_slice())?;
    format!(in alloc; "confirm {key} {digest} {signature}\n")
}
