//! Lines of what PASSporTs say, and of what is asked.
ghost use Rattle.std.specs.Prelude.{◌≡◌, ◌<◌, ◌++◌, ◌∷◌, [], map, IfOk, OnOk, length};
ghost use Rattle.cert_store.specs.Questions.{seen as question_seen};
ghost use Rattle.call_judging.specs.AskLines.{ask_line, ask_lines};
ghost use Rattle.call_judging.specs.CallQuestions.{chain_questions, chains_questions};
ghost use Rattle.verify_rules.specs.States.{seen};
ghost use Rattle.open_calls.specs.Claims.{claims_lines};
ghost use Rattle.open_calls.specs.OpenChains.{states_of};

use crate::chains::OpenChains;
use crate::claims::add_claims;
use call_judging::{chain_questions, question_line};
use cert_store::Question;
use std::alloc::{AllocError, Global};
use verify_rules::{ChainState, Chains, Screened};

/// What the PASSporTs of a screened call say, a line each. `AllocError` is the only error.
#[tactic(auto, using(crate::proofs::ClaimsSteps::none_yet, crate::proofs::ClaimsSteps::all_written))]
pub(crate) fn claims_of(alloc: Global, screened: &Screened) -> Result<Vec<u8>, AllocError>
    ensures { IfOk result (λ lines. lines.items ≡ claims_lines screened.now.readings) }
{
    let mut text = Vec::new(alloc);
    'passports: for i in 0..screened.count() {
        add_claims(alloc, screened, i, &mut text)?;
    }
    Ok(text)
}

/// Adds a text and the end of its line. `AllocError` is the only error.
pub(crate) fn add_line(line: &[u8], text: &mut Vec<u8>) -> Result<(), AllocError>
    ensures { OnOk result (text.new.items ≡ text.old.items ++ (line.now ++ 10 ∷ [])) }
{
    text.extend_from_slice(line)?;
    text.push(b'\n')?;
    Ok(())
}

/// Adds the lines of the questions of each chain. `AllocError` is the only error.
#[tactic(auto, using(crate::proofs::ChainsLaws::none_yet, crate::proofs::ChainsLaws::one_more, crate::proofs::ChainsLaws::all_written))]
pub(crate) fn add_chains(
    alloc: Global,
    chains: &OpenChains<'_>,
    text: &mut Vec<u8>,
) -> Result<(), AllocError>
    ensures { OnOk result (text.new.items ≡ text.old.items ++ ask_lines (chains_questions (states_of chains.now))) }
{
    'chains: for i in 0..chains.count() {
        add_chain(alloc, chains.state(i), text)?;
    }
    Ok(())
}

/// Adds those of one chain, if rules 10, 11, 12 and 14 hold for it. `AllocError` is the only error.
fn add_chain(alloc: Global, state: ChainState<'_>, text: &mut Vec<u8>) -> Result<(), AllocError>
    ensures { OnOk result (text.new.items ≡ text.old.items ++ ask_lines (chain_questions (seen state.entry))) }
{
    let questions = chain_questions(alloc, state)?;
    add_all(alloc, questions.as_slice(), text)
}

/// Adds the lines of questions, in their order. `AllocError` is the only error.
pub(crate) fn add_all(
    alloc: Global,
    questions: &[Question<'_>],
    text: &mut Vec<u8>,
) -> Result<(), AllocError>
    ensures { OnOk result (text.new.items ≡ text.old.items ++ ask_lines (map question_seen questions.now)) }
{
    'questions: for question in questions {
        add_question(alloc, question, text)?;
    }
    Ok(())
}

/// Adds the line of a question. `AllocError` is the only error.
fn add_question(
    alloc: Global,
    question: &Question<'_>,
    text: &mut Vec<u8>,
) -> Result<(), AllocError>
    ensures { OnOk result (text.new.items ≡ text.old.items ++ ask_line (question_seen question.now)) }
{
    let line = question_line(alloc, question)?;
    text.extend_from_slice(line.as_bytes())?;
    Ok(())
}
