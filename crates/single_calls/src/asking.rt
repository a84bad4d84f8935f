//! Writing the lines of what is asked for a chain, and for the PASSporTs of a call.
ghost use Rattle.std.specs.Prelude.{◌≡◌, length, OnOk, string_bytes};
ghost use Rattle.call_judging.specs.CallQuestions.{chain_questions, own_questions};
ghost use Rattle.call_judging.specs.Chains.{state_of};
ghost use Rattle.single_calls.specs.Written.{Writes};

use crate::written::Written;
use call_judging::{CallChains, ChainStatus, chain_questions, own_questions};
use std::alloc::{AllocError, Global};
use verify_rules::Screened;

/// Writes the lines of the questions of a chain, from the leaf's on, if rules 10, 11, 12 and 14 hold for it.
pub(crate) fn ask_chain(
    alloc: Global,
    chain: &ChainStatus,
    written: &mut Written,
    text: &mut String,
) -> Result<(), AllocError>
    ensures { OnOk result (Writes written.old written.new (string_bytes text.old) (string_bytes text.new)
        (chain_questions (state_of chain.now))) }
{
    let questions = chain_questions(alloc, chain.state())?;
    written.add_all(alloc, questions.as_slice(), text)
}

/// Writes those of the questions for the signatures of a call's PASSporTs.
pub(crate) fn ask_own(
    alloc: Global,
    screened: &Screened,
    chains: &CallChains,
    written: &mut Written,
    text: &mut String,
) -> Result<(), AllocError>
    requires one_each { length chains.now ≡ length screened.now.readings }
    ensures { OnOk result (Writes written.old written.new (string_bytes text.old) (string_bytes text.new)
        (own_questions screened.now.readings chains.now)) }
{
    let questions = own_questions(alloc, screened, chains)?;
    written.add_all(alloc, questions.as_slice(), text)
}
