//! What explains a call.
ghost use Rattle.stir_outside.specs.Stays.{ShelfStays};
ghost use Rattle.std.specs.Prelude.{◌≡◌, IfOk};
ghost use Rattle.single_calls.specs.Answer.{found_well, written_of};
ghost use Rattle.single_calls.specs.Explainer.{BehindAny, ExplainedBy, explanation, status_of};
ghost use Rattle.single_calls.specs.Singly.{OneAnswer};

use call_judging::{CallChains, Finding, explain_law, explained, judge_call};
use call_log::Call;
use cert_store::World;
use log_run::{AnswerError, Answered, BatchAnswer, LogCommand};
use std::alloc::{AllocError, Global};
use std::marker::Model;
use std::thread::Threads;
use stir_outside::{Answers, Shelf};
use verify_rules::Settings;
use verify_service::call_law;

/// Explains calls, each by itself: over a chain map, trust anchors, a code table and the files of a shelf, with an
/// answers file as the provider of signatures.
///
/// A contract sees the settings, what calls are judged by, and what the answers file says.
#[derive(Drop)]
pub struct Explainer<'a> {
    settings: Settings,
    world: World,
    answers: &'a Answers,
}

impl<'a> Model for Explainer<'a> {
    ghost use Rattle.single_calls.specs.Explainer.{ExplainerView};

    ghost Value = { ExplainerView };

    ghost view = { λ e. record { settings = e.settings; materials = e.world; answers = e.answers.now } };
}

impl<'a> Explainer<'a> {
    /// What explains by these.
    pub fn new(settings: Settings, world: World, answers: &'a Answers) -> Explainer<'a>
        ensures { result ≡ record { settings = settings; materials = world; answers = answers.now } }
    {
        Explainer {
            settings,
            world,
            answers,
        }
    }

    /// Explains a call. `AllocError` is the only error.
    fn explain<S: Shelf>(
        &self,
        alloc: Global,
        shelf: &mut S,
        call: &Call,
    ) -> Result<BatchAnswer, AllocError>
        ensures explained { IfOk result (OneAnswer BehindAny BehindAny (ExplainedBy self.now (S.files shelf.old))
            (S.counts shelf.old).faults (S.counts shelf.new).faults call.now) }
        ensures shelf { ShelfStays S.Shelf shelf.old shelf.new }
    {
        call_law();
        explain_law();
        let mut chains = CallChains::new(alloc);
        let mut provider = self.answers.steady();
        let finding = judge_call(
            alloc,
            &self.settings,
            &self.world,
            shelf,
            &mut provider,
            &mut chains,
            call.message(),
            call.moment(),
        )?;
        explanation(alloc, call.number(), &finding)
    }
}

/// The explanation of the call of this number, by what is found of it. `AllocError` is the only error.
fn explanation(alloc: Global, number: u32, finding: &Finding) -> Result<BatchAnswer, AllocError>
    ensures { IfOk result (λ written. written ≡ written_of (explanation number finding.now)) }
{
    let text = explained(alloc, number, finding)?;
    Ok(BatchAnswer::new(text.into_bytes(), is_well(finding)))
}

/// Nothing is wrong with a call of which this is found.
fn is_well(finding: &Finding) -> bool
    ensures { result ≡ found_well (status_of finding.now) }
{
    match finding {
        Finding::Refused(_) => false,
        Finding::Unread(_) => false,
        Finding::Unasked(_) => false,
        Finding::Passes(_) => true,
    }
}

/// A batch is one call.
impl<'a> LogCommand for Explainer<'a> {
    ghost use Rattle.std.specs.Prelude.{⊤};
    ghost use Rattle.single_calls.specs.Explainer.{ExplainedBatches, ExplainedBy, NeverStops};
    ghost use Rattle.single_calls.specs.Singly.{SinglyClosed, SinglyStopped};

    ghost behind = { λ first before now counts files batches.
        ExplainedBatches first now files before.faults counts.faults batches };

    ghost stopped = { λ first before now counts files batches calls stop. SinglyStopped (ExplainedBy first files)
        (NeverStops first files) before.faults counts.faults batches calls stop };

    ghost closed = { λ first before now counts files batches text.
        SinglyClosed (ExplainedBy first files) before.faults counts.faults batches text };

    ghost stands = { λ e counts files passed. ⊤ };

    ghost most = { λ e. 1 };

    fn most(&self) -> u32 {
        1
    }

    fn answer<R, S>(&mut self, rt: &R, alloc: Global, shelf: &mut S, calls: &[Call]) -> Answered
    where
        R: Threads + Sync,
        S: Shelf,
    {
        let _ = rt;
        match calls {
            [call] => match self.explain(alloc, shelf, call) {
                Ok(answer) => Ok(answer),
                Err(_) => Err(AnswerError::Memory),
            },
            _ => unreachable!(),
        }
    }

    fn closing(&mut self, alloc: Global) -> Result<Vec<u8>, AllocError> {
        Ok(Vec::new(alloc))
    }
}
