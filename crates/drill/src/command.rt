//! The judgement of the drill's log, as a command over batches of 256 calls.
ghost use Rattle.std.specs.Prelude.{◌≡◌, ◌+◌, ◌≤◌, [], length, true, IfOk, IfErr};
ghost use Rattle.drill.specs.Command.{OneCounted};
ghost use Rattle.log_rounds.specs.Verifier.{AnswersBy, TrustsHeld, basis_of, config_of, state_of};
ghost use Rattle.stir_outside.specs.Stays.{ShelfStays};
ghost use Rattle.verify_service.specs.Service.{Follow, texts_in};

use crate::count_laws::count_law;
use crate::counts::Counts;
use call_log::Call;
use log_rounds::LogVerifier;
use log_run::{AnswerError, Answered, BatchAnswer, LogCommand};
use replay_law::more_rounds;
use std::alloc::{AllocError, Global};
use std::thread::Threads;
use stir_outside::Shelf;

/// Judges the calls of a log and counts what came of them. It writes nothing of a batch; the text that closes the
/// report is the summary.
#[derive(Drop)]
pub(crate) struct DrillCommand<'a> {
    /// What judges a round.
    pub(crate) verifier: LogVerifier<'a>,
    /// What came of the calls so far.
    pub(crate) counts: Counts,
    /// How many calls the log has. The summary is written of the whole log alone.
    pub(crate) total: u64,
}

impl<'a> DrillCommand<'a> {
    /// Judges the calls of a round and counts what came of them. Only memory stops that.
    fn count_round<R: Threads + Sync, S: Shelf>(
        &mut self,
        rt: &R,
        alloc: Global,
        shelf: &mut S,
        calls: &[Call],
    ) -> Answered
        requires follow { Follow self.old.verifier.service.number self.old.verifier.service.moment calls.now }
        requires trusts { TrustsHeld self.old.verifier (S.files shelf.old) }
        ensures counted { IfOk result (λ answer. (answer.text ≡ []) × (answer.well ≡ true) × OneCounted
            (AnswersBy (basis_of self.old.verifier) (S.files shelf.old)) (config_of (basis_of self.old.verifier))
            self.old.verifier.service.chains (state_of self.old.verifier (S.counts shelf.old))
            (state_of self.new.verifier (S.counts shelf.new)) self.old.counts self.new.counts calls.now) }
        ensures memory { IfErr result (λ stop. stop ≡ AnswerError.Memory) }
        ensures most { (S.counts shelf.new).reads ≤ (S.counts shelf.old).reads
            + length (texts_in self.old.verifier.service calls.now) }
        ensures trusts { TrustsHeld self.new.verifier (S.files shelf.new) }
        ensures same { basis_of self.new.verifier ≡ basis_of self.old.verifier }
        ensures total { self.new.total ≡ self.old.total }
        ensures shelf { ShelfStays S.Shelf shelf.old shelf.new }
    {
        let carried = match self.verifier.judge(rt, alloc, shelf, calls) {
            Ok(carried) => carried,
            Err(_) => return Err(AnswerError::Memory),
        };
        let verifier = &mut self.verifier;
        let outcomes = verifier.service.close(carried);
        self.counts.add(&outcomes);
        Ok(BatchAnswer::new(Vec::new(alloc), true))
    }
}

/// A batch is a round of 256 calls.
impl<'a> LogCommand for DrillCommand<'a> {
    ghost use Rattle.drill.specs.Command.{DrillBehind, DrillClosed, DrillStopped};
    ghost use Rattle.log_rounds.specs.Batches.{RoundsStand};

    ghost behind = { λ first before now counts files batches. DrillBehind first now before counts files batches };

    ghost stopped = { λ first before now counts files batches calls stop.
        DrillStopped first before counts files batches calls stop };

    ghost closed = { λ first before now counts files batches text.
        DrillClosed first now before counts files batches text };

    ghost stands = { λ command counts files passed. RoundsStand command.verifier files passed };

    ghost most = { λ command. 256 };

    fn most(&self) -> u32 {
        256
    }

    fn answer<R, S>(&mut self, rt: &R, alloc: Global, shelf: &mut S, calls: &[Call]) -> Answered
    where
        R: Threads + Sync,
        S: Shelf,
    {
        more_rounds();
        count_law();
        self.count_round(rt, alloc, shelf, calls)
    }

    fn closing(&mut self, alloc: Global) -> Result<Vec<u8>, AllocError> {
        if self.counts.calls() == self.total {
            self.counts.summary(alloc)
        } else {
            Ok(Vec::new(alloc))
        }
    }
}
