//! What judges the calls of a log, round by round.
ghost use Rattle.std.specs.Prelude.{◌≡◌, ◌+◌, ◌<◌, ◌≤◌, length, IfOk, IfErr};
ghost use Rattle.log_rounds.specs.Batches.{OneRound, RoundsStand};
ghost use Rattle.log_rounds.specs.Judge.{Moves, RoundJudged};
ghost use Rattle.log_run.specs.Commands.{Follow as Next};
ghost use Rattle.log_rounds.specs.Verifier.{AnswersBy, TrustsHeld, basis_of, config_of, state_of};
ghost use Rattle.stir_outside.specs.Stays.{ShelfStays};
ghost use Rattle.verify_service.specs.Handing.{IsStateOf};
ghost use Rattle.verify_service.specs.Service.{Follow, texts_in};

use crate::report::{all_valid, first_number};
use crate::verifier::LogVerifier;
use crate::workers::workers_of;
use call_log::Call;
use log_run::{AnswerError, Answered, BatchAnswer, LogCommand};
use replay_law::more_rounds;
use std::alloc::{AllocError, Global};
use std::thread::Threads;
use stir_outside::{Shelf, files_law};
use verify_rules::words_law;
use verify_service::{Carried, State, report_lines};

impl<'a> LogVerifier<'a> {
    /// Judges the calls of a round, of which there are 1 to 256. Their numbers rise and their moments don't fall, from
    /// those of the last call before them on. `AllocError` is the only error.
    pub fn judge<R: Threads + Sync, S: Shelf>(
        &mut self,
        rt: &R,
        alloc: Global,
        shelf: &mut S,
        calls: &[Call],
    ) -> Result<Carried, AllocError>
        requires follow { Follow self.old.service.number self.old.service.moment calls.now }
        requires trusts { TrustsHeld self.old (S.files shelf.old) }
        ensures round { IfOk result (λ carried. RoundJudged (AnswersBy (basis_of self.old) (S.files shelf.old))
            (config_of (basis_of self.old)) self.old.service.chains (state_of self.old (S.counts shelf.old))
            (state_of self.new (S.counts shelf.new)) calls.now carried.outcomes) }
        // What changes, and what doesn't, also if memory ran out: each chain that the calls need and that isn't held is
        // read once at most.
        ensures most { (S.counts shelf.new).reads ≤ (S.counts shelf.old).reads
            + length (texts_in self.old.service calls.now) }
        ensures moves { IfOk result (λ carried.
            Moves (state_of self.old (S.counts shelf.old)) (state_of self.new (S.counts shelf.new)) calls.now) }
        ensures trusts { TrustsHeld self.new (S.files shelf.new) }
        ensures same { basis_of self.new ≡ basis_of self.old }
        ensures shelf { ShelfStays S.Shelf shelf.old shelf.new }
    {
        words_law();
        files_law();
        let mut workers = workers_of(alloc, self.answers, self.workers)?;
        self.service.round(rt, shelf, workers.as_mut_slice(), calls)
    }

    /// What the service hands on to the next run. `AllocError` is the only error.
    pub(crate) fn hand_on(&mut self) -> Result<State, AllocError>
        ensures state { IfOk result (IsStateOf self.old.service) }
    {
        self.service.state()
    }

    /// Judges a round, and gives its lines. Only memory stops that.
    pub(crate) fn answer_round<R: Threads + Sync, S: Shelf>(
        &mut self,
        rt: &R,
        alloc: Global,
        shelf: &mut S,
        calls: &[Call],
    ) -> Answered
        requires some { 0 < length calls.now }
        requires few { length calls.now ≤ 256 }
        requires follow { Next (RoundsStand self.old (S.files shelf.old)) calls.now }
        ensures judged { IfOk result (OneRound (AnswersBy (basis_of self.old) (S.files shelf.old))
            (config_of (basis_of self.old)) self.old.service.chains (state_of self.old (S.counts shelf.old))
            (state_of self.new (S.counts shelf.new)) calls.now) }
        ensures memory { IfErr result (λ stop. stop ≡ AnswerError.Memory) }
        ensures most { (S.counts shelf.new).reads ≤ (S.counts shelf.old).reads
            + length (texts_in self.old.service calls.now) }
        ensures trusts { TrustsHeld self.new (S.files shelf.new) }
        ensures same { basis_of self.new ≡ basis_of self.old }
        ensures shelf { ShelfStays S.Shelf shelf.old shelf.new }
    {
        let carried = match self.judge(rt, alloc, shelf, calls) {
            Ok(carried) => carried,
            Err(_) => return Err(AnswerError::Memory),
        };
        let outcomes = self.service.close(carried);
        match report_lines(alloc, first_number(calls), &outcomes) {
            Ok(lines) => Ok(BatchAnswer::new(lines, all_valid(&outcomes))),
            Err(_) => Err(AnswerError::Memory),
        }
    }
}

/// A batch is a round of 256 calls.
impl<'a> LogCommand for LogVerifier<'a> {
    ghost use Rattle.log_rounds.specs.Batches.{RoundsBehind, RoundsClosed, RoundsStand, RoundsStopped};

    ghost behind = { λ first before now counts files batches. RoundsBehind first now before counts files batches };

    ghost stopped = { λ first before now counts files batches calls stop.
        RoundsStopped first before counts files batches calls stop };

    ghost closed = { λ first before now counts files batches text.
        RoundsClosed first now before counts files batches text };

    ghost stands = { λ verifier counts files passed. RoundsStand verifier files passed };

    ghost most = { λ verifier. 256 };

    fn most(&self) -> u32 {
        256
    }

    fn answer<R, S>(&mut self, rt: &R, alloc: Global, shelf: &mut S, calls: &[Call]) -> Answered
    where
        R: Threads + Sync,
        S: Shelf,
    {
        more_rounds();
        self.answer_round(rt, alloc, shelf, calls)
    }

    fn closing(&mut self, alloc: Global) -> Result<Vec<u8>, AllocError> {
        Ok(Vec::new(alloc))
    }
}
