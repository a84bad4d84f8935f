//! A log that goes on from a state of an earlier one, and hands its own state on.
ghost use Rattle.call_log.specs.Log.{start};
ghost use Rattle.log_run.specs.Streams.{streams_of};
ghost use Rattle.log_run.specs.Words.{LogSays, run_state};
ghost use Rattle.log_rounds.specs.Handed.{GoesOnFrom, words_on};
ghost use Rattle.log_rounds.specs.Reads.{ReadsFirst};
ghost use Rattle.log_rounds.specs.Verifier.{TrustsHeld, basis_of, state_of};
ghost use Rattle.std.specs.Prelude.{◌≤◌};
ghost use Rattle.stir_outside.specs.Stays.{ShelfStays};

use crate::verifier::LogVerifier;
use call_log::{Call, LogReader, one_log};
use log_run::{Answered, LogCommand, run_log};
use replay_law::more_rounds;
use std::alloc::{AllocError, Global};
use std::thread::Threads;
use stir_outside::{Shelf, Sink, Source};

/// A verifier that hands its state on: the text of the state closes its report.
#[derive(Drop)]
pub struct HandingVerifier<'a> {
    /// What judges the calls of a log.
    pub verifier: LogVerifier<'a>,
}

/// A batch is a round of 256 calls.
impl<'a> LogCommand for HandingVerifier<'a> {
    ghost use Rattle.log_rounds.specs.Batches.{RoundsStand, RoundsStopped};
    ghost use Rattle.log_rounds.specs.Handed.{HandsBehind, StateClosed};

    ghost behind = { λ first before now counts files batches.
        HandsBehind first.verifier now.verifier before counts files batches };

    ghost stopped = { λ first before now counts files batches calls stop.
        RoundsStopped first.verifier before counts files batches calls stop };

    ghost closed = { λ first before now counts files batches text.
        StateClosed first.verifier now.verifier before counts files batches text };

    ghost stands = { λ handing counts files passed. RoundsStand handing.verifier files passed };

    ghost most = { λ handing. 256 };

    fn most(&self) -> u32 {
        256
    }

    fn answer<R, S>(&mut self, rt: &R, alloc: Global, shelf: &mut S, calls: &[Call]) -> Answered
    where
        R: Threads + Sync,
        S: Shelf,
    {
        more_rounds();
        self.verifier.answer_round(rt, alloc, shelf, calls)
    }

    fn closing(&mut self, _alloc: Global) -> Result<Vec<u8>, AllocError> {
        let state = self.verifier.hand_on()?;
        let _rules = state.kept();
        state.write()
    }
}

/// Judges a whole log that goes on from a state, by a verifier whose service was restored from it: `call` and `moment`
/// are those of the state's last call. It writes a line for each call, in rounds of 256, and then the text of the state
/// that is handed on.
///
/// The status is that of [`judge_log`](crate::judge_log). The state's text comes before the line of a log that is
/// outside its grammar, or that can't be read further. If memory runs out for the state, whole lines were written, and
/// a line says so: status 6.
pub fn judge_log_on<R: Threads + Sync, S: Shelf, I: Source, O: Sink>(
    rt: &R,
    alloc: Global,
    handing: &mut HandingVerifier<'_>,
    call: u32,
    moment: u64,
    shelf: &mut S,
    input: &mut I,
    sink: &mut O,
) -> u8
    requires call { call ≤ 4000000000 }
    requires from { GoesOnFrom call moment (state_of handing.old.verifier (S.counts shelf.old)) }
    requires trusts { TrustsHeld handing.old.verifier (S.files shelf.old) }
    ensures says { LogSays (words_on (basis_of handing.old.verifier) (S.files shelf.old) (state_of handing.old.verifier
        (S.counts shelf.old)).past (start call moment) (S.counts shelf.old) (S.counts shelf.new)) (start call moment)
        (run_state (I.left input.old) (streams_of I.Source O.Sink input.old sink.old))
        (run_state (I.left input.new) (streams_of I.Source O.Sink input.new sink.new)) result }
    ensures reads { ReadsFirst handing.old.verifier.service.settings handing.old.verifier.service.chains
        (start call moment) (I.left input.old) (S.counts shelf.old).reads (S.counts shelf.new).reads }
    ensures shelf { ShelfStays S.Shelf shelf.old shelf.new }
{
    one_log();
    let mut reader = LogReader::after(alloc, call, moment);
    run_log(rt, alloc, handing, &mut reader, shelf, input, sink)
}
