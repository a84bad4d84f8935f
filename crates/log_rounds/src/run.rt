//! A whole log judged round by round.
ghost use Rattle.call_log.specs.Log.{start};
ghost use Rattle.log_run.specs.Streams.{streams_of};
ghost use Rattle.log_run.specs.Words.{LogSays, run_state};
ghost use Rattle.log_rounds.specs.Batches.{words_by};
ghost use Rattle.log_rounds.specs.Judged.{StandsAtFirst};
ghost use Rattle.log_rounds.specs.Reads.{ReadsFirst};
ghost use Rattle.log_rounds.specs.Verifier.{TrustsHeld, basis_of, state_of};
ghost use Rattle.stir_outside.specs.Stays.{ShelfStays};

use crate::verifier::LogVerifier;
use call_log::{LogReader, one_log};
use log_run::run_log;
use replay_law::{first_of_all, legal_together};
use std::alloc::Global;
use std::thread::Threads;
use stir_outside::{Shelf, Sink, Source};

/// Judges a whole log by a verifier that has judged nothing before, and writes a line for each call, in rounds of 256.
///
/// The status is 0 if all calls are valid, else 1. If the log is outside its grammar, or a read of it fails, the whole
/// entries before are judged and reported, and a line says so: status 5 or 3. If a write fails the status is 4, and
/// what was written is a prefix of the whole. If memory runs out, whole lines were written, and a line says so: status
/// 6.
pub fn judge_log<R: Threads + Sync, S: Shelf, I: Source, O: Sink>(
    rt: &R,
    alloc: Global,
    verifier: &mut LogVerifier<'_>,
    shelf: &mut S,
    input: &mut I,
    sink: &mut O,
) -> u8
    requires first { StandsAtFirst (state_of verifier.old (S.counts shelf.old)) }
    requires trusts { TrustsHeld verifier.old (S.files shelf.old) }
    ensures says { LogSays (words_by (basis_of verifier.old) (S.files shelf.old) (start 0 0) (S.counts shelf.old)
        (S.counts shelf.new)) (start 0 0) (run_state (I.left input.old) (streams_of I.Source O.Sink input.old sink.old))
        (run_state (I.left input.new) (streams_of I.Source O.Sink input.new sink.new)) result }
    // Each file of a chain that the calls of the log name is read once, whatever the status, if they are at most 4,096.
    ensures reads { ReadsFirst verifier.old.service.settings verifier.old.service.chains (start 0 0) (I.left input.old)
        (S.counts shelf.old).reads (S.counts shelf.new).reads }
    ensures shelf { ShelfStays S.Shelf shelf.old shelf.new }
{
    one_log();
    legal_together();
    first_of_all();
    let mut reader = LogReader::new(alloc);
    run_log(rt, alloc, verifier, &mut reader, shelf, input, sink)
}
