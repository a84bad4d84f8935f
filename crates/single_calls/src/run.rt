//! A whole log answered call by call.
ghost use Rattle.std.specs.Prelude.{[]};
ghost use Rattle.call_log.specs.Log.{start};
ghost use Rattle.log_run.specs.Streams.{streams_of};
ghost use Rattle.log_run.specs.Words.{LogSays, run_state};
ghost use Rattle.single_calls.specs.Asker.{AskedBy, BehindAsked, StopsAsking};
ghost use Rattle.single_calls.specs.Explainer.{ExplainedBy, NeverStops};
ghost use Rattle.single_calls.specs.Singly.{singly_words};
ghost use Rattle.stir_outside.specs.Stays.{ShelfStays};

use crate::asker::Asker;
use crate::explainer::Explainer;
use call_log::{LogReader, one_log};
use log_run::run_log;
use std::alloc::Global;
use std::thread::Threads;
use stir_outside::{Shelf, Sink, Source};

/// Explains the calls of a log one by one, and writes the lines of each before the next is read.
///
/// The status is 0 if each call breaks no rule, else 1. If the log is outside its grammar, or a read of it fails, the
/// whole entries before are explained, and a line says so: status 5 or 3. If a write fails, the status is 4, and what
/// was written is a prefix of the whole. If memory runs out, whole lines were written, and a line says so: status 6.
pub fn explain_log<R: Threads + Sync, S: Shelf, I: Source, O: Sink>(
    rt: &R,
    alloc: Global,
    explainer: &mut Explainer<'_>,
    shelf: &mut S,
    input: &mut I,
    sink: &mut O,
) -> u8
    ensures says { LogSays (singly_words (ExplainedBy explainer.old (S.files shelf.old))
        (NeverStops explainer.old (S.files shelf.old)) (S.counts shelf.old).faults (S.counts shelf.new).faults)
        (start 0 0) (run_state (I.left input.old) (streams_of I.Source O.Sink input.old sink.old))
        (run_state (I.left input.new) (streams_of I.Source O.Sink input.new sink.new)) result }
    ensures shelf { ShelfStays S.Shelf shelf.old shelf.new }
{
    one_log();
    let mut reader = LogReader::new(alloc);
    run_log(rt, alloc, explainer, &mut reader, shelf, input, sink)
}

/// Asks for the calls of a log one by one, by what has asked nothing before, and writes the lines of each before the
/// next is read.
///
/// The status is that of [`explain_log`], except that nothing is wrong with a call. If a file of certificates can't be
/// read, the lines before are written, and a line names it: status 3.
pub fn ask_log<R: Threads + Sync, S: Shelf, I: Source, O: Sink>(
    rt: &R,
    alloc: Global,
    asker: &mut Asker,
    shelf: &mut S,
    input: &mut I,
    sink: &mut O,
) -> u8
    requires { BehindAsked asker.old (S.files shelf.old) [] }
    ensures says { LogSays (singly_words (AskedBy asker.old (S.files shelf.old))
        (StopsAsking asker.old (S.files shelf.old)) (S.counts shelf.old).faults (S.counts shelf.new).faults) (start 0 0)
        (run_state (I.left input.old) (streams_of I.Source O.Sink input.old sink.old))
        (run_state (I.left input.new) (streams_of I.Source O.Sink input.new sink.new)) result }
    ensures shelf { ShelfStays S.Shelf shelf.old shelf.new }
{
    one_log();
    let mut reader = LogReader::new(alloc);
    run_log(rt, alloc, asker, &mut reader, shelf, input, sink)
}
