//! The batches of a log: each is read, answered and written of before the next.
ghost use Rattle.std.specs.Prelude.{◌≡◌, ◌+◌, ◌≤◌, ◌<◌, [], length, Ok, IfOk};
ghost use Rattle.call_log.specs.Supply.{EndsRight, supply_of};
ghost use Rattle.log_run.specs.Commands.{Adds, Follow, From, StandsOn, Stops};
ghost use Rattle.log_run.specs.Running.{AnsweredBatch, RanBatch, RunsOut, at_of};
ghost use Rattle.log_run.specs.declared.ends.Next.TheVariants.{More};
ghost use Rattle.log_run.specs.Reading.{ReadsOn};
ghost use Rattle.log_run.specs.Streams.{streams_of};
ghost use Rattle.stir_outside.specs.Stays.{ShelfStays};

use crate::command::LogCommand;
use crate::ends::{Next, RunError};
use crate::reading::read_batch;
use call_log::{Call, LogFault, LogReader};
use std::alloc::Global;
use std::thread::Threads;
use stir_outside::{Shelf, Sink, Source, write_whole};

/// Answers the calls of a batch and writes their lines.
fn answer_batch<R: Threads + Sync, C: LogCommand, S: Shelf, O: Sink>(
    rt: &R,
    alloc: Global,
    command: &mut C,
    shelf: &mut S,
    calls: &[Call],
    sink: &mut O,
    all_good: &mut bool,
) -> Result<(), RunError>
    requires some { 0 < length calls.now }
    requires few { length calls.now ≤ C.most command.old }
    requires follow { Follow (C.stands command.old (S.counts shelf.old) (S.files shelf.old)) calls.now }
    ensures answered { AnsweredBatch (Adds C.behind command.old command.new (S.counts shelf.old) (S.counts shelf.new)
        (S.files shelf.old) calls.now) (Stops C.behind C.stopped command.old command.new (S.counts shelf.old)
        (S.counts shelf.new) (S.files shelf.old) calls.now) all_good.old all_good.new (O.written sink.old)
        (O.written sink.new) (O.faults sink.old) (O.faults sink.new) result }
    ensures stands { IfOk result (λ done. StandsOn (C.stands command.old (S.counts shelf.old) (S.files shelf.old))
        (C.stands command.new (S.counts shelf.new) (S.files shelf.new)) calls.now) }
    ensures writes { O.faults sink.old ≤ O.faults sink.new }
    ensures same_most { C.most command.new ≡ C.most command.old }
    ensures shelf { ShelfStays S.Shelf shelf.old shelf.new }
{
    let answer = match command.answer(rt, alloc, shelf, calls) {
        Ok(answer) => answer,
        Err(stop) => return Err(RunError::Stopped(stop)),
    };
    *all_good = answer.keeps_well(*all_good);
    match write_whole(sink, answer.text()) {
        Ok(()) => Ok(()),
        Err(_) => Err(RunError::Sink),
    }
}

/// Reads the next batch, answers it and writes its lines. An empty last batch is none.
fn run_batch<R: Threads + Sync, C: LogCommand, S: Shelf, I: Source, O: Sink>(
    rt: &R,
    alloc: Global,
    command: &mut C,
    shelf: &mut S,
    reader: &mut LogReader,
    input: &mut I,
    sink: &mut O,
    all_good: &mut bool,
) -> Result<Next, RunError>
    requires reads_on { ReadsOn reader.old }
    requires stands { C.stands command.old (S.counts shelf.old) (S.files shelf.old) reader.old.passed }
    ensures ran { From C.behind command.old (S.counts shelf.old) (S.files shelf.old) (λ first before batches.
        RanBatch (C.most command.old) (C.behind first before command.new (S.counts shelf.new) (S.files shelf.old))
        (C.stopped first before command.new (S.counts shelf.new) (S.files shelf.old)) batches
        (at_of I.Source all_good.old reader.old input.old) (at_of I.Source all_good.new reader.new input.new)
        (streams_of I.Source O.Sink input.old sink.old) (streams_of I.Source O.Sink input.new sink.new) result) }
    ensures reads_on { result ≡ Ok More → ReadsOn reader.new }
    ensures stands { result ≡ Ok More
        → C.stands command.new (S.counts shelf.new) (S.files shelf.new) reader.new.passed }
    ensures more { result ≡ Ok More → reader.new.passed.count ≡ reader.old.passed.count + C.most command.old }
    ensures some { 0 < C.most command.old }
    ensures same_most { C.most command.new ≡ C.most command.old }
    ensures ends { EndsRight (supply_of I.Source reader.old.ended input.old)
        → EndsRight (supply_of I.Source reader.new.ended input.new) }
    ensures shelf { ShelfStays S.Shelf shelf.old shelf.new }
{
    let mut calls = Vec::new(alloc);
    let most = command.most();
    let next = match read_batch(most, reader, input, &mut calls) {
        Ok(next) => next,
        Err(_) => return Err(RunError::Memory),
    };
    if calls.is_empty() {
        return Ok(next);
    }
    match answer_batch(rt, alloc, command, shelf, &calls, sink, all_good) {
        Ok(()) => Ok(next),
        Err(halt) => Err(halt),
    }
}

/// Reads and answers the batches of a log to its end or to what stops that, and writes their lines.
pub(crate) fn run_batches<R: Threads + Sync, C: LogCommand, S: Shelf, I: Source, O: Sink>(
    rt: &R,
    alloc: Global,
    command: &mut C,
    shelf: &mut S,
    reader: &mut LogReader,
    input: &mut I,
    sink: &mut O,
    all_good: &mut bool,
) -> Result<Option<LogFault>, RunError>
    requires reads_on { ReadsOn reader.old }
    requires stands { C.stands command.old (S.counts shelf.old) (S.files shelf.old) reader.old.passed }
    requires first { C.behind command.old (S.counts shelf.old) command.old (S.counts shelf.old) (S.files shelf.old) [] }
    ensures ran { RunsOut (C.most command.old)
        (C.behind command.old (S.counts shelf.old) command.new (S.counts shelf.new) (S.files shelf.old))
        (C.stopped command.old (S.counts shelf.old) command.new (S.counts shelf.new) (S.files shelf.old))
        (at_of I.Source all_good.old reader.old input.old) (at_of I.Source all_good.new reader.new input.new)
        (streams_of I.Source O.Sink input.old sink.old) (streams_of I.Source O.Sink input.new sink.new) result }
    ensures ends { EndsRight (supply_of I.Source reader.old.ended input.old)
        → EndsRight (supply_of I.Source reader.new.ended input.new) }
    ensures shelf { ShelfStays S.Shelf shelf.old shelf.new }
{
    'batches: loop {
        match run_batch(rt, alloc, command, shelf, reader, input, sink, all_good) {
            Ok(Next::More) => {}
            Ok(Next::Whole) => return Ok(None),
            Ok(Next::Fault(fault)) => return Ok(Some(fault)),
            Err(halt) => return Err(halt),
        }
    }
}
