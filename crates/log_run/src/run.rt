//! A run over a whole log: its batches, the text that closes the report, and the last line.
ghost use Rattle.std.specs.Prelude.{◌≡◌, ◌≤◌, ◌++◌, [], string_bytes, true};
ghost use Rattle.call_log.specs.Reads.{left_to};
ghost use Rattle.call_log.specs.Supply.{EndsRight, supply_of};
ghost use Rattle.log_run.specs.Commands.{Closes, IsShort};
ghost use Rattle.log_run.specs.Ending.{CloseRan, EndsHalted, EndsStopped, EndsUnread, EndsAtFault, EndsRefused, LogRan};
ghost use Rattle.log_run.specs.Ending.{failed_line, refused_line, report_status, unread_line};
ghost use Rattle.log_run.specs.Reading.{ReadsOn};
ghost use Rattle.log_run.specs.Running.{at_of};
ghost use Rattle.log_run.specs.Streams.{streams_of};
ghost use Rattle.stir_outside.specs.Stays.{ShelfStays};

use crate::batches::run_batches;
use crate::command::LogCommand;
use crate::ends::RunError;
use crate::stop::AnswerError;
use call_log::{LogFault, LogReader};
use std::alloc::Global;
use std::thread::Threads;
use stir_outside::{Shelf, Sink, Source, Status, end_with, memory_line, write_whole};

/// Answers the calls of a log batch by batch, and writes the lines of each before the next is read. Then it writes the
/// text that closes the report, and a line if the log is outside its grammar or can't be read further. The reader may
/// begin at any number and moment, and may have bytes ahead.
pub fn run_log<R: Threads + Sync, C: LogCommand, S: Shelf, I: Source, O: Sink>(
    rt: &R,
    alloc: Global,
    command: &mut C,
    reader: &mut LogReader,
    shelf: &mut S,
    input: &mut I,
    sink: &mut O,
) -> u8
    requires reads_on { ReadsOn reader.old }
    requires ends { EndsRight (supply_of I.Source reader.old.ended input.old) }
    requires stands { C.stands command.old (S.counts shelf.old) (S.files shelf.old) reader.old.passed }
    requires first { C.behind command.old (S.counts shelf.old) command.old (S.counts shelf.old) (S.files shelf.old) [] }
    // What is known of the batches is known from the first state of the command on.
    ensures ran { LogRan (C.most command.old) (C.behind command.old (S.counts shelf.old) command.new
        (S.counts shelf.new) (S.files shelf.old)) (C.stopped command.old (S.counts shelf.old) command.new
        (S.counts shelf.new) (S.files shelf.old)) (C.closed command.old (S.counts shelf.old) command.new
        (S.counts shelf.new) (S.files shelf.old)) (at_of I.Source true reader.old input.old)
        (left_to reader.new (I.left input.new) ≡ I.left input.new) (I.left input.new)
        (streams_of I.Source O.Sink input.old sink.old) (streams_of I.Source O.Sink input.new sink.new) result }
    ensures shelf { ShelfStays S.Shelf shelf.old shelf.new }
{
    let mut all_good = true;
    match run_batches(
        rt,
        alloc,
        command,
        shelf,
        reader,
        input,
        sink,
        &mut all_good,
    ) {
        Ok(fault) => close(alloc, command, sink, fault, all_good),
        Err(halt) => end_halted(alloc, sink, halt),
    }
}

/// Writes the text that closes the report, and then the line that says why the log ended, if one is to be written.
fn close<C: LogCommand, O: Sink>(
    alloc: Global,
    command: &mut C,
    sink: &mut O,
    fault: Option<LogFault>,
    all_good: bool,
) -> u8
    ensures { CloseRan (IsShort C.behind C.stopped command.old command.new)
        (Closes C.behind C.closed command.old command.new) (O.written sink.old) (O.written sink.new) (O.faults sink.old)
        (O.faults sink.new) result all_good fault }
{
    let text = match command.closing(alloc) {
        Ok(text) => text,
        Err(_) => return end_with(sink, memory_line(), Status::Memory),
    };
    match write_whole(sink, &text) {
        Ok(()) => {}
        Err(_) => return Status::Write.number(),
    }
    match fault {
        None => report_status(all_good),
        Some(fault) => end_at(alloc, sink, fault),
    }
}

/// Writes the last line of a run that was stopped before the log ended.
fn end_halted<O: Sink>(alloc: Global, sink: &mut O, halt: RunError) -> u8
    ensures { EndsHalted (O.written sink.old) (O.written sink.new) (O.faults sink.old) (O.faults sink.new) result halt }
{
    match halt {
        RunError::Sink => Status::Write.number(),
        RunError::Memory => end_with(sink, memory_line(), Status::Memory),
        RunError::Stopped(stop) => end_stopped(alloc, sink, stop),
    }
}

/// Writes the last lines of a run that stopped at calls.
fn end_stopped<O: Sink>(alloc: Global, sink: &mut O, stop: AnswerError) -> u8
    ensures { EndsStopped (O.written sink.old) (O.written sink.new) (O.faults sink.old)
        (O.faults sink.new) result stop }
{
    match stop {
        AnswerError::Unread { text, name } => end_unread(alloc, sink, text.as_str(), name.as_str()),
        AnswerError::Memory => end_with(sink, memory_line(), Status::Memory),
    }
}

/// Writes these lines of the calls, and that the file of this name couldn't be read.
#[tactic(auto, unfolding(crate::specs::Ending::unread_line))]
fn end_unread<O: Sink>(alloc: Global, sink: &mut O, text: &str, name: &str) -> u8
    ensures { EndsUnread (O.written sink.old) (O.written sink.new) (O.faults sink.old) (O.faults sink.new)
        result text.now name.now }
{
    match format!(in alloc; "{text}read fault {name}\n") {
        Ok(line) => end_with(sink, line.as_str(), Status::Read),
        Err(_) => end_with(sink, memory_line(), Status::Memory),
    }
}

/// The status of a whole report.
fn report_status(all_good: bool) -> u8
    ensures { result ≡ report_status all_good }
{
    if all_good {
        Status::Done.number()
    } else {
        Status::NotAllValid.number()
    }
}

/// Writes the line of a fault of the log.
#[tactic(auto, unfolding(crate::specs::Ending::failed_line))]
fn end_at<O: Sink>(alloc: Global, sink: &mut O, fault: LogFault) -> u8
    ensures { EndsAtFault (O.written sink.old) (O.written sink.new) (O.faults sink.old)
        (O.faults sink.new) result fault }
{
    match fault {
        LogFault::Grammar { place } => refuse(alloc, sink, place),
        LogFault::Backward { place } => refuse(alloc, sink, place),
        LogFault::Many { place } => refuse(alloc, sink, place),
        LogFault::Source => end_with(sink, "read fault input\n", Status::Read),
        LogFault::Memory => end_with(sink, memory_line(), Status::Memory),
    }
}

/// Writes the line of a log that is outside its grammar at this offset.
#[tactic(auto, unfolding(crate::specs::Ending::refused_line))]
fn refuse<O: Sink>(alloc: Global, sink: &mut O, place: u64) -> u8
    ensures { EndsRefused (O.written sink.old) (O.written sink.new) (O.faults sink.old)
        (O.faults sink.new) result place }
{
    match format!(in alloc; "refused input {place}\n") {
        Ok(line) => end_with(sink, line.as_str(), Status::Input),
        Err(_) => end_with(sink, memory_line(), Status::Memory),
    }
}
