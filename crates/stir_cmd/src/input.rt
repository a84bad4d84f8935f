//! Commands over a whole input: it is read to its end, and one answer comes.
ghost use Rattle.std.specs.Prelude.{◌≡◌, ◌≤◌, ◌<◌, length};
ghost use Rattle.stir_cmd.specs.Input.{RanInput, answering_by};
ghost use Rattle.stir_cmd.specs.InputCode.{EndsReply, RepliesTo};
ghost use Rattle.stir_cmd.specs.Outside.{io_of};

use crate::answer::Answered;
use std::alloc::Global;
use std::thread::Threads;
use stir_outside::{
    ReadFault, Sink, Source, Status, end_with, memory_line, read_up_to, write_whole,
};

/// A command over a whole input.
pub(crate) trait InputCommand {
    ghost use Rattle.std.specs.Prelude.{List, ℕ, ◌≡◌, ◌≤◌, length, IfOk};
    ghost use Rattle.std.specs.Thread.{IsSync};
    ghost use Rattle.stir_outside.specs.Status.{status_number};

    /// What may be answered to an input of these bytes: a text and a status.
    ghost gives: { Self → List ℕ → List ℕ → ℕ → Type 0 };

    /// What may be answered to one that is too long.
    ghost long: { Self → List ℕ → ℕ → Type 0 };

    /// The most bytes of an input.
    ghost most: { Self → ℕ };

    /// What holds of the command before it answers.
    ghost ready: { Self → Type 0 };

    /// The most bytes of an input, at most 67,108,864.
    fn most(&self) -> usize
        ensures exact { result ≡ most self.now }
        ensures small { result ≤ 67108864 };

    /// The answer to an input of these bytes; `rt` starts the threads that it wants. Its error is that memory ran out.
    fn answer<R: Threads + Sync>(&self, rt: &R, alloc: Global, bytes: &[u8]) -> Answered
        requires shared { IsSync R.row }
        requires ready { ready self.now }
        requires short { length bytes.now ≤ most self.now }
        ensures gives { IfOk result (λ reply. gives self.now bytes.now reply.text (status_number reply.status)) };

    /// The answer to an input that is longer. Its error is that memory ran out.
    fn refuse(&self, alloc: Global) -> Answered
        ensures refuses { IfOk result (λ reply. long self.now reply.text (status_number reply.status)) };
}

/// Reads the input, and writes the command's answer to it. No more is read than the longest input and one byte.
#[tactic(auto, unfolding(log_run::specs::Ending::failed_line))]
pub(crate) fn answer_input<R: Threads + Sync, C: InputCommand, I: Source, O: Sink>(
    rt: &R,
    alloc: Global,
    command: &C,
    input: &mut I,
    sink: &mut O,
) -> u8
    requires ready { C.ready command.now }
    ensures { RanInput (answering_by (C.most command.now) (C.gives command.now) (C.long command.now))
        (io_of I.Source O.Sink input.old sink.old) (io_of I.Source O.Sink input.new sink.new) result }
{
    let mut bytes = Vec::new(alloc);
    let most = command.most();
    match read_up_to(input, &mut bytes, most + 1) {
        Ok(()) => reply_to(rt, alloc, command, bytes.as_slice(), sink),
        Err(ReadFault::Source) => end_with(sink, "read fault input\n", Status::Read),
        Err(ReadFault::Memory) => end_with(sink, memory_line(), Status::Memory),
    }
}

/// Writes the command's answer to these bytes, which are one more than it takes if the input is too long.
fn reply_to<R: Threads + Sync, C: InputCommand, O: Sink>(
    rt: &R,
    alloc: Global,
    command: &C,
    bytes: &[u8],
    sink: &mut O,
) -> u8
    requires ready { C.ready command.now }
    ensures { RepliesTo (answering_by (C.most command.now) (C.gives command.now) (C.long command.now)) bytes.now
        (O.written sink.old) (O.written sink.new) (O.faults sink.old) (O.faults sink.new) result }
{
    if bytes.len() > command.most() {
        let refusal = command.refuse(alloc);
        return write_answer(sink, refusal);
    }
    let answer = command.answer(rt, alloc, bytes);
    write_answer(sink, answer)
}

/// Writes an answer and gives its status, or says that memory ran out.
pub(crate) fn write_answer<O: Sink>(sink: &mut O, answer: Answered) -> u8
    ensures { EndsReply (O.written sink.old) (O.written sink.new) (O.faults sink.old)
        (O.faults sink.new) result answer }
{
    match answer {
        Ok(answer) => match write_whole(sink, answer.text()) {
            Ok(()) => answer.status().number(),
            Err(_) => Status::Write.number(),
        },
        Err(_) => end_with(sink, memory_line(), Status::Memory),
    }
}
