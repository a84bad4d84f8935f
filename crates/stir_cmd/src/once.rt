//! The command `once`: tickets that are claimed on one desk, in the order in which they come.
ghost use Rattle.std.specs.Prelude.{◌≡◌, ◌≤◌, length, IfOk};
ghost use Rattle.log_run.specs.Ending.{report_status};
ghost use Rattle.stir_cmd.specs.Claiming.{OnceGives, once_answering};
ghost use Rattle.stir_cmd.specs.Input.{RanInput};
ghost use Rattle.stir_cmd.specs.Outside.{io_of};
ghost use Rattle.stir_outside.specs.Status.{status_number};

use crate::answer::{Answer, Answered};
use crate::input::{InputCommand, answer_input};
use once_run::{TicketsFault, run_once};
use std::alloc::{AllocError, Global};
use std::thread::Threads;
use stir_outside::{Sink, Source, Status};
use stir_words::Claiming;

/// The most bytes of an input.
const MOST_BYTES: usize = 67_108_864;

impl InputCommand for Claiming {
    ghost use Rattle.std.specs.Prelude.{⊤};
    ghost use Rattle.stir_cmd.specs.Claiming.{OnceGives, OnceRefuses};

    ghost gives = { λ claiming. OnceGives claiming.size };

    ghost long = { λ _. OnceRefuses };

    ghost most = { λ _. 67108864 };

    ghost ready = { λ _. ⊤ };

    fn most(&self) -> usize {
        MOST_BYTES
    }

    fn answer<R: Threads + Sync>(&self, rt: &R, alloc: Global, bytes: &[u8]) -> Answered {
        claimed(rt, alloc, self, bytes)
    }

    fn refuse(&self, alloc: Global) -> Answered {
        let text = String::from_str(alloc, "long input\n")?;
        Ok(Answer::of_text(text, Status::Input))
    }
}

/// Reads the input, which is to be at most 1,000,000 tickets and at most 67,108,864 bytes, claims them, and writes what
/// came of each. No more is read than the longest input and one byte.
pub(crate) fn once<R: Threads + Sync, I: Source, O: Sink>(
    rt: &R,
    alloc: Global,
    claiming: &Claiming,
    input: &mut I,
    sink: &mut O,
) -> u8
    ensures { RanInput (once_answering claiming.now.size) (io_of I.Source O.Sink input.old sink.old)
        (io_of I.Source O.Sink input.new sink.new) result }
{
    answer_input(rt, alloc, claiming, input, sink)
}

/// The answer to bytes that are no more than the longest input.
#[tactic(auto, using(crate::proofs::OnceLaws::claims, crate::proofs::OnceLaws::refuses))]
fn claimed<R: Threads + Sync>(rt: &R, alloc: Global, claiming: &Claiming, bytes: &[u8]) -> Answered
    requires short { length bytes.now ≤ 67108864 }
    ensures gives { IfOk result
        (λ reply. OnceGives claiming.now.size bytes.now reply.text (status_number reply.status)) }
{
    match run_once(rt, alloc, claiming.size, claiming.workers, bytes) {
        Ok(report) => {
            let status = report_status(report.all_won());
            Ok(Answer::new(report.into_text(), status))
        }
        Err(TicketsFault::Line { line }) => {
            let text = format!(in alloc; "refused input {line}\n")?;
            Ok(Answer::of_text(text, Status::Input))
        }
        Err(TicketsFault::Memory) => Err(AllocError),
    }
}

/// The status of a report: 0 if each ticket was won, and else 1.
fn report_status(all_won: bool) -> Status
    ensures { status_number result ≡ report_status all_won }
{
    if all_won {
        Status::Done
    } else {
        Status::NotAllValid
    }
}
