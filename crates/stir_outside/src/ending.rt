//! How the program ends: its last line and its status.
ghost use Rattle.std.specs.Prelude.{◌≡◌};
ghost use Rattle.stir_outside.specs.Ending.{EndsAs, memory_line};
ghost use Rattle.stir_outside.specs.Status.{status_number};

use crate::sink::Sink;
use crate::status::Status;
use crate::transfer::write_whole;

/// The line that says that memory ran out, with its LF.
#[tactic(auto, unfolding(crate::specs::Ending::memory_line))]
pub fn memory_line() -> &'static str
    ensures { result.now ≡ memory_line }
{
    "want of memory\n"
}

/// Writes the last line and gives its status, or that of a sink that failed.
pub fn end_with<O: Sink>(sink: &mut O, line: &str, status: Status) -> u8
    ensures { EndsAs (O.written sink.old) (O.written sink.new) (O.faults sink.old) (O.faults sink.new) result line.now
        (status_number status) }
{
    match write_whole(sink, line.as_bytes()) {
        Ok(()) => status.number(),
        Err(_) => Status::Write.number(),
    }
}
