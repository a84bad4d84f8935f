//! The calls of a batch, as they are read from a log.
ghost use Rattle.std.specs.Prelude.{◌≡◌, ◌+◌, ◌≤◌, ◌<◌, [], Ok, Err, None, IfOk};
ghost use Rattle.call_log.specs.Entry.{most_entries};
ghost use Rattle.call_log.specs.Reads.{Moves, left_to};
ghost use Rattle.call_log.specs.Supply.{EndsRight, supply_of};
ghost use Rattle.log_run.specs.Reading.{ReadBatch, ReadBehind, ReadsOn, SourceFailed};
ghost use Rattle.log_run.specs.declared.ends.Next.TheVariants.{More, Fault};

use crate::ends::Next;
use call_log::{Call, LogFault, LogReader};
use std::alloc::AllocError;
use stir_outside::Source;

/// Reads the next call of a log of which nothing was at fault before.
fn next_call<I: Source>(reader: &mut LogReader, input: &mut I) -> Result<Option<Call>, LogFault>
    requires good { reader.old.fault ≡ None }
    ensures behind { ReadBehind reader.old.passed
        (left_to reader.old (I.left input.old)) (left_to reader.new (I.left input.new)) result }
    ensures moves { Moves reader.old.passed reader.new result }
    ensures bounded { reader.new.passed.count ≤ most_entries }
    ensures failed { result ≡ Err LogFault.Source → SourceFailed (I.faults input.old) (I.faults input.new)
        (left_to reader.new (I.left input.new) ≡ I.left input.new) }
    ensures ends { EndsRight (supply_of I.Source reader.old.ended input.old)
        → EndsRight (supply_of I.Source reader.new.ended input.new) }
    ensures never_falls { I.faults input.old ≤ I.faults input.new }
{
    reader.next(input)
}

/// Reads the calls of the next batch into a list that is empty, and says what comes after them. `AllocError` is the
/// only error.
#[tactic(auto, using(crate::proofs::ReadLaws::read_none, crate::proofs::ReadLaws::read_more, crate::proofs::ReadLaws::read_full, crate::proofs::ReadLaws::read_last))]
pub(crate) fn read_batch<I: Source>(
    most: u32,
    reader: &mut LogReader,
    input: &mut I,
    calls: &mut Vec<Call>,
) -> Result<Next, AllocError>
    requires reads_on { ReadsOn reader.old }
    requires empty { calls.old.items ≡ [] }
    ensures read { ReadBatch most reader.old.passed (left_to reader.old (I.left input.old))
        (left_to reader.new (I.left input.new)) reader.new.passed calls.new.items result }
    ensures reads_on { result ≡ Ok More → ReadsOn reader.new }
    ensures failed { result ≡ Ok (Fault LogFault.Source) → SourceFailed (I.faults input.old) (I.faults input.new)
        (left_to reader.new (I.left input.new) ≡ I.left input.new) }
    ensures ends { EndsRight (supply_of I.Source reader.old.ended input.old)
        → EndsRight (supply_of I.Source reader.new.ended input.new) }
    ensures never_falls { I.faults input.old ≤ I.faults input.new }
{
    for _ in 0..most {
        match next_call(reader, input) {
            Ok(Some(call)) => match calls.push(call) {
                Ok(()) => {}
                Err(_) => return Err(AllocError),
            },
            Ok(None) => return Ok(Next::Whole),
            Err(fault) => return Ok(Next::Fault(fault)),
        }
    }
    Ok(Next::More)
}
