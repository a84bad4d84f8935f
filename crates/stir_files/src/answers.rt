//! The answers of the provider of signatures.
ghost use Rattle.std.specs.Prelude.{◌≤◌, IfOk, IfErr, length};
ghost use Rattle.stir_outside.specs.AnswersText.{answer_rows};
ghost use Rattle.stir_outside.specs.Held.{AnswersOf};
ghost use Rattle.stir_files.specs.Named.{IsRefusal, refusal_of};

use crate::fault::FileFault;
use std::alloc::Global;
use stir_outside::{AnswerFault, Answers, AnswersReader};

/// The most bytes of an answers file.
pub(crate) const MOST_BYTES: usize = 67_108_864;

/// The answers that the content is, as this reader reads it; the place of a fault is the first bad line.
#[tactic(auto, using(crate::proofs::FileSteps::place_at))]
pub(crate) fn read_answers<B: AnswersReader>(
    alloc: Global,
    content: &[u8],
    by: &B,
) -> Result<Answers, FileFault>
    requires ready { B.ready by.now }
    requires short { length content.now ≤ MOST_BYTES }
    ensures read { IfOk result (AnswersOf content.now) }
    ensures refused { IfErr result (IsRefusal (refusal_of (answer_rows content.now))) }
{
    match by.read(alloc, content) {
        Ok(answers) => Ok(answers),
        Err(AnswerFault::Line { line }) => Err(FileFault::Refused {
            place: u64::from(line),
        }),
        Err(AnswerFault::Memory) => Err(FileFault::Memory),
    }
}
