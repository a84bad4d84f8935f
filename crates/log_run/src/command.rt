//! What answers a batch of calls.
ghost use Rattle.std.specs.Prelude.{◌≡◌, ℕ, ◌<◌, ◌≤◌, length, IfOk, IfErr};

use crate::answer::BatchAnswer;
use crate::stop::AnswerError;
use call_log::Call;
use std::alloc::{AllocError, Global};
use std::thread::Threads;
use stir_outside::Shelf;

/// What comes of a batch of calls: the answer, or why there is none.
pub type Answered = Result<BatchAnswer, AnswerError>;

/// A command over the calls of a log, which are handed to it in batches.
///
/// `behind` says which batches may have been answered from one state on up to another, `stopped` where the run may then
/// stop, and `closed` by what text the report may then be closed. `stands` says after which places of the log a batch
/// may come, with these counts and files of the shelf.
pub trait LogCommand {
    ghost use Rattle.call_log.specs.Entry.{Entry};
    ghost use Rattle.call_log.specs.Log.{Passed};
    ghost use Rattle.log_run.specs.Batch.{Batch};
    ghost use Rattle.log_run.specs.Commands.{Adds, Closes, Follow, IsShort, StandsOn, Stops};
    ghost use Rattle.log_run.specs.declared.stop.AnswerError.{AnswerError};
    ghost use Rattle.stir_outside.specs.Files.{Counts, Files};
    ghost use Rattle.stir_outside.specs.Stays.{ShelfStays};
    ghost use Rattle.std.specs.Prelude.{List, Option};
    ghost use Rattle.std.specs.Thread.{IsSync};

    ghost behind: { Self → Counts → Self → Counts → Option Files → List Batch → Type 0 };

    ghost stopped: { Self → Counts → Self → Counts → Option Files → List Batch → List Entry → AnswerError → Type 0 };

    ghost closed: { Self → Counts → Self → Counts → Option Files → List Batch → List ℕ → Type 0 };

    ghost stands: { Self → Counts → Option Files → Passed → Type 0 };

    ghost most: { Self → ℕ };

    /// How many calls a batch has, but the last of a log.
    fn most(&self) -> u32
        ensures exact { result ≡ most self.now }
        ensures some { 0 < result };

    /// Answers a batch of calls.
    fn answer<R, S>(&mut self, rt: &R, alloc: Global, shelf: &mut S, calls: &[Call]) -> Answered
    where
        R: Threads + Sync,
        S: Shelf,
        requires shared { IsSync R.row }
        requires some { 0 < length calls.now }
        requires few { length calls.now ≤ most self.old }
        requires follow { Follow (stands self.old (S.counts shelf.old) (S.files shelf.old)) calls.now }
        ensures adds { IfOk result (λ answer. Adds behind self.old self.new (S.counts shelf.old) (S.counts shelf.new)
            (S.files shelf.old) calls.now answer) }
        ensures stands { IfOk result (λ answer. StandsOn (stands self.old (S.counts shelf.old) (S.files shelf.old))
            (stands self.new (S.counts shelf.new) (S.files shelf.new)) calls.now) }
        ensures stopped { IfErr result (λ stop. Stops behind stopped self.old self.new (S.counts shelf.old)
            (S.counts shelf.new) (S.files shelf.old) calls.now stop) }
        ensures same_most { most self.new ≡ most self.old }
        ensures shelf { ShelfStays S.Shelf shelf.old shelf.new };

    /// The text that closes the report. `AllocError` is the only error.
    fn closing(&mut self, alloc: Global) -> Result<Vec<u8>, AllocError>
        ensures closed { IfOk result (λ text. Closes behind closed self.old self.new text.items) }
        ensures short { IfErr result (λ memory. IsShort behind stopped self.old self.new) };
}
