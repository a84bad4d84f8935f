//! The workers of a round.
ghost use Rattle.std.specs.Prelude.{◌≡◌, IfOk, vec_len};
ghost use Rattle.log_rounds.specs.Workers.{AnswerBy};

use std::alloc::{AllocError, Global};
use stir_outside::{Answers, NoGate, SteadyProvider};
use verify_service::Worker;

/// So many workers, each with a provider over one answers file. `AllocError` is the only error.
pub(crate) fn workers_of<'a>(
    alloc: Global,
    answers: &'a Answers,
    count: u64,
) -> Result<Vec<Worker<SteadyProvider<'a>, NoGate>>, AllocError>
    ensures many { IfOk result (λ workers. vec_len workers ≡ count) }
    ensures answers { IfOk result (λ workers. AnswerBy answers.now workers.items) }
{
    let mut workers = Vec::new(alloc);
    'workers: for _ in 0..count {
        workers.push(Worker::new(alloc, answers.steady(), NoGate))?;
    }
    Ok(workers)
}
