//! Storing the chains of a round's texts: in the cache, or for the round alone.
ghost use Rattle.std.specs.Prelude.{◌≡◌, ◌≢◌, ◌<◌, ℕ, None, length, get_or, slice_index_or, OnOk};
ghost use Rattle.verify_service.specs.RoundRead.{StoresAll, StoresSome, states_from};
ghost use Rattle.verify_service.specs.WorkerChains.{chain_at};
ghost use Rattle.verify_service.specs.Workers.{EachWorker};

use crate::kept::{KeptChains, store_chain};
use crate::texts::Texts;
use crate::worker::Worker;
use call_judging::Fetched;
use cert_store::{Cache, Judged};
use std::alloc::{AllocError, Global};

/// Stores what is known of the chain of each text, in their order, by its file and what the worker judged whose place
/// it is. `AllocError` is the only error; the first of them are stored then.
pub(crate) fn store_all<P, G>(
    alloc: Global,
    texts: &Texts,
    files: &[Fetched],
    workers: &mut [Worker<P, G>],
    cache: &mut Cache,
    kept: &mut KeptChains,
) -> Result<(), AllocError>
    requires some { 0 < length workers.old }
    requires files { length files.now ≡ length texts.now }
    ensures stored { (d : _) → OnOk result (StoresAll texts.now
        (states_from 0 (chain_at (λ w. (slice_index_or workers.old w d).judged.items) (length workers.old)) files.now)
        cache.old cache.new kept.old kept.new) }
    ensures first { (d : _) → StoresSome texts.now
        (states_from 0 (chain_at (λ w. (slice_index_or workers.old w d).judged.items) (length workers.old)) files.now)
        cache.old cache.new kept.old }
    ensures capacity { cache.new.capacity ≡ cache.old.capacity }
    ensures counted { length workers.new ≡ length workers.old }
    ensures same { EachWorker workers.old workers.new (λ _ before now. now.provider ≡ before.provider) }
{
    let count = workers.len();
    'files: for (place, file) in files.iter().enumerate() {
        cache.answered();
        let judged = take_judged(&mut workers[place % count], place / count);
        let chain = file.status(judged);
        store_chain(alloc, texts.text(place), chain, cache, kept)?;
    }
    Ok(())
}

/// Takes what a worker judged at the place of this number among its own, counted from 0.
fn take_judged<P, G>(worker: &mut Worker<P, G>, number: usize) -> Option<Judged>
    ensures judged { result ≡ get_or worker.old.judged.items number None }
    ensures others { (other : ℕ) → other ≢ number
        → get_or worker.new.judged.items other None ≡ get_or worker.old.judged.items other None }
    ensures same { worker.new.provider ≡ worker.old.provider }
{
    match worker.judged.get_mut(number) {
        Some(judged) => judged.take(),
        None => None,
    }
}
