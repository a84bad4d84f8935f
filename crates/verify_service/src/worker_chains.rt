//! Judging the chains of a round's texts, each by the worker whose text it is.
ghost use Rattle.std.specs.Prelude.{◌≡◌, ◌<◌, ◌≤◌, ◌+◌, [], length, OnOk};
ghost use Rattle.stir_outside.specs.Stays.{ProviderStays};
ghost use Rattle.verify_service.specs.WorkerChains.{ChainsCounted, CountedUnless, EachOwn, EachOwnUnless, own_sizes};
ghost use Rattle.verify_service.specs.Workers.{EachWorker};

use crate::worker::Worker;
use call_judging::{Fetched, judge_file};
use cert_store::{Judged, World};
use std::alloc::{AllocError, Global};
use std::thread;
use std::thread::Threads;
use stir_outside::{Gate, Provider};

/// Has each worker judge the chains of its texts, in a thread of its own. Worker w, counted from 0, has the texts at
/// the places w, w + W and so on, if there are W workers.
pub(crate) fn judge_texts<R: Threads + Sync, P: Provider + Send, G: Gate + Send>(
    rt: &R,
    alloc: Global,
    world: &World,
    files: &[Fetched],
    workers: &mut [Worker<P, G>],
)
    requires some { 0 < length workers.old }
    ensures counted { length workers.new ≡ length workers.old }
    ensures judged { EachWorker workers.old workers.new (λ w before now. EachOwnUnless now.out_of_memory world.now
        (P.says before.provider) w (length workers.old) files.now now.judged.items) }
    ensures asked { EachWorker workers.old workers.new
        (λ _ before now. CountedUnless now.out_of_memory (P.asks before.provider) (P.asks now.provider)
        (P.faults before.provider) (P.faults now.provider) now.judged.items) }
    ensures most { EachWorker workers.old workers.new
        (λ w before now. P.asks now.provider ≤ P.asks before.provider + own_sizes w (length workers.old) 0 files.now) }
    ensures provider { EachWorker workers.old workers.new (λ _ before now. ProviderStays P.Provider before.provider now.provider) }
{
    let count = workers.len();
    thread::for_each_mut(
        rt,
        workers,
        count,
        &|index, worker| { judge_own(alloc, world, files, index, count, worker) },
    );
}

/// Has one worker of so many judge the chains of its texts.
fn judge_own<P: Provider, G: Gate>(
    alloc: Global,
    world: &World,
    files: &[Fetched],
    index: usize,
    count: usize,
    worker: &mut Worker<P, G>,
)
    requires some { 0 < count }
    ensures judged { EachOwnUnless worker.new.out_of_memory world.now (P.says worker.old.provider) index count files.now
        worker.new.judged.items }
    ensures asked { CountedUnless worker.new.out_of_memory (P.asks worker.old.provider) (P.asks worker.new.provider)
        (P.faults worker.old.provider) (P.faults worker.new.provider) worker.new.judged.items }
    ensures most { P.asks worker.new.provider ≤ P.asks worker.old.provider + own_sizes index count 0 files.now }
    ensures provider { ProviderStays P.Provider worker.old.provider worker.new.provider }
{
    worker.judged.clear();
    let judged = judge_files(
        alloc,
        world,
        files,
        index,
        count,
        &mut worker.provider,
        &mut worker.judged,
    );
    worker.out_of_memory = judged.is_err();
}

/// Judges the chains of the worker's texts, in turn, into a list that is empty. `AllocError` is the only error. The
/// provider is asked at most for each certificate of the worker's own, also if memory runs out.
pub(crate) fn judge_files<P: Provider>(
    alloc: Global,
    world: &World,
    files: &[Fetched],
    index: usize,
    count: usize,
    provider: &mut P,
    judged: &mut Vec<Option<Judged>>,
) -> Result<(), AllocError>
    requires some { 0 < count }
    requires empty { judged.old.items ≡ [] }
    ensures judged { OnOk result (EachOwn world.now (P.says provider.old) index count 0 files.now judged.new.items) }
    ensures asked { OnOk result (ChainsCounted (P.asks provider.old) (P.asks provider.new) (P.faults provider.old)
        (P.faults provider.new) judged.new.items) }
    ensures most { P.asks provider.new ≤ P.asks provider.old + own_sizes index count 0 files.now }
    ensures asks { P.asks provider.old ≤ P.asks provider.new }
    ensures provider { ProviderStays P.Provider provider.old provider.new }
{
    'files: for (place, file) in files.iter().enumerate() {
        if place % count != index {
            continue;
        }
        let chain = judge_file(alloc, world, file, provider)?;
        judged.push(chain)?;
    }
    Ok(())
}
