//! What a round needs before its calls are judged: each call screened, and each chain that they need at hand.
ghost use Rattle.std.specs.Prelude.{◌≡◌, ◌<◌, ◌≤◌, ◌+◌, ℕ, [], true, length, vec_len, slice_index_or, IfOk};
ghost use Rattle.std.specs.List.{list_any};
ghost use Rattle.stir_outside.specs.Files.{tries};
ghost use Rattle.stir_outside.specs.Stays.{ProviderStays, ShelfStays};
ghost use Rattle.verify_service.specs.Contents.{AsksFew, HasContents};
ghost use Rattle.verify_service.specs.Judging.{EachPair};
ghost use Rattle.verify_service.specs.RightChains.{AreRightHeld};
ghost use Rattle.verify_service.specs.RoundRead.{HasAskedOwn, KnownBy, RoundReads, states_from, texts_of};
ghost use Rattle.verify_service.specs.Screening.{IsReady, is_open};
ghost use Rattle.verify_service.specs.WorkerChains.{chain_at};
ghost use Rattle.verify_service.specs.Workers.{EachWorker, SayTheSame};

use crate::chain_files::fetch_all;
use crate::kept::KeptChains;
use crate::laws::stored_law;
use crate::screening::{ReadyCall, Screening, screen_all};
use crate::stored_chains::store_all;
use crate::texts::{Texts, gather_calls};
use crate::worker::Worker;
use crate::worker_chains::judge_texts;
use call_judging::Fetched;
use call_log::Call;
use cert_store::{Cache, World};
use std::alloc::{AllocError, Global};
use std::thread::Threads;
use stir_outside::{Gate, Provider, Shelf};
use verify_rules::Settings;

/// Screens each call, in at most this many threads. The calls take over the places of others that are no longer needed.
/// `AllocError` is the only error.
pub(crate) fn ready_calls<R: Threads + Sync>(
    rt: &R,
    alloc: Global,
    settings: &Settings,
    calls: &[Call],
    threads: usize,
    mut places: Vec<ReadyCall>,
) -> Result<Vec<ReadyCall>, AllocError>
    requires threads { 0 < threads }
    ensures ready { IfOk result (λ ready. EachPair (IsReady settings.now) calls.now ready.items) }
{
    places.resize_with(calls.len(), || open_place())?;
    screen_all(rt, alloc, settings, calls, threads, &mut places);
    if any_open(&places) {
        return Err(AllocError);
    }
    Ok(places)
}

/// The place of a call that isn't screened yet.
fn open_place() -> ReadyCall
    ensures { is_open result.screening ≡ true }
{
    ReadyCall {
        number: 0,
        moment: 0,
        screening: Screening::Open,
        class: None,
    }
}

/// Of some call it isn't known what the rules of the call say.
fn any_open(calls: &[ReadyCall]) -> bool
    ensures { result ≡ list_any (λ call. is_open call.screening) calls.now }
{
    calls.iter().any(|call| is_open(call))
}

/// It isn't known what the rules of the call say of the call.
fn is_open(call: &ReadyCall) -> bool
    ensures { result ≡ is_open call.now.screening }
{
    match &call.screening {
        Screening::Open => true,
        Screening::Refused(_) => false,
        Screening::Passed(_) => false,
    }
}

/// Uses the chains that these calls need and the cache holds. Reads and judges the others for which a file is listed.
/// Has the cache hold those of which each question was answered, and gives what is known of the others. `AllocError` is
/// the only error; what the cache holds is right then.
pub(crate) fn ready_chains<R: Threads + Sync, S: Shelf, P: Provider + Send, G: Gate + Send>(
    rt: &R,
    alloc: Global,
    world: &World,
    shelf: &mut S,
    workers: &mut [Worker<P, G>],
    calls: &[ReadyCall],
    cache: &mut Cache,
) -> Result<KeptChains, AllocError>
    requires some { 0 < length workers.old }
    requires agree { SayTheSame P.Provider workers.old }
    ensures reads { (d : _)
        → IfOk result (RoundReads (S.files shelf.old) world.now (P.says (slice_index_or workers.old 0 d).provider)
        calls.now (S.counts shelf.old) (S.counts shelf.new) (λ states. (w : ℕ) → w < length workers.old
        → HasAskedOwn w (length workers.old) (P.asks (slice_index_or workers.old w d).provider)
        (P.asks (slice_index_or workers.new w d).provider) (P.faults (slice_index_or workers.old w d).provider)
        (P.faults (slice_index_or workers.new w d).provider) states) cache.old cache.new) }

    // What is held stays right, no more files were read than the round has texts, and a provider was asked at most for
    // the chains of its worker's texts that were read; also if memory ran out.
    ensures right { (d : _) → AreRightHeld (S.files shelf.old) world.now
        (P.says (slice_index_or workers.old 0 d).provider) cache.old.entries [] → AreRightHeld (S.files shelf.old)
        world.now (P.says (slice_index_or workers.old 0 d).provider) cache.new.entries [] }
    ensures asks { (d : _) → HasContents (S.files shelf.old) world.now (texts_of world.now cache.old.entries calls.now)
        (S.counts shelf.old).reads (S.counts shelf.new).reads (λ contents. (w : ℕ) → w < length workers.old
        → AsksFew w (length workers.old) 0 (P.asks (slice_index_or workers.old w d).provider)
        (P.asks (slice_index_or workers.new w d).provider) contents) }
    ensures most { (S.counts shelf.new).reads ≤ (S.counts shelf.old).reads
        + length (texts_of world.now cache.old.entries calls.now) }
    ensures tries { tries (S.counts shelf.new) ≤ tries (S.counts shelf.old)
        + length (texts_of world.now cache.old.entries calls.now) }

    ensures capacity { cache.new.capacity ≡ cache.old.capacity }
    ensures counted { length workers.new ≡ length workers.old }
    ensures shelf { ShelfStays S.Shelf shelf.old shelf.new }
    ensures provider { EachWorker workers.old workers.new
        (λ _ before now. ProviderStays P.Provider before.provider now.provider) }
{
    stored_law();
    let mut texts = Texts::new(alloc);
    gather_calls(alloc, &world.chains, calls, cache, &mut texts)?;
    let files = fetch_and_judge(rt, alloc, world, shelf, workers, &texts)?;
    let mut kept = KeptChains::new(alloc);
    store_all(alloc, &texts, &files, workers, cache, &mut kept)?;
    Ok(kept)
}

/// Reads the file of each text, and has each worker judge the chains of its own. `AllocError` is the only error.
fn fetch_and_judge<R: Threads + Sync, S: Shelf, P: Provider + Send, G: Gate + Send>(
    rt: &R,
    alloc: Global,
    world: &World,
    shelf: &mut S,
    workers: &mut [Worker<P, G>],
    texts: &Texts,
) -> Result<Vec<Fetched>, AllocError>
    requires some { 0 < length workers.old }
    requires agree { SayTheSame P.Provider workers.old }
    ensures counted_files { IfOk result (λ files. vec_len files ≡ length texts.now) }
    ensures known { (d : _)
        → IfOk result (λ files. KnownBy (S.files shelf.old) world.now (P.says (slice_index_or workers.old 0 d).provider)
        texts.now (S.counts shelf.old) (S.counts shelf.new) (λ states. (w : ℕ) → w < length workers.old
        → HasAskedOwn w (length workers.old) (P.asks (slice_index_or workers.old w d).provider)
        (P.asks (slice_index_or workers.new w d).provider) (P.faults (slice_index_or workers.old w d).provider)
        (P.faults (slice_index_or workers.new w d).provider) states) (states_from 0
        (chain_at (λ w. (slice_index_or workers.new w d).judged.items) (length workers.old)) files.items)) }
    ensures asks { (d : _) → HasContents (S.files shelf.old) world.now texts.now (S.counts shelf.old).reads
        (S.counts shelf.new).reads (λ contents. (w : ℕ) → w < length workers.old
        → AsksFew w (length workers.old) 0 (P.asks (slice_index_or workers.old w d).provider)
        (P.asks (slice_index_or workers.new w d).provider) contents) }
    ensures most { (S.counts shelf.new).reads ≤ (S.counts shelf.old).reads + length texts.now }
    ensures tries { tries (S.counts shelf.new) ≤ tries (S.counts shelf.old) + length texts.now }
    ensures counted { length workers.new ≡ length workers.old }
    ensures shelf { ShelfStays S.Shelf shelf.old shelf.new }
    ensures provider { EachWorker workers.old workers.new
        (λ _ before now. ProviderStays P.Provider before.provider now.provider) }
{
    if texts.count() == 0 {
        return Ok(Vec::new(alloc));
    }
    let files = fetch_all(alloc, world, shelf, texts)?;
    judge_texts(rt, alloc, world, &files, workers);
    if any_out_of_memory(workers) {
        return Err(AllocError);
    }
    Ok(files)
}

/// Memory ran out when some worker judged its chains.
fn any_out_of_memory<P, G>(workers: &[Worker<P, G>]) -> bool
    ensures { result ≡ list_any (λ worker. worker.out_of_memory) workers.now }
{
    workers.iter().any(|worker| worker.out_of_memory)
}
