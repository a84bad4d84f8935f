//! Preparing a round: all that can run out of memory.
ghost use Rattle.stir_outside.specs.Files.{tries};
ghost use Rattle.stir_outside.specs.Stays.{ProviderStays, ShelfStays};
ghost use Rattle.std.specs.Prelude.{◌≡◌, ◌<◌, ◌≤◌, ◌+◌, [], ℕ, true, length, IfOk, slice_index_or};
ghost use Rattle.cert_store.specs.Holding.{AreAnswered};
ghost use Rattle.verify_service.specs.Carried.{AreClasses};
ghost use Rattle.verify_service.specs.Contents.{AsksFew, HasContents};
ghost use Rattle.verify_service.specs.Judging.{EachPair};
ghost use Rattle.verify_service.specs.Needed.{all_named, named, round_texts};
ghost use Rattle.verify_service.specs.Prepared.{HasWords, IsNewest, classes_of};
ghost use Rattle.verify_service.specs.Ready.{HasRoom, HaveSeats};
ghost use Rattle.verify_service.specs.RightChains.{AreRightHeld, AreThere};
ghost use Rattle.verify_service.specs.RoundRead.{HasAskedOwn, RoundReads};
ghost use Rattle.verify_service.specs.Rows.{held};
ghost use Rattle.verify_service.specs.Screening.{IsReady};
ghost use Rattle.verify_service.specs.Service.{AreOfRound, Follow, HoldsRight, IsPurged, IsSameConfig, last_moment_of};
ghost use Rattle.verify_service.specs.Service.{last_number, materials_of, texts_in};
ghost use Rattle.verify_service.specs.Workers.{EachWorker, SayTheSame};

use crate::laws::{stored_law, texts_law};
use crate::outcome::Outcome;
use crate::prepared::Prepared;
use crate::ready::Round;
use crate::round_needs::{ready_calls, ready_chains};
use crate::screening::ReadyCall;
use crate::seats::desk_for;
use crate::service::Service;
use crate::tickets::class_calls;
use crate::worker::Worker;
use call_log::Call;
use cert_store::{Cache, World, cache_law, use_law};
use std::alloc::{AllocError, Global};
use std::mem;
use std::thread::Threads;
use stir_outside::{Gate, Provider, Shelf};
use verify_rules::{Settings, screened_law};

impl Service {
    /// Prepares a round. It screens the calls, reads the chains that they need and that aren't held, each once, and has
    /// the workers judge them, each those of its own texts. It gives each ticket a class and each worker a seat, and
    /// makes room for the outcomes and in the past.
    ///
    /// There are 1 to 8 workers, whose providers say the same, and 1 to 256 calls. The numbers of the calls rise, from
    /// above that of the last call that was handed in, and are below 4,294,967,295; their moments never fall. What is
    /// held of chains is right for the shelf and the providers. `Memory` is the only error; the past is purged then and
    /// no more, and what is held of chains is right.
    pub fn prepare<R: Threads + Sync, S: Shelf, P: Provider + Send, G: Gate + Send>(
        &mut self,
        rt: &R,
        shelf: &mut S,
        workers: &mut [Worker<P, G>],
        calls: &[Call],
    ) -> Result<Prepared, AllocError>
        requires some { 0 < length workers.old }
        requires few { length workers.old ≤ 8 }
        requires agree { SayTheSame P.Provider workers.old }
        requires follow { Follow self.old.number self.old.moment calls.now }
        requires right { (d : _)
            → HoldsRight (S.files shelf.old) (P.says (slice_index_or workers.old 0 d).provider) self.old }

        // It is the newest round of the service: these calls, screened. A call has no class exactly if the rules of the
        // call refuse it, and two others have one class exactly if they have one ticket. There is a seat of the desk
        // for each worker, and all together have the whole share. The desk has one word for each class, and one if
        // there is no class.
        ensures calls { IfOk result (λ prepared. EachPair (IsReady self.old.settings) calls.now prepared.calls) }
        ensures newest { IfOk result (λ prepared. IsNewest self.new prepared) }
        ensures classes { IfOk result (λ prepared. AreClasses self.old.settings calls.now (classes_of prepared.calls)) }
        ensures counted { IfOk result (λ prepared. length prepared.seats ≡ length workers.old) }
        ensures seats { IfOk result (λ prepared. HaveSeats prepared.desk prepared.seats) }
        ensures words { IfOk result (λ prepared. HasWords prepared.desk (classes_of prepared.calls)) }

        // What was read and judged, each text once, by the worker whose text it is; and what is known of the chains is
        // right.
        ensures reads { (d : _) → IfOk result (λ prepared.
            RoundReads (S.files shelf.old) (materials_of self.old) (P.says (slice_index_or workers.old 0 d).provider)
            prepared.calls (S.counts shelf.old) (S.counts shelf.new) (λ states. (w : ℕ) → w < length workers.old
            → HasAskedOwn w (length workers.old) (P.asks (slice_index_or workers.old w d).provider)
            (P.asks (slice_index_or workers.new w d).provider) (P.faults (slice_index_or workers.old w d).provider)
            (P.faults (slice_index_or workers.new w d).provider) states) self.old.held self.new.held prepared.kept) }
        ensures known { (d : _) → IfOk result (λ prepared. AreRightHeld (S.files shelf.old) (materials_of self.old)
            (P.says (slice_index_or workers.old 0 d).provider) self.new.held.entries prepared.kept) }

        ensures answered { IfOk result (λ prepared. AreAnswered self.new.held.entries) }

        // Also if memory ran out: each provider was asked at most for the certificates in the chains of its worker's
        // texts whose files were read, what is held of chains is right, and the past is purged and no more.
        ensures asks { (d : _) → HasContents (S.files shelf.old) (materials_of self.old) (texts_in self.old calls.now)
            (S.counts shelf.old).reads (S.counts shelf.new).reads (λ contents. (w : ℕ) → w < length workers.old
            → AsksFew w (length workers.old) 0 (P.asks (slice_index_or workers.old w d).provider)
            (P.asks (slice_index_or workers.new w d).provider) contents) }
        ensures right { (d : _)
            → HoldsRight (S.files shelf.new) (P.says (slice_index_or workers.new 0 d).provider) self.new }
        ensures most { (S.counts shelf.new).reads ≤ (S.counts shelf.old).reads
            + length (round_texts self.old.chains self.old.held.entries (named self.old.settings calls.now)) }
        ensures tries { tries (S.counts shelf.new) ≤ tries (S.counts shelf.old)
            + length (round_texts self.old.chains self.old.held.entries (named self.old.settings calls.now)) }
        ensures purged { IsPurged calls.now (held self.old.past) (held self.new.past) }
        ensures config { IsSameConfig self.old self.new }
        ensures number { self.new.number ≡ last_number self.old.number calls.now }
        ensures moment { self.new.moment ≡ last_moment_of self.old.moment calls.now }

        // What the shelf and the providers tell stays, and their counts never fall.
        ensures workers { length workers.new ≡ length workers.old }
        ensures shelf { ShelfStays S.Shelf shelf.old shelf.new }
        ensures provider { EachWorker workers.old workers.new
            (λ _ before now. ProviderStays P.Provider before.provider now.provider) }
    {
        self.begin(calls);
        let alloc = *self.places.allocator();
        let ready = self.screened(rt, alloc, workers.len(), calls)?;
        self.past.reserve(calls.len())?;
        let prepared = prepare_round(
            rt,
            alloc,
            &self.settings,
            &self.world,
            shelf,
            workers,
            calls,
            ready,
            &mut self.cache,
        )?;
        Ok(prepared)
    }

    /// Purges the past by the first call, and takes over number and moment of the last.
    fn begin(&mut self, calls: &[Call])
        requires follow { Follow self.old.number self.old.moment calls.now }
        ensures config { IsSameConfig self.old self.new }
        ensures number { self.new.number ≡ last_number self.old.number calls.now }
        ensures moment { self.new.moment ≡ last_moment_of self.old.moment calls.now }
        ensures held { self.new.held ≡ self.old.held }
        ensures purged { IsPurged calls.now (held self.old.past) (held self.new.past) }
        ensures begun { self.new.begun ≡ true }
    {
        self.begun = true;
        let Some(first) = calls.first() else {
            return;
        };
        let Some(last) = calls.last() else {
            return;
        };
        self.past.purge(first.moment());
        self.number = last.number();
        self.moment = last.moment();
    }

    /// The calls of a round, screened in the threads of so many workers. They take over the places of the last round
    /// that was closed. `AllocError` is the only error.
    fn screened<R: Threads + Sync>(
        &mut self,
        rt: &R,
        alloc: Global,
        workers: usize,
        calls: &[Call],
    ) -> Result<Vec<ReadyCall>, AllocError>
        requires some { 0 < workers }
        requires few { workers ≤ 8 }
        ensures ready { IfOk result (λ ready. EachPair (IsReady self.old.settings) calls.now ready.items) }
        ensures same { self.new ≡ self.old }
    {
        let places = mem::replace(&mut self.places, Vec::new(alloc));
        // Twice as many threads as workers, so that less is left to do if one of them begins late.
        let threads = if workers == 1 { 1 } else { 2 * workers };
        let ready = ready_calls(rt, alloc, &self.settings, calls, threads, places)?;
        Ok(ready)
    }
}

/// Prepares a round of these calls, which were screened by these settings, over these materials and these chains that
/// are held. `AllocError` is the only error; what is held of chains is right then.
fn prepare_round<R: Threads + Sync, S: Shelf, P: Provider + Send, G: Gate + Send>(
    rt: &R,
    alloc: Global,
    settings: &Settings,
    world: &World,
    shelf: &mut S,
    workers: &mut [Worker<P, G>],
    calls: &[Call],
    mut ready: Vec<ReadyCall>,
    cache: &mut Cache,
) -> Result<Prepared, AllocError>
    requires some { 0 < length workers.old }
    requires few { length workers.old ≤ 8 }
    requires agree { SayTheSame P.Provider workers.old }
    requires follow { AreOfRound calls.now }
    requires ready { EachPair (IsReady settings.now) calls.now ready.items }
    requires capacity { cache.old.capacity ≡ 4096 }
    ensures calls { IfOk result (λ prepared. EachPair (IsReady settings.now) calls.now prepared.calls) }
    ensures classes { IfOk result (λ prepared. AreClasses settings.now calls.now (classes_of prepared.calls)) }
    ensures room { IfOk result (λ prepared. HasRoom prepared.calls (length calls.now)) }
    ensures counted { IfOk result (λ prepared. length prepared.seats ≡ length workers.old) }
    ensures seats { IfOk result (λ prepared. HaveSeats prepared.desk prepared.seats) }
    ensures words { IfOk result (λ prepared. HasWords prepared.desk (classes_of prepared.calls)) }
    ensures there { IfOk result
        (λ prepared. AreThere world.now.chains cache.new.entries prepared.kept (all_named prepared.calls)) }
    ensures reads { (d : _) → IfOk result
        (λ prepared. RoundReads (S.files shelf.old) world.now (P.says (slice_index_or workers.old 0 d).provider)
        prepared.calls (S.counts shelf.old) (S.counts shelf.new) (λ states. (w : ℕ) → w < length workers.old
        → HasAskedOwn w (length workers.old) (P.asks (slice_index_or workers.old w d).provider)
        (P.asks (slice_index_or workers.new w d).provider) (P.faults (slice_index_or workers.old w d).provider)
        (P.faults (slice_index_or workers.new w d).provider) states) cache.old cache.new prepared.kept) }
    ensures right { (d : _) → AreRightHeld (S.files shelf.old) world.now
        (P.says (slice_index_or workers.old 0 d).provider) cache.old.entries [] → AreRightHeld (S.files shelf.old)
        world.now (P.says (slice_index_or workers.old 0 d).provider) cache.new.entries [] }
    ensures known { (d : _) → AreRightHeld (S.files shelf.old) world.now
        (P.says (slice_index_or workers.old 0 d).provider) cache.old.entries []
        → IfOk result (λ prepared. AreRightHeld (S.files shelf.old) world.now
        (P.says (slice_index_or workers.old 0 d).provider) cache.new.entries prepared.kept) }
    ensures asks { (d : _) → HasContents (S.files shelf.old) world.now (round_texts world.now.chains cache.old.entries
        (named settings.now calls.now)) (S.counts shelf.old).reads (S.counts shelf.new).reads (λ contents. (w : ℕ)
        → w < length workers.old → AsksFew w (length workers.old) 0 (P.asks (slice_index_or workers.old w d).provider)
        (P.asks (slice_index_or workers.new w d).provider) contents) }
    ensures most { (S.counts shelf.new).reads ≤ (S.counts shelf.old).reads
        + length (round_texts world.now.chains cache.old.entries (named settings.now calls.now)) }
    ensures tries { tries (S.counts shelf.new) ≤ tries (S.counts shelf.old)
        + length (round_texts world.now.chains cache.old.entries (named settings.now calls.now)) }
    ensures answered { IfOk result (λ prepared. AreAnswered cache.new.entries) }
    ensures capacity { cache.new.capacity ≡ cache.old.capacity }
    ensures workers { length workers.new ≡ length workers.old }
    ensures shelf { ShelfStays S.Shelf shelf.old shelf.new }
    ensures provider { EachWorker workers.old workers.new
        (λ _ before now. ProviderStays P.Provider before.provider now.provider) }
{
    screened_law();
    texts_law();
    stored_law();
    cache_law();
    use_law();
    let classes = class_calls(alloc, &mut ready)?;
    let (desk, seats) = desk_for(alloc, classes, workers.len())?;
    let outcomes = vec![in alloc; Outcome::Valid; calls.len()]?;
    let kept = ready_chains(rt, alloc, world, shelf, workers, &ready, cache)?;
    cache.answered();
    let round = Round {
        calls: ready,
        kept,
        desk,
    };
    Ok(Prepared {
        round,
        seats,
        outcomes,
    })
}
