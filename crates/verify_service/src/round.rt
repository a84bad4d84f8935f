//! A round: prepared, and then carried out.
ghost use Rattle.stir_outside.specs.Stays.{ProviderStays, ShelfStays};
ghost use Rattle.std.specs.Prelude.{◌≡◌, ◌<◌, ◌≤◌, ◌+◌, ℕ, length, IfErr, IfOk, Some, slice_index_or};
ghost use Rattle.cert_store.specs.Using.{AreAmong};
ghost use Rattle.replay_law.specs.Held.{purged};
ghost use Rattle.replay_law.specs.Round.{RoundSettled, round_of};
ghost use Rattle.replay_law.specs.Turn.{FirstWins};
ghost use Rattle.stir_outside.specs.Count.{NotRisen};
ghost use Rattle.stir_outside.specs.Files.{Files, tries};
ghost use Rattle.verify_service.specs.Carried.{AreClasses, HasPairs};
ghost use Rattle.verify_service.specs.Causes.{NoneUnasked, NoneUnread, UnaskedIsCounted, UnreadIsCounted};
ghost use Rattle.verify_service.specs.Causes.{unasked_texts, unread_texts};
ghost use Rattle.verify_service.specs.Contents.{AsksFew, HasContents};
ghost use Rattle.verify_service.specs.Needed.{named};
ghost use Rattle.verify_service.specs.Reads.{HasAsked, HasJudged, ReadsFew, StaysHeld};
ghost use Rattle.verify_service.specs.RoundRead.{own_of};
ghost use Rattle.verify_service.specs.Rows.{EachOwed, RoundLegal, held, rows_of};
ghost use Rattle.verify_service.specs.Service.{AreJudged, Follow, HoldsRight, IsPurged, IsSameConfig, first_moment_of};
ghost use Rattle.verify_service.specs.Service.{held_texts, last_moment_of, last_number, materials_of, texts_in};
ghost use Rattle.verify_service.specs.Service.{world_of};
ghost use Rattle.verify_service.specs.Workers.{EachWorker, SayTheSame};

use crate::carried::Carried;
use crate::laws::{call_law, stored_law, texts_law};
use crate::service::Service;
use crate::worker::Worker;
use call_log::Call;
use cert_store::{cache_law, use_law};
use replay_law::same_is_one;
use std::alloc::AllocError;
use std::thread::Threads;
use stir_outside::{Gate, Provider, Shelf};
use verify_rules::one_field_law;

impl Service {
    /// Judges the calls of a round on 1 to 8 workers, and says what comes of each.
    ///
    /// The providers of the workers say the same. There are 1 to 256 calls. Their numbers rise, from above that of the
    /// last call that was handed in, and are below 4,294,967,295; their moments never fall. What is held of chains is
    /// right for the shelf and the providers. The chains that the calls need and that aren't held are read from the
    /// shelf, each once, and judged; those of which each question was answered are held from then on. `Memory` is the
    /// only error; the past is purged then, nothing is added to it, and what is held of chains is right.
    pub fn round<R: Threads + Sync, S: Shelf, P: Provider + Send, G: Gate + Send>(
        &mut self,
        rt: &R,
        shelf: &mut S,
        workers: &mut [Worker<P, G>],
        calls: &[Call],
    ) -> Result<Carried, AllocError>
        requires some { 0 < length workers.old }
        requires most { length workers.old ≤ 8 }
        requires agree { SayTheSame P.Provider workers.old }
        requires follow { Follow self.old.number self.old.moment calls.now }
        requires right { (d : _)
            → HoldsRight (S.files shelf.old) (P.says (slice_index_or workers.old 0 d).provider) self.old }

        // There is an outcome for each call, and it is what the rules say of the call, over the files that the shelf
        // tells and what the providers say.
        ensures counted { IfOk result (λ carried. length carried.outcomes ≡ length calls.now) }
        ensures judged { (d : _) → IfOk result (λ carried. AreJudged (S.files shelf.old) self.old
            (P.says (slice_index_or workers.old 0 d).provider) calls.now carried.outcomes) }

        // Over files that are told, the outcomes are legal from the past that was held to the one that is left.
        ensures legal { (d : _) (files : Files) → S.files shelf.old ≡ Some files → IfOk result (λ carried.
            RoundLegal self.old.settings (world_of self.old files (P.says (slice_index_or workers.old 0 d).provider))
            (held self.old.past) calls.now carried.outcomes (held self.new.past)) }

        // Of the calls that pass with one ticket one is valid, and each other is a replay of it; with one worker it is
        // the first.
        ensures settled { IfOk result (λ carried. RoundSettled (held self.old.past)
            (round_of (rows_of self.old.settings calls.now carried.outcomes)) (held self.new.past)) }
        ensures first { length workers.old ≡ 1
            → IfOk result (λ carried. FirstWins (rows_of self.old.settings calls.now carried.outcomes)) }

        // A call has no class exactly if the rules of the call refuse it, and two others have one class exactly if they
        // have one ticket. The seat has exactly the wins of the valid calls, and the losses of the replays whose ticket
        // the purged past hasn't.
        ensures classes { IfOk result (λ carried. AreClasses self.old.settings calls.now carried.classes) }
        ensures pairs { IfOk result
            (λ carried. HasPairs self.old.settings (purged (first_moment_of calls.now) (held self.old.past)) calls.now
            carried.classes carried.outcomes carried.seat) }

        // A call that passes is known again by what was signed as its last PASSporT, whether the shelf tells its files
        // or not.
        ensures owed { IfOk result (λ carried. EachOwed self.old.settings calls.now carried.outcomes) }

        // A call is set aside only for a fault outside that was counted: of the shelf, or of the provider of the worker
        // whose text or call it is.
        ensures unread { IfOk result (λ carried. UnreadIsCounted self.old.settings calls.now (S.counts shelf.old).faults
            (S.counts shelf.new).faults carried.outcomes) }
        ensures unasked { EachWorker workers.old workers.new (λ w before now. IfOk result (λ carried.
            UnaskedIsCounted self.old.settings calls.now (own_of w (length workers.old) 0 (texts_in self.old calls.now))
            (own_of w (length workers.old) 0 carried.outcomes) (P.faults before.provider) (P.faults now.provider)
            carried.outcomes)) }
        ensures unasked_among { IfOk result (λ carried.
            AreAmong (unasked_texts self.old.settings calls.now carried.outcomes) (texts_in self.old calls.now)) }
        ensures quiet_shelf { NotRisen (S.counts shelf.old).faults (S.counts shelf.new).faults
            → IfOk result (λ carried. NoneUnread carried.outcomes) }
        ensures quiet { (d : _) → ((w : ℕ) → w < length workers.old → NotRisen
            (P.faults (slice_index_or workers.old w d).provider) (P.faults (slice_index_or workers.new w d).provider))
            → IfOk result (λ carried. NoneUnasked carried.outcomes) }

        // Each provider was asked at most for the certificates in the chains of its worker's texts whose files were
        // read, and for the PASSporTs of its worker's calls, also if memory ran out.
        ensures asks { (d : _) → HasContents (S.files shelf.old) (materials_of self.old) (texts_in self.old calls.now)
            (S.counts shelf.old).reads (S.counts shelf.new).reads (λ contents. (w : ℕ) → w < length workers.old
            → AsksFew w (length workers.old) (length (named self.old.settings
            (own_of w (length workers.old) 0 calls.now))) (P.asks (slice_index_or workers.old w d).provider)
            (P.asks (slice_index_or workers.new w d).provider) contents) }

        // What is held of chains stays right, also if memory ran out. Each listed x5u text that a call of the round
        // names is read once at most, and not if its chain is held; and its chain, once it was judged, is held until
        // 4,096 others were used, unless a question of it failed. A worker's provider is asked no more than for the
        // chains of the worker's texts and the PASSporTs of its calls.
        ensures right { (d : _)
            → HoldsRight (S.files shelf.new) (P.says (slice_index_or workers.new 0 d).provider) self.new }
        ensures most { (S.counts shelf.new).reads ≤ (S.counts shelf.old).reads + length (texts_in self.old calls.now) }
        ensures tries { tries (S.counts shelf.new) ≤ tries (S.counts shelf.old) + length (texts_in self.old calls.now) }
        ensures judges { (d : _) → IfOk result (λ carried.
            HasJudged (S.files shelf.old) (materials_of self.old) (P.says (slice_index_or workers.old 0 d).provider)
            (named self.old.settings calls.now) (unread_texts self.old.settings calls.now carried.outcomes)
            self.old.held self.new.held (S.counts shelf.old).reads (S.counts shelf.new).reads (λ judged. (w : ℕ)
            → w < length workers.old → HasAsked judged (own_of w (length workers.old) 0 (texts_in self.old calls.now))
            (named self.old.settings (own_of w (length workers.old) 0 calls.now))
            (P.asks (slice_index_or workers.old w d).provider) (P.asks (slice_index_or workers.new w d).provider))) }
        ensures stays { IfOk result
            (λ carried. StaysHeld self.old.chains (named self.old.settings calls.now) self.old.held self.new.held) }
        ensures few { (d : _) → ((w : ℕ) → w < length workers.old → NotRisen
            (P.faults (slice_index_or workers.old w d).provider) (P.faults (slice_index_or workers.new w d).provider))
            → IfOk result (λ carried. ReadsFew self.old.settings self.old.chains calls.now (held_texts self.old)
            (held_texts self.new) (S.counts shelf.old).reads (S.counts shelf.new).reads) }

        // What the service was told stays, and if memory ran out its past is only purged.
        ensures config { IsSameConfig self.old self.new }
        ensures number { self.new.number ≡ last_number self.old.number calls.now }
        ensures moment { self.new.moment ≡ last_moment_of self.old.moment calls.now }
        ensures wanting { IfErr result (λ _. IsPurged calls.now (held self.old.past) (held self.new.past)) }

        // What the shelf and the providers tell stays, and their counts never fall.
        ensures workers { length workers.new ≡ length workers.old }
        ensures shelf { ShelfStays S.Shelf shelf.old shelf.new }
        ensures provider { EachWorker workers.old workers.new
            (λ _ before now. ProviderStays P.Provider before.provider now.provider) }
    {
        same_is_one();
        one_field_law();
        call_law();
        texts_law();
        stored_law();
        cache_law();
        use_law();
        self.holds_many();
        let prepared = self.prepare(rt, shelf, workers, calls)?;
        Ok(self.carry(rt, workers, prepared))
    }
}
