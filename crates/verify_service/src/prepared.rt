//! A round that is prepared.
ghost use Rattle.std.specs.Prelude.{◌≡◌, ◌<◌, ◌∷◌, [], ◌++◌, length, IfNone, IfSome, Some};
ghost use Rattle.std.specs.List.{slice_get};
ghost use Rattle.verify_service.specs.Prepared.{IsNewest, IsSeat, classes_of, numbers_of};
ghost use Rattle.verify_service.specs.Service.{ServiceView};

use crate::outcome::Outcome;
use crate::ready::Round;
use replay_desk::{Desk, Seat};
use std::marker::Model;

/// A round that is prepared: each call was screened, each chain that the calls need is held by the service or kept
/// here, and each ticket has a class on its desk. `Service::carry` carries it out; or threads of a caller's own judge
/// its calls, by `Service::judge` with seats of its desk.
///
/// In contracts it is the record of its calls, what it keeps of chains, its desk, and the seats that weren't taken out.
#[derive(Drop)]
pub struct Prepared {
    pub(crate) round: Round,
    pub(crate) seats: Vec<Seat>,
    /// The room for what comes of the calls.
    pub(crate) outcomes: Vec<Outcome>,
}

impl Model for Prepared {
    ghost use Rattle.std.specs.Prelude.{◌≡◌, vec_len};
    ghost use Rattle.verify_service.specs.Prepared.{IsPrepared, PreparedView};

    ghost Value = { PreparedView };

    ghost view = { λ p.
        record { calls = p.round.calls.items; kept = p.round.kept; desk = p.round.desk; seats = p.seats.items } };

    ghost invariant = { λ p. (vec_len p.outcomes ≡ vec_len p.round.calls)
        × IsPrepared p.round.calls.items p.round.kept p.round.desk p.seats.items };
}

impl Prepared {
    /// How many calls it has.
    pub fn count(&self) -> usize
        ensures { result ≡ length self.now.calls }
    {
        self.round.calls.len()
    }

    /// The number of the call at this index.
    #[tactic(auto, using(call_judging::proofs::ListLaws::mapped_at))]
    pub fn number(&self, index: usize) -> u32
        requires { index < length self.now.calls }
        ensures { slice_get (numbers_of self.now.calls) index ≡ Some result }
    {
        self.round.calls[index].number
    }

    /// The class of the call at this index: of its ticket, the digest of what was signed as its last PASSporT. There is
    /// none exactly if the rules of the call refuse the call.
    #[tactic(auto, using(call_judging::proofs::ListLaws::mapped_at))]
    pub fn class(&self, index: usize) -> Option<u32>
        requires { index < length self.now.calls }
        ensures { slice_get (classes_of self.now.calls) index ≡ Some result }
    {
        self.round.calls[index].class
    }

    /// The desk on which its calls claim.
    pub fn desk(&self) -> &Desk
        ensures { result.now ≡ self.now.desk }
    {
        &self.round.desk
    }

    /// Takes a seat of its desk out: one at which nothing was claimed yet, with at least 16,777,216 parts. There is
    /// none exactly if all were taken.
    pub fn seat(&mut self) -> Option<Seat>
        ensures some { IfSome result (λ seat. self.old ≡ record self.new { seats = self.new.seats ++ seat ∷ [] }) }
        ensures seat { IfSome result (λ seat. IsSeat self.new.desk seat) }
        ensures none { IfNone result (self.old.seats ≡ []) }
        ensures newest { (service : ServiceView) → IsNewest service self.old → IsNewest service self.new }
        ensures same { IfNone result (self.new ≡ self.old) }
    {
        self.seats.pop()
    }
}
