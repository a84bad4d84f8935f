//! A round that was carried out.
ghost use Rattle.std.specs.Prelude.{◌≡◌, ◌<◌, ℕ, Some, length};
ghost use Rattle.std.specs.List.{slice_get};
ghost use Rattle.live_desk.specs.Lists.{In, whole};

use crate::outcome::Outcome;
use crate::screening::ReadyCall;
use replay_desk::{Desk, Seat};
use std::marker::Model;

/// A round that was carried out: what comes of each of its calls, the class of each call's ticket, and the desk on
/// which the calls claimed, with the one seat that has all wins and losses. In contracts it is the record of these
/// four.
#[derive(Drop)]
pub struct Carried {
    pub(crate) outcomes: Vec<Outcome>,
    pub(crate) calls: Vec<ReadyCall>,
    pub(crate) desk: Desk,
    pub(crate) seat: Seat,
}

impl Model for Carried {
    ghost use Rattle.std.specs.Prelude.{◌≡◌, map, vec_len};
    ghost use Rattle.live_desk.specs.Lists.{whole};
    ghost use Rattle.verify_service.specs.Carried.{CarriedView};

    ghost Value = { CarriedView };

    ghost view = { λ c. record {
      outcomes = c.outcomes.items;
      classes = map (λ call. call.class) c.calls.items;
      desk = c.desk;
      seat = c.seat;
    } };

    ghost invariant = { λ c. (vec_len c.outcomes ≡ vec_len c.calls) × (c.seat.desk ≡ c.desk) × (c.seat.share ≡ whole) };
}

impl Carried {
    /// What comes of each call, in the order of the calls.
    pub fn outcomes(&self) -> &[Outcome]
        ensures outcomes { result.now ≡ self.now.outcomes }
        ensures classes { length self.now.classes ≡ length result.now }
    {
        &self.outcomes
    }

    /// The class of the call at this index: of its ticket, the digest of what was signed as its last PASSporT. There is
    /// none exactly if the rules of the call refuse the call.
    #[tactic(auto, using(call_judging::proofs::ListLaws::mapped_at))]
    pub fn class(&self, index: usize) -> Option<u32>
        requires { index < length self.now.outcomes }
        ensures { slice_get self.now.classes index ≡ Some result }
    {
        self.calls[index].class
    }

    /// The desk on which the calls claimed.
    pub fn desk(&self) -> &Desk
        ensures { result.now ≡ self.now.desk }
    {
        &self.desk
    }

    /// The seat of this desk that has the wins and losses of all calls, and the whole share.
    pub fn seat(&self) -> &Seat
        ensures seat { result.now ≡ self.now.seat }
        ensures desk { result.now.desk ≡ self.now.desk }
        ensures share { result.now.share ≡ whole }
    {
        &self.seat
    }

    /// Closes the desk with its seat, and gives what comes of each call. Each loss of the seat then names one of its
    /// wins.
    pub fn close(self) -> Vec<Outcome>
        ensures outcomes { result.items ≡ self.outcomes }
        ensures named { (p : ℕ × ℕ) → In p self.seat.losses → In p self.seat.wins }
    {
        let (outcomes, _calls) = self.take_apart();
        outcomes
    }

    /// The same, with the calls.
    pub(crate) fn take_apart(self) -> (Vec<Outcome>, Vec<ReadyCall>)
        ensures outcomes { result.0.items ≡ self.outcomes }
        ensures named { (p : ℕ × ℕ) → In p self.seat.losses → In p self.seat.wins }
    {
        let Carried {
            outcomes,
            calls,
            desk,
            seat,
        } = self;
        desk.close(seat);
        (outcomes, calls)
    }
}
