//! The desk that workers share, and the seats at which they claim.
ghost use Rattle.std.specs.Prelude.{◌≡◌, ◌≤◌, ◌<◌, ◌≢◌, ℕ, IfOk, IsOk, OnOk};
ghost use Rattle.live_desk.specs.Lists.{In, whole};
ghost use Rattle.replay_desk.specs.Holder.{Claimed, Settled, both_of, first_of, left_of, right_of};

use crate::claim::Claim;
use crate::steps::{ClaimStep, Halves, Look, OneWinner, Together};
use crate::view::View;
use atomic_table::Table;
use std::alloc::{AllocError, Global};
use std::marker::Model;

/// A word for each class of a round, on which workers claim without waiting for each other. A class is won once.
#[derive(Drop)]
pub struct Desk {
    /// The words, whose rule is `OneWinner`.
    table: Table<(), View, u64, OneWinner, Global>,
}

impl Model for Desk {
    ghost use Rattle.std.specs.Prelude.{◌≡◌, ◌<◌};
    ghost use Rattle.replay_desk.specs.Holder.{DeskId};

    ghost Value = { DeskId };

    ghost view = { λ desk. desk.table.shared.table_id };

    ghost invariant = { λ desk. (0 < desk.table.shared.table_id.words) × (desk.table.shared.table_id.words < 4294967296)
        × (desk.table.shared.key ≡ desk.table.shared.table_id.words) };
}

/// The right to claim on one desk, with the wins and losses of all claims that were made with it, and a share of the
/// desk. It has no bytes, and may go to another thread. A seat that is dropped takes its share with it, so that no
/// other has the whole share again.
#[derive(Drop)]
pub struct Seat {
    /// The right to step on the table, with the seat's view.
    token: atomic_table::Seat<(), View>,
}

impl Model for Seat {
    ghost use Rattle.std.specs.Prelude.{◌≡◌, []};
    ghost use Rattle.replay_desk.specs.Holder.{Holder};
    ghost use Rattle.replay_desk.specs.Steps.{Known};

    ghost Value = { Holder };

    ghost view = { λ seat. record {
      desk = seat.token.table_id;
      wins = seat.token.me.0.wins;
      losses = seat.token.me.0.losses;
      share = seat.token.me.0.share;
    } };

    ghost invariant = { λ seat. (seat.token.me.1 ≡ [])
        × Known seat.token.me.0.wins seat.token.me.0.losses seat.token.me.0.share };
}

impl Desk {
    /// A desk with so many classes, none of which is won, and its first seat, which has the whole share. The only error
    /// is that memory runs out.
    pub fn new(alloc: Global, classes: u32) -> Result<(Desk, Seat), AllocError>
        requires { 1 ≤ classes }
        ensures { IfOk result (λ made. (made.0.words ≡ classes) × (made.1 ≡ first_of made.0)) }
    {
        let words = vec![in alloc; 0u64; classes as usize]?;
        let (table, token) = Table::of_words(alloc, &words, &u64::from(classes))?;
        Ok((Desk { table }, Seat { token }))
    }

    /// The number of classes.
    pub fn classes(&self) -> u32
        ensures { result ≡ self.now.words }
    {
        self.table.word_count() as u32
    }

    /// A new seat, without wins and losses, to which the caller's gives half of its share. It takes no memory, and
    /// always answers Ok.
    pub fn split(&self, seat: &mut Seat) -> Result<Seat, AllocError>
        requires desk { seat.old.desk ≡ self.now }
        requires share { 2 ≤ seat.old.share }
        ensures answers { IsOk result }
        ensures left { seat.new ≡ left_of seat.old }
        ensures right { IfOk result (λ other. other ≡ right_of seat.old) }
    {
        let token = self.table.shared.split_seat::<Halves>(&mut seat.token);
        Ok(Seat { token })
    }

    /// Gives the wins, the losses and the share of the other seat to the first.
    pub fn join(&self, seat: &mut Seat, other: Seat)
        requires desk { seat.old.desk ≡ self.now }
        requires other { other.desk ≡ self.now }
        ensures { seat.new ≡ both_of seat.old other }
    {
        let Seat { token } = other;
        self.table
            .shared
            .join_seat::<Together>(&mut seat.token, token);
        // the look tells the seat that its losses name wins of its own once it has the whole share
        self.table.shared.load::<Look>(&mut seat.token, 0);
    }

    /// Claims a class for a call. Won exactly if the class's word is 0 at this step; otherwise Lost, to the call that
    /// the word names. It takes no memory and waits for nobody.
    pub fn claim(&self, seat: &mut Seat, class: u32, call: u32) -> Claim
        requires desk { seat.old.desk ≡ self.now }
        requires class { class < self.now.words }
        requires call { call < 4294967295 }
        ensures { Claimed class call seat.old seat.new result }
    {
        let mine = u64::from(call) + 1;
        let words = &self.table.shared;
        let found = words.compare_exchange::<ClaimStep>(&mut seat.token, class as usize, 0, mine);
        if found == 0 {
            return Claim::Won;
        }
        Claim::Lost {
            winner: (found - 1) as u32,
        }
    }

    /// Gives up the desk with a seat that has the whole share, which it has once all others were joined. Then each loss
    /// of the seat names one of its wins.
    pub fn close(self, seat: Seat)
        requires desk { seat.desk ≡ self }
        requires share { seat.share ≡ whole }
        ensures { (p : ℕ × ℕ) → In p seat.losses → In p seat.wins }
    {
        let Seat { token } = seat;
        drop(token);
        drop(self);
    }
}

impl Seat {
    /// What holds of each seat at every moment, as a law for callers: it does nothing when it runs.
    pub fn settled(&self)
        ensures { Settled self.now }
    {
        let _token = &self.token;
    }
}
