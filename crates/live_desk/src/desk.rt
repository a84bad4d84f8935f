//! The desk that threads share, and the seats at which they claim.
ghost use Rattle.std.specs.Prelude.{◌≡◌, ◌≤◌, ℕ, List, IfOk, IsOk};
ghost use Rattle.live_desk.specs.Closing.{Closing};
ghost use Rattle.live_desk.specs.Holder.{Settled, both_of, first_of, left_of, right_of};
ghost use Rattle.live_desk.specs.Laws.{won};
ghost use Rattle.live_desk.specs.Lists.{whole};

use crate::steps::{Halves, LiveRule, Look, Together};
use crate::view::View;
use atomic_table::Table;
use std::alloc::{AllocError, Global};
use std::marker::Model;

/// Six levels of words, on which threads claim tickets without waiting for each other. A ticket is won at most once.
#[derive(Drop)]
pub struct Live {
    /// The words, level by level, whose rule is `LiveRule`.
    pub(crate) table: Table<[u8; 32], View, u64, LiveRule, Global>,
    /// How many slots a level has.
    pub(crate) size: u32,
}

impl Model for Live {
    ghost use Rattle.std.specs.Prelude.{◌≡◌, ◌≤◌, ◌*◌};
    ghost use Rattle.live_desk.specs.Holder.{LiveDesk};

    ghost Value = { LiveDesk };

    ghost view = { λ live. record { table = live.table.shared.table_id; size = live.size } };

    ghost invariant = { λ live. (live.table.shared.key ≡ live.size) × (live.table.shared.table_id.words ≡ 6 * live.size)
        × (1 ≤ live.size) × (live.size ≤ 1048576) };
}

/// The right to claim on one desk, with all that was set and found with it, and a share of the desk. It has no bytes,
/// and may go to another thread. A seat that is dropped takes its share with it, so that no other has the whole share
/// again.
#[derive(Drop)]
pub struct LiveSeat {
    /// The right to step on the table, with the seat's view.
    pub(crate) token: atomic_table::Seat<[u8; 32], View>,
}

impl Model for LiveSeat {
    ghost use Rattle.std.specs.Prelude.{◌≡◌, []};
    ghost use Rattle.live_desk.specs.Holder.{Holder, holder};
    ghost use Rattle.live_desk.specs.Steps.{KnownOf};

    ghost Value = { Holder };

    ghost view = { λ seat. holder seat.token.table_id seat.token.me.0 };

    ghost invariant = { λ seat. (seat.token.me.1 ≡ []) × KnownOf seat.token.me.0 };
}

impl Live {
    /// A desk with so many slots a level, 1 to 1,048,576, on which no ticket is claimed, and its first seat, which has
    /// the whole share. It takes 48 bytes a slot, and as much again while it is made. The only error is that memory
    /// runs out.
    pub fn new(alloc: Global, size: u32) -> Result<(Live, LiveSeat), AllocError>
        requires { (1 ≤ size) × (size ≤ 1048576) }
        ensures { IfOk result (λ made. (made.0.size ≡ size) × (made.1 ≡ first_of made.0)) }
    {
        let words = vec![in alloc; 0u64; 6 * size as usize]?;
        let (table, token) = Table::of_words(alloc, &words, &u64::from(size))?;
        Ok((Live { table, size }, LiveSeat { token }))
    }

    /// How many slots a level has.
    pub fn size(&self) -> u32
        ensures { result ≡ self.now.size }
    {
        self.size
    }

    /// A new seat, which set and found nothing, to which the caller's gives half of its share. It takes no memory, and
    /// always answers Ok.
    pub fn split(&self, seat: &mut LiveSeat) -> Result<LiveSeat, AllocError>
        requires desk { seat.old.desk ≡ self.now }
        requires share { 2 ≤ seat.old.share }
        ensures answers { IsOk result }
        ensures left { seat.new ≡ left_of seat.old }
        ensures right { IfOk result (λ other. other ≡ right_of seat.old) }
    {
        let token = self.table.shared.split_seat::<Halves>(&mut seat.token);
        Ok(LiveSeat { token })
    }

    /// Gives all that the other seat set and found, and its share, to the first. It takes no memory and waits for
    /// nobody.
    pub fn join(&self, seat: &mut LiveSeat, other: LiveSeat)
        requires desk { seat.old.desk ≡ self.now }
        requires other { other.desk ≡ self.now }
        ensures { seat.new ≡ both_of seat.old other }
    {
        let LiveSeat { token } = other;
        self.table
            .shared
            .join_seat::<Together>(&mut seat.token, token);
        // the look tells the seat what it knows of both together
        self.table.shared.load::<Look>(&mut seat.token, 0);
    }

    /// Gives up the desk with a seat that has the whole share, which it has once all others were joined. Then the seat
    /// knows of each ticket that was lost that it was won, once, and of each full level whose its slots are.
    pub fn close(self, seat: LiveSeat)
        requires desk { seat.desk ≡ self }
        requires share { seat.share ≡ whole }
        ensures { Closing seat }
    {
        let LiveSeat { token } = seat;
        drop(token);
        drop(self);
    }
}

impl LiveSeat {
    /// What holds of each seat at every moment, as a law for callers: it does nothing when it runs.
    pub fn settled(&self)
        ensures known { Settled self.now }
        ensures once { (ticket : List ℕ) → won ticket self.now.sets ≤ 1 }
    {
        let _token = &self.token;
    }
}
