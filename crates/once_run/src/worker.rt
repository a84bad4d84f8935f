//! A worker and what it does.
ghost use Rattle.std.specs.Prelude.{◌≡◌, ◌<◌, [], length};
ghost use Rattle.once_run.specs.Work.{Carried, Seated, Worked};

use live_desk::{Live, LiveClaim, LiveSeat};

/// A worker: its seat while it isn't at work, and what came of its tickets, each at the ticket's place.
#[derive(Drop)]
pub(crate) struct Worker {
    /// The seat.
    pub(crate) seat: Option<LiveSeat>,
    /// What came of its tickets.
    pub(crate) claims: Vec<LiveClaim>,
}

/// Claims each ticket whose place leaves the worker's number on division by the number of workers.
fn claim_own(
    desk: &Live,
    tickets: &[[u8; 32]],
    count: usize,
    worker: usize,
    seat: &mut LiveSeat,
    claims: &mut Vec<LiveClaim>,
)
    requires desk { seat.old.desk ≡ desk.now }
    requires fresh { seat.old.sets ≡ [] }
    requires count { 0 < count }
    requires claims { length claims.old.items ≡ length tickets.now }
    ensures desk { seat.new.desk ≡ desk.now }
    ensures share { seat.new.share ≡ seat.old.share }
    ensures claims { length claims.new.items ≡ length tickets.now }
    ensures worked { Worked desk.now.size tickets.now count worker (length tickets.now) seat.new claims.new.items }
{
    for index in 0..tickets.len() {
        if index % count != worker {
            continue;
        }
        claims[index] = desk.claim(seat, &tickets[index]);
    }
}

/// A worker's work: takes its seat, claims its tickets, and puts the seat back.
pub(crate) fn work(
    desk: &Live,
    tickets: &[[u8; 32]],
    count: usize,
    worker: usize,
    place: &mut Worker,
)
    requires count { 0 < count }
    requires seated { Seated desk.now (length tickets.now) place.old }
    ensures { Carried desk.now tickets.now count worker place.old place.new }
{
    let Some(mut seat) = place.seat.take() else {
        unreachable!()
    };
    claim_own(desk, tickets, count, worker, &mut seat, &mut place.claims);
    place.seat = Some(seat);
}
