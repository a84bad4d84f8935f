//! Seats for the workers.
ghost use Rattle.std.specs.Prelude.{◌≡◌, ◌≤◌, ◌+◌, ◌/◌, All, IfOk, length};
ghost use Rattle.live_desk.specs.Holder.{left_of};
ghost use Rattle.live_desk.specs.Lists.{total, whole};
ghost use Rattle.once_run.specs.Work.{Seated, share_of};

use crate::worker::Worker;
use live_desk::{Live, LiveClaim, LiveSeat};
use std::alloc::{AllocError, Global};

/// A worker with a fresh seat, which takes half of another's share, and with room for what comes of each ticket.
fn seat_one(
    alloc: Global,
    desk: &Live,
    seat: &mut LiveSeat,
    tickets: usize,
) -> Result<Worker, AllocError>
    requires desk { seat.old.desk ≡ desk.now }
    requires share { 2 ≤ seat.old.share }
    ensures left { seat.new ≡ left_of seat.old }
    ensures seated { IfOk result (Seated desk.now tickets) }
    ensures share { IfOk result (λ worker. share_of worker ≡ seat.old.share / 2) }
{
    let other = desk.split(seat)?;
    let claims = vec![in alloc; LiveClaim::Won; tickets]?;
    Ok(Worker {
        seat: Some(other),
        claims,
    })
}

/// Workers with fresh seats, which take their shares from the first, and with room for what comes of each ticket.
pub(crate) fn seat_all(
    alloc: Global,
    desk: &Live,
    seat: &mut LiveSeat,
    count: usize,
    tickets: usize,
) -> Result<Vec<Worker>, AllocError>
    requires desk { seat.old.desk ≡ desk.now }
    requires share { seat.old.share ≡ whole }
    requires count { count ≤ 8 }
    ensures desk { seat.new.desk ≡ desk.now }
    ensures sets { seat.new.sets ≡ seat.old.sets }
    ensures counted { IfOk result (λ workers. length workers.items ≡ count) }
    ensures seated { IfOk result (λ workers. All (Seated desk.now tickets) workers.items) }
    ensures shares { IfOk result (λ workers. seat.new.share + total share_of workers.items ≡ whole) }
{
    let mut workers = Vec::new(alloc);
    for _ in 0..count {
        let worker = seat_one(alloc, desk, seat, tickets)?;
        workers.push(worker)?;
    }
    Ok(workers)
}
