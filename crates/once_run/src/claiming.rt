//! A list of tickets, claimed by many workers.
ghost use Rattle.std.specs.Prelude.{◌≡◌, ◌<◌, ◌≤◌, ℕ, All, IfOk, length, slice_index_or};
ghost use Rattle.once_run.specs.Claims.{AreClaims};
ghost use Rattle.once_run.specs.Work.{Carried, Seated};

use crate::gathering::{gather, unseat_all};
use crate::seating::seat_all;
use crate::worker::{Worker, work};
use live_desk::{Live, LiveClaim};
use std::alloc::{AllocError, Global};
use std::thread::{Threads, for_each_mut};

/// Claims tickets by so many workers, 1 to 8, on a new desk with so many slots a level, 1 to 1,048,576: worker w of W,
/// counted from 0, claims those at the places w, w + W, and so on. What came of each ticket is at its place.
/// `AllocError` is the only error.
pub(crate) fn claim_tickets<R: Threads + Sync>(
    rt: &R,
    alloc: Global,
    size: u32,
    workers: u64,
    tickets: &[[u8; 32]],
) -> Result<Vec<LiveClaim>, AllocError>
    requires some_slots { 1 ≤ size }
    requires most_slots { size ≤ 1048576 }
    requires some_workers { 1 ≤ workers }
    requires most_workers { workers ≤ 8 }
    ensures { IfOk result (λ claims. AreClaims size tickets.now claims.items) }
{
    let (desk, mut seat) = Live::new(alloc, size)?;
    let mut workers = seat_all(alloc, &desk, &mut seat, workers as usize, tickets.len())?;
    work_all(rt, &desk, tickets, &mut workers);
    let claims = vec![in alloc; LiveClaim::Won; tickets.len()]?;
    let claims = gather(&workers, claims);
    unseat_all(&desk, &mut seat, workers);
    desk.close(seat);
    Ok(claims)
}

/// All workers at work at once, each in a thread of its own if there are threads.
fn work_all<R: Threads + Sync>(rt: &R, desk: &Live, tickets: &[[u8; 32]], workers: &mut Vec<Worker>)
    requires some { 0 < length workers.old.items }
    requires seated { All (Seated desk.now (length tickets.now)) workers.old.items }
    ensures same { length workers.new.items ≡ length workers.old.items }
    ensures carried { (i : ℕ) (d : _) → i < length workers.old.items → Carried desk.now tickets.now
        (length workers.old.items) i (slice_index_or workers.old.items i d) (slice_index_or workers.new.items i d) }
{
    let count = workers.len();
    for_each_mut(
        rt,
        workers,
        count,
        &|index, place| { work(desk, tickets, count, index, place) },
    );
}
