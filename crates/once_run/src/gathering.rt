//! What the workers leave: what came of each ticket, and their seats as one.
ghost use Rattle.std.specs.Prelude.{◌≡◌, ◌<◌, ◌%◌, ℕ, All, length, slice_index_or};
ghost use Rattle.once_run.specs.Work.{OfDesk, claim_at, joined, with_seat};

use crate::worker::Worker;
use live_desk::{Live, LiveClaim, LiveSeat};

/// What came of each ticket, by the worker that claimed it, into these places.
pub(crate) fn gather(workers: &[Worker], mut claims: Vec<LiveClaim>) -> Vec<LiveClaim>
    requires some { 0 < length workers.now }
    requires lengths { All (λ worker. length worker.claims.items ≡ length claims.items) workers.now }
    ensures same { length result.items ≡ length claims.items }
    ensures each { (i : ℕ) (d : _) → i < length claims.items
        → claim_at result.items i ≡ claim_at (slice_index_or workers.now (i % length workers.now) d).claims.items i }
{
    for index in 0..claims.len() {
        claims[index] = workers[index % workers.len()].claims[index];
    }
    claims
}

/// Joins a worker's seat, if it has one, to another.
fn unseat(desk: &Live, seat: &mut LiveSeat, other: Option<LiveSeat>)
    requires desk { seat.old.desk ≡ desk.now }
    requires other { OfDesk desk.now other }
    ensures { seat.new ≡ with_seat seat.old other }
{
    if let Some(other) = other {
        desk.join(seat, other);
    }
}

/// Joins the seats of all workers to the first.
pub(crate) fn unseat_all(desk: &Live, seat: &mut LiveSeat, mut workers: Vec<Worker>)
    requires desk { seat.old.desk ≡ desk.now }
    requires seats { All (λ worker. OfDesk desk.now worker.seat) workers.items }
    ensures { seat.new ≡ joined seat.old workers.items }
{
    while let Some(worker) = workers.pop() {
        let Worker {
            seat: other,
            claims: _,
        } = worker;
        unseat(desk, seat, other);
    }
}
