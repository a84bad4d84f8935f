//! The desk of a round, and its seats.
ghost use Rattle.std.specs.Prelude.{◌≡◌, ◌<◌, ◌≤◌, max, vec_len, IfOk};
ghost use Rattle.live_desk.specs.Lists.{whole};
ghost use Rattle.verify_service.specs.Prepared.{AreSeats};
ghost use Rattle.verify_service.specs.Ready.{HaveSeats, IsFresh};

use replay_desk::{Desk, Seat};
use std::alloc::{AllocError, Global};

/// A desk with a word for each class, and with one if there is none; and as many seats of it. `AllocError` is the only
/// error.
pub(crate) fn desk_for(
    alloc: Global,
    classes: u32,
    count: usize,
) -> Result<(Desk, Vec<Seat>), AllocError>
    requires some { 1 ≤ count }
    requires few { count ≤ 8 }
    ensures words { IfOk result (λ made. 1 ≤ made.0.words) }
    ensures classes { IfOk result (λ made. classes ≤ made.0.words) }
    ensures exact { IfOk result (λ made. made.0.words ≡ max classes 1) }
    ensures counted { IfOk result (λ made. vec_len made.1 ≡ count) }
    ensures all { IfOk result (λ made. HaveSeats made.0 made.1.items) }
    ensures seats { IfOk result (λ made. AreSeats made.0 made.1.items) }
{
    let (desk, first) = Desk::new(alloc, classes.max(1))?;
    let seats = split_seats(alloc, &desk, first, count)?;
    Ok((desk, seats))
}

/// As many seats, by halving what the first has left.
fn split_seats(
    alloc: Global,
    desk: &Desk,
    first: Seat,
    count: usize,
) -> Result<Vec<Seat>, AllocError>
    requires some { 1 ≤ count }
    requires few { count ≤ 8 }
    requires fresh { IsFresh desk.now first }
    requires share { first.share ≡ whole }
    ensures counted { IfOk result (λ seats. vec_len seats ≡ count) }
    ensures all { IfOk result (λ seats. HaveSeats desk.now seats.items) }
    ensures seats { IfOk result (λ seats. AreSeats desk.now seats.items) }
{
    let mut first = first;
    let mut seats = Vec::with_capacity(alloc, count)?;
    'seats: for index in 1..count {
        let seat = desk.split(&mut first)?;
        seats.push(seat)?;
    }
    seats.push(first)?;
    Ok(seats)
}
