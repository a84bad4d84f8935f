//! A live desk: its calls one after the other, and eight threads that claim on it at once.
ghost use Rattle.std.specs.Prelude.{◌≡◌, ◌≤◌, ◌/◌};
ghost use Rattle.std.specs.Thread.{IsSync};

use live_desk::{Live, LiveClaim, LiveSeat};
use std::alloc::{AllocError, Global};
use std::test::Fail;
use std::thread::{Threads, join};

/// How many tickets the threads claim.
const TICKETS: u32 = 100_000;

/// How many claims they make: a third of the tickets is claimed twice.
const CLAIMS: u32 = 133_333;

/// How the claims of a ticket ended.
#[derive(Clone, Copy, PartialEq, Eq)]
struct Ended {
    /// How many of them won.
    won: u8,
    /// How many of them lost.
    lost: u8,
}

/// A number of 64 bits that looks random (splitmix64).
fn mixed(number: u64) -> [u8; 8] {
    let mut state = number.wrapping_mul(0x9E37_79B9_7F4A_7C15);
    state = (state ^ (state >> 30)).wrapping_mul(0xBF58_476D_1CE4_E5B9);
    state = (state ^ (state >> 27)).wrapping_mul(0x94D0_49BB_1331_11EB);
    (state ^ (state >> 31)).to_be_bytes()
}

/// The ticket of a number. Three tickets have one first half, so that they share their slots on the first levels.
fn ticket(number: u32) -> [u8; 32] {
    let number = u64::from(number);
    let parts = [
        mixed(number / 3),
        mixed(number / 3 + 1_000_000),
        mixed(number + 2_000_000),
        mixed(number + 3_000_000),
    ];
    let mut ticket = [0u8; 32];
    for index in 0..32usize {
        ticket[index] = parts[index / 8][index % 8];
    }
    ticket
}

/// Makes the claims from one number up to another, and says how those of each ticket ended.
fn claim_all(
    alloc: Global,
    desk: &Live,
    mut seat: LiveSeat,
    from: u32,
    to: u32,
) -> Result<Vec<Ended>, AllocError>
    requires { seat.desk ≡ desk.now }
{
    let mut ended = vec![in alloc; Ended { won: 0, lost: 0 }; TICKETS as usize]?;
    for claim in from..to {
        let number = claim % TICKETS;
        let answer = desk.claim(&mut seat, &ticket(number));
        if let Some(entry) = ended.get_mut(number as usize) {
            match answer {
                LiveClaim::Won => entry.won = entry.won.wrapping_add(1),
                LiveClaim::Lost => entry.lost = entry.lost.wrapping_add(1),
                LiveClaim::Full { level: _ } => {}
            }
        }
    }
    Ok(ended)
}

/// How the claims of two threads ended together.
fn both(
    one: Result<Vec<Ended>, AllocError>,
    two: Result<Vec<Ended>, AllocError>,
) -> Result<Vec<Ended>, AllocError> {
    let mut ended = one?;
    for (entry, other) in ended.iter_mut().zip(two?.iter()) {
        entry.won = entry.won.wrapping_add(other.won);
        entry.lost = entry.lost.wrapping_add(other.lost);
    }
    Ok(ended)
}

/// So many threads make the claims from one number up to another, each a part of them.
fn claim_by<R: Threads + Sync>(
    rt: &R,
    alloc: Global,
    desk: &Live,
    mut seat: LiveSeat,
    from: u32,
    to: u32,
    threads: u32,
) -> Result<Vec<Ended>, AllocError>
    requires desk { seat.desk ≡ desk.now }
    requires share { threads ≤ seat.share }
    requires order { from ≤ to }
{
    if threads < 2 {
        return claim_all(alloc, desk, seat, from, to);
    }
    let other = desk.split(&mut seat)?;
    let middle = from + (to - from) / 2;
    let (one, two) = join(
        rt,
        move || -> Result<Vec<Ended>, AllocError>
            requires { IsSync R.row × (seat.desk ≡ desk.now) × (threads / 2 ≤ seat.share) × (from ≤ middle) }
        { claim_by(rt, alloc, desk, seat, from, middle, threads / 2) },
        move || -> Result<Vec<Ended>, AllocError>
            requires { IsSync R.row × (other.desk ≡ desk.now) × (threads / 2 ≤ other.share) × (middle ≤ to) }
        { claim_by(rt, alloc, desk, other, middle, to, threads / 2) },
    );
    both(one, two)
}

/// Of 100,000 tickets a third is claimed twice, at the same time by others of eight threads: each ticket is won once,
/// and each second claim is lost.
#[test]
fn eight_threads_win_each_ticket_once(rt: HostRuntime) -> Result<(), Fail> {
    let alloc = rt.alloc();
    let (desk, seat) = Live::new(alloc, 131_072)?;
    let ended = claim_by(&rt, alloc, &desk, seat, 0, CLAIMS, 8)?;
    assert_eq!(rt; ended.len(), 100_000);
    for (number, entry) in ended.iter().enumerate() {
        let lost = if number < 33_333 { 1 } else { 0 };
        assert!(rt; *entry == Ended { won: 1, lost }, "{number}");
    }
    Ok(())
}

/// The second claim of a ticket is lost, at whichever seat; a level with one slot is full for another ticket; and what
/// was claimed is held.
#[test]
fn a_ticket_goes_to_its_first_claim(rt: HostRuntime) -> Result<(), Fail> {
    let (desk, mut seat) = Live::new(rt.alloc(), 1)?;
    let zeros = [0u8; 32];
    let ones = [255u8; 32];
    let before = desk.held(&mut seat, &zeros);
    let first = desk.claim(&mut seat, &zeros);
    let mut other = desk.split(&mut seat)?;
    let second = desk.claim(&mut other, &zeros);
    let third = desk.claim(&mut other, &ones);
    let held = desk.held(&mut other, &zeros);
    let missing = desk.held(&mut other, &ones);
    desk.join(&mut seat, other);
    let size = desk.size();
    desk.close(seat);
    assert_eq!(rt; size, 1);
    assert!(rt; !before && held && !missing);
    assert!(rt; first == LiveClaim::Won);
    assert!(rt; second == LiveClaim::Lost);
    assert!(rt; third == LiveClaim::Full { level: 1 });
    Ok(())
}
