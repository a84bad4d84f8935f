//! Claims one after another and at once, and what the past keeps.
ghost use Rattle.std.specs.Prelude.{◌≡◌, ◌<◌};

use crate::{Claim, Desk, Kept, Past, Seat};
use std::test::Fail;
use std::thread::join;

/// How many classes two threads claim at once.
const CLASSES: usize = 64;

/// Claims every class for one call, and says which were won.
fn claim_all(desk: &Desk, mut seat: Seat, call: u32) -> (Seat, [bool; CLASSES])
    requires desk { seat.desk ≡ desk.now }
    requires classes { desk.now.words ≡ 64 }
    requires call { call < 4294967295 }
    ensures desk { result.0.desk ≡ seat.desk }
    ensures share { result.0.share ≡ seat.share }
{
    let mut won = [false; CLASSES];
    for class in 0..CLASSES {
        won[class] = desk.claim(&mut seat, class as u32, call) == Claim::Won;
    }
    (seat, won)
}

/// One desk, two seats: the second claim of a class is lost to the first, at whichever seat.
#[test]
fn a_class_goes_to_its_first_claim(rt: HostRuntime) -> Result<(), Fail> {
    let (desk, mut seat) = Desk::new(rt.alloc(), 2)?;
    let first = desk.claim(&mut seat, 0, 7);
    let mut other = desk.split(&mut seat)?;
    let second = desk.claim(&mut other, 0, 9);
    let third = desk.claim(&mut other, 1, 9);
    desk.join(&mut seat, other);
    desk.close(seat);
    assert!(rt; first == Claim::Won);
    assert!(rt; second == Claim::Lost { winner: 7 });
    assert!(rt; third == Claim::Won);
    Ok(())
}

/// Two threads claim all classes at once, each for its own call.
#[test]
fn two_threads_win_each_class_once(rt: HostRuntime) -> Result<(), Fail> {
    let (desk, mut seat) = Desk::new(rt.alloc(), 64)?;
    let other = desk.split(&mut seat)?;
    let shared = &desk;
    let (one, two) = join(
        &rt,
        move || claim_all(shared, seat, 1),
        move || claim_all(shared, other, 2),
    );
    let (mut seat, first) = one;
    let (other, second) = two;
    desk.join(&mut seat, other);
    desk.close(seat);
    for class in 0..CLASSES {
        assert!(rt; first[class] != second[class]);
    }
    Ok(())
}

/// A purge at a call's last second keeps it, and one a second later drops it.
#[test]
fn the_past_keeps_a_call_up_to_its_last_second(rt: HostRuntime) -> Result<(), Fail> {
    let ticket = [7u8; 32];
    let kept = Kept { call: 1, last: 100 };
    let mut past = Past::new(rt.alloc());
    past.reserve(1)?;
    past.add(ticket, kept);
    past.purge(100);
    let at_the_last_second = past.find(&ticket);
    past.purge(101);
    let a_second_later = past.find(&ticket);
    assert!(rt; at_the_last_second == Some(kept));
    assert!(rt; a_second_later == None);
    Ok(())
}

/// A ticket that was dropped is added again, up to a second below the last purge: it is held up to that second, and the
/// call before it no longer.
#[test]
fn what_was_dropped_can_be_added_again(rt: HostRuntime) -> Result<(), Fail> {
    let ticket = [7u8; 32];
    let again = Kept { call: 2, last: 90 };
    let mut past = Past::new(rt.alloc());
    past.reserve(2)?;
    past.add(ticket, Kept { call: 1, last: 100 });
    past.purge(101);
    let dropped = past.list()?;
    past.add(ticket, again);
    let held = past.find(&ticket);
    past.purge(91);
    let gone = past.find(&ticket);
    assert!(rt; dropped.is_empty());
    assert!(rt; held == Some(again));
    assert!(rt; gone == None);
    Ok(())
}
