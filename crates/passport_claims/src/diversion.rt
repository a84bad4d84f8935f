//! The order in which a diverted call went (RFC 8946, section 4.2).
ghost use Rattle.std.specs.Prelude.{◌≡◌, ℕ, ◌≤◌, All, List, ◌∷◌, IfErr, IfOk, Err, length};
ghost use Rattle.std.specs.Result.{IsOkAnd};
ghost use Rattle.passport_claims.specs.Links.{IsLink, IsOneOf};
ghost use Rattle.passport_claims.specs.Order.{IsOrder, is_among, last_of};
ghost use Rattle.passport_claims.specs.OrderFault.{IsFault};
ghost use Rattle.passport_claims.specs.OrderReading.{behind, calls, first_from, is_left, order_of, start_of};
ghost use Rattle.passport_claims.specs.OrderReading.{undiverted, way_from};
ghost use Rattle.passport_claims.specs.OrderSeen.{IsFilled, IsTurn, order_seen, turn_of};

use crate::links::{dest, div, link_from, repeated, start_behind};
use crate::order::{ChainFault, MOST_LINKS, Order};
use crate::passport::Passport;
use crate::passports::Passports;
use tn_values::Number;

/// The order in which a diverted call went (RFC 8946, section 4.2), from its originating PASSporT to the number that is
/// called now. Its links are the PASSporTs of type `div`, in the order of the message.
///
/// Each link is there once. The div of the first is a number that the originating PASSporT calls. The div of each later
/// one is the dest of the one before it. The dest of the last is the called number. These numbers are distinct, and
/// there are at most 8 links. Without links the originating PASSporT calls that number. There is one such order at
/// most; if there is none, the fault is the first of those of [`ChainFault`].
#[tactic(auto, using(crate::proofs::OrderFaultLaws::order_found, crate::proofs::OrderFaultLaws::order_only, crate::proofs::OrderFaultLaws::fault_found, crate::proofs::OrderLaws::order_unique))]
pub fn chain(
    origin: &Passport,
    links: &[Passport],
    called: Option<Number>,
) -> Result<Order, ChainFault>
    requires links { All IsLink links.now }

    // The order, or the first fault.
    ensures exact { order_seen result ≡ order_of origin.now links.now called }

    // An answer is an order, each order is the answer, and there is one at most.
    ensures found { IfOk result (λ order. IsOrder origin.now links.now called (turn_of order)) }
    ensures only { (turn : List ℕ) → IsOrder origin.now links.now called turn
        → IsOkAnd result (λ order. turn_of order ≡ turn) }
    ensures unique { (one other : List ℕ) → IsOrder origin.now links.now called one
        → IsOrder origin.now links.now called other → one ≡ other }

    // It has as many entries as there are links, each the number of one.
    ensures turn { IfOk result (λ order. IsTurn (length links.now) order) }

    // A refusal is the first fault, shown by the link that shows it, and each such fault is the answer.
    ensures refused { IfErr result (λ fault. IsFault origin.now links.now called fault) }
    ensures fault { (fault : ChainFault) → IsFault origin.now links.now called fault → result ≡ Err fault }
    ensures link { IfErr result (λ fault. fault.link ≤ length links.now) }
{
    chain_of(origin, &links, called)
}

/// The same as [`chain`], of links that are kept elsewhere.
#[tactic(auto, using(crate::proofs::OrderFaultLaws::order_found, crate::proofs::OrderFaultLaws::fault_found, crate::proofs::OrderFaultLaws::turn_found))]
pub fn chain_of<L: Passports>(
    origin: &Passport,
    links: &L,
    called: Option<Number>,
) -> Result<Order, ChainFault>
    requires links { All IsLink (L.list links.now) }
    ensures exact { order_seen result ≡ order_of origin.now (L.list links.now) called }
    ensures found { IfOk result (λ order. IsOrder origin.now (L.list links.now) called (turn_of order)) }
    ensures turn { IfOk result (λ order. IsTurn (length (L.list links.now)) order) }
    ensures refused { IfErr result (λ fault. IsFault origin.now (L.list links.now) called fault) }
{
    chain_exactly(origin, links, called)
}

/// The order, or the first fault.
#[tactic(auto, unfolding(crate::specs::OrderReading::order_of))]
fn chain_exactly<L: Passports>(
    origin: &Passport,
    links: &L,
    called: Option<Number>,
) -> Result<Order, ChainFault>
    requires links { All IsLink (L.list links.now) }
    ensures exact { order_seen result ≡ order_of origin.now (L.list links.now) called }
    ensures filled { IfOk result IsFilled }
{
    if links.count() > MOST_LINKS {
        return Err(ChainFault::new(ChainFault::MANY, 9));
    }
    if let Some(link) = repeated(links) {
        return Err(ChainFault::new(ChainFault::REPEAT, link));
    }
    if links.count() == 0 {
        return undiverted(origin, called);
    }
    let start = start_of(origin, links)?;
    way_from(links, called, start)
}

/// The order of no links, if the called number is one that the originating PASSporT calls.
#[tactic(auto, unfolding(crate::specs::OrderReading::undiverted))]
fn undiverted(origin: &Passport, called: Option<Number>) -> Result<Order, ChainFault>
    ensures exact { order_seen result ≡ undiverted origin.now.dest called }
    ensures filled { IfOk result IsFilled }
{
    let Some(number) = called else {
        return Err(ChainFault::new(ChainFault::CALLED, 0));
    };
    if !origin.dest().contains(&number) {
        return Err(ChainFault::new(ChainFault::CALLED, 0));
    }
    Ok(Order {
        length: 0,
        turn: [0; MOST_LINKS],
    })
}

/// The one link with which the order may start, if the originating PASSporT calls its div.
#[tactic(auto, unfolding(crate::specs::OrderReading::start_of))]
fn start_of<L: Passports>(origin: &Passport, links: &L) -> Result<u8, ChainFault>
    requires links { All IsLink (L.list links.now) }
    requires few { length (L.list links.now) ≤ 8 }
    ensures exact { result ≡ start_of origin.now.dest (L.list links.now) }
    ensures within { IfOk result (IsOneOf (length (L.list links.now))) }
{
    let Some(start) = start_behind(links, 0) else {
        return Err(ChainFault::new(ChainFault::START, 1));
    };
    if let Some(second) = start_behind(links, start) {
        return Err(ChainFault::new(ChainFault::START, second));
    }
    if !origin.dest().contains(&div(links, start)) {
        return Err(ChainFault::new(ChainFault::START, start));
    }
    Ok(start)
}

/// The way from the start, if it leaves no link and the last dest is called.
#[tactic(auto, unfolding(crate::specs::OrderReading::way_from))]
fn way_from<L: Passports>(links: &L, called: Option<Number>, start: u8) -> Result<Order, ChainFault>
    requires links { All IsLink (L.list links.now) }
    requires few { length (L.list links.now) ≤ 8 }
    requires within { IsOneOf (length (L.list links.now)) start }
    ensures exact { order_seen result ≡ way_from (L.list links.now) called start }
    ensures filled { IfOk result IsFilled }
{
    let order = walk(links, start);
    if let Some(link) = left(&order, links.count() as u8) {
        return Err(ChainFault::new(ChainFault::CUT, link));
    }
    let last = last(&order);
    if !is_called(called, dest(links, last)) {
        return Err(ChainFault::new(ChainFault::CALLED, last));
    }
    Ok(order)
}

/// The links by which the call went on from the start, each next one with the dest of the one before it as div.
fn walk<L: Passports>(links: &L, start: u8) -> Order
    requires links { All IsLink (L.list links.now) }
    requires few { length (L.list links.now) ≤ 8 }
    requires within { IsOneOf (length (L.list links.now)) start }
    ensures turn { turn_of result ≡ start ∷ behind (L.list links.now) start }
    ensures filled { IsFilled result }
{
    let mut turn = [0; MOST_LINKS];
    turn[0] = start;
    let mut number = dest(links, start);
    for place in 1..links.count() {
        let Some(next) = link_from(links, number) else {
            return Order {
                length: place as u8,
                turn,
            };
        };
        turn[place] = next;
        number = dest(links, next);
    }
    Order {
        length: links.count() as u8,
        turn,
    }
}

/// The first of so many links that isn't in the order.
#[tactic(auto, using(crate::proofs::FirstLaws::first_here, crate::proofs::FirstLaws::first_passed, crate::proofs::FirstLaws::first_done, crate::proofs::FirstLaws::is_left_is))]
fn left(order: &Order, count: u8) -> Option<u8>
    requires filled { IsFilled order.now }
    requires few { count ≤ 8 }
    ensures { result ≡ first_from (is_left (turn_of order.now)) 1 count }
{
    for link in 1..count + 1 {
        if !has(order, link) {
            return Some(link);
        }
    }
    None
}

/// The last link of an order that has some.
fn last(order: &Order) -> u8
    requires filled { IsFilled order.now }
    requires some { 1 ≤ order.now.length }
    ensures { (first : ℕ) (later : List ℕ) → turn_of order.now ≡ first ∷ later → result ≡ last_of first later }
{
    order.turn[usize::from(order.length) - 1]
}

/// Whether the called number is this one.
fn is_called(called: Option<Number>, number: Number) -> bool
    ensures { result ≡ calls called number }
{
    match called {
        Some(called) => called == number,
        None => false,
    }
}

/// Whether a link is in the order.
fn has(order: &Order, link: u8) -> bool
    requires { order.now.length ≤ 8 }
    ensures { result ≡ is_among link (turn_of order.now) }
{
    order.turn[..usize::from(order.length)].contains(&link)
}
