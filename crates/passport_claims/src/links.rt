//! What is asked of the links of a diverted call, its PASSporTs of type `div`, each spoken of by its number, which
//! counts from 1.
ghost use Rattle.std.specs.Prelude.{◌≡◌, ◌+◌, ◌-◌, ◌≤◌, All, IfSome, length};
ghost use Rattle.passport_claims.specs.Links.{IsLink, IsOneOf, dest_at, div_at, div_of, dest_of};
ghost use Rattle.passport_claims.specs.OrderReading.{first_from, is_twin, leads_from, leads_to, may_start, repeats};

use crate::passport::Passport;
use crate::passports::Passports;
use tn_values::Number;

/// The number that was called before a diversion (RFC 8946, section 3).
fn div_of(link: &Passport) -> Number
    requires { IsLink link.now }
    ensures { result ≡ div_of link.now }
{
    match link.kind().div() {
        Some(div) => div,
        None => unreachable!(),
    }
}

/// The number to which a call was diverted (RFC 8946, section 3).
fn dest_of(link: &Passport) -> Number
    ensures { result ≡ dest_of link.now }
{
    link.dest()[0]
}

/// The number that was called before the diversion, of the link with this number.
#[tactic(auto, unfolding(crate::specs::Links::div_at))]
pub(crate) fn div<L: Passports>(links: &L, link: u8) -> Number
    requires links { All IsLink (L.list links.now) }
    requires within { IsOneOf (length (L.list links.now)) link }
    ensures { result ≡ div_at (L.list links.now) link }
{
    div_of(links.passport(usize::from(link) - 1))
}

/// The number to which the call was diverted, of the link with this number.
#[tactic(auto, unfolding(crate::specs::Links::dest_at))]
pub(crate) fn dest<L: Passports>(links: &L, link: u8) -> Number
    requires { IsOneOf (length (L.list links.now)) link }
    ensures { result ≡ dest_at (L.list links.now) link }
{
    dest_of(links.passport(usize::from(link) - 1))
}

/// Whether the other link has its div or its dest.
#[tactic(auto, unfolding(crate::specs::OrderReading::is_twin))]
fn is_twin<L: Passports>(links: &L, link: u8, other: u8) -> bool
    requires links { All IsLink (L.list links.now) }
    requires within { IsOneOf (length (L.list links.now)) link }
    requires other { IsOneOf (length (L.list links.now)) other }
    ensures { result ≡ is_twin (L.list links.now) link other }
{
    div(links, other) == div(links, link) || dest(links, other) == dest(links, link)
}

/// The first of the links before it that has its div or its dest.
#[tactic(auto, using(crate::proofs::FirstLaws::first_here, crate::proofs::FirstLaws::first_passed, crate::proofs::FirstLaws::first_done))]
fn twin<L: Passports>(links: &L, link: u8) -> Option<u8>
    requires links { All IsLink (L.list links.now) }
    requires within { IsOneOf (length (L.list links.now)) link }
    ensures { result ≡ first_from (is_twin (L.list links.now) link) 1 (link - 1) }
{
    for other in 1..link {
        if is_twin(links, link, other) {
            return Some(other);
        }
    }
    None
}

/// Whether its div is its own dest, or a link before it has its div or its dest.
#[tactic(auto, unfolding(crate::specs::OrderReading::repeats))]
fn repeats<L: Passports>(links: &L, link: u8) -> bool
    requires links { All IsLink (L.list links.now) }
    requires within { IsOneOf (length (L.list links.now)) link }
    ensures { result ≡ repeats (L.list links.now) link }
{
    div(links, link) == dest(links, link) || twin(links, link).is_some()
}

/// The first link that repeats a number.
#[tactic(auto, using(crate::proofs::FirstLaws::first_here, crate::proofs::FirstLaws::first_passed, crate::proofs::FirstLaws::first_done))]
pub(crate) fn repeated<L: Passports>(links: &L) -> Option<u8>
    requires links { All IsLink (L.list links.now) }
    requires few { length (L.list links.now) ≤ 8 }
    ensures { result ≡ first_from (repeats (L.list links.now)) 1 (length (L.list links.now)) }
{
    for link in 1..links.count() as u8 + 1 {
        if repeats(links, link) {
            return Some(link);
        }
    }
    None
}

/// The link whose dest this number is.
#[tactic(auto, using(crate::proofs::FirstLaws::first_here, crate::proofs::FirstLaws::first_passed, crate::proofs::FirstLaws::first_done, crate::proofs::FirstLaws::leads_to_is))]
fn link_to<L: Passports>(links: &L, number: Number) -> Option<u8>
    requires { length (L.list links.now) ≤ 8 }
    ensures { result ≡ first_from (leads_to (L.list links.now) number) 1 (length (L.list links.now)) }
{
    for link in 1..links.count() as u8 + 1 {
        if dest(links, link) == number {
            return Some(link);
        }
    }
    None
}

/// The link whose div this number is.
#[tactic(auto, using(crate::proofs::FirstLaws::first_here, crate::proofs::FirstLaws::first_passed, crate::proofs::FirstLaws::first_done, crate::proofs::FirstLaws::leads_from_is))]
pub(crate) fn link_from<L: Passports>(links: &L, number: Number) -> Option<u8>
    requires links { All IsLink (L.list links.now) }
    requires few { length (L.list links.now) ≤ 8 }
    ensures first { result ≡ first_from (leads_from (L.list links.now) number) 1 (length (L.list links.now)) }
    ensures within { IfSome result (IsOneOf (length (L.list links.now))) }
{
    for link in 1..links.count() as u8 + 1 {
        if div(links, link) == number {
            return Some(link);
        }
    }
    None
}

/// Whether the order may start with the link: whether its div is no link's dest.
#[tactic(auto, unfolding(crate::specs::OrderReading::may_start))]
fn may_start<L: Passports>(links: &L, link: u8) -> bool
    requires links { All IsLink (L.list links.now) }
    requires few { length (L.list links.now) ≤ 8 }
    requires within { IsOneOf (length (L.list links.now)) link }
    ensures { result ≡ may_start (L.list links.now) link }
{
    link_to(links, div(links, link)).is_none()
}

/// The first link after this one, or of all after 0, with which the order may start.
#[tactic(auto, using(crate::proofs::FirstLaws::first_here, crate::proofs::FirstLaws::first_passed, crate::proofs::FirstLaws::first_done))]
pub(crate) fn start_behind<L: Passports>(links: &L, before: u8) -> Option<u8>
    requires links { All IsLink (L.list links.now) }
    requires few { length (L.list links.now) ≤ 8 }
    requires within { before ≤ length (L.list links.now) }
    ensures first { result
        ≡ first_from (may_start (L.list links.now)) (before + 1) (length (L.list links.now) - before) }
    ensures within { IfSome result (IsOneOf (length (L.list links.now))) }
{
    for link in before + 1..links.count() as u8 + 1 {
        if may_start(links, link) {
            return Some(link);
        }
    }
    None
}
