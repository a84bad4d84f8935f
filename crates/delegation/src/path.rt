//! Whether certificates are a path up to a trust anchor.

ghost use Rattle.std.specs.Prelude.{◌≡◌, ◌↔◌, ◌+◌, ◌<◌, ◌≤◌, ℕ, Option, length, IfOk, IfErr, IsErrAnd, Ok, Some, None};
ghost use Rattle.std.specs.Result.{IsOkAnd};
ghost use Rattle.std.specs.Option.{option_copied};
ghost use Rattle.delegation.specs.Path.{Path, agree, find_anchor, first_from, fits, is_long_enough, last_of, link_at};
ghost use Rattle.delegation.specs.Path.{shape_of};
ghost use Rattle.delegation.specs.PathFaults.{Breaks, IsFirstFault};
ghost use Rattle.delegation.specs.Seen.{shape_view, last_view, link_view};

use crate::anchors::Anchors;
use crate::fault::PathFault;
use crate::found::Shape;
use crate::usage::{may_certify, may_sign};
use x509_profile::Certificate;

/// Whether the certificates, the leaf first, are a path up to an anchor, and up to which.
///
/// Certificates count from 1. Faults are tried in this order. `EMPTY` comes at 0. `LEAF_USE` comes at 1, if the leaf
/// has key usages without digitalSignature. Then the second certificate and each next one are tried for `NAMES`,
/// `NOT_ISSUER` and `PATH_LENGTH`, the last if its path length is below the number of certificates between it and
/// the leaf. `NO_ANCHOR` comes at the last certificate, if it isn't an anchor and no anchor fits. An anchor fits if
/// all of this holds: its subject is the last certificate's issuer; its path length is at least the number of
/// certificates below the last one; its key identifier is the one of the issuer's key, if both are given (RFC 5280,
/// sections 4.2.1.1, 4.2.1.9 and 6.1). The first that fits is taken.
pub fn shape(chain: &[Certificate], anchors: &Anchors) -> Result<Shape, PathFault>
    requires short { length chain.now ≤ 6 }

    // The path's anchor, or the first fault.
    ensures exact { shape_view result ≡ shape_of chain.now anchors.now }

    // An answer is the anchor of the path that the chain is, and each such path is the answer.
    ensures found { IfOk result (λ shape. Path chain.now anchors.now shape.anchor) }
    ensures only { (anchor : Option ℕ) → Path chain.now anchors.now anchor
        → IsOkAnd result (λ shape. shape.anchor ≡ anchor) }

    // That this is the shape, and that the chain is a path up to this anchor, are one thing.
    ensures path { (anchor : Option ℕ)
        → (shape_of chain.now anchors.now ≡ Ok anchor) ↔ Path chain.now anchors.now anchor }

    // A fault is the first of all that is wrong, and what is wrong first is the fault. With a path nothing is wrong.
    ensures fault { IfErr result (λ fault. IsFirstFault chain.now anchors.now fault.kind fault.place) }
    ensures only_fault { (kind place : ℕ) → IsFirstFault chain.now anchors.now kind place
        → IsErrAnd result (λ fault. (fault.kind ≡ kind) × (fault.place ≡ place)) }
    ensures no_fault { (anchor : Option ℕ) → Path chain.now anchors.now anchor
        → (kind place : ℕ) → Breaks chain.now anchors.now kind place → ⊥ }

    ensures place { IfErr result (λ fault. fault.place ≤ length chain.now) }
{
    path_shape(chain, anchors)
}

/// The path's anchor, or the first fault.
#[tactic(auto, unfolding(crate::specs::Path::shape_of))]
fn path_shape(chain: &[Certificate], anchors: &Anchors) -> Result<Shape, PathFault>
    requires short { length chain.now ≤ 6 }
    ensures exact { shape_view result ≡ shape_of chain.now anchors.now }
    ensures place { IfErr result (λ fault. fault.place ≤ length chain.now) }
{
    let [leaf, above @ ..] = chain else {
        return Err(PathFault::new(PathFault::EMPTY, 0));
    };
    if !may_sign(leaf) {
        return Err(PathFault::new(PathFault::LEAF_USE, 1));
    }
    let last = last_of(leaf, above)?;
    let anchor = find_anchor(chain.len() as u8, last, anchors)?;
    Ok(Shape { anchor })
}

/// The last certificate, if each above the leaf is the issuer of the one before it.
#[tactic(auto, using(crate::proofs::WalkLaws::at_last, crate::proofs::WalkLaws::is_issuer, crate::proofs::WalkLaws::is_no_issuer))]
fn last_of<'a>(
    leaf: &'a Certificate,
    above: &'a [Certificate],
) -> Result<&'a Certificate, PathFault>
    requires short { length above.now ≤ 5 }
    ensures exact { last_view result ≡ last_of 2 leaf.now above.now }
    ensures place { IfErr result (λ fault. fault.place ≤ length above.now + 1) }
{
    let mut below = leaf;
    let mut place = 2;
    for certificate in above {
        link(place, below, certificate)?;
        below = certificate;
        place += 1;
    }
    Ok(below)
}

/// Whether the certificate at this place is the issuer of the one below it.
#[tactic(auto, unfolding(crate::specs::Path::link_at))]
fn link(place: u8, below: &Certificate, certificate: &Certificate) -> Result<(), PathFault>
    requires above { 2 ≤ place }
    ensures exact { link_view certificate.now result ≡ link_at place below.now certificate.now }
    ensures place { IfErr result (λ fault. fault.place ≡ place) }
{
    if certificate.subject() != below.issuer() {
        return Err(PathFault::new(PathFault::NAMES, place));
    }
    if !may_certify(certificate) {
        return Err(PathFault::new(PathFault::NOT_ISSUER, place));
    }
    if !is_long_enough(certificate.path_length(), place - 2) {
        return Err(PathFault::new(PathFault::PATH_LENGTH, place));
    }
    Ok(())
}

/// Whether so many certificates may be between this one and the leaf (RFC 5280, section 4.2.1.9).
fn is_long_enough(path_length: Option<u64>, between: u8) -> bool
    ensures { result ≡ is_long_enough path_length between }
{
    match path_length {
        Some(most) => !(most < between as u64),
        None => true,
    }
}

/// The number of the anchor of the last of `count` certificates; None if it is itself an anchor.
#[tactic(auto, unfolding(crate::specs::Path::find_anchor))]
fn find_anchor(count: u8, last: &Certificate, anchors: &Anchors) -> Result<Option<u16>, PathFault>
    requires some { 1 ≤ count }
    ensures exact { result ≡ find_anchor count last.now anchors.now }
    ensures place { IfErr result (λ fault. fault.place ≡ count) }
{
    if anchors.contains(last) {
        return Ok(None);
    }
    match first_fitting(count, last, anchors.certificates()) {
        Some(i) => Ok(Some(i)),
        None => Err(PathFault::new(PathFault::NO_ANCHOR, count)),
    }
}

/// The number of the first anchor that fits.
#[tactic(auto, using(crate::proofs::WalkLaws::none_left, crate::proofs::WalkLaws::is_first, crate::proofs::WalkLaws::is_passed))]
fn first_fitting(count: u8, last: &Certificate, anchors: &[Certificate]) -> Option<u16>
    requires some { 1 ≤ count }
    requires most { length anchors.now ≤ 256 }
    ensures { result ≡ first_from (fits count last.now) 0 anchors.now }
{
    let mut i = 0;
    for anchor in anchors {
        if fits(count, last, anchor) {
            return Some(i);
        }
        i += 1;
    }
    None
}

/// Whether an anchor may be the issuer of the last of `count` certificates.
fn fits(count: u8, last: &Certificate, anchor: &Certificate) -> bool
    requires some { 1 ≤ count }
    ensures { result ≡ fits count last.now anchor.now }
{
    if anchor.subject() != last.issuer() {
        return false;
    }
    if !is_long_enough(anchor.path_length(), count - 1) {
        return false;
    }
    agree(anchor.subject_key(), last.authority_key())
}

/// Whether two key identifiers are one, if both are given.
fn agree(a: Option<&[u8]>, b: Option<&[u8]>) -> bool
    ensures { result ≡ agree (option_copied a.entry) (option_copied b.entry) }
{
    match (a, b) {
        (Some(a), Some(b)) => a == b,
        _ => true,
    }
}
