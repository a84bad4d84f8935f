//! The certificates of a path and their issuers.
ghost use Rattle.std.specs.Prelude.{◌≡◌, ◌<◌, ◌≤◌, ℕ, suc, drop, length, IfOk, Some};
ghost use Rattle.delegation.specs.Path.{Path, anchor_of};
ghost use Rattle.cert_store.specs.Links.{first_or, links_from};
ghost use Rattle.cert_store.specs.Rules.{key_under, keys_of, periods_from};

use crate::Memory;
use crate::judged::Period;
use delegation::Anchors;
use std::alloc::Global;
use x509_profile::Certificate;

/// The point of a key on P-256: the byte 04, and 32 bytes each of x and y (RFC 5480, section 2.2).
pub(crate) type Key = [u8; 65];

/// The issuer of the last certificate of a path: its anchor, or the certificate itself if it is one.
#[tactic(auto, using(crate::proofs::PathFacts::some_certificate, crate::proofs::PathFacts::is_an_anchor))]
pub(crate) fn issuer_of_last<'a>(
    chain: &'a [Certificate],
    anchors: &'a Anchors,
    anchor: Option<u16>,
) -> &'a Certificate
    requires { Path chain.now anchors.now anchor }
    ensures { anchor_of chain.now anchors.now anchor ≡ Some result.now }
{
    match anchor {
        Some(number) => anchors.get(number),
        None => &chain[chain.len() - 1],
    }
}

/// The issuer of the certificate at an index: the next one, or `top` if it is the last.
pub(crate) fn issuer_at<'a>(
    chain: &'a [Certificate],
    index: usize,
    top: &'a Certificate,
) -> &'a Certificate
    requires { index < length chain.now }
    ensures { result.now ≡ first_or (drop (suc index) chain.now) top.now }
{
    match &chain[index + 1..] {
        [above, ..] => above,
        [] => top,
    }
}

/// The keys under which the signatures of certificates are asked for: that of the issuer, and none for a certificate
/// that is itself a trust anchor.
pub(crate) fn issuer_keys(
    alloc: Global,
    chain: &[Certificate],
    top: &Certificate,
    anchors: &Anchors,
) -> Result<Vec<Option<Key>>, Memory>
    ensures all { IfOk result (λ keys. keys.items ≡ keys_of anchors.now (links_from 1 chain.now top.now)) }
    ensures count { IfOk result (λ keys. length keys.items ≡ length chain.now) }
{
    let mut keys = Vec::new(alloc);
    'certificates: for (index, certificate) in chain.iter().enumerate() {
        let issuer = issuer_at(chain, index, top);
        keys.push(issuer_key(certificate, issuer, anchors))?;
    }
    Ok(keys)
}

/// The key under which a certificate's signature is asked for: its issuer's, and none if it is itself a trust anchor.
fn issuer_key(certificate: &Certificate, issuer: &Certificate, anchors: &Anchors) -> Option<Key>
    ensures { result ≡ key_under anchors.now certificate.now issuer.now }
{
    if anchors.contains(certificate) {
        None
    } else {
        Some(*issuer.key())
    }
}

/// The seconds at which the certificates that aren't trust anchors are valid.
pub(crate) fn periods_of(
    alloc: Global,
    chain: &[Certificate],
    anchors: &Anchors,
) -> Result<Vec<Period>, Memory>
    requires { length chain.now ≤ 6 }
    ensures { IfOk result (λ periods. periods.items ≡ periods_from anchors.now 1 chain.now) }
{
    let mut periods = Vec::new(alloc);
    'certificates: for (index, certificate) in chain.iter().enumerate() {
        if anchors.contains(certificate) {
            continue;
        }
        periods.push(Period {
            number: index as u8 + 1,
            not_before: certificate.not_before(),
            not_after: certificate.not_after(),
        })?;
    }
    Ok(periods)
}
