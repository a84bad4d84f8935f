//! Rule 14: authority that its issuer has.
ghost use Rattle.std.specs.Prelude.{◌≡◌, ◌≤◌, ℕ, length, IfOk};
ghost use Rattle.delegation.specs.Coverage.{entries_of};
ghost use Rattle.delegation.specs.Decided.{is_within};
ghost use Rattle.cert_store.specs.Links.{links_from};
ghost use Rattle.cert_store.specs.Rules.{first_outside, first_unauthorized};

use crate::Memory;
use crate::path::issuer_at;
use delegation::{Authority, within};
use std::alloc::Global;
use tn_auth_list::CodeTable;
use x509_profile::Certificate;

/// The first certificate of a path whose authority doesn't lie within its issuer's, or the leaf if it has no list.
pub(crate) fn first_unauthorized(
    alloc: Global,
    chain: &[Certificate],
    top: &Certificate,
    table: &CodeTable,
) -> Result<Option<u8>, Memory>
    requires { length chain.now ≤ 6 }
    ensures { IfOk result (λ place. place ≡ first_unauthorized table.now (links_from 1 chain.now top.now)) }
{
    match chain {
        [] => Ok(None),
        [leaf, ..] if leaf.list().is_none() => Ok(Some(1)),
        _ => first_outside(alloc, chain, top, table),
    }
}

/// The first certificate of a path whose authority doesn't lie within its issuer's. A last certificate that is itself
/// an anchor is its own issuer, and lies within itself.
fn first_outside(
    alloc: Global,
    chain: &[Certificate],
    top: &Certificate,
    table: &CodeTable,
) -> Result<Option<u8>, Memory>
    requires { length chain.now ≤ 6 }
    ensures { IfOk result (λ place. place ≡ first_outside table.now (links_from 1 chain.now top.now)) }
{
    'certificates: for (index, certificate) in chain.iter().enumerate() {
        let issuer = issuer_at(chain, index, top);
        if !lies_within(alloc, certificate, issuer, table)? {
            return Ok(Some(index as u8 + 1));
        }
    }
    Ok(None)
}

/// Whether the certificate's authority lies within its issuer's.
fn lies_within(
    alloc: Global,
    certificate: &Certificate,
    issuer: &Certificate,
    table: &CodeTable,
) -> Result<bool, Memory>
    ensures { IfOk result (λ answer. answer ≡ is_within certificate.now.list issuer.now.list table.now) }
{
    let own = authority_of(certificate);
    let above = authority_of(issuer);
    within(alloc, &own, &above, table)
}

/// The authority that a certificate gives: that of its list, or all if it has none.
fn authority_of(certificate: &Certificate) -> Authority<'_>
    ensures { entries_of result ≡ certificate.now.list }
{
    match certificate.list() {
        Some(list) => Authority::List(list),
        None => Authority::All,
    }
}
