//! A chain judged by the rules on it.
ghost use Rattle.std.specs.Prelude.{◌≡◌, ◌≤◌, ℕ, vec_len, IfOk};
ghost use Rattle.delegation.specs.Path.{Path, anchor_of};
ghost use Rattle.cert_store.specs.Judged.{Asks, HasCount, IsJudged, QuietIs, judged_chain, judged_of, judged_path};
ghost use Rattle.cert_store.specs.Judged.{outside_profile, without_path};
ghost use Rattle.cert_store.specs.Links.{links_below};
ghost use Rattle.cert_store.specs.Questions.{QuestionsAre};
ghost use Rattle.cert_store.specs.Words.{AuthorityIs, DatesAre, KeysAre, PathIs, ProfileIs, SignaturesAre, UnaskedIs};

use crate::Memory;
use crate::authority::first_unauthorized;
use crate::judged::{Asked, Judged};
use crate::laws::below_law;
use crate::path::{issuer_keys, issuer_of_last, periods_of};
use crate::signatures::ask;
use delegation::{Anchors, shape};
use std::alloc::{AllocError, Global};
use stir_outside::Provider;
use tn_auth_list::CodeTable;
use x509_profile::{CertChainFault, Certificate, MOST_CHAIN_BYTES, read_chain};

/// What the rules on a chain say of these bytes, which are to be certificates one after another, the leaf's first.
///
/// Rule 11: they are at most 49,152, and at most six certificates of the profile. Rule 12: they are a path up to an
/// anchor (RFC 5280 section 6.1). Rule 14: the leaf has an authority list, and the authority of each lies within its
/// issuer's (RFC 9060). If these hold, the provider is asked for the signatures, once each, from the leaf's on up to
/// the first that it doesn't confirm (rule 15). It isn't asked for those of certificates that are themselves anchors,
/// byte for byte. Rule 13, on dates, is asked of the answer. `Memory` comes if memory runs out for the certificates,
/// for what is kept of them or for comparing their authorities. Then no signature was asked for.
pub fn judge_chain<P: Provider>(
    alloc: Global,
    bytes: &[u8],
    anchors: &Anchors,
    table: &CodeTable,
    provider: &mut P,
) -> Result<Judged, Memory>
    // What the rules say, as far as the provider answered. A question failed only if its count of faults rose.
    ensures exact { IfOk result (IsJudged (judged_of anchors.now table.now (P.says provider.old) bytes.now)
        (P.faults provider.old) (P.faults provider.new)) }

    // The same in the rules' own words.
    ensures profile { IfOk result (ProfileIs bytes.now) }
    ensures path { IfOk result (PathIs anchors.now) }
    ensures dates { IfOk result (DatesAre anchors.now) }
    ensures authority { IfOk result (AuthorityIs anchors.now table.now) }
    ensures signatures { IfOk result (SignaturesAre anchors.now (P.says provider.old)) }

    // If no fault was counted, the answer is all that the rules say.
    ensures quiet { IfOk result (QuietIs (judged_of anchors.now table.now (P.says provider.old) bytes.now)
        (P.faults provider.old) (P.faults provider.new)) }

    // When signatures were asked for, of which certificates, how often, and what that changed of the provider.
    ensures unasked { IfOk result UnaskedIs }
    ensures keys { IfOk result (KeysAre anchors.now) }
    ensures questions { IfOk result (QuestionsAre anchors.now) }
    ensures asks { Asks (P.asks provider.old) (P.asks provider.new) result }
    ensures faults { HasCount (P.faults provider.old) (P.faults provider.new) result }
    ensures same_says { P.says provider.new ≡ P.says provider.old }
    ensures same_signs { P.signs provider.new ≡ P.signs provider.old }
{
    below_law();
    judge_bytes(alloc, bytes, anchors, table, provider)
}

/// The same, by the certificates that are read from the bytes.
fn judge_bytes<P: Provider>(
    alloc: Global,
    bytes: &[u8],
    anchors: &Anchors,
    table: &CodeTable,
    provider: &mut P,
) -> Result<Judged, Memory>
    ensures exact { IfOk result (IsJudged (judged_of anchors.now table.now (P.says provider.old) bytes.now)
        (P.faults provider.old) (P.faults provider.new)) }
    ensures asks { Asks (P.asks provider.old) (P.asks provider.new) result }
    ensures faults { HasCount (P.faults provider.old) (P.faults provider.new) result }
    ensures same_says { P.says provider.new ≡ P.says provider.old }
    ensures same_signs { P.signs provider.new ≡ P.signs provider.old }
{
    if bytes.len() > MOST_CHAIN_BYTES {
        return Ok(outside_profile(alloc, 0));
    }
    match read_chain(alloc, bytes) {
        Ok(certificates) => judge_certificates(alloc, certificates, anchors, table, provider),
        Err(CertChainFault::At { number, .. }) => Ok(outside_profile(alloc, number)),
        Err(CertChainFault::Memory) => Err(AllocError),
    }
}

/// What they say of certificates of the profile.
fn judge_certificates<P: Provider>(
    alloc: Global,
    certificates: Vec<Certificate>,
    anchors: &Anchors,
    table: &CodeTable,
    provider: &mut P,
) -> Result<Judged, Memory>
    requires { vec_len certificates ≤ 6 }
    ensures exact { IfOk result (IsJudged (judged_chain anchors.now table.now (P.says provider.old) certificates.items)
        (P.faults provider.old) (P.faults provider.new)) }
    ensures asks { Asks (P.asks provider.old) (P.asks provider.new) result }
    ensures faults { HasCount (P.faults provider.old) (P.faults provider.new) result }
    ensures same_says { P.says provider.new ≡ P.says provider.old }
    ensures same_signs { P.signs provider.new ≡ P.signs provider.old }
{
    match shape(&certificates, anchors) {
        Ok(found) => judge_path(alloc, certificates, found.anchor, anchors, table, provider),
        Err(fault) => Ok(without_path(alloc, certificates, fault.place)),
    }
}

/// What they say of a path up to an anchor.
fn judge_path<P: Provider>(
    alloc: Global,
    certificates: Vec<Certificate>,
    anchor: Option<u16>,
    anchors: &Anchors,
    table: &CodeTable,
    provider: &mut P,
) -> Result<Judged, Memory>
    requires few { vec_len certificates ≤ 6 }
    requires path { Path certificates.items anchors.now anchor }
    ensures exact { IfOk result (IsJudged (judged_path anchors.now table.now (P.says provider.old) certificates.items
        (links_below certificates.items (anchor_of certificates.items anchors.now anchor))) (P.faults provider.old)
        (P.faults provider.new)) }
    ensures asks { Asks (P.asks provider.old) (P.asks provider.new) result }
    ensures faults { HasCount (P.faults provider.old) (P.faults provider.new) result }
    ensures same_says { P.says provider.new ≡ P.says provider.old }
    ensures same_signs { P.signs provider.new ≡ P.signs provider.old }
{
    let periods = periods_of(alloc, &certificates, anchors)?;
    let top = issuer_of_last(&certificates, anchors, anchor);
    let keys = issuer_keys(alloc, &certificates, top, anchors)?;
    let authority = first_unauthorized(alloc, &certificates, top, table)?;
    let asked = match authority {
        Some(_) => Asked::NotAsked,
        None => ask(&certificates, &keys, provider),
    };
    Ok(Judged {
        certificates,
        periods,
        keys,
        profile: None,
        shape: None,
        authority,
        asked,
    })
}

/// Of bytes that break rule 11 at this place.
fn outside_profile(alloc: Global, place: u8) -> Judged
    ensures { result ≡ outside_profile place }
{
    Judged {
        certificates: Vec::new(alloc),
        periods: Vec::new(alloc),
        keys: Vec::new(alloc),
        profile: Some(place),
        shape: None,
        authority: None,
        asked: Asked::NotAsked,
    }
}

/// Of certificates that are no path, because of the one at this place.
fn without_path(alloc: Global, certificates: Vec<Certificate>, place: u8) -> Judged
    requires { vec_len certificates ≤ 6 }
    ensures { result ≡ without_path certificates.items place }
{
    Judged {
        certificates,
        periods: Vec::new(alloc),
        keys: Vec::new(alloc),
        profile: None,
        shape: Some(place),
        authority: None,
        asked: Asked::NotAsked,
    }
}
