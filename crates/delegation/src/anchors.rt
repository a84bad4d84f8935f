//! Trust anchors.

ghost use Rattle.std.specs.Prelude.{◌≡◌, ◌+◌, ◌<◌, ◌≤◌, ℕ, List, length, vec_len, IfOk, Ok, Err, Some};
ghost use Rattle.std.specs.List.{slice_get};
ghost use Rattle.x509_profile.specs.View.{CertView};
ghost use Rattle.delegation.specs.Anchors.{AnchorText, EndsAt, Gives, IfAt, IsPlacedUpTo, anchor_at, anchors_in};
ghost use Rattle.delegation.specs.Path.{is_listed};

use crate::fault::AnchorFault;
use crate::usage::may_certify;
use der_reader::Der;
use std::alloc::Global;
use std::marker::Model;
use x509_profile::{CertFault, Certificate};

/// How many anchors there may be.
const MOST: usize = 256;

/// The certificates that are trusted without another one above them (RFC 5280, section 6.1.1 (d)): at
/// most 256.
///
/// A contract sees the list of the certificates.
#[derive(Drop)]
pub struct Anchors {
    certificates: Vec<Certificate>,
}

impl Model for Anchors {
    ghost use Rattle.std.specs.Prelude.{◌≤◌, List, length};
    ghost use Rattle.x509_profile.specs.View.{CertView};

    ghost Value = { List CertView };

    ghost view = { λ a. a.certificates.items };

    ghost invariant = { λ a. length a.certificates.items ≤ 256 };
}

impl Anchors {
    /// The anchors that the bytes are.
    ///
    /// The bytes are at most 256 certificates of the profile one after another, each of which may certify others: it is
    /// a certificate authority's, and has keyCertSign if it has key usages (RFC 5280, sections 4.2.1.3 and 4.2.1.9).
    /// The place of a fault is the offset of the first that isn't such a certificate, or of the 257th. No bytes are no
    /// anchors.
    pub fn read(alloc: Global, bytes: &[u8]) -> Result<Anchors, AnchorFault>
        // The anchors, or the place of the first that is none.
        ensures exact { Gives (λ anchors. anchors) result (anchors_in bytes.now) }

        // An answer is the anchors that the bytes are, and the ones that they are are the answer.
        ensures found { IfOk result (AnchorText bytes.now) }
        ensures only { (anchors : List CertView) → AnchorText bytes.now anchors
            → Gives (λ anchors. anchors) result (Ok anchors) }

        // The bytes are the anchors of one list at most.
        ensures unique { (a b : List CertView) → AnchorText bytes.now a → AnchorText bytes.now b → a ≡ b }

        // A fault's place is where, after anchors, the first bytes come that are none. If such bytes come at a place,
        // that is the fault.
        ensures refused { IfAt result (EndsAt bytes.now) }
        ensures only_refused { (place : ℕ) → EndsAt bytes.now place → Gives (λ anchors. anchors) result (Err place) }

        ensures place { IsPlacedUpTo (length bytes.now) result }
        ensures limit { IsPlacedUpTo 2097152 result }
    {
        let certificates = read_all(alloc, bytes)?;
        Ok(Anchors { certificates })
    }

    /// The anchor of this number; the first is 0.
    pub fn get(&self, i: u16) -> &Certificate
        requires { i < length self.now }
        ensures { slice_get self.now i ≡ Some result.now }
    {
        &self.certificates[i as usize]
    }

    /// How many anchors there are: at most 256.
    pub fn count(&self) -> u16
        ensures exact { result ≡ length self.now }
        ensures most { result ≤ 256 }
    {
        self.certificates.len() as u16
    }

    /// Whether the certificate is itself an anchor: one of them, byte for byte.
    pub fn contains(&self, certificate: &Certificate) -> bool
        ensures { result ≡ is_listed certificate.now self.now }
    {
        self.certificates
            .iter()
            .any(|anchor| anchor.whole() == certificate.whole())
    }

    /// The anchors in the order of the file.
    pub fn certificates(&self) -> &[Certificate]
        ensures all { result.now ≡ self.now }
        ensures most { length self.now ≤ 256 }
    {
        &self.certificates
    }
}

/// The certificates that the bytes are, each an anchor.
#[tactic(auto, using(crate::proofs::ReadLaws::at_start, crate::proofs::ReadLaws::at_end, crate::proofs::ReadLaws::one_too_many, crate::proofs::ReadLaws::is_near, crate::proofs::ReadLaws::is_refused, crate::proofs::ReadLaws::goes_on))]
fn read_all(alloc: Global, bytes: &[u8]) -> Result<Vec<Certificate>, AnchorFault>
    ensures exact { Gives (λ anchors. anchors.items) result (anchors_in bytes.now) }
    ensures most { IfOk result (λ anchors. length anchors.items ≤ 256) }
    ensures place { IsPlacedUpTo (length bytes.now) result }
    ensures limit { IsPlacedUpTo 2097152 result }
{
    let mut anchors = Vec::new(alloc);
    let mut rest = bytes;
    'anchors: while !rest.is_empty() {
        let place = (bytes.len() - rest.len()) as u32;
        if anchors.len() == MOST {
            return Err(AnchorFault::At { place });
        }
        let (anchor, behind) = anchor_at(alloc, rest, place)?;
        anchors.push(anchor)?;
        rest = behind;
    }
    Ok(anchors)
}

/// The anchor with which the bytes at this place begin, and the bytes after it.
#[tactic(auto, unfolding(crate::specs::Anchors::anchor_at))]
fn anchor_at<'a>(
    alloc: Global,
    bytes: &'a [u8],
    place: u32,
) -> Result<(Certificate, &'a [u8]), AnchorFault>
    ensures exact { Gives (λ r. (r.0, r.1.now)) result (anchor_at place bytes.now) }
    ensures shorter { IfOk result (λ r. length r.1.now < length bytes.now) }
    ensures size { IfOk result (λ r. length bytes.now ≤ 8192 + length r.1.now) }
    ensures place { IsPlacedUpTo place result }
{
    let (element, behind) = match Der::next(bytes) {
        Ok(next) => next,
        Err(_) => return Err(AnchorFault::At { place }),
    };
    let certificate = match Certificate::read(alloc, element.whole) {
        Ok(certificate) => certificate,
        Err(CertFault::At { .. }) => return Err(AnchorFault::At { place }),
        Err(CertFault::Memory) => return Err(AnchorFault::Memory),
    };
    if may_certify(&certificate) {
        Ok((certificate, behind))
    } else {
        Err(AnchorFault::At { place })
    }
}
