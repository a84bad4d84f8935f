//! What the rules on a chain come to.
ghost use Rattle.std.specs.Prelude.{◌≡◌, ◌≢◌, ◌<◌, ◌≤◌, ◌&&◌, ℕ, pos, int_le, length, IfOk, Some, None};
ghost use Rattle.std.specs.List.{slice_get};
ghost use Rattle.std.specs.Option.{option_copied, option_map};
ghost use Rattle.cert_store.specs.Rules.{first_out, is_in_date};
ghost use Rattle.cert_store.specs.Judged.{IsConsistent, constraints_at, out_of_date};
ghost use Rattle.cert_store.specs.Questions.{kept_question, question_at, seen, with_key};

use crate::path::Key;
use claim_constraints::Constraints;
use std::marker::Model;
use x509_profile::Certificate;

/// How the signatures of a chain were answered for, the leaf's first.
#[derive(Clone, Copy, Debug, PartialEq, Eq)]
pub enum Asked {
    /// No signature was asked for: the chain isn't in the profile, is no path, or gives authority that its issuer
    /// lacks.
    NotAsked,
    /// Every signature that was asked for is good.
    Yes,
    /// The signature of this certificate isn't good; it is the first such. Certificates count from 1, the leaf's.
    No {
        /// The number of the certificate.
        part: u8,
    },
    /// The provider failed at the signature of this certificate, and those before it are good.
    Failed {
        /// The number of the certificate.
        part: u8,
    },
}

/// A question for the signature of a certificate of a chain. It asks whether it is one over the digest of what was
/// signed, under the key of the certificate's issuer (RFC 5280, section 6.1.3 (a)(1)).
#[derive(Clone, Copy)]
pub struct Question<'a> {
    /// The point of the issuer's key: the byte 04, and 32 bytes each of x and y (RFC 5480, section 2.2).
    pub key: &'a [u8; 65],
    /// The SHA-256 of the part that was signed (FIPS 180-4).
    pub digest: &'a [u8; 32],
    /// The numbers r and s, 32 bytes each.
    pub signature: &'a [u8; 64],
}

/// The seconds at which a certificate of a chain is valid, in Unix time (RFC 5280, section 4.1.2.5).
#[derive(Clone, Copy)]
pub(crate) struct Period {
    /// The number of the certificate, the leaf's being 1.
    pub(crate) number: u8,
    pub(crate) not_before: i64,
    pub(crate) not_after: i64,
}

impl Period {
    /// Whether the moment is one of these seconds.
    fn holds(self, moment: u64) -> bool
        ensures { result ≡ is_in_date moment self }
    {
        let moment = i128::from(moment);
        i128::from(self.not_before) <= moment && moment <= i128::from(self.not_after)
    }
}

/// A chain as the rules on it judge it: rules 11 to 15, except for the moment of a call. Rule 13 is asked at that
/// moment, by [`Judged::out_of_date`].
///
/// Certificates count from 1, the leaf's. A contract sees the certificates, the seconds at which those are valid that
/// aren't trust anchors, the keys of their issuers, and what the rules gave.
#[derive(Drop)]
pub struct Judged {
    pub(crate) certificates: Vec<Certificate>,
    pub(crate) periods: Vec<Period>,
    pub(crate) keys: Vec<Option<Key>>,
    pub(crate) profile: Option<u8>,
    pub(crate) shape: Option<u8>,
    pub(crate) authority: Option<u8>,
    pub(crate) asked: Asked,
}

impl Model for Judged {
    ghost use Rattle.cert_store.specs.Judged.{IsConsistent, JudgedView, view_of};

    ghost Value = { JudgedView };

    ghost view = { λ j.
        view_of j.profile j.shape j.authority j.asked j.certificates.items j.periods.items j.keys.items };

    ghost invariant = { λ j. IsConsistent (view_of j.profile j.shape j.authority j.asked j.certificates.items
        j.periods.items j.keys.items) };
}

impl Judged {
    /// Where rule 11 is broken: 0 if the bytes are more than 49,152, else the first certificate that isn't one of the
    /// profile, or the seventh. None if the bytes are at most six certificates of the profile.
    pub fn profile(&self) -> Option<u8>
        ensures { result ≡ self.now.profile }
    {
        self.profile
    }

    /// Where rule 12 is broken: the place at which the certificates are no path up to a trust anchor (RFC 5280, section
    /// 6.1), 0 if there are no certificates. None if they are one, or rule 11 is broken.
    pub fn shape(&self) -> Option<u8>
        ensures { result ≡ self.now.shape }
    {
        self.shape
    }

    /// Where rule 14 is broken: the first certificate whose authority doesn't lie within its issuer's (RFC 9060), or
    /// the leaf if it has no authority list. None if there is none, or rule 11 or 12 is broken.
    pub fn authority(&self) -> Option<u8>
        ensures { result ≡ self.now.authority }
    {
        self.authority
    }

    /// How the signatures were answered for, which is what rule 15 asks: something else than `NotAsked` only if rules
    /// 11, 12 and 14 hold.
    pub fn asked(&self) -> Asked
        ensures exact { result ≡ self.now.asked }
        ensures consistent { IsConsistent self.now }
    {
        self.asked
    }

    /// Where rule 13 is broken at this moment, in Unix seconds: the first certificate that isn't a trust anchor and
    /// isn't valid then (RFC 5280, section 6.1.3). None if there is none, or rule 11 or 12 is broken.
    pub fn out_of_date(&self, moment: u64) -> Option<u8>
        ensures { result ≡ out_of_date self.now moment }
    {
        first_out(&self.periods, moment)
    }

    /// The leaf. None exactly if rule 11 is broken or there are no certificates. If rules 11, 12 and 14 hold, it has an
    /// authority list.
    pub fn leaf(&self) -> Option<&Certificate>
        ensures exact { option_copied result ≡ slice_get self.now.certificates 0 }
        ensures consistent { IsConsistent self.now }
    {
        self.certificates.first()
    }

    /// How many certificates there are, at most six; 0 if rule 11 is broken.
    pub fn length(&self) -> u8
        ensures exact { result ≡ length self.now.certificates }
        ensures outside { self.now.profile ≢ None → result ≡ 0 }
        ensures consistent { IsConsistent self.now }
    {
        self.certificates.len() as u8
    }

    /// What certificate `i` demands of the claims of a PASSporT that is judged under it, if it demands anything: what
    /// rule 19 asks. It is one of the chain itself: of the trust anchor above the last certificate nothing is asked.
    pub fn constraints(&self, i: u8) -> Option<&Constraints>
        requires some { 1 ≤ i }
        requires within { i ≤ length self.now.certificates }
        ensures { option_copied result ≡ constraints_at self.now i }
    {
        self.certificates[usize::from(i - 1)].constraints()
    }

    /// The question that rule 15 asks for the signature of certificate `i`. None exactly if rule 12 is broken or the
    /// certificate is itself a trust anchor, byte for byte. [`crate::judge_chain`] says this of the chains that it
    /// judges.
    pub fn question(&self, i: u8) -> Option<Question<'_>>
        requires some { 1 ≤ i }
        requires within { i ≤ length self.now.certificates }
        ensures { option_map seen result ≡ question_at self.now i }
    {
        let index = usize::from(i) - 1;
        kept_question(&self.certificates, &self.keys, index)
    }
}

/// The question for the signature of the certificate at an index, by the keys that are kept.
#[tactic(auto, using(crate::proofs::QuestionLaws::kept_beyond, crate::proofs::QuestionLaws::kept_at))]
fn kept_question<'a>(
    certificates: &'a [Certificate],
    keys: &'a [Option<Key>],
    index: usize,
) -> Option<Question<'a>>
    requires { index < length certificates.now }
    ensures { option_map seen result ≡ kept_question (slice_get certificates.now index) (slice_get keys.now index) }
{
    if index >= keys.len() {
        return None;
    }
    with_key(&certificates[index], &keys[index])
}

/// The question for the signature of a certificate under the key that is kept for it, if there is one.
fn with_key<'a>(certificate: &'a Certificate, key: &'a Option<Key>) -> Option<Question<'a>>
    ensures { option_map seen result ≡ with_key certificate.now key.now }
{
    match key {
        Some(key) => Some(Question {
            key,
            digest: certificate.digest(),
            signature: certificate.signature(),
        }),
        None => None,
    }
}

/// The number of the first of these certificates that isn't valid at the moment.
fn first_out(periods: &[Period], moment: u64) -> Option<u8>
    ensures { result ≡ first_out moment periods.now }
{
    for period in periods {
        if !period.holds(moment) {
            return Some(period.number);
        }
    }
    None
}
