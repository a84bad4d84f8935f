//! A certificate of the profile.

ghost use Rattle.std.specs.Prelude.{◌≡◌, ◌≤◌, ℕ, List, ◌++◌, length, IfOk, Ok, Err};
ghost use Rattle.std.specs.Option.{option_copied};
ghost use Rattle.der_reader.specs.declared.part.Fault.{Fault};
ghost use Rattle.x509_profile.specs.Fault.{Gives, IsPlacedUpTo, fault_at};
ghost use Rattle.x509_profile.specs.Cert.{Cert};
ghost use Rattle.x509_profile.specs.Read.{read_certificate};
ghost use Rattle.x509_profile.specs.Refused.{IsRefused, Refused};
ghost use Rattle.x509_profile.specs.View.{CertView};

use crate::fault::CertFault;
use crate::signature::read_signature;
use crate::tbs::{ALGORITHM, TbsCertificate, behind_text};
use claim_constraints::Constraints;
use der_reader::tags::SEQUENCE;
use der_reader::{Fault, Outer};
use sha2::{Digest, Sha256};
use std::alloc::Global;
use std::marker::Model;
use tn_auth_list::AuthList;

/// The most bytes of a certificate.
const LONGEST: usize = 8_192;

/// A certificate of the profile: X.509 version 3, an ECDSA key on P-256 and a signature by ECDSA with
/// SHA-256 (RFC 5280, RFC 5480, RFC 5758), at most 8,192 bytes.
///
/// A contract sees the values of its accessors.
#[derive(Drop)]
pub struct Certificate {
    bytes: Vec<u8>,
    tbs: TbsCertificate,
    digest: [u8; 32],
    signature: [u8; 64],
}

impl Model for Certificate {
    ghost use Rattle.std.specs.Prelude.{◌≡◌, Ok};
    ghost use Rattle.x509_profile.specs.Read.{read_certificate};
    ghost use Rattle.x509_profile.specs.View.{CertView, view_of};

    ghost Value = { CertView };

    ghost view = { λ c. view_of c.bytes.items c.tbs c.digest c.signature };

    ghost invariant = { λ c. read_certificate c.bytes.items ≡ Ok (view_of c.bytes.items c.tbs c.digest c.signature) };
}

impl Certificate {
    /// The certificate that the bytes are.
    ///
    /// Its parts are read in byte order, and the first that is broken is the answer, with the offset of
    /// its first byte. If an element can't be read, `DER` has the place of the fault. Of an extension it is
    /// the offset of the extension; `LIST`, and `CONSTRAINT` of constraints that can't be read, have that of
    /// its OCTET STRING. More than 8,192 bytes are `DER` at 8,192.
    pub fn read(alloc: Global, bytes: &[u8]) -> Result<Certificate, CertFault>
        // The values, or the first fault.
        ensures exact { Gives (λ certificate. certificate) result (read_certificate bytes.now) }

        // An answer is the certificate that the bytes are, and the one that they are is the answer.
        ensures found { IfOk result (Cert bytes.now) }
        ensures only { (c : CertView) → Cert bytes.now c → Gives (λ certificate. certificate) result (Ok c) }

        // The bytes are one certificate at most.
        ensures unique { (a b : CertView) → Cert bytes.now a → Cert bytes.now b → a ≡ b }

        // Each other answer is the first fault of the bytes, and their first fault is the answer.
        ensures refused { (fault : Fault) → Refused bytes.now fault
            → Gives (λ certificate. certificate) result (Err fault) }
        ensures only_refused { IsRefused bytes.now result }

        // A prefix of a certificate ends too early, and bytes after one are left over.
        ensures cut_short { (whole more : List ℕ) (c : CertView) → Cert whole c → whole ≡ bytes.now ++ more
            → 1 ≤ length more → Gives (λ certificate. certificate) result (Err (fault_at 1 (length bytes.now))) }
        ensures left_over { (whole more : List ℕ) (c : CertView) → Cert whole c → bytes.now ≡ whole ++ more
            → 1 ≤ length more → length bytes.now ≤ 8192
            → Gives (λ certificate. certificate) result (Err (fault_at 1 (length whole))) }

        ensures place { IsPlacedUpTo (length bytes.now) result }
    {
        read_exactly(alloc, bytes)
    }

    /// All bytes of the certificate.
    ///
    /// Each certificate is the one that is read from its bytes.
    pub fn whole(&self) -> &[u8]
        ensures value { result.now ≡ self.now.whole }
        ensures again { read_certificate self.now.whole ≡ Ok self.now }
    {
        &self.bytes
    }

    /// The subject's name: its whole element, a SEQUENCE (RFC 5280, section 4.1.2.6). Names are one
    /// if they are so byte for byte, which is this project's own rule.
    pub fn subject(&self) -> &[u8]
        ensures { result.now ≡ self.now.subject }
    {
        self.tbs.subject.bytes()
    }

    /// The issuer's name: its whole element, a SEQUENCE (RFC 5280, section 4.1.2.4).
    pub fn issuer(&self) -> &[u8]
        ensures { result.now ≡ self.now.issuer }
    {
        self.tbs.issuer.bytes()
    }

    /// The first second at which the certificate is valid, in Unix time (RFC 5280, section 4.1.2.5).
    pub fn not_before(&self) -> i64
        ensures { result ≡ self.now.not_before }
    {
        self.tbs.validity.not_before
    }

    /// The last second at which the certificate is valid, in Unix time.
    pub fn not_after(&self) -> i64
        ensures { result ≡ self.now.not_after }
    {
        self.tbs.validity.not_after
    }

    /// The point of the key: the byte 04, and 32 bytes each of x and y (RFC 5480, section 2.2).
    pub fn key(&self) -> &[u8; 65]
        ensures { result.now ≡ self.now.key }
    {
        &self.tbs.key
    }

    /// The SHA-256 of the signed part, which is what the signature signs (RFC 5280, section 4.1.1.3).
    pub fn digest(&self) -> &[u8; 32]
        ensures { result.now ≡ self.now.digest }
    {
        &self.digest
    }

    /// The numbers r and s of the signature, 32 bytes each, the highest byte first.
    pub fn signature(&self) -> &[u8; 64]
        ensures { result.now ≡ self.now.signature }
    {
        &self.signature
    }

    /// Whether the key may sign certificates (RFC 5280, section 4.2.1.9).
    pub fn is_ca(&self) -> bool
        ensures { result ≡ self.now.is_ca }
    {
        self.tbs.extensions.basic.is_some_and(|basic| basic.is_ca)
    }

    /// How many certificates may come between this one and the leaf, if that is limited.
    pub fn path_length(&self) -> Option<u64>
        ensures { result ≡ self.now.path_length }
    {
        self.tbs
            .extensions
            .basic
            .and_then(|basic| basic.path_length)
    }

    /// What the key may be used for, if that is said: bit 0 is digitalSignature and bit 5 keyCertSign
    /// (RFC 5280, section 4.2.1.3).
    pub fn usage(&self) -> Option<u16>
        ensures { result ≡ self.now.usage }
    {
        self.tbs.extensions.usage
    }

    /// The identifier of the key (RFC 5280, section 4.2.1.2).
    pub fn subject_key(&self) -> Option<&[u8]>
        ensures { option_copied result ≡ self.now.subject_key }
    {
        let key = self.tbs.extensions.subject_key.as_ref()?;
        Some(key.bytes())
    }

    /// The identifier of the issuer's key (RFC 5280, section 4.2.1.1).
    pub fn authority_key(&self) -> Option<&[u8]>
        ensures { option_copied result ≡ self.now.authority_key }
    {
        let key = self.tbs.extensions.authority.as_ref()?.as_ref()?;
        Some(key.bytes())
    }

    /// The telephone numbers that the holder may speak for (RFC 8226, section 9). A certificate without a
    /// list has no limit of its own.
    pub fn list(&self) -> Option<&AuthList>
        ensures { option_copied result ≡ self.now.list }
    {
        self.tbs.extensions.list.as_ref()
    }

    /// What the certificate demands of the claims of a PASSporT that is judged under it (after RFC 8226,
    /// section 8; form and meaning are this project's own). A certificate without constraints demands
    /// nothing.
    pub fn constraints(&self) -> Option<&Constraints>
        ensures { option_copied result ≡ self.now.constraints }
    {
        self.tbs.extensions.constraints.as_ref()
    }
}

/// The certificate that the bytes are.
#[tactic(auto, unfolding(crate::specs::Read::read_certificate, crate::specs::Read::outer_in))]
fn read_exactly(alloc: Global, bytes: &[u8]) -> Result<Certificate, CertFault>
    ensures exact { Gives (λ certificate. certificate) result (read_certificate bytes.now) }
    ensures place { IsPlacedUpTo (length bytes.now) result }
{
    if bytes.len() > LONGEST {
        return Err(Fault::at(Fault::DER, LONGEST as u32).into());
    }
    let certificate = Outer::read(bytes, SEQUENCE)?;
    let signed = certificate.content().element(SEQUENCE)?;
    let tbs = TbsCertificate::read(alloc, &signed.content())?;
    let signature_at = behind_text(&signed.behind, &ALGORITHM, CertFault::ALGORITHM)?;
    let signature = read_signature(&signature_at)?;
    if !certificate.behind.is_empty() {
        return Err(certificate.left_over().into());
    }
    let digest = Sha256::digest(signed.der.whole);
    let bytes = bytes.to_vec(alloc)?;
    Ok(Certificate {
        bytes,
        tbs,
        digest,
        signature,
    })
}
