//! The certificates of the drill.
ghost use Rattle.std.specs.Prelude.{◌≡◌, ◌≤◌, ◌<◌, ◌+◌, ◌++◌, ◌∷◌, [], codes, length, OnOk, IfOk};
ghost use Rattle.der_reader.specs.Elem.{element_text};
ghost use Rattle.stir_drill.specs.Certificates as specs;

use crate::Memory;
use der_reader::tags::{
    BIT_STRING, BOOLEAN, INTEGER, OBJECT_IDENTIFIER, OCTET_STRING, SEQUENCE, UTC_TIME,
};
use der_reader::{encode, put};
use sha2::{Digest, Sha256};
use std::alloc::Global;
use tn_auth_list::{AuthList, Entry};
use tn_values::{Number, Span};

/// Version 3, by its explicit tag (RFC 5280, section 4.1.2.1).
const VERSION: [u8; 5] = [0xA0, 0x03, 0x02, 0x01, 0x02];

/// ecdsa-with-SHA256 (RFC 5758, section 3.2).
const ALGORITHM: [u8; 12] = [
    0x30, 0x0A, 0x06, 0x08, 0x2A, 0x86, 0x48, 0xCE, 0x3D, 0x04, 0x03, 0x02,
];

/// What comes before the letter of a name: a commonName of one byte (RFC 5280, section 4.1.2.4).
const NAME_FRONT: [u8; 13] = [
    0x30, 0x0C, 0x31, 0x0A, 0x30, 0x08, 0x06, 0x03, 0x55, 0x04, 0x03, 0x0C, 0x01,
];

/// What comes before the coordinates of a key: the algorithm, the curve, and that the point isn't compressed (RFC 5480,
/// section 2).
const KEY_FRONT: [u8; 27] = [
    0x30, 0x59, 0x30, 0x13, 0x06, 0x07, 0x2A, 0x86, 0x48, 0xCE, 0x3D, 0x02, 0x01, 0x06, 0x08, 0x2A,
    0x86, 0x48, 0xCE, 0x3D, 0x03, 0x01, 0x07, 0x03, 0x42, 0x00, 0x04,
];

/// The OBJECT IDENTIFIERs of basicConstraints and of TNAuthorizationList.
const BASIC_CONSTRAINTS: [u8; 3] = [0x55, 0x1D, 0x13];

const NUMBERS: [u8; 8] = [0x2B, 0x06, 0x01, 0x05, 0x05, 0x07, 0x01, 0x1A];

/// The tag of the extensions in a certificate, `[3]` (RFC 5280, section 4.1).
const EXTENSIONS_TAG: u8 = 0xA3;

/// The first of the leaf's numbers, and how many it has.
const FIRST_NUMBER: &str = "12155550000";

const NUMBERS_OF_LEAF: u64 = 10_000;

/// What a certificate of the drill is made of: two letters, and the byte of its serial number, key and signature.
#[derive(Clone, Copy)]
pub(crate) struct Named {
    pub(crate) subject: u8,
    pub(crate) issuer: u8,
    pub(crate) byte: u8,
}

impl Named {
    /// The trust anchor, which issued itself.
    pub(crate) const ROOT: Named = Named {
        subject: b'R',
        issuer: b'R',
        byte: 1,
    };

    /// What the trust anchor issued,
    pub(crate) const INTERMEDIATE: Named = Named {
        subject: b'I',
        issuer: b'R',
        byte: 2,
    };

    /// and what this issued.
    pub(crate) const LEAF: Named = Named {
        subject: b'D',
        issuer: b'I',
        byte: 4,
    };

    /// The key: an uncompressed point, all bytes of whose coordinates are the certificate's (SEC 1, section 2.3.3).
    pub(crate) fn key(self) -> [u8; 65]
        ensures { result ≡ specs.point self.byte }
    {
        let mut key = [self.byte; 65];
        key[0] = 4;
        key
    }

    /// The two numbers of the signature, 32 bytes each.
    pub(crate) fn scalars(self) -> [u8; 64]
        ensures { result ≡ specs.scalars self.byte }
    {
        let mut scalars = [0; 64];
        scalars[31] = self.byte;
        scalars[63] = self.byte;
        scalars
    }
}

/// A certificate, and the SHA-256 of what of it is signed.
#[derive(Drop)]
pub(crate) struct Certificate {
    pub(crate) bytes: Vec<u8>,
    pub(crate) digest: [u8; 32],
}

/// The certificate of these parts and extensions.
#[tactic(auto, using(crate::proofs::CertificateLaws::algorithm_is, crate::proofs::CertificateLaws::algorithm_length))]
pub(crate) fn make_certificate(
    alloc: Global,
    named: Named,
    extensions: &[u8],
) -> Result<Certificate, Memory>
    requires { length extensions.now ≤ 128 }
    ensures bytes { IfOk result (λ made.
        made.bytes.items ≡ specs.certificate_text (specs.recipe named.subject named.issuer named.byte extensions.now)) }
    ensures digest { IfOk result
        (λ made. made.digest ≡ specs.digest (specs.recipe named.subject named.issuer named.byte extensions.now)) }
{
    let mut content = signed_text(alloc, named, extensions)?;
    let digest = Sha256::digest(content.as_slice());
    content.extend_from_slice(&ALGORITHM)?;
    put_signature(alloc, &mut content, named.byte)?;
    let bytes = encode(alloc, SEQUENCE, &content)?;
    Ok(Certificate { bytes, digest })
}

/// The part of a certificate that is signed.
#[tactic(auto, using(crate::proofs::CertificateLaws::version_is, crate::proofs::CertificateLaws::version_length, crate::proofs::CertificateLaws::algorithm_is, crate::proofs::CertificateLaws::algorithm_length))]
fn signed_text(alloc: Global, named: Named, extensions: &[u8]) -> Result<Vec<u8>, Memory>
    requires { length extensions.now ≤ 128 }
    ensures text { IfOk result
        (λ text. text.items ≡ specs.signed_text (specs.recipe named.subject named.issuer named.byte extensions.now)) }
    ensures short { IfOk result (λ text. length text.items ≤ 400) }
{
    let mut content = Vec::from_slice(alloc, &VERSION)?;
    put(&mut content, INTEGER, &[named.byte])?;
    content.extend_from_slice(&ALGORITHM)?;
    put_name(&mut content, named.issuer)?;
    put_validity(alloc, &mut content)?;
    put_name(&mut content, named.subject)?;
    put_key(&mut content, named.byte)?;
    content.extend_from_slice(extensions)?;
    enclosed(alloc, &content)
}

/// A SEQUENCE of this content.
fn enclosed(alloc: Global, content: &[u8]) -> Result<Vec<u8>, Memory>
    requires { length content.now ≤ 350 }
    ensures text { IfOk result (λ text. text.items ≡ element_text 0x30 content.now) }
    ensures short { IfOk result (λ text. length text.items ≤ 400) }
{
    let text = encode(alloc, SEQUENCE, content)?;
    Ok(text)
}

/// Appends a name of one letter.
#[tactic(auto, using(crate::proofs::CertificateLaws::name_is, crate::proofs::CertificateLaws::name_length))]
fn put_name(out: &mut Vec<u8>, letter: u8) -> Result<(), Memory>
    ensures text { OnOk result (out.new.items ≡ out.old.items ++ specs.name letter) }
    ensures length { OnOk result (length out.new.items ≡ length out.old.items + 14) }
{
    out.extend_from_slice(&NAME_FRONT)?;
    out.push(letter)?;
    Ok(())
}

/// Appends the years in which a certificate is valid, as two UTCTimes.
fn put_validity(alloc: Global, out: &mut Vec<u8>) -> Result<(), Memory>
    ensures text { OnOk result (out.new.items ≡ out.old.items ++ specs.validity) }
    ensures length { OnOk result (length out.new.items ≡ length out.old.items + 32) }
{
    let mut times = encode(alloc, UTC_TIME, b"150101000000Z")?;
    put(&mut times, UTC_TIME, b"250101000000Z")?;
    put(out, SEQUENCE, &times)?;
    Ok(())
}

/// Appends a key.
#[tactic(auto, using(crate::proofs::CertificateLaws::key_is, crate::proofs::CertificateLaws::key_length))]
fn put_key(out: &mut Vec<u8>, byte: u8) -> Result<(), Memory>
    ensures text { OnOk result (out.new.items ≡ out.old.items ++ specs.key byte) }
    ensures length { OnOk result (length out.new.items ≡ length out.old.items + 91) }
{
    out.extend_from_slice(&KEY_FRONT)?;
    out.extend_from_slice(&[byte; 64])?;
    Ok(())
}

/// Appends a signature, a BIT STRING of two INTEGERs.
fn put_signature(alloc: Global, out: &mut Vec<u8>, byte: u8) -> Result<(), Memory>
    ensures text { OnOk result (out.new.items ≡ out.old.items ++ specs.signature byte) }
    ensures length { OnOk result (length out.new.items ≡ length out.old.items + 11) }
{
    let mut numbers = encode(alloc, INTEGER, &[byte])?;
    put(&mut numbers, INTEGER, &[byte])?;
    let mut content = Vec::from_slice(alloc, &[0])?;
    put(&mut content, SEQUENCE, &numbers)?;
    put(out, BIT_STRING, &content)?;
    Ok(())
}

/// The extensions of an authority: basicConstraints, critical, whose cA is true (RFC 5280, section 4.2.1.9).
pub(crate) fn authority_extensions(alloc: Global) -> Result<Vec<u8>, Memory>
    ensures text { IfOk result (λ text. text.items ≡ specs.extensions specs.authority_extension) }
    ensures short { IfOk result (λ text. length text.items ≤ 128) }
{
    let is_ca = encode(alloc, BOOLEAN, &[0xFF])?;
    let constraints = encode(alloc, SEQUENCE, &is_ca)?;
    let mut content = encode(alloc, OBJECT_IDENTIFIER, &BASIC_CONSTRAINTS)?;
    put(&mut content, BOOLEAN, &[0xFF])?;
    put(&mut content, OCTET_STRING, &constraints)?;
    only_extension(alloc, &content)
}

/// The extensions of the leaf: the 10,000 numbers from 12155550000 on (RFC 8226, section 9).
pub(crate) fn leaf_extensions(alloc: Global) -> Result<Vec<u8>, Memory>
    ensures text { IfOk result (λ text. text.items ≡ specs.extensions specs.numbers_extension) }
    ensures short { IfOk result (λ text. length text.items ≤ 128) }
{
    let numbers = leaf_numbers(alloc)?;
    let mut content = encode(alloc, OBJECT_IDENTIFIER, &NUMBERS)?;
    put(&mut content, OCTET_STRING, &numbers)?;
    only_extension(alloc, &content)
}

/// The extensions of which there is one, of this content.
fn only_extension(alloc: Global, content: &[u8]) -> Result<Vec<u8>, Memory>
    requires { length content.now ≤ 100 }
    ensures text { IfOk result (λ text. text.items ≡ specs.extensions (element_text 0x30 content.now)) }
    ensures short { IfOk result (λ text. length text.items ≤ 128) }
{
    let extension = encode(alloc, SEQUENCE, content)?;
    let all = encode(alloc, SEQUENCE, &extension)?;
    encode(alloc, EXTENSIONS_TAG, &all)
}

/// The list of the leaf's numbers.
fn leaf_numbers(alloc: Global) -> Result<Vec<u8>, Memory>
    ensures text { IfOk result (λ text. text.items ≡ specs.numbers) }
    ensures short { IfOk result (λ text. length text.items ≤ 40) }
{
    let text = numbers_text(alloc)?;
    Ok(text)
}

/// Its text.
#[tactic(auto, using(crate::proofs::CertificateLaws::numbers_short), unfolding(tn_values::specs::Number::is_number, tn_auth_list::specs::Entry::is_list))]
fn numbers_text(alloc: Global) -> Result<Vec<u8>, Memory>
    ensures { IfOk result (λ text. text.items ≡ specs.numbers) }
{
    let Some(start) = Number::exact(FIRST_NUMBER.as_bytes()) else {
        unreachable!()
    };
    let Some(span) = Span::new(start, NUMBERS_OF_LEAF) else {
        unreachable!()
    };
    let entries = vec![in alloc; Entry::Range(span)]?;
    let Some(list) = AuthList::build(entries) else {
        unreachable!()
    };
    list.write()
}
