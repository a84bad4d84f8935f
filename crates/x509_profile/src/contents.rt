//! What is within a part of a certificate (RFC 5280, sections 4.1 and 4.2.1). Whoever calls a reader says which fault
//! it is, and where, if a content isn't of its form.

ghost use Rattle.std.specs.Prelude.{◌≡◌, ◌≤◌, length, IfOk, IfErr};
ghost use Rattle.std.specs.Option.{option_map};
ghost use Rattle.der_reader.specs.Elem.{element_of};
ghost use Rattle.der_reader.specs.Part.{or_broken};
ghost use Rattle.x509_profile.specs.Contents.{authority_of, basic_of, extension_of, extension_read, subject_key_of};
ghost use Rattle.x509_profile.specs.Contents.{usage_of, validity_of};
ghost use Rattle.x509_profile.specs.Fault.{Gives, IsPlacedUpTo};
ghost use Rattle.x509_profile.specs.View.{seen};

use crate::fault::CertFault;
use crate::octets::Octets;
use der_reader::tags::{BIT_STRING, BOOLEAN, INTEGER, OBJECT_IDENTIFIER, OCTET_STRING, SEQUENCE};
use der_reader::{Der, DerFault, Fault};
use std::alloc::Global;
use std::marker::Model;

/// The tag of the key identifier in an authority key identifier, [0].
const KEY_IDENTIFIER: u8 = 0x80;

/// What is read; any fault in it becomes this one.
pub(crate) fn or_broken<T: Drop>(said: Result<T, DerFault>, broken: Fault) -> Result<T, Fault>
    ensures exact { result ≡ or_broken said broken }
    ensures fault { IfErr result (λ fault. fault ≡ broken) }
{
    match said {
        Ok(value) => Ok(value),
        Err(_) => Err(broken),
    }
}

/// The first and the last second at which a certificate is valid, in Unix time.
#[derive(Clone, Copy, Debug)]
pub(crate) struct Validity {
    pub not_before: i64,
    pub not_after: i64,
}

impl Model for Validity {
    ghost use Rattle.x509_profile.specs.View.{ValidityView};

    ghost Value = { ValidityView };

    ghost view = { λ v. record { not_before = v.not_before; not_after = v.not_after } };

    ghost inverse = { λ v. record { not_before = v.not_before; not_after = v.not_after } };
}

/// The validity that an element is: a SEQUENCE of two times (RFC 5280, section 4.1.2.5).
#[tactic(auto, unfolding(crate::specs::Contents::validity_of))]
pub(crate) fn read_validity(text: &[u8]) -> Result<Validity, DerFault>
    ensures { result ≡ validity_of text.now }
{
    let (first, second) = Der::pair(text)?;
    let not_before = first.time()?;
    let not_after = second.time()?;
    Ok(Validity {
        not_before,
        not_after,
    })
}

/// The basic constraints (RFC 5280, section 4.2.1.9).
#[derive(Clone, Copy)]
pub(crate) struct BasicConstraints {
    /// Whether the key may sign certificates.
    pub is_ca: bool,
    /// How many certificates may come between this one and the leaf.
    pub path_length: Option<u64>,
}

impl Model for BasicConstraints {
    ghost use Rattle.x509_profile.specs.View.{BasicView};

    ghost Value = { BasicView };

    ghost view = { λ b. record { is_ca = b.is_ca; path_length = b.path_length } };

    ghost inverse = { λ b. record { is_ca = b.is_ca; path_length = b.path_length } };
}

/// The basic constraints that a content is: a SEQUENCE of a BOOLEAN and an INTEGER, either of which may be absent.
#[tactic(auto, unfolding(crate::specs::Contents::basic_of))]
pub(crate) fn read_basic(value: &[u8]) -> Result<BasicConstraints, DerFault>
    ensures { result ≡ basic_of value.now }
{
    let sequence = Der::sole(value, SEQUENCE)?;
    let (flag, rest) = Der::optional(sequence.content, BOOLEAN)?;
    let (limit, behind) = Der::optional(rest, INTEGER)?;
    let is_ca = Der::flag(flag)?;
    let path_length = Der::limit(limit)?;
    if behind.is_empty() {
        Ok(BasicConstraints { is_ca, path_length })
    } else {
        Err(DerFault::value())
    }
}

/// The key usages: a BIT STRING of at most 16 bits, whose bit 0 is digitalSignature and whose bit 5 is
/// keyCertSign (RFC 5280, section 4.2.1.3).
#[tactic(auto, unfolding(crate::specs::Contents::usage_of))]
pub(crate) fn read_usage(value: &[u8]) -> Result<u16, DerFault>
    ensures { result ≡ usage_of value.now }
{
    let string = Der::sole(value, BIT_STRING)?;
    string.flags()
}

/// The subject key identifier: the content of an OCTET STRING (RFC 5280, section 4.2.1.2).
#[tactic(auto, unfolding(crate::specs::Contents::subject_key_of))]
pub(crate) fn read_subject_key(
    alloc: Global,
    value: &[u8],
    broken: Fault,
) -> Result<Octets, CertFault>
    ensures exact { Gives (λ key. key) result (or_broken (subject_key_of value.now) broken) }
    ensures place { IsPlacedUpTo broken.place result }
{
    let string = or_broken(Der::sole(value, OCTET_STRING), broken)?;
    Ok(Octets::copy(alloc, string.content)?)
}

/// The identifier of the issuer's key in an authority key identifier, if it has one: a SEQUENCE, of which what follows
/// its first element is passed over (RFC 5280, section 4.2.1.1).
#[tactic(auto, unfolding(crate::specs::Contents::authority_of))]
pub(crate) fn read_authority(
    alloc: Global,
    value: &[u8],
    broken: Fault,
) -> Result<Option<Octets>, CertFault>
    ensures exact { Gives (λ key. key) result (or_broken (authority_of value.now) broken) }
    ensures place { IsPlacedUpTo broken.place result }
{
    let sequence = or_broken(Der::sole(value, SEQUENCE), broken)?;
    let (first, _passed_over) = or_broken(Der::optional(sequence.content, KEY_IDENTIFIER), broken)?;
    match first {
        Some(first) => Ok(Some(Octets::copy(alloc, first.content)?)),
        None => Ok(None),
    }
}

/// An extension.
#[derive(Clone, Copy)]
pub(crate) struct Extension<'a> {
    /// The content of its OID.
    pub oid: &'a [u8],
    /// Whether whoever doesn't know it has to refuse the certificate.
    pub critical: bool,
    /// The OCTET STRING of its content.
    pub octets: Der<'a>,
}

/// The extension that an element is: a SEQUENCE of an OID, a BOOLEAN that may be absent, and an
/// OCTET STRING (RFC 5280, section 4.1).
#[tactic(auto, unfolding(crate::specs::Contents::extension_of))]
pub(crate) fn read_extension(text: &[u8]) -> Result<Extension<'_>, DerFault>
    ensures exact { seen extension_read result ≡ extension_of text.now }
    ensures within { IfOk result (λ extension. length extension.octets.whole.now ≤ length text.now) }
{
    let sequence = Der::sole(text, SEQUENCE)?;
    let (oid, rest) = Der::next(sequence.content)?;
    let (flag, rest) = Der::optional(rest, BOOLEAN)?;
    let critical = Der::flag(flag)?;
    let octets = Der::sole(rest, OCTET_STRING)?;
    if oid.tag == OBJECT_IDENTIFIER {
        Ok(Extension {
            oid: oid.content,
            critical,
            octets,
        })
    } else {
        Err(DerFault::value())
    }
}
