//! The signed part of a certificate (RFC 5280, section 4.1).

ghost use Rattle.std.specs.Prelude.{◌≡◌, ◌≤◌, IfOk, IfErr};
ghost use Rattle.der_reader.specs.Part.{end_of, item_of, part_of};
ghost use Rattle.x509_profile.specs.Fault.{Gives, IsPlacedUpTo};
ghost use Rattle.x509_profile.specs.View.{seen};
ghost use Rattle.x509_profile.specs.Read.{behind_text, point_in, tbs_in};

use crate::contents::{Validity, or_broken, read_validity};
use crate::extensions::KnownExtensions;
use crate::fault::CertFault;
use crate::octets::Octets;
use der_reader::tags::{INTEGER, SEQUENCE};
use der_reader::{Fault, Item, Part};
use std::alloc::Global;
use std::marker::Model;

/// Version 3, by its explicit tag (RFC 5280, section 4.1.2.1).
const VERSION: [u8; 5] = [0xA0, 0x03, 0x02, 0x01, 0x02];

/// The algorithm ecdsa-with-SHA256, without parameters (RFC 5758, section 3.2).
pub(crate) const ALGORITHM: [u8; 12] = [
    0x30, 0x0A, 0x06, 0x08, 0x2A, 0x86, 0x48, 0xCE, 0x3D, 0x04, 0x03, 0x02,
];

/// What comes before the 64 bytes of an uncompressed point of P-256: the algorithm id-ecPublicKey with
/// the curve prime256v1, and the head of a BIT STRING (RFC 5480, sections 2.1.1 and 2.2).
const KEY_FRONT: [u8; 27] = [
    0x30, 0x59, 0x30, 0x13, 0x06, 0x07, 0x2A, 0x86, 0x48, 0xCE, 0x3D, 0x02, 0x01, 0x06, 0x08, 0x2A,
    0x86, 0x48, 0xCE, 0x3D, 0x03, 0x01, 0x07, 0x03, 0x42, 0x00, 0x04,
];

/// The size of a key's element, in bytes.
const KEY_SIZE: usize = 91;

/// Where the point begins in a key's element, by its byte 04.
const POINT: usize = 26;

/// What a certificate keeps of its signed part.
#[derive(Drop)]
pub(crate) struct TbsCertificate {
    /// The issuer's name, as a whole element.
    pub issuer: Octets,
    pub validity: Validity,
    /// The subject's name, as a whole element.
    pub subject: Octets,
    /// The point of the key.
    pub key: [u8; 65],
    pub extensions: KnownExtensions,
}

impl Model for TbsCertificate {
    ghost use Rattle.x509_profile.specs.View.{TbsView};

    ghost Value = { TbsView };

    ghost view = { λ t. record {
      issuer = t.issuer;
      validity = t.validity;
      subject = t.subject;
      key = t.key;
      extensions = t.extensions;
    } };
}

impl TbsCertificate {
    /// The signed part whose content this part is.
    #[tactic(auto, unfolding(crate::specs::Read::tbs_in))]
    pub fn read(alloc: Global, part: &Part) -> Result<TbsCertificate, CertFault>
        ensures exact { Gives (λ tbs. tbs) result (tbs_in (part_of part.now)) }
        ensures place { IsPlacedUpTo (end_of part.now) result }
    {
        let serial_at = behind_text(part, &VERSION, CertFault::VERSION)?;
        let serial = serial_at.element(INTEGER)?;
        let issuer_at = behind_text(&serial.behind, &ALGORITHM, CertFault::ALGORITHM)?;
        let issuer = issuer_at.element(SEQUENCE)?;
        let validity = issuer.behind.item()?;
        let times = or_broken(
            read_validity(validity.der.whole),
            validity.fault(CertFault::TIME),
        )?;
        let subject = validity.behind.element(SEQUENCE)?;
        let key = subject.behind.item()?;
        let point = read_point(&key)?;
        let extensions = KnownExtensions::read(alloc, &key.behind)?;
        let issuer = Octets::copy(alloc, issuer.der.whole)?;
        let subject = Octets::copy(alloc, subject.der.whole)?;
        Ok(TbsCertificate {
            issuer,
            validity: times,
            subject,
            key: point,
            extensions,
        })
    }
}

/// What comes after the first element, which has to be this text. Another element is a fault of this kind where it
/// begins.
#[tactic(auto, unfolding(crate::specs::Read::behind_text))]
pub(crate) fn behind_text<'a>(part: &Part<'a>, text: &[u8], kind: u8) -> Result<Part<'a>, Fault>
    ensures exact { seen part_of result ≡ behind_text text.now kind (part_of part.now) }
    ensures end { IfOk result (λ behind. end_of behind ≡ end_of part.now) }
    ensures place { IfErr result (λ fault. fault.place ≤ end_of part.now) }
{
    let item = part.item()?;
    if item.der.whole == text {
        Ok(item.behind)
    } else {
        Err(item.fault(kind))
    }
}

/// The point of a key. Another element is `KEY` where it begins.
fn read_point(item: &Item) -> Result<[u8; 65], Fault>
    ensures exact { result ≡ point_in (item_of item.now) }
    ensures place { IfErr result (λ fault. fault.place ≤ item.now.place) }
{
    let text = item.der.whole;
    if text.len() != KEY_SIZE || !text.starts_with(&KEY_FRONT) {
        return Err(item.fault(CertFault::KEY));
    }
    let (_front, bytes) = text.split_at(POINT);
    let mut point = [0; 65];
    point.copy_from_slice(bytes);
    Ok(point)
}
