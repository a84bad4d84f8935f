//! What the key of a certificate may be used for (RFC 5280, sections 4.2.1.3 and 4.2.1.9).

ghost use Rattle.std.specs.Prelude.{◌≡◌};
ghost use Rattle.delegation.specs.Usage.{allows, may_certify, may_sign};

use x509_profile::Certificate;

/// Bit 0 of the key usages: the key signs other things than certificates and revocation lists.
const DIGITAL_SIGNATURE: u16 = 0x0001;

/// Bit 5 of the key usages: the key signs certificates.
const KEY_CERT_SIGN: u16 = 0x0020;

/// Whether the key may sign a call's tokens: it has digitalSignature if it has key usages.
pub(crate) fn may_sign(certificate: &Certificate) -> bool
    ensures { result ≡ may_sign certificate.now }
{
    allows(certificate.usage(), DIGITAL_SIGNATURE)
}

/// Whether the key may sign certificates: it is a certificate authority's, and it has keyCertSign if it
/// has key usages.
pub(crate) fn may_certify(certificate: &Certificate) -> bool
    ensures { result ≡ may_certify certificate.now }
{
    if certificate.is_ca() {
        allows(certificate.usage(), KEY_CERT_SIGN)
    } else {
        false
    }
}

/// Whether the usage is among the key usages, if there are any.
fn allows(usages: Option<u16>, usage: u16) -> bool
    ensures { result ≡ allows usages usage }
{
    match usages {
        Some(usages) => usages & usage == usage,
        None => true,
    }
}
