//! A certificate's signature (RFC 5280, section 4.1.1.3, RFC 5480 appendix A).

ghost use Rattle.std.specs.Prelude.{◌≡◌, ◌≤◌, ◌++◌, IfErr};
ghost use Rattle.der_reader.specs.Part.{end_of, part_of};
ghost use Rattle.x509_profile.specs.Contents.{signature_of};
ghost use Rattle.x509_profile.specs.Read.{signature_in};

use crate::contents::or_broken;
use crate::fault::CertFault;
use der_reader::tags::BIT_STRING;
use der_reader::{Der, DerFault, Fault, Part};

/// The two numbers of the signature, which is the last part. Another element is `SIGNATURE` where it
/// begins, and bytes after it are `DER`.
#[tactic(auto, unfolding(crate::specs::Read::signature_in))]
pub(crate) fn read_signature(part: &Part) -> Result<[u8; 64], Fault>
    ensures exact { result ≡ signature_in (part_of part.now) }
    ensures place { IfErr result (λ fault. fault.place ≤ end_of part.now) }
{
    let item = part.item()?;
    let numbers = or_broken(numbers(item.der.whole), item.fault(CertFault::SIGNATURE))?;
    item.behind.end(numbers)
}

/// The two numbers of a signature, 32 bytes each, the highest byte first.
#[tactic(auto, unfolding(crate::specs::Contents::signature_of))]
fn numbers(text: &[u8]) -> Result<[u8; 64], DerFault>
    ensures { result ≡ signature_of text.now }
{
    let string = Der::sole(text, BIT_STRING)?;
    let bits = string.bits()?;
    let (first, second) = Der::pair(bits)?;
    let r = first.scalar()?;
    let s = second.scalar()?;
    Ok(joined(r, s))
}

/// The bytes of the first and then those of the second.
fn joined(r: [u8; 32], s: [u8; 32]) -> [u8; 64]
    ensures { result ≡ r ++ s }
{
    let mut bytes = [0; 64];
    let (front, back) = bytes.split_at_mut(32);
    front.copy_from_slice(&r);
    back.copy_from_slice(&s);
    bytes
}
