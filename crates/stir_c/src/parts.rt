//! The parts of the certificates of a chain.
ghost use Rattle.std.specs.Option.{option_map};
ghost use Rattle.std.specs.Prelude.{◌≡◌, IfOk};
ghost use Rattle.stir_c.specs.ChainParts.{ChainPartIs, part_of};

use crate::writing::Text;
use chain_lines::{Part, certificate_part};
use std::alloc::{AllocError, Global};
use x509_profile::{CertChainFault, read_chain};

/// A part of the certificate of this number, counted from 1, of those that the bytes are one after another. `None` if
/// there is no such certificate, no part of this number, or nothing of this part in it. `AllocError` is the only error.
#[tactic(auto, using(crate::proofs::PartLaws::no_part, crate::proofs::PartLaws::no_number, crate::proofs::PartLaws::no_certificate, crate::proofs::PartLaws::nothing, crate::proofs::PartLaws::something))]
pub(crate) fn chain_part(
    alloc: Global,
    chain: &[u8],
    number: u32,
    part: u32,
) -> Result<Option<Text>, AllocError>
    ensures { IfOk result (λ found. ChainPartIs chain.now number part (option_map (λ text. text.bytes.items) found)) }
{
    let Some(part) = part_of(part) else {
        return Ok(None);
    };
    if number == 0 {
        return Ok(None);
    }
    let certificates = match read_chain(alloc, chain) {
        Ok(certificates) => certificates,
        Err(CertChainFault::At { .. }) => return Ok(None),
        Err(CertChainFault::Memory) => return Err(AllocError),
    };
    let Some(certificate) = certificates.get(number as usize - 1) else {
        return Ok(None);
    };
    match certificate_part(alloc, certificate, part) {
        Ok(Some(bytes)) => Ok(Some(Text { bytes })),
        Ok(None) => Ok(None),
        Err(refused) => Err(refused),
    }
}

/// The part of this number.
fn part_of(number: u32) -> Option<Part>
    ensures { result ≡ part_of number }
{
    match number {
        1 => Some(Part::Serial),
        2 => Some(Part::Subject),
        3 => Some(Part::Issuer),
        4 => Some(Part::Codes),
        5 => Some(Part::Digest),
        6 => Some(Part::NotBefore),
        7 => Some(Part::NotAfter),
        8 => Some(Part::Revocation),
        _ => None,
    }
}
