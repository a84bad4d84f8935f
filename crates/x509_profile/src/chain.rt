//! Certificates one after another, as a chain file has them.
ghost use Rattle.std.specs.Prelude.{◌≡◌, ◌≤◌, ℕ, List, length, IfOk, Ok};
ghost use Rattle.x509_profile.specs.Chain.{Chain, EndsWhereRefused, GivesChain, certificates_in, front};
ghost use Rattle.x509_profile.specs.Fault.{Gives};
ghost use Rattle.x509_profile.specs.View.{CertView};

use crate::certificate::Certificate;
use crate::fault::CertFault;
use der_reader::Der;
use std::alloc::{AllocError, AllocFailed, Global};
use std::error::Error;
use std::fmt;

/// How many certificates a chain may have.
const MOST_CERTIFICATES: usize = 6;

/// The most bytes of a chain: six certificates of 8,192 (this project's own limit).
pub const MOST_CHAIN_BYTES: usize = 49_152;

/// Why bytes aren't read as a chain of certificates.
#[derive(Clone, Copy, Debug, PartialEq, Eq)]
pub enum CertChainFault {
    /// The first certificate that is refused, or a seventh one.
    At {
        /// Which certificate it is, from 1, the leaf's; at most 7.
        number: u8,
        /// The offset, in bytes from the chain's first one, at which it begins.
        place: usize,
    },
    /// Memory ran out, and nothing is said of the bytes.
    Memory,
}

impl From<AllocError> for CertChainFault {
    ghost use Rattle.std.specs.Prelude.{◌≡◌};
    ghost use Rattle.x509_profile.specs.declared.chain.CertChainFault.TheVariants.{Memory};

    ghost from_gives = { λ _ fault. fault ≡ Memory };

    fn from(_refused: AllocError) -> CertChainFault {
        CertChainFault::Memory
    }
}

impl<T: Drop> From<AllocFailed<T>> for CertChainFault {
    ghost use Rattle.std.specs.Prelude.{◌≡◌};
    ghost use Rattle.x509_profile.specs.declared.chain.CertChainFault.TheVariants.{Memory};

    ghost from_gives = { λ _ fault. fault ≡ Memory };

    fn from(_refused: AllocFailed<T>) -> CertChainFault {
        CertChainFault::Memory
    }
}

impl fmt::Display for CertChainFault {
    fn fmt<W: fmt::Write>(&self, f: &mut fmt::Formatter<W>) -> fmt::Result {
        match self {
            CertChainFault::At { number, place } => {
                write!(
                    f,
                    "certificate {number}, at byte {place}, is none of the chain"
                )
            }
            CertChainFault::Memory => f.write_str("out of memory"),
        }
    }
}

impl Error for CertChainFault {}

/// The certificates that the bytes are, one after another without anything between, the leaf's first: at most six.
///
/// That a chain is so written, and that it has at most six certificates, is this project's own rule. The fault is the
/// first certificate that isn't one of the profile, or a seventh. No bytes are no certificates.
#[tactic(auto, using(crate::proofs::ChainLaws::chain_again, crate::proofs::ChainLaws::chain_found, crate::proofs::ChainLaws::answer_ends))]
pub fn read_chain(alloc: Global, bytes: &[u8]) -> Result<Vec<Certificate>, CertChainFault>
    // The certificates, or which is refused and where.
    ensures exact { GivesChain (λ certificates. certificates.items) result (certificates_in bytes.now) }

    // An answer is the chain that the bytes are, and the one that they are is the answer.
    ensures found { IfOk result (λ certificates. Chain bytes.now certificates.items) }
    ensures only { (chain : List CertView) → Chain bytes.now chain
        → GivesChain (λ certificates. certificates.items) result (Ok chain) }

    // The bytes are one chain at most.
    ensures unique { (a b : List CertView) → Chain bytes.now a → Chain bytes.now b → a ≡ b }

    // What is refused comes after as many whole certificates as the bytes begin with, of at most six.
    ensures place { EndsWhereRefused bytes.now result }
{
    certificates_of(alloc, bytes)
}

/// The certificates that the bytes are, or the first that is refused.
#[tactic(auto, using(crate::proofs::ChainLaws::one_more, crate::proofs::ChainLaws::none_more), unfolding(crate::specs::Chain::certificates_in))]
fn certificates_of(alloc: Global, bytes: &[u8]) -> Result<Vec<Certificate>, CertChainFault>
    ensures { GivesChain (λ certificates. certificates.items) result (certificates_in bytes.now) }
{
    let mut certificates = Vec::new(alloc);
    let mut left = bytes;
    for _ in 0..MOST_CERTIFICATES {
        match read_front(alloc, left) {
            Ok((certificate, behind)) => {
                certificates.push(certificate)?;
                left = behind;
            }
            Err(CertFault::At { .. }) => break,
            Err(CertFault::Memory) => return Err(CertChainFault::Memory),
        }
    }
    if left.is_empty() {
        return Ok(certificates);
    }
    Err(CertChainFault::At {
        number: certificates.len() as u8 + 1,
        place: bytes.len() - left.len(),
    })
}

/// The certificate that the first element is, and the bytes after it.
#[tactic(auto, unfolding(crate::specs::Chain::front, der_reader::specs::Part::item_at))]
fn read_front(alloc: Global, bytes: &[u8]) -> Result<(Certificate, &[u8]), CertFault>
    ensures exact { Gives (λ found. (found.0, found.1.now)) result (front bytes.now) }
    ensures shorter { IfOk result (λ found. length found.1.now ≤ length bytes.now) }
{
    match Der::next(bytes) {
        Ok((element, behind)) => Ok((Certificate::read(alloc, element.whole)?, behind)),
        Err(fault) => Err(CertFault::At {
            kind: CertFault::DER,
            place: fault.place,
        }),
    }
}
