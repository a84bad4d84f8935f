//! The certificate of the holder of a key.
ghost use Rattle.std.specs.Prelude.{◌≡◌, ◌≤◌, IfOk, IfErr, is_some, length};
ghost use Rattle.stir_files.specs.Leaf.{LeafOf, refusal_in};
ghost use Rattle.stir_files.specs.Named.{IsRefusal};

use crate::fault::FileFault;
use std::alloc::Global;
use x509_profile::{CertFault, Certificate};

/// The most bytes of a certificate.
pub(crate) const MOST_BYTES: usize = 8192;

/// The certificate that the content is, if it has an authority list; the place of a fault is that of its first broken
/// part.
#[tactic(auto, using(crate::proofs::LeafSteps::broken_at, crate::proofs::LeafSteps::unlisted, crate::proofs::LeafSteps::is_leaf))]
pub(crate) fn read_leaf(alloc: Global, content: &[u8]) -> Result<Certificate, FileFault>
    requires { length content.now ≤ MOST_BYTES }
    ensures read { IfOk result (LeafOf content.now) }
    ensures refused { IfErr result (IsRefusal (refusal_in content.now)) }
{
    match Certificate::read(alloc, content) {
        Ok(certificate) => {
            if has_list(&certificate) {
                Ok(certificate)
            } else {
                Err(FileFault::NoList)
            }
        }
        Err(CertFault::At { place, .. }) => Err(FileFault::Refused {
            place: u64::from(place),
        }),
        Err(CertFault::Memory) => Err(FileFault::Memory),
    }
}

/// Whether the certificate has an authority list.
fn has_list(certificate: &Certificate) -> bool
    ensures { result ≡ is_some certificate.now.list }
{
    match certificate.list() {
        Some(_) => true,
        None => false,
    }
}
