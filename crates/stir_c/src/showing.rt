//! What the certificates of a chain say.
ghost use Rattle.std.specs.Prelude.{IfErr, IfOk};
ghost use Rattle.stir_c.specs.Showing.{IsShown, IsWhyUnshown};

use crate::writing::Text;
use chain_lines::lines_of_chain;
use std::alloc::Global;
use x509_profile::{CertChainFault, read_chain};

/// Why nothing is shown.
#[derive(Clone, Copy)]
pub(crate) enum Unshown {
    /// The bytes are no chain of certificates.
    Certificate,
    /// Memory ran out.
    Memory,
}

/// The lines of the certificates of a chain, or the fault that the bytes are none.
pub(crate) fn show(alloc: Global, chain: &[u8]) -> Result<Text, Unshown>
    ensures shown { IfOk result (λ text. IsShown chain.now text.bytes.items) }
    ensures fault { IfErr result (IsWhyUnshown chain.now) }
{
    match read_chain(alloc, chain) {
        Ok(certificates) => match lines_of_chain(alloc, certificates.as_slice()) {
            Ok(lines) => Ok(Text {
                bytes: lines.into_bytes(),
            }),
            Err(_) => Err(Unshown::Memory),
        },
        Err(fault) => match fault {
            CertChainFault::At { .. } => Err(Unshown::Certificate),
            CertChainFault::Memory => Err(Unshown::Memory),
        },
    }
}
