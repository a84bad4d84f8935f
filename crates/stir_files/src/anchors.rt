//! The trust anchors.
ghost use Rattle.std.specs.Prelude.{◌≤◌, IfOk, IfErr, length};
ghost use Rattle.delegation.specs.Anchors.{anchors_in};
ghost use Rattle.stir_files.specs.Named.{AnchorsOf, IsRefusal, refusal_of};

use crate::fault::FileFault;
use delegation::{AnchorFault, Anchors};
use std::alloc::Global;

/// The most bytes of a file of trust anchors.
pub(crate) const MOST_BYTES: usize = 2_097_152;

/// The trust anchors that the content is; the place of a fault is the offset of the first that is no anchor.
#[tactic(auto, using(crate::proofs::FileSteps::place_at))]
pub(crate) fn read_anchors(alloc: Global, content: &[u8]) -> Result<Anchors, FileFault>
    requires { length content.now ≤ MOST_BYTES }
    ensures read { IfOk result (AnchorsOf content.now) }
    ensures refused { IfErr result (IsRefusal (refusal_of (anchors_in content.now))) }
{
    match Anchors::read(alloc, content) {
        Ok(anchors) => Ok(anchors),
        Err(AnchorFault::At { place }) => Err(FileFault::Refused {
            place: u64::from(place),
        }),
        Err(AnchorFault::Memory) => Err(FileFault::Memory),
    }
}
