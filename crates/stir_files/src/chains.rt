//! The chain map.
ghost use Rattle.std.specs.Prelude.{◌≤◌, IfOk, IfErr, length};
ghost use Rattle.cert_store.specs.ChainMap.{MapOf, map_rows};
ghost use Rattle.stir_files.specs.Named.{IsRefusal, refusal_of};

use crate::fault::FileFault;
use cert_store::{ChainMap, MapFault};
use std::alloc::Global;

/// The most bytes of a chain map.
pub(crate) const MOST_BYTES: usize = 16_777_216;

/// The chain map that the content is; the place of a fault is the first bad line.
#[tactic(auto, using(crate::proofs::FileSteps::place_at))]
pub(crate) fn read_chains(alloc: Global, content: &[u8]) -> Result<ChainMap, FileFault>
    requires { length content.now ≤ MOST_BYTES }
    ensures read { IfOk result (MapOf content.now) }
    ensures refused { IfErr result (IsRefusal (refusal_of (map_rows content.now))) }
{
    match ChainMap::read(alloc, content) {
        Ok(map) => Ok(map),
        Err(MapFault::Line { line }) => Err(FileFault::Refused {
            place: u64::from(line),
        }),
        Err(MapFault::Memory) => Err(FileFault::Memory),
    }
}
