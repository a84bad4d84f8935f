//! A file from the shelf.
ghost use Rattle.std.specs.Prelude.{◌≡◌, ◌+◌, ◌≤◌, Some, IfOk, IfErr, OnOk, vec_len};
ghost use Rattle.stir_outside.specs.Count.{Rose};
ghost use Rattle.stir_outside.specs.Files.{CountsGoOn, OfFile};
ghost use Rattle.stir_files.specs.Named.{CausedBy, ShelfSays};

use crate::fault::FileFault;
use std::alloc::Global;
use stir_outside::{Shelf, ShelfFault};

/// The content of the file of that name, if it has at most `limit` bytes.
pub(crate) fn read_file<S: Shelf>(
    alloc: Global,
    shelf: &mut S,
    name: &str,
    limit: usize,
) -> Result<Vec<u8>, FileFault>
    ensures same { S.files shelf.new ≡ S.files shelf.old }
    ensures go_on { CountsGoOn (S.counts shelf.old) (S.counts shelf.new) }
    ensures within { IfOk result (λ bytes. vec_len bytes ≤ limit) }
    ensures found { IfOk result (λ bytes. OfFile (S.files shelf.old) name.now (λ held. held ≡ Some bytes.items)) }
    ensures rose { OnOk result (Rose (S.counts shelf.old).reads (S.counts shelf.new).reads) }
    ensures reads { (S.counts shelf.new).reads ≤ (S.counts shelf.old).reads + 1 }
    ensures fault { IfErr result (ShelfSays (S.files shelf.old) name.now limit) }
    ensures cause { IfErr result (CausedBy (S.counts shelf.old) (S.counts shelf.new)) }
{
    match shelf.read(alloc, name, limit) {
        Ok(bytes) => Ok(bytes),
        Err(ShelfFault::Missing) => Err(FileFault::Missing),
        Err(ShelfFault::Long) => Err(FileFault::Long),
        Err(ShelfFault::Failed) => Err(FileFault::Failed),
        Err(ShelfFault::Memory) => Err(FileFault::Memory),
    }
}
