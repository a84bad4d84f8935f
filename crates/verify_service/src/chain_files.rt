//! Reading the chain files of a round's texts from the shelf, each once.
ghost use Rattle.std.specs.Prelude.{◌≡◌, ◌≤◌, ◌+◌, length, vec_len, filter, IfOk};
ghost use Rattle.stir_outside.specs.Files.{tries};
ghost use Rattle.stir_outside.specs.Stays.{ShelfStays};
ghost use Rattle.call_judging.specs.Fetched.{IsContent, IsFetched, bytes_in, is_read_file, is_unread_file};
ghost use Rattle.verify_service.specs.Causes.{AreCounted};
ghost use Rattle.verify_service.specs.Judging.{EachPair};

use crate::texts::Texts;
use call_judging::{Fetched, fetch};
use cert_store::World;
use std::alloc::{AllocError, Global};
use stir_outside::Shelf;

/// Reads the file of each text once, in the order of the texts. `AllocError` is the only error.
pub(crate) fn fetch_all<S: Shelf>(
    alloc: Global,
    world: &World,
    shelf: &mut S,
    texts: &Texts,
) -> Result<Vec<Fetched>, AllocError>
    ensures counted { IfOk result (λ files. vec_len files ≡ length texts.now) }
    ensures fetched { IfOk result (λ files. EachPair (IsFetched (S.files shelf.old) world.now) texts.now files.items) }
    ensures contents { IfOk result (λ files.
        EachPair (λ x5u file. IsContent (S.files shelf.old) world.now x5u (bytes_in file)) texts.now files.items) }

    // At most as many files couldn't be read as faults were counted. No more were read than there are bytes of; nor
    // than there are texts, also if memory ran out; and no file was asked for twice, whatever came of it.
    ensures unread { IfOk result
        (λ files. AreCounted is_unread_file files.items (S.counts shelf.old).faults (S.counts shelf.new).faults) }
    ensures rose { IfOk result
        (λ files. AreCounted is_read_file files.items (S.counts shelf.old).reads (S.counts shelf.new).reads) }
    ensures read { IfOk result
        (λ files. (S.counts shelf.new).reads ≤ (S.counts shelf.old).reads + length (filter is_read_file files.items)) }
    ensures reads { (S.counts shelf.new).reads ≤ (S.counts shelf.old).reads + length texts.now }
    ensures tries { tries (S.counts shelf.new) ≤ tries (S.counts shelf.old) + length texts.now }

    ensures shelf { ShelfStays S.Shelf shelf.old shelf.new }
{
    let mut files = Vec::new(alloc);
    'texts: for index in 0..texts.count() {
        let file = fetch(alloc, world, shelf, texts.text(index))?;
        files.push(file)?;
    }
    Ok(files)
}
