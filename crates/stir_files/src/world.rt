//! The three files of `ask`, which are the first three of `verify` and `explain`.
ghost use Rattle.std.specs.Prelude.{◌≡◌, ◌+◌, ◌≤◌, IfOk, IfErr};
ghost use Rattle.stir_outside.specs.Files.{CountsGoOn};
ghost use Rattle.stir_files.specs.World.{WorldOf, world_files};
ghost use Rattle.stir_files.specs.Named.{CausedBy, StopsAt};
ghost use Rattle.stir_files.specs.Stop.{Truly, stop_of};
ghost use Rattle.stir_words.specs.Seen.{asking_view};

use crate::input_file::InputFile;
use crate::inputs::{Inputs, read_files};
use crate::stop::FileError;
use cert_store::World;
use std::alloc::Global;
use stir_outside::{OneThread, Shelf};
use stir_words::Asking;

/// Reads the three files in the order chains, anchors, table, and tries each by its grammar before the next is read.
///
/// The chain map and the table have at most 16,777,216 bytes, and the anchors 2,097,152. The first event in this order
/// decides: a file is missing, too long, can't be read, or is outside its grammar.
#[tactic(auto, using(crate::proofs::FirstFault::truly_same, crate::proofs::FirstFault::truly_stopped))]
pub fn read_world<'a, S: Shelf>(
    alloc: Global,
    shelf: &mut S,
    asking: &Asking<'a>,
) -> Result<World, FileError<'a>>
    ensures same { S.files shelf.new ≡ S.files shelf.old }
    ensures go_on { CountsGoOn (S.counts shelf.old) (S.counts shelf.new) }
    // What was read is what the files say; else those before one have no fault, and of that one this is said.
    ensures read { IfOk result (WorldOf (S.files shelf.old) (asking_view asking.now)) }
    ensures stopped { IfErr result
        (λ stop. StopsAt (S.files shelf.old) (world_files (asking_view asking.now)) (stop_of stop)) }
    ensures cause { IfErr result (λ stop. CausedBy (S.counts shelf.old) (S.counts shelf.new) stop.fault) }
    // If the shelf tells its files, the answer is their first fault, or none; a read that fails and running out of
    // memory are the outside's.
    ensures truly { Truly (S.files shelf.old) (world_files (asking_view asking.now)) result }
    // Each file is read once at most.
    ensures reads { (S.counts shelf.new).reads ≤ (S.counts shelf.old).reads + 3 }
{
    let named = [
        InputFile::Chains(asking.chains),
        InputFile::Anchors(asking.anchors),
        InputFile::Table(asking.table),
    ];
    let Inputs {
        chains,
        anchors,
        table,
        ..
    } = read_files(alloc, shelf, &OneThread, &named)?;
    Ok(World {
        chains: chains.unwrap(),
        anchors: anchors.unwrap(),
        table: table.unwrap(),
    })
}
