//! The four files of `verify`.
ghost use Rattle.std.specs.Prelude.{◌≡◌, ◌+◌, ◌≤◌, IfOk, IfErr, IsTrue, Some, is_some};
ghost use Rattle.stir_outside.specs.Files.{CountsGoOn};
ghost use Rattle.stir_files.specs.Materials.{MaterialsOf, files_of};
ghost use Rattle.stir_files.specs.Named.{CausedBy, StopsAt};
ghost use Rattle.stir_files.specs.Stop.{Truly, stop_of};
ghost use Rattle.stir_words.specs.Seen.{judging_view};

use crate::input_file::InputFile;
use crate::inputs::{Inputs, read_files};
use crate::stop::FileError;
use cert_store::{ChainMap, World};
use delegation::Anchors;
use std::alloc::Global;
use stir_outside::{Answers, AnswersReader, Shelf};
use stir_words::Judging;
use tn_auth_list::CodeTable;

/// What calls are judged by: what the four files say.
#[derive(Drop)]
pub struct Materials {
    /// The chain map, the trust anchors and the code table.
    pub world: World,
    /// The signatures that are good, and those that were made.
    pub answers: Answers,
}

impl Materials {
    /// These, of which each was read.
    pub(crate) fn of(
        chains: Option<ChainMap>,
        anchors: Option<Anchors>,
        table: Option<CodeTable>,
        answers: Option<Answers>,
    ) -> Materials
        requires chains { IsTrue (is_some chains) }
        requires anchors { IsTrue (is_some anchors) }
        requires table { IsTrue (is_some table) }
        requires answers { IsTrue (is_some answers) }
        ensures chains { chains ≡ Some result.world.chains }
        ensures anchors { anchors ≡ Some result.world.anchors }
        ensures table { table ≡ Some result.world.table }
        ensures answers { answers ≡ Some result.answers }
    {
        Materials {
            world: World {
                chains: chains.unwrap(),
                anchors: anchors.unwrap(),
                table: table.unwrap(),
            },
            answers: answers.unwrap(),
        }
    }
}

/// Reads the four files in the order chains, anchors, table, answers, and tries each by its grammar before the next is
/// read.
///
/// The chain map and the table have at most 16,777,216 bytes, the anchors 2,097,152 and the answers 67,108,864. The
/// first event in this order decides: a file is missing, too long, can't be read, or is outside its grammar.
#[tactic(auto, using(crate::proofs::FirstFault::truly_same, crate::proofs::FirstFault::truly_stopped))]
pub fn read_materials<'a, S: Shelf, B: AnswersReader>(
    alloc: Global,
    shelf: &mut S,
    by: &B,
    judging: &Judging<'a>,
) -> Result<Materials, FileError<'a>>
    requires { B.ready by.now }
    ensures same { S.files shelf.new ≡ S.files shelf.old }
    ensures go_on { CountsGoOn (S.counts shelf.old) (S.counts shelf.new) }
    // What was read is what the files say; else those before one have no fault, and of that one this is said.
    ensures read { IfOk result (MaterialsOf (S.files shelf.old) (judging_view judging.now)) }
    ensures stopped { IfErr result
        (λ stop. StopsAt (S.files shelf.old) (files_of (judging_view judging.now)) (stop_of stop)) }
    ensures cause { IfErr result (λ stop. CausedBy (S.counts shelf.old) (S.counts shelf.new) stop.fault) }
    // If the shelf tells its files, the answer is their first fault, or none; a read that fails and running out of
    // memory are the outside's.
    ensures truly { Truly (S.files shelf.old) (files_of (judging_view judging.now)) result }
    // Each file is read once at most.
    ensures reads { (S.counts shelf.new).reads ≤ (S.counts shelf.old).reads + 4 }
{
    let named = [
        InputFile::Chains(judging.chains),
        InputFile::Anchors(judging.anchors),
        InputFile::Table(judging.table),
        InputFile::Answers(judging.answers),
    ];
    let Inputs {
        chains,
        anchors,
        table,
        answers,
        ..
    } = read_files(alloc, shelf, by, &named)?;
    Ok(Materials::of(chains, anchors, table, answers))
}
