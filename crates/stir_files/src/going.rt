//! The files of `verify` for a log that goes on from the state of an earlier run.
ghost use Rattle.std.specs.Prelude.{◌≡◌, ◌+◌, ◌≤◌, IfOk, IfErr};
ghost use Rattle.stir_outside.specs.Files.{CountsGoOn};
ghost use Rattle.stir_files.specs.Going.{GoingOf, going_files};
ghost use Rattle.stir_files.specs.Named.{CausedBy, StopsAt};
ghost use Rattle.stir_files.specs.Stop.{Truly, stop_of};
ghost use Rattle.stir_words.specs.Seen.{judging_view};

use crate::input_file::InputFile;
use crate::inputs::{Inputs, read_files};
use crate::materials::Materials;
use crate::state_file::StateFile;
use crate::stop::FileError;
use state_text::State;
use std::alloc::Global;
use stir_outside::{AnswersReader, Shelf};
use stir_words::Judging;

/// What the calls of a log that goes on are judged by: what the four files say, and the state of an earlier run.
#[derive(Drop)]
pub struct GoingMaterials {
    /// What the four files say.
    pub judging: Materials,
    /// The state, whose window is `past` of the words.
    pub state: State,
}

/// Reads the four files as [`read_materials`](crate::read_materials) does, and then the state file of this name, which
/// has at most 536,870,912 bytes.
///
/// A state with a window other than `past` of the words is refused at the line of the window, if the whole file is in
/// its grammar. The first event in the order of reading decides.
#[tactic(auto, using(crate::proofs::FirstFault::truly_same, crate::proofs::FirstFault::truly_stopped))]
pub fn read_going<'a, S: Shelf, B: AnswersReader>(
    alloc: Global,
    shelf: &mut S,
    by: &B,
    judging: &Judging<'a>,
    state: &'a str,
) -> Result<GoingMaterials, FileError<'a>>
    requires { B.ready by.now }
    ensures same { S.files shelf.new ≡ S.files shelf.old }
    ensures go_on { CountsGoOn (S.counts shelf.old) (S.counts shelf.new) }
    // What was read is what the files say; else those before one have no fault, and of that one this is said.
    ensures read { IfOk result (GoingOf (S.files shelf.old) (judging_view judging.now) state.now) }
    ensures stopped { IfErr result
        (λ stop. StopsAt (S.files shelf.old) (going_files (judging_view judging.now) state.now) (stop_of stop)) }
    ensures cause { IfErr result (λ stop. CausedBy (S.counts shelf.old) (S.counts shelf.new) stop.fault) }
    // If the shelf tells its files, the answer is their first fault, or none; a read that fails and running out of
    // memory are the outside's.
    ensures truly { Truly (S.files shelf.old) (going_files (judging_view judging.now) state.now) result }
    // Each file is read once at most.
    ensures reads { (S.counts shelf.new).reads ≤ (S.counts shelf.old).reads + 5 }
{
    let named = [
        InputFile::Chains(judging.chains),
        InputFile::Anchors(judging.anchors),
        InputFile::Table(judging.table),
        InputFile::Answers(judging.answers),
        InputFile::State(StateFile {
            name: state,
            window: judging.settings.past,
        }),
    ];
    let Inputs {
        chains,
        anchors,
        table,
        answers,
        state,
        ..
    } = read_files(alloc, shelf, by, &named)?;
    Ok(GoingMaterials {
        judging: Materials::of(chains, anchors, table, answers),
        state: state.unwrap(),
    })
}
