//! The files of `retarget`: the four of `verify`, and the certificate of the holder of the key.
ghost use Rattle.std.specs.Prelude.{◌≡◌, ◌+◌, ◌≤◌, IfOk, IfErr};
ghost use Rattle.stir_outside.specs.Files.{CountsGoOn};
ghost use Rattle.stir_files.specs.Named.{CausedBy, StopsAt};
ghost use Rattle.stir_files.specs.Retargeting.{RetargetingOf, retargeting_files};
ghost use Rattle.stir_files.specs.Stop.{Truly, stop_of};
ghost use Rattle.stir_words.specs.Seen.{retargeting_view};

use crate::input_file::InputFile;
use crate::inputs::{Inputs, read_files};
use crate::materials::Materials;
use crate::stop::FileError;
use std::alloc::Global;
use stir_outside::{OneThread, Shelf};
use stir_words::Retargeting;
use x509_profile::Certificate;

/// By what a call is judged, and who signs its diversion: what the five files say.
#[derive(Drop)]
pub struct RetargetingMaterials {
    /// By what the call is judged.
    pub judging: Materials,
    /// The certificate of the holder of the key, which has an authority list.
    pub leaf: Certificate,
}

/// Reads the five files in the order chains, anchors, table, answers, leaf, and tries each by its grammar, the
/// certificate's list too, before the next is read.
///
/// Their limits are those of `verify` and `sign`. The first event in this order decides: a file is missing, too long,
/// can't be read, or is outside its grammar, or the certificate has no list.
#[tactic(auto, using(crate::proofs::FirstFault::truly_same, crate::proofs::FirstFault::truly_stopped))]
pub fn read_retargeting<'a, S: Shelf>(
    alloc: Global,
    shelf: &mut S,
    words: &Retargeting<'a>,
) -> Result<RetargetingMaterials, FileError<'a>>
    ensures same { S.files shelf.new ≡ S.files shelf.old }
    ensures go_on { CountsGoOn (S.counts shelf.old) (S.counts shelf.new) }
    // What was read is what the files say; else those before one have no fault, and of that one this is said.
    ensures read { IfOk result (RetargetingOf (S.files shelf.old) (retargeting_view words.now)) }
    ensures stopped { IfErr result
        (λ stop. StopsAt (S.files shelf.old) (retargeting_files (retargeting_view words.now)) (stop_of stop)) }
    ensures cause { IfErr result (λ stop. CausedBy (S.counts shelf.old) (S.counts shelf.new) stop.fault) }
    // If the shelf tells its files, the answer is their first fault, or none; a read that fails and running out of
    // memory are the outside's.
    ensures truly { Truly (S.files shelf.old) (retargeting_files (retargeting_view words.now)) result }
    // Each file is read once at most.
    ensures reads { (S.counts shelf.new).reads ≤ (S.counts shelf.old).reads + 5 }
{
    let named = [
        InputFile::Chains(words.judging.chains),
        InputFile::Anchors(words.judging.anchors),
        InputFile::Table(words.judging.table),
        InputFile::Answers(words.judging.answers),
        InputFile::Leaf(words.leaf),
    ];
    let Inputs {
        chains,
        anchors,
        table,
        answers,
        leaf,
        ..
    } = read_files(alloc, shelf, &OneThread, &named)?;
    Ok(RetargetingMaterials {
        judging: Materials::of(chains, anchors, table, answers),
        leaf: leaf.unwrap(),
    })
}
