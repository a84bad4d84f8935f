//! The files of `sign` and `divert`.
ghost use Rattle.std.specs.Prelude.{◌≡◌, ◌+◌, ◌≤◌, length, IfOk, IfErr};
ghost use Rattle.std.specs.Option.{option_map};
ghost use Rattle.stir_outside.specs.Files.{CountsGoOn};
ghost use Rattle.stir_files.specs.Named.{CausedBy, StopsAt};
ghost use Rattle.stir_files.specs.Signing.{SigningOf, signing_files};
ghost use Rattle.stir_files.specs.Stop.{Truly, stop_of};
ghost use Rattle.stir_words.specs.Seen.{holder_view};

use crate::input_file::InputFile;
use crate::inputs::{Inputs, read_files};
use crate::stop::FileError;
use std::alloc::Global;
use stir_outside::{Answers, OneThread, Shelf};
use stir_words::HolderFiles;
use tn_auth_list::CodeTable;
use x509_profile::Certificate;

/// For whom the service signs: the certificate of the holder of the key, and what the codes of its list stand for.
#[derive(Drop)]
pub struct HolderMaterials {
    /// The certificate, which has an authority list.
    pub leaf: Certificate,
    /// Which numbers a service provider code stands for.
    pub table: CodeTable,
}

/// What a signature takes besides the key: what the files say.
#[derive(Drop)]
pub struct SigningMaterials {
    /// The signatures that were made.
    pub answers: Answers,
    /// The holder of the key, if one is named.
    pub holder: Option<HolderMaterials>,
}

/// Reads the answers, and then, if a holder is named, its certificate and the code table; each is tried by its grammar,
/// the certificate's list too, before the next is read.
///
/// The answers have at most 67,108,864 bytes, the certificate 8,192 and the table 16,777,216. The first event in this
/// order decides: a file is missing, too long, can't be read, or is outside its grammar, or the certificate has no
/// list.
#[tactic(auto, using(crate::proofs::FirstFault::truly_same, crate::proofs::FirstFault::truly_stopped))]
pub fn read_signing<'a, S: Shelf>(
    alloc: Global,
    shelf: &mut S,
    answers: &'a str,
    holder: Option<HolderFiles<'a>>,
) -> Result<SigningMaterials, FileError<'a>>
    ensures same { S.files shelf.new ≡ S.files shelf.old }
    ensures go_on { CountsGoOn (S.counts shelf.old) (S.counts shelf.new) }
    // What was read is what the files say; else those before one have no fault, and of that one this is said.
    ensures read { IfOk result (SigningOf (S.files shelf.old) answers.entry.now (option_map holder_view holder.entry)) }
    ensures stopped { IfErr result (λ stop. StopsAt (S.files shelf.old)
        (signing_files answers.entry.now (option_map holder_view holder.entry)) (stop_of stop)) }
    ensures cause { IfErr result (λ stop. CausedBy (S.counts shelf.old) (S.counts shelf.new) stop.fault) }
    // If the shelf tells its files, the answer is their first fault, or none; a read that fails and running out of
    // memory are the outside's.
    ensures truly { Truly (S.files shelf.old)
        (signing_files answers.entry.now (option_map holder_view holder.entry)) result }
    // Each file is read once at most.
    ensures reads { (S.counts shelf.new).reads ≤ (S.counts shelf.old).reads
        + length (signing_files answers.entry.now (option_map holder_view holder.entry)) }
{
    let Some(names) = holder else {
        let Inputs { answers, .. } = read_files(
            alloc,
            shelf,
            &OneThread,
            &[InputFile::Answers(answers)],
        )?;
        return Ok(SigningMaterials {
            answers: answers.unwrap(),
            holder: None,
        });
    };
    let named = [
        InputFile::Answers(answers),
        InputFile::Leaf(names.leaf),
        InputFile::Table(names.table),
    ];
    let Inputs {
        answers,
        leaf,
        table,
        ..
    } = read_files(alloc, shelf, &OneThread, &named)?;
    Ok(SigningMaterials {
        answers: answers.unwrap(),
        holder: Some(HolderMaterials {
            leaf: leaf.unwrap(),
            table: table.unwrap(),
        }),
    })
}
