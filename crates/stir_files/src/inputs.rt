//! What is read from the files that a command names.
ghost use Rattle.std.specs.Prelude.{◌≡◌, ◌+◌, ◌≤◌, IfOk, IfErr, IsTrue, length};
ghost use Rattle.stir_outside.specs.Files.{CountsGoOn};
ghost use Rattle.stir_files.specs.Inputs.{Adds, Holds, IsOfThese, TakesIn, all_differ, file_of, files_named, no_inputs};
ghost use Rattle.stir_files.specs.Named.{CausedBy, FaultSays, IsRefusal, StopsAt};
ghost use Rattle.stir_files.specs.Stop.{Truly, stop_of};

use crate::anchors::read_anchors;
use crate::answers::read_answers;
use crate::chains::read_chains;
use crate::fault::FileFault;
use crate::input_file::InputFile;
use crate::leaf::read_leaf;
use crate::shelf::read_file;
use crate::state::read_state;
use crate::stop::FileError;
use crate::table::read_table;
use cert_store::ChainMap;
use delegation::Anchors;
use state_text::State;
use std::alloc::Global;
use stir_outside::{Answers, AnswersReader, Shelf};
use tn_auth_list::CodeTable;
use x509_profile::Certificate;

/// What was read from named files, each if one of its kind was named.
#[derive(Drop)]
pub struct Inputs {
    /// Which file has the chain of which x5u.
    pub chains: Option<ChainMap>,
    /// The trust anchors.
    pub anchors: Option<Anchors>,
    /// Which numbers a service provider code stands for.
    pub table: Option<CodeTable>,
    /// The answers of the provider of signatures.
    pub answers: Option<Answers>,
    /// The certificate of the holder of a key, which has an authority list.
    pub leaf: Option<Certificate>,
    /// The state of an earlier run.
    pub state: Option<State>,
}

impl Inputs {
    /// Nothing was read.
    fn none() -> Inputs
        ensures { result ≡ no_inputs }
    {
        Inputs {
            chains: None,
            anchors: None,
            table: None,
            answers: None,
            leaf: None,
            state: None,
        }
    }
}

/// Reads the files in the order of the list. No two of them are to hold the same. Each is read within its limit and
/// tried by its grammar before the next is read.
///
/// The first event in this order decides: a file is missing, too long, can't be read, or is outside its grammar.
pub fn read_files<'a, S: Shelf, B: AnswersReader>(
    alloc: Global,
    shelf: &mut S,
    by: &B,
    named: &[InputFile<'a>],
) -> Result<Inputs, FileError<'a>>
    requires differ { IsTrue (all_differ named.now) }
    requires ready { B.ready by.now }
    ensures same { S.files shelf.new ≡ S.files shelf.old }
    ensures go_on { CountsGoOn (S.counts shelf.old) (S.counts shelf.new) }
    // What was read is what the files say; else those before one have no fault, and of that one this is said.
    ensures read { IfOk result (Holds (S.files shelf.old) named.now) }
    ensures only { IfOk result (IsOfThese named.now) }
    ensures stopped { IfErr result (λ stop. StopsAt (S.files shelf.old) (files_named named.now) (stop_of stop)) }
    ensures cause { IfErr result (λ stop. CausedBy (S.counts shelf.old) (S.counts shelf.new) stop.fault) }
    // If the shelf tells its files, the answer is their first fault, or none; a read that fails and running out of
    // memory are the outside's.
    ensures truly { Truly (S.files shelf.old) (files_named named.now) result }
    // Each file is read once at most.
    ensures reads { (S.counts shelf.new).reads ≤ (S.counts shelf.old).reads + length named.now }
{
    let mut inputs = Inputs::none();
    for file in named {
        match read_next(alloc, shelf, by, *file, &mut inputs) {
            Ok(()) => {}
            Err(fault) => {
                return Err(FileError {
                    name: file.name(),
                    fault,
                });
            }
        }
    }
    Ok(inputs)
}

/// Reads a file within its limit, and keeps what it says.
#[tactic(auto, using(crate::proofs::FileSteps::shelf_says, crate::proofs::FileSteps::refused_so, crate::proofs::FileSteps::refused_caused))]
fn read_next<S: Shelf, B: AnswersReader>(
    alloc: Global,
    shelf: &mut S,
    by: &B,
    file: InputFile<'_>,
    inputs: &mut Inputs,
) -> Result<(), FileFault>
    requires { B.ready by.now }
    ensures same { S.files shelf.new ≡ S.files shelf.old }
    ensures go_on { CountsGoOn (S.counts shelf.old) (S.counts shelf.new) }
    ensures read { IfOk result (λ done. Adds (S.files shelf.old) file.entry inputs.old inputs.new) }
    ensures fault { IfErr result (FaultSays (S.files shelf.old) (file_of file.entry)) }
    ensures cause { IfErr result (CausedBy (S.counts shelf.old) (S.counts shelf.new)) }
    ensures reads { (S.counts shelf.new).reads ≤ (S.counts shelf.old).reads + 1 }
{
    let bytes = read_file(alloc, shelf, file.name(), file.limit())?;
    take_in(alloc, by, file, bytes.as_slice(), inputs)
}

/// Tries the content of a file by its grammar, and keeps what it says.
fn take_in<B: AnswersReader>(
    alloc: Global,
    by: &B,
    file: InputFile<'_>,
    content: &[u8],
    inputs: &mut Inputs,
) -> Result<(), FileFault>
    requires ready { B.ready by.now }
    requires short { length content.now ≤ (file_of file).limit }
    ensures read { IfOk result (λ done. TakesIn file.entry content.now inputs.old inputs.new) }
    ensures refused { IfErr result (IsRefusal ((file_of file.entry).refused content.now)) }
{
    match file {
        InputFile::Chains(_) => inputs.chains = Some(read_chains(alloc, content)?),
        InputFile::Anchors(_) => inputs.anchors = Some(read_anchors(alloc, content)?),
        InputFile::Table(_) => inputs.table = Some(read_table(alloc, content)?),
        InputFile::Answers(_) => inputs.answers = Some(read_answers(alloc, content, by)?),
        InputFile::Leaf(_) => inputs.leaf = Some(read_leaf(alloc, content)?),
        InputFile::State(file) => inputs.state = Some(read_state(alloc, content, file.window)?),
    }
    Ok(())
}
