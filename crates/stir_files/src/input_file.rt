//! The files that a command may name.
ghost use Rattle.std.specs.Prelude.{◌≡◌};
ghost use Rattle.stir_files.specs.Inputs.{file_of};

use crate::state_file::StateFile;
use crate::{anchors, answers, chains, leaf, state, table};

/// A file that a command names, and what it is to hold.
#[derive(Clone, Copy, Debug)]
pub enum InputFile<'a> {
    /// A chain map, of at most 16,777,216 bytes.
    Chains(&'a str),
    /// Trust anchors, of at most 2,097,152 bytes.
    Anchors(&'a str),
    /// A code table, of at most 16,777,216 bytes.
    Table(&'a str),
    /// The answers of the provider of signatures, of at most 67,108,864 bytes.
    Answers(&'a str),
    /// One certificate with an authority list, of at most 8,192 bytes.
    Leaf(&'a str),
    /// The state of an earlier run, of at most 536,870,912 bytes.
    State(StateFile<'a>),
}

impl<'a> InputFile<'a> {
    /// Its name, as it was given.
    pub fn name(self) -> &'a str
        ensures { result.now ≡ (file_of self.entry).name }
    {
        match self {
            InputFile::Chains(name)
            | InputFile::Anchors(name)
            | InputFile::Table(name)
            | InputFile::Answers(name)
            | InputFile::Leaf(name) => name,
            InputFile::State(file) => file.name,
        }
    }

    /// The most bytes that it may have.
    pub fn limit(self) -> usize
        ensures { result ≡ (file_of self.entry).limit }
    {
        match self {
            InputFile::Chains(_) => chains::MOST_BYTES,
            InputFile::Anchors(_) => anchors::MOST_BYTES,
            InputFile::Table(_) => table::MOST_BYTES,
            InputFile::Answers(_) => answers::MOST_BYTES,
            InputFile::Leaf(_) => leaf::MOST_BYTES,
            InputFile::State(_) => state::MOST_BYTES,
        }
    }
}
