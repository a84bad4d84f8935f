//! The status with which the program ends.
ghost use Rattle.std.specs.Prelude.{◌≡◌, ◌≤◌};
ghost use Rattle.stir_outside.specs.Status.{status_number};

/// How the program ends.
#[derive(Clone, Copy, Debug, PartialEq, Eq)]
pub enum Status {
    /// The command is done, and all calls are valid or hold all rules.
    Done,
    /// The report is whole and some call isn't valid, or a call wasn't signed.
    NotAllValid,
    /// The words are refused.
    Words,
    /// The input or a named file couldn't be read.
    Read,
    /// The output couldn't be written.
    Write,
    /// A named file is missing or too long, or a file or the input is outside its grammar.
    Input,
    /// Memory ran out.
    Memory,
}

impl Status {
    /// The number that the system is given, 0 to 6.
    pub fn number(self) -> u8
        ensures exact { result ≡ status_number self }
        ensures most { result ≤ 6 }
    {
        match self {
            Status::Done => 0,
            Status::NotAllValid => 1,
            Status::Words => 2,
            Status::Read => 3,
            Status::Write => 4,
            Status::Input => 5,
            Status::Memory => 6,
        }
    }
}
