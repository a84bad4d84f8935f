//! A call as it is drawn.
ghost use Rattle.std.specs.Prelude.{◌≡◌, ◌≤◌, ◌<◌};
ghost use Rattle.stir_drill.specs.Message.{moment_of};

use crate::change::Change;

/// When the drill begins, in Unix seconds.
const START: u64 = 1_443_208_345;

/// How many calls come in a second.
const CALLS_A_SECOND: u64 = 16;

/// A call as it is drawn.
#[derive(Clone, Copy)]
pub(crate) struct Drawn {
    /// Its number, the first being 1.
    pub(crate) number: u64,
    /// How it differs from one that is valid.
    pub(crate) change: Change,
    /// The last four digits of its calling number.
    pub(crate) line: u64,
}

impl Drawn {
    /// When it comes, in Unix seconds.
    pub(crate) fn moment(self) -> u64
        ensures value { result ≡ moment_of self.number }
        ensures late { 61 ≤ result }
    {
        START + self.number / CALLS_A_SECOND
    }
}
