//! How the calls of a log are judged.
ghost use Rattle.std.specs.Prelude.{◌≤◌};

use crate::order::Judging;

/// How the calls of a log are judged: by what, and on how many workers.
#[derive(Clone, Copy, Debug)]
pub struct Verifying<'a> {
    /// The files and the settings.
    pub judging: Judging<'a>,
    /// The name of the file with the state of an earlier run, if the log goes on from one.
    pub state: Option<&'a str>,
    /// How many workers there are: 1 to 8.
    pub workers: u64,
    ghost some: { 1 ≤ workers },
    ghost few: { workers ≤ 8 },
}
