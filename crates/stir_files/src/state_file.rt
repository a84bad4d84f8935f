//! The name of a state file.
ghost use Rattle.std.specs.Prelude.{◌≤◌};

/// A file with the state of an earlier run, and the window by which it has to judge.
#[derive(Clone, Copy, Debug)]
pub struct StateFile<'a> {
    /// Its name, as it was given.
    pub name: &'a str,
    /// How many seconds old a PASSporT may be: at most a day.
    pub window: u64,
    ghost within: { window ≤ 86400 },
}
