//! By what settings calls are judged.
ghost use Rattle.std.specs.Prelude.{◌≤◌};

use tn_values::Local;

/// How long a PASSporT is fresh, and how numbers without `+` are read.
#[derive(Clone, Copy, Debug)]
pub struct Settings {
    /// How many seconds old a PASSporT may be: at most a day.
    pub past: u64,
    /// How many seconds the `iat` of a PASSporT may be ahead: at most a day.
    pub future: u64,
    /// The local numbering.
    pub local: Local,
    ghost past_within: { past ≤ 86400 },
    ghost future_within: { future ≤ 86400 },
}
