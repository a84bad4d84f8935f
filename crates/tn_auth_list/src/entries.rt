//! The entries of an authority list.
ghost use Rattle.std.specs.Prelude.{◌≡◌, not};
ghost use Rattle.std.specs.List.{list_all};
ghost use Rattle.tn_auth_list.specs.Entry.{is_range_of_one};

use crate::codes::Code;
use tn_values::{Number, Span};

/// The most entries of a list.
pub(crate) const MOST: usize = 1_000;

/// What an authority list names (`TNEntry` of RFC 8226, section 9).
#[derive(Clone, Copy, Debug, PartialEq, Eq, Hash)]
pub enum Entry {
    /// The numbers of a service provider, by its code.
    Code(Code),
    /// A range of numbers.
    Range(Span),
    /// One number.
    Single(Number),
}

impl Entry {
    /// The tags of a code, a range and a number: `[0]`, `[1]` and `[2]` (X.690, section 8.1.2).
    pub(crate) const CODE_TAG: u8 = 0xA0;

    pub(crate) const RANGE_TAG: u8 = 0xA1;

    pub(crate) const SINGLE_TAG: u8 = 0xA2;

    /// Whether the entry is a range of a single number.
    fn is_range_of_one(&self) -> bool
        ensures { result ≡ is_range_of_one self.now }
    {
        match self {
            Entry::Range(span) => span.size() == 1,
            Entry::Code(_) | Entry::Single(_) => false,
        }
    }
}

/// Whether none of the entries is a range of a single number.
pub(crate) fn have_no_range_of_one(entries: &[Entry]) -> bool
    ensures { result ≡ list_all (λ entry. not (is_range_of_one entry)) entries.now }
{
    entries.iter().all(|entry| !entry.is_range_of_one())
}
