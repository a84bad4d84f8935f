//! The search among the entries of a set. It looks at them by `probe` alone.
ghost use Rattle.std.specs.Prelude.{◌≡◌, ◌-◌, ◌<◌, ◌≤◌};
ghost use Rattle.tn_values.specs.NumberSet.{part_count};
ghost use Rattle.tn_values.specs.Sides.{IsEntryOf, IsFoundIn, sides};
ghost use Rattle.tn_values.specs.Steps.{Spent};

use crate::alphabet::are_digits;
use crate::numbers::Number;
use crate::sorted::{Side, Sorted};
use crate::steps::Steps;
use std::sync::ledger::{Blank, Ledger};

/// The entry that holds the number, by halving: one of digits alone is looked for among the spans, any other among the
/// singles.
pub(crate) fn entry_of<L: Ledger>(
    set: &Sorted,
    number: &Number,
    steps: &mut Steps<L>,
) -> Option<usize>
    ensures entry { IsEntryOf set.now number.now result }
    ensures steps { Spent steps.old steps.new (part_count set.now) }
{
    set.is_merged();
    if are_digits(number.bytes()) {
        find(set, number, 0, set.span_count(), steps)
    } else {
        find(set, number, set.span_count(), set.len(), steps)
    }
}

/// The same, but no step is counted.
pub(crate) fn entry_uncounted<L: Ledger>(
    set: &Sorted,
    number: &Number,
    blank: Blank,
) -> Option<usize>
    requires name { blank.name ≡ L.name }
    requires parts { blank.parts ≡ L.parts }
    requires some { 0 < blank.parts }
    ensures { IsEntryOf set.now number.now result }
{
    let mut steps: Steps<L> = Steps::open(blank);
    entry_of(set, number, &mut steps)
}

/// The entry from `first` on and before `behind` that holds the number.
fn find<L: Ledger>(
    set: &Sorted,
    number: &Number,
    first: usize,
    behind: usize,
    steps: &mut Steps<L>,
) -> Option<usize>
    requires range { first ≤ behind }
    requires inside { behind ≤ part_count set.now }
    ensures found { IsFoundIn (sides set.now number.now) first behind result }
    ensures steps { Spent steps.old steps.new (behind - first) }
{
    set.is_merged();
    let mut low = first;
    let mut high = behind;
    while low < high {
        let middle = low + (high - low) / 2;
        match set.probe(middle, number, steps) {
            Side::Before => high = middle,
            Side::Within => return Some(middle),
            Side::After => low = middle + 1,
        }
    }
    None
}
