//! Laws. A function here does nothing: its clause is the law.
ghost use Rattle.drill.specs.Alike.{OneSummary};

use crate::count_laws::summary_law;
use verify_rules::same_world_law;

/// Rounds of the same calls that are legal in worlds in which the same is said, with no call set aside, have one
/// summary, on however many workers they were judged: which of the calls with one ticket is the valid one doesn't
/// change a count.
pub fn rounds_law()
    ensures { OneSummary }
{
    summary_law();
    same_world_law();
}
