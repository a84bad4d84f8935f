//! Which numbers a list covers.
ghost use Rattle.std.specs.Prelude.{◌≡◌, ◌↔◌, ℕ, List, IsTrue};
ghost use Rattle.tn_auth_list.specs.Grant.{GrantHolds, TableOf, grant_view};
ghost use Rattle.delegation.specs.Coverage.{Covers, CoversByRows, In};
ghost use Rattle.delegation.specs.Decided.{covers_number};

use tn_auth_list::{AuthList, CodeTable, Entry, Grant};
use tn_values::Number;

/// Whether some entry of the list holds the number (RFC 8226, section 9).
///
/// A single holds the number that equals it, and a range those of its start's length that it reaches. A code holds
/// those that the table has for it, every number if the table says so, and none if the table doesn't name it.
pub fn covers(list: &AuthList, number: &Number, table: &CodeTable) -> bool
    ensures exact { result ≡ covers_number list.now table.now number.now }
    ensures covers { IsTrue result ↔ Covers list.now table.now number.now }

    // The same by the rows of the text from which the table was read.
    ensures rows { (text : List ℕ) (read : TableOf text table.now)
        → IsTrue result ↔ CoversByRows list.now read number.now }
{
    some_holds(list.entries(), number, table)
}

/// Whether some entry holds the number.
fn some_holds(entries: &[Entry], number: &Number, table: &CodeTable) -> bool
    ensures { IsTrue result ↔ Covers entries.now table.now number.now }
{
    for entry in entries {
        if holds(entry, number, table) {
            return true;
        }
    }
    false
}

/// Whether the entry holds the number; a code holds what the table grants it.
fn holds(entry: &Entry, number: &Number, table: &CodeTable) -> bool
    ensures { IsTrue result ↔ In table.now number.now entry.now }
{
    match entry {
        Entry::Code(code) => is_granted(table.numbers(code), number),
        Entry::Range(span) => span.holds(number),
        Entry::Single(own) => own == number,
    }
}

/// Whether the number is among what is granted.
fn is_granted(grant: Grant<'_>, number: &Number) -> bool
    ensures { IsTrue result ↔ GrantHolds (grant_view grant.entry) number.now }
{
    match grant {
        Grant::Nothing => false,
        Grant::All => true,
        Grant::These(set) => set.has(number),
    }
}
