//! Authorities, and which lies within another.
ghost use Rattle.std.specs.Prelude.{◌≡◌, ◌↔◌, ℕ, List, Option, IsTrue, IfOk};
ghost use Rattle.std.specs.List.{list_any};
ghost use Rattle.tn_values.specs.Number.{is_number};
ghost use Rattle.tn_auth_list.specs.declared.entries.Entry.{Entry};
ghost use Rattle.tn_auth_list.specs.Grant.{grant_view};
ghost use Rattle.delegation.specs.Coverage.{CoveredBy, ListWithin, Within, entries_of};
ghost use Rattle.delegation.specs.Decided.{is_within};
ghost use Rattle.delegation.specs.Gathered.{has_code_of, has_codes_of, is_all, is_code, names_code, stands_for_all};

use crate::Memory;
use crate::gathering::{covered_numbers, own_numbers};
use std::alloc::Global;
use tn_auth_list::{AuthList, Code, CodeTable, Entry, Grant};

/// What a certificate's holder may speak for. A certificate without an authority list has `All`.
#[derive(Clone, Copy, Debug)]
pub enum Authority<'a> {
    /// Every number.
    All,
    /// The numbers of a list.
    List(&'a AuthList),
}

/// Whether the child lies within the parent (RFC 9060).
///
/// Everything lies within `All`, and `All` within no list. A list lies within another if this names each of its codes
/// and covers every number that its singles and ranges hold, whichever entries it does so by. That codes are compared
/// by name, and not by their numbers, is this project's own rule. `Memory` comes if there is none for the sets of
/// numbers.
pub fn within(
    alloc: Global,
    child: &Authority<'_>,
    parent: &Authority<'_>,
    table: &CodeTable,
) -> Result<bool, Memory>
    ensures exact { IfOk result
        (λ answer. answer ≡ is_within (entries_of child.now) (entries_of parent.now) table.now) }
    ensures within { IfOk result (λ answer. IsTrue answer
        ↔ Within (entries_of child.now) (entries_of parent.now) table.now) }

    // The test that gives the answer decides lying within.
    ensures decides { IsTrue (is_within (entries_of child.now) (entries_of parent.now) table.now)
        ↔ Within (entries_of child.now) (entries_of parent.now) table.now }

    // Laws of lying within: each authority lies within itself, and one that lies within what lies within a third lies
    // within this.
    ensures itself { Within (entries_of child.now) (entries_of child.now) table.now }
    ensures chained { (above : Option (List Entry)) → Within (entries_of child.now) (entries_of parent.now) table.now
        → Within (entries_of parent.now) above table.now → Within (entries_of child.now) above table.now }

    // What the child covers its parent covers.
    ensures kept { Within (entries_of child.now) (entries_of parent.now) table.now → (number : List ℕ)
        → IsTrue (is_number number) → CoveredBy (entries_of child.now) table.now number
        → CoveredBy (entries_of parent.now) table.now number }
{
    match (child, parent) {
        (_, Authority::All) => Ok(true),
        (Authority::All, Authority::List(_)) => Ok(false),
        (Authority::List(child), Authority::List(parent)) => {
            list_within(alloc, child.entries(), parent.entries(), table)
        }
    }
}

/// Whether the list of a certificate lies within that of its issuer.
fn list_within(
    alloc: Global,
    child: &[Entry],
    parent: &[Entry],
    table: &CodeTable,
) -> Result<bool, Memory>
    ensures { IfOk result (λ answer. IsTrue answer ↔ ListWithin child.now parent.now table.now) }
{
    if !has_codes_of(parent, child) {
        return Ok(false);
    }
    if some_stands_for_all(parent, table) {
        return Ok(true);
    }
    let own = own_numbers(alloc, child)?;
    let covered = covered_numbers(alloc, parent, table)?;
    Ok(own.within(&covered))
}

/// Whether each code of the child is one of the parent.
fn has_codes_of(parent: &[Entry], child: &[Entry]) -> bool
    ensures { result ≡ has_codes_of parent.now child.now }
{
    child.iter().all(|entry| has_code_of(parent, entry))
}

/// Whether the entry is a code of the parent, or no code.
fn has_code_of(parent: &[Entry], entry: &Entry) -> bool
    ensures { result ≡ has_code_of parent.now entry.now }
{
    match entry {
        Entry::Code(code) => names_code(parent, code),
        Entry::Range(_) | Entry::Single(_) => true,
    }
}

/// Whether the entries name the code.
fn names_code(entries: &[Entry], code: &Code) -> bool
    ensures { result ≡ names_code entries.now code.now }
{
    entries.iter().any(|entry| is_code(entry, code))
}

/// Whether the entry is this code.
fn is_code(entry: &Entry, code: &Code) -> bool
    ensures { result ≡ is_code code.now entry.now }
{
    match entry {
        Entry::Code(own) => own == code,
        Entry::Range(_) | Entry::Single(_) => false,
    }
}

/// Whether the table has every number for some code of the list.
fn some_stands_for_all(entries: &[Entry], table: &CodeTable) -> bool
    ensures { result ≡ list_any (stands_for_all table.now) entries.now }
{
    entries.iter().any(|entry| stands_for_all(entry, table))
}

/// Whether the entry is a code for which the table has every number.
fn stands_for_all(entry: &Entry, table: &CodeTable) -> bool
    ensures { result ≡ stands_for_all table.now entry.now }
{
    match entry {
        Entry::Code(code) => is_all(table.numbers(code)),
        Entry::Range(_) | Entry::Single(_) => false,
    }
}

/// Whether the grant is of every number.
fn is_all(grant: Grant<'_>) -> bool
    ensures { result ≡ is_all (grant_view grant.entry) }
{
    matches!(grant, Grant::All)
}
