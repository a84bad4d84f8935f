//! Sets of the numbers that entries hold.
ghost use Rattle.std.specs.Prelude.{◌≡◌, ◌↔◌, ◌++◌, ℕ, false, List, [], Contains, OnOk, IfOk};
ghost use Rattle.std.specs.Cmp.Lexicographic.{slice_cmp};
ghost use Rattle.std.specs.List.{cons_option, filter_map, fold, list_any};
ghost use Rattle.std.specs.List.Sorted.{IsStrictlySortedBy};
ghost use Rattle.std.specs.Ordering.{nat_cmp};
ghost use Rattle.tn_values.specs.NumberSet.{SetHolds};
ghost use Rattle.tn_auth_list.specs.CodeTable.{SomeOf};
ghost use Rattle.tn_auth_list.specs.Grant.{grant_view};
ghost use Rattle.delegation.specs.Coverage.{Covers, NamesCode, Owns};
ghost use Rattle.delegation.specs.Gathered.{code_in, no_numbers, stands_for_all, with_code, with_held, with_own};
ghost use Rattle.delegation.specs.Gathered.{with_set};

use crate::Memory;
use std::alloc::Global;
use std::marker::Model;
use tn_auth_list::{Code, CodeTable, Entry, Grant};
use tn_values::{Number, NumberSet, Span};

/// The spans and the single numbers so far.
#[derive(Drop)]
struct Gathered {
    spans: Vec<Span>,
    singles: Vec<Number>,
}

impl Model for Gathered {
    ghost use Rattle.tn_values.specs.NumberSet.{SetView};

    ghost Value = { SetView };

    ghost view = { λ g. record { spans = g.spans.items; singles = g.singles.items } };
}

impl Gathered {
    /// No numbers yet.
    fn new(alloc: Global) -> Gathered
        ensures { result ≡ no_numbers }
    {
        Gathered {
            spans: Vec::new(alloc),
            singles: Vec::new(alloc),
        }
    }

    /// Adds the range or the number that the entry is; a code has none of its own.
    fn add_own(&mut self, entry: &Entry) -> Result<(), Memory>
        ensures { OnOk result (self.new ≡ with_own self.old entry.now) }
    {
        match entry {
            Entry::Code(_) => {}
            Entry::Range(span) => self.spans.push(*span)?,
            Entry::Single(number) => self.singles.push(*number)?,
        }
        Ok(())
    }

    /// Adds what a code is granted, if that is a set.
    fn add_granted(&mut self, grant: Grant<'_>) -> Result<(), Memory>
        ensures { OnOk result (self.new ≡ with_held self.old (grant_view grant.entry)) }
    {
        match grant {
            Grant::Nothing | Grant::All => Ok(()),
            Grant::These(set) => self.add_set(set),
        }
    }

    /// Adds the spans and singles of a set.
    fn add_set(&mut self, set: &NumberSet) -> Result<(), Memory>
        ensures { OnOk result (self.new ≡ with_set self.old set.now) }
    {
        self.spans.extend_from_slice(set.spans())?;
        self.singles.extend_from_slice(set.singles())?;
        Ok(())
    }

    /// The set of all that was gathered.
    fn finish(self) -> Result<NumberSet, Memory>
        ensures { IfOk result (λ set. (number : List ℕ) → SetHolds set number ↔ SetHolds self number) }
    {
        NumberSet::build(self.spans, self.singles)
    }
}

/// The numbers that singles and ranges hold.
pub(crate) fn own_numbers(alloc: Global, entries: &[Entry]) -> Result<NumberSet, Memory>
    ensures { IfOk result (λ set. (number : List ℕ) → SetHolds set number ↔ SomeOf (Owns number) entries.now) }
{
    gathered_own(alloc, entries)?.finish()
}

/// The numbers that the entries hold, also by a code, if no code of them has every number. Each code is asked for once,
/// however often it is named.
pub(crate) fn covered_numbers(
    alloc: Global,
    entries: &[Entry],
    table: &CodeTable,
) -> Result<NumberSet, Memory>
    ensures { IfOk result (λ set. list_any (stands_for_all table.now) entries.now ≡ false
        → (number : List ℕ) → SetHolds set number ↔ Covers entries.now table.now number) }
{
    let own = gathered_own(alloc, entries)?;
    let codes = codes_of(alloc, entries)?;
    gathered_codes(own, &codes, table)?.finish()
}

/// The ranges and numbers of the entries.
fn gathered_own(alloc: Global, entries: &[Entry]) -> Result<Gathered, Memory>
    ensures { IfOk result (λ gathered. gathered ≡ fold with_own no_numbers entries.now) }
{
    let mut gathered = Gathered::new(alloc);
    for entry in entries {
        gathered.add_own(entry)?;
    }
    Ok(gathered)
}

/// What was gathered, with what the table grants each code.
fn gathered_codes(own: Gathered, codes: &[Code], table: &CodeTable) -> Result<Gathered, Memory>
    ensures { IfOk result (λ gathered. gathered ≡ fold (with_code table.now) own codes.now) }
{
    let mut gathered = own;
    for code in codes {
        gathered.add_granted(table.numbers(code))?;
    }
    Ok(gathered)
}

/// The codes that the entries name, each once.
fn codes_of(alloc: Global, entries: &[Entry]) -> Result<Vec<Code>, Memory>
    ensures named { IfOk result (λ codes. (code : List ℕ) → Contains codes.items code ↔ NamesCode entries.now code) }
    ensures once { IfOk result (λ codes. IsStrictlySortedBy (slice_cmp nat_cmp) codes.items) }
{
    let mut codes = codes_in(alloc, entries)?;
    codes.sort_unstable();
    codes.dedup();
    Ok(codes)
}

/// The codes that the entries name, in their order.
fn codes_in(alloc: Global, entries: &[Entry]) -> Result<Vec<Code>, Memory>
    ensures { IfOk result (λ codes. codes.items ≡ filter_map code_in entries.now) }
{
    let mut codes = Vec::new(alloc);
    for entry in entries {
        put_code(&mut codes, entry)?;
    }
    Ok(codes)
}

/// Puts an entry's code, if it is one, after the others.
fn put_code(codes: &mut Vec<Code>, entry: &Entry) -> Result<(), Memory>
    ensures { OnOk result (codes.new.items ≡ codes.old.items ++ cons_option (code_in entry.now) []) }
{
    match entry {
        Entry::Code(code) => codes.push(*code)?,
        Entry::Range(_) | Entry::Single(_) => {}
    }
    Ok(())
}
