//! The entries of a set, in order.
ghost use Rattle.std.specs.List.{slice_index_or};
ghost use Rattle.std.specs.Prelude.{◌≡◌, ◌+◌, ◌<◌, ◌≤◌, ◌↔◌, ℕ, List, length, IfOk};
ghost use Rattle.tn_values.specs.Merged.{IsMerged};
ghost use Rattle.tn_values.specs.NumberSet.{SetHolds, part_count, set_of};
ghost use Rattle.tn_values.specs.Sides.{side_of_single, side_of_span, sides};

use crate::Memory;
use crate::alphabet::are_digits;
use crate::merging::{merged, others, sorted, with_ranks};
use crate::numbers::Number;
use crate::places::rank_of;
use crate::spans::Span;
use crate::steps::Steps;
use std::cmp::Ordering;
use std::marker::Model;
use std::sync::ledger::Ledger;

/// Where a number is, as seen from an entry of a set.
#[derive(Clone, Copy, Debug, PartialEq, Eq)]
pub enum Side {
    /// Before the entry, and before all later ones.
    Before,
    /// The entry holds it.
    Within,
    /// After the entry, and after all earlier ones.
    After,
}

/// The entries of a set: spans, and after them the single numbers that aren't of digits alone.
///
/// The spans are sorted by length and then by start. No two of one length overlap or touch, and none passes the last
/// number of its length; a number of digits alone is a span of size 1. The singles are sorted by their bytes, and each
/// comes once. A contract sees the spans and the singles as two lists.
#[derive(Debug, Drop)]
pub struct Sorted {
    spans: Vec<Span>,
    singles: Vec<Number>,
}

impl Model for Sorted {
    ghost use Rattle.tn_values.specs.Merged.{IsMerged};
    ghost use Rattle.tn_values.specs.NumberSet.{SetView, set_of};

    ghost Value = { SetView };

    ghost view = { λ s. set_of s.spans.items s.singles.items };

    ghost invariant = { λ s. IsMerged (set_of s.spans.items s.singles.items) };
}

impl Sorted {
    /// The entries for all numbers of the spans and all `numbers`.
    pub fn of(spans: Vec<Span>, numbers: Vec<Number>) -> Result<Sorted, Memory>
        ensures holds { IfOk result (λ set. (n : List ℕ)
            → SetHolds set n ↔ SetHolds (set_of spans.items numbers.items) n) }
        ensures few { IfOk result (λ set. part_count set ≤ length spans.items + length numbers.items) }
    {
        let alloc = *spans.allocator();
        let all = sorted(with_ranks(alloc, &spans, &numbers)?);
        Ok(Sorted {
            spans: merged(alloc, &all)?,
            singles: others(numbers),
        })
    }

    /// How many entries there are.
    pub fn len(&self) -> usize
        ensures { result ≡ part_count self.now }
    {
        self.spans.len() + self.singles.len()
    }

    /// How many of them are spans; these come first.
    pub fn span_count(&self) -> usize
        ensures { result ≡ length self.now.spans }
    {
        self.spans.len()
    }

    /// The spans.
    pub fn spans(&self) -> &[Span]
        ensures { result.now ≡ self.now.spans }
    {
        &self.spans
    }

    /// The singles.
    pub fn singles(&self) -> &[Number]
        ensures { result.now ≡ self.now.singles }
    {
        &self.singles
    }

    /// Where the number is, as seen from entry `i`, counted from 0. It is one step.
    pub fn probe<L: Ledger>(&self, i: usize, number: &Number, steps: &mut Steps<L>) -> Side
        requires { i < part_count self.now }
        ensures side { result ≡ slice_index_or (sides self.now number.now) i result }
        ensures steps { steps.new ≡ steps.old + 1 }
    {
        steps.tick();
        let spans = self.spans.len();
        if i < spans {
            side_of_span(number, &self.spans[i])
        } else {
            side_of_single(number, &self.singles[i - spans])
        }
    }

    /// What is always so of the entries.
    pub(crate) fn is_merged(&self)
        ensures { IsMerged self.now }
    {
        let _ = &self.spans;
    }
}

/// Where a number is, as seen from a span.
fn side_of_span(number: &Number, span: &Span) -> Side
    ensures { result ≡ side_of_span number.now span.now }
{
    let Some(rank) = rank_of(number) else {
        return Side::After;
    };
    if rank < span.rank() {
        Side::Before
    } else if rank < span.rank_behind() {
        Side::Within
    } else {
        Side::After
    }
}

/// Where a number is, as seen from a single that isn't of digits alone.
fn side_of_single(number: &Number, single: &Number) -> Side
    ensures { result ≡ side_of_single number.now single.now }
{
    if are_digits(number.bytes()) {
        return Side::Before;
    }
    match number.cmp(single) {
        Ordering::Less => Side::Before,
        Ordering::Equal => Side::Within,
        Ordering::Greater => Side::After,
    }
}
