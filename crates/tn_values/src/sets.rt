//! Sets of numbers.
ghost use Rattle.std.specs.Prelude.{◌≡◌, ℕ, ◌+◌, ◌<◌, ◌≤◌, ◌↔◌, false, List, [], Contains, length, IsTrue, IfOk};
ghost use Rattle.std.specs.Prelude.{MatchOption};
ghost use Rattle.tn_values.specs.Number.{is_number};
ghost use Rattle.tn_values.specs.NumberSet.{Gap, IsWithin, OneSpanHolds, Outside, SetHolds, SetView, part_count};
ghost use Rattle.tn_values.specs.NumberSet.{set_of};
ghost use Rattle.tn_values.specs.Sides.{IsPlaceOf};
ghost use Rattle.tn_values.specs.Span.{SpanHolds, SpanView, is_span};
ghost use Rattle.tn_values.specs.Steps.{Spent};

use crate::Memory;
use crate::numbers::Number;
use crate::search::{entry_of, entry_uncounted};
use crate::sorted::Sorted;
use crate::spans::Span;
use crate::steps::Steps;
use std::marker::{Brand, Model};
use std::sync::ledger::{Blank, Ledger};

/// A set of numbers: all of some spans, and single ones.
///
/// A contract sees its spans and its singles as two lists, and `SetHolds` says which numbers they hold.
#[derive(Debug, Drop)]
pub struct NumberSet {
    entries: Sorted,
}

impl Model for NumberSet {
    ghost use Rattle.tn_values.specs.NumberSet.{SetView};

    ghost Value = { SetView };

    ghost view = { λ s. s.entries };
}

impl NumberSet {
    /// The set of all numbers of the spans and all `others`.
    ///
    /// Spans of one length that overlap or touch become one, and so does a number of digits alone with them. `Memory`
    /// comes if there is no memory for the merged spans.
    pub fn build(spans: Vec<Span>, others: Vec<Number>) -> Result<NumberSet, Memory>
        ensures holds { IfOk result
            (λ set. (n : List ℕ) → SetHolds set n ↔ SetHolds (set_of spans.items others.items) n) }
        ensures few { IfOk result (λ set. part_count set ≤ length spans.items + length others.items) }
    {
        Ok(NumberSet {
            entries: Sorted::of(spans, others)?,
        })
    }

    /// The spans, which with [`NumberSet::singles`] hold exactly the numbers of the set.
    pub fn spans(&self) -> &[Span]
        ensures value { result.now ≡ self.now.spans }
        // If all numbers of a span are in the set, one of its spans holds them all.
        ensures one { (span : SpanView) → IsTrue (is_number span.start) → IsTrue (is_span span.start span.size)
            → ((n : List ℕ) → SpanHolds span n → SetHolds self.now n) → OneSpanHolds self.now.spans span }
    {
        self.entries.is_merged();
        self.entries.spans()
    }

    /// The single numbers, which with [`NumberSet::spans`] are exactly the numbers of the set.
    pub fn singles(&self) -> &[Number]
        ensures { result.now ≡ self.now.singles }
    {
        self.entries.singles()
    }

    /// How many spans and single numbers the set has.
    pub fn parts(&self) -> usize
        ensures { result ≡ part_count self.now }
    {
        self.entries.len()
    }

    /// Whether a span or a single holds the number.
    pub fn has(&self, number: &Number) -> bool
        ensures holds { IsTrue result ↔ SetHolds self.now number.now }
        ensures number { IsTrue (is_number number.now) }
    {
        self.has_from::<Brand>(number, Blank::new(1))
    }

    /// The same, and the steps that it takes, each a look at one span or one single. For s steps, 2^s is at most one
    /// more than twice [`NumberSet::parts`].
    pub fn has_counted<L: Ledger>(&self, number: &Number, steps: &mut Steps<L>) -> bool
        ensures holds { IsTrue result ↔ SetHolds self.now number.now }
        ensures steps { Spent steps.old steps.new (part_count self.now) }
    {
        self.entries.is_merged();
        entry_of(&self.entries, number, steps).is_some()
    }

    /// The same, but no step is counted.
    fn has_from<L: Ledger>(&self, number: &Number, blank: Blank) -> bool
        requires name { blank.name ≡ L.name }
        requires parts { blank.parts ≡ L.parts }
        requires some { 0 < blank.parts }
        ensures holds { IsTrue result ↔ SetHolds self.now number.now }
        ensures number { IsTrue (is_number number.now) }
    {
        let mut steps: Steps<L> = Steps::open(blank);
        let _ = number.bytes();
        self.has_counted(number, &mut steps)
    }

    /// Whether every number of this set is in `parent` too. It is one search in the parent for a span or a single.
    pub fn within(&self, parent: &NumberSet) -> bool
        ensures all { IsTrue result → IsWithin self.now parent.now }
        ensures outside { result ≡ false → Outside self.now parent.now }
        // Two sets of the same numbers have the same spans and the same singles.
        ensures same_spans { IsWithin self.now parent.now → IsWithin parent.now self.now
            → self.now.spans ≡ parent.now.spans }
        ensures same_singles { IsWithin self.now parent.now → IsWithin parent.now self.now
            → self.now.singles ≡ parent.now.singles }
    {
        self.entries.is_merged();
        parent.entries.is_merged();
        parent.has_singles(self.singles()) && parent.has_spans(self.spans())
    }

    /// Whether the set has each of these numbers.
    fn has_singles(&self, singles: &[Number]) -> bool
        ensures all { IsTrue result → IsWithin (set_of [] singles.now) self.now }
        ensures outside { result ≡ false → Outside (set_of [] singles.now) self.now }
    {
        for single in singles {
            if !self.has(single) {
                return false;
            }
        }
        true
    }

    /// Whether the set has every number of each of these spans.
    fn has_spans(&self, spans: &[Span]) -> bool
        ensures all { IsTrue result → IsWithin (set_of spans.now []) self.now }
        ensures outside { result ≡ false → Outside (set_of spans.now []) self.now }
    {
        for span in spans {
            if !self.has_span(span) {
                return false;
            }
        }
        true
    }

    /// Whether the set has every number of the span: the one of its spans that holds the first number has them all, or
    /// the number after that span is missing.
    fn has_span(&self, span: &Span) -> bool
        ensures all { IsTrue result → (n : List ℕ) → SpanHolds span.now n → SetHolds self.now n }
        ensures gap { result ≡ false → Gap span.now self.now }
    {
        self.entries.is_merged();
        let behind = span.rank_behind();
        match self.span_with(span) {
            Some(own) => behind <= own.rank_behind(),
            None => false,
        }
    }

    /// The one of the set's spans that holds the first number of another.
    fn span_with(&self, span: &Span) -> Option<Span>
        ensures { MatchOption result (SetHolds self.now span.now.start → ⊥)
            (λ own. Contains self.now.spans own × SpanHolds own span.now.start) }
    {
        match self.place_with(span) {
            Some(place) => Some(self.entries.spans()[place]),
            None => None,
        }
    }

    /// The place of the one of the set's spans that holds the first number of another.
    fn place_with(&self, span: &Span) -> Option<usize>
        ensures { MatchOption result (SetHolds self.now span.now.start → ⊥)
            (λ place. IsPlaceOf self.now span.now.start place) }
    {
        entry_uncounted::<Brand>(&self.entries, &span.start(), Blank::new(1))
    }
}
