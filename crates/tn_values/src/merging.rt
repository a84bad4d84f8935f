//! Spans and numbers in the order in which a set keeps them.
ghost use Rattle.std.specs.Cmp.Lexicographic.{slice_cmp};
ghost use Rattle.std.specs.List.{All, Contains, filter, filter_map};
ghost use Rattle.std.specs.List.Sorted.{IsNonDecreasingBy, IsPermutation, IsStrictlySortedBy};
ghost use Rattle.std.specs.Ordering.{nat_cmp};
ghost use Rattle.std.specs.Prelude.{◌≡◌, ◌≤◌, ◌++◌, ◌↔◌, ℕ, false, List, IfOk, not, length};
ghost use Rattle.tn_values.specs.Digit.{are_digits};
ghost use Rattle.tn_values.specs.Merged.{IsSpan, merged, rank_of};
ghost use Rattle.tn_values.specs.Span.{span_of};

use crate::Memory;
use crate::alphabet::are_digits;
use crate::numbers::Number;
use crate::spans::Span;
use std::alloc::Global;
use std::marker::Model;

/// A span and the rank of its start, by which spans are sorted. A contract sees the span.
#[derive(Drop)]
pub(crate) struct Ranked {
    span: Span,
    rank: u64,
}

impl Model for Ranked {
    ghost use Rattle.std.specs.Prelude.{◌≡◌};
    ghost use Rattle.tn_values.specs.Merged.{rank_of};
    ghost use Rattle.tn_values.specs.Span.{SpanView};

    ghost Value = { SpanView };

    ghost view = { λ r. r.span };

    ghost invariant = { λ r. r.rank ≡ rank_of r.span.start };
}

impl Ranked {
    /// The span with its rank.
    fn new(span: Span) -> Ranked
        ensures { result ≡ span }
    {
        let rank = span.rank();
        Ranked { span, rank }
    }

    /// The span.
    fn span(&self) -> &Span
        ensures { result.now ≡ self.now }
    {
        &self.span
    }

    /// The rank of its start.
    fn rank(&self) -> u64
        ensures { result ≡ rank_of self.now.start }
    {
        self.rank
    }
}

/// The spans with their ranks, and after them a span of size 1 for each number of digits alone.
pub(crate) fn with_ranks(
    alloc: Global,
    spans: &[Span],
    numbers: &[Number],
) -> Result<Vec<Ranked>, Memory>
    ensures { IfOk result (λ all. all.items ≡ spans.now ++ filter_map (λ number. span_of number 1) numbers.now) }
{
    let mut all = ranked_spans(alloc, spans)?;
    for number in numbers {
        if let Some(span) = Span::new(*number, 1) {
            all.push(Ranked::new(span))?;
        }
    }
    Ok(all)
}

/// The spans with their ranks.
fn ranked_spans(alloc: Global, spans: &[Span]) -> Result<Vec<Ranked>, Memory>
    ensures { IfOk result (λ all. all.items ≡ spans.now) }
{
    let mut all = Vec::new(alloc);
    for span in spans {
        all.push(Ranked::new(*span))?;
    }
    Ok(all)
}

/// The spans in the order of their starts.
pub(crate) fn sorted(spans: Vec<Ranked>) -> Vec<Ranked>
    ensures same { IsPermutation spans.items result.items }
    ensures rises { IsNonDecreasingBy (λ span. rank_of span.start) result.items }
{
    let mut spans = spans;
    spans.sort_unstable_by_key(|span| span.rank());
    spans
}

/// What spans in order come to if each that touches the one before it is joined to it.
pub(crate) fn merged(alloc: Global, spans: &[Ranked]) -> Result<Vec<Span>, Memory>
    ensures value { IfOk result (λ all. all.items ≡ merged spans.now) }
    ensures spans { IfOk result (λ _. All IsSpan spans.now) }
{
    let mut done = Vec::new(alloc);
    let [first, rest @ ..] = spans else {
        return Ok(done);
    };
    let mut current = first.span().clipped();
    'spans: for span in rest {
        if span.rank() <= current.rank_behind() {
            current = current.joined(span.span());
            continue;
        }
        done.push(current)?;
        current = span.span().clipped();
    }
    done.push(current)?;
    Ok(done)
}

/// The numbers that aren't of digits alone, sorted by their bytes, each once.
pub(crate) fn others(numbers: Vec<Number>) -> Vec<Number>
    ensures others { All (λ number. are_digits number ≡ false) result.items }
    ensures order { IsStrictlySortedBy (slice_cmp nat_cmp) result.items }
    ensures same { (number : List ℕ)
        → Contains result.items number ↔ Contains (filter (λ number. not (are_digits number)) numbers.items) number }
    ensures few { length result.items ≤ length (filter (λ number. not (are_digits number)) numbers.items) }
{
    let mut numbers = numbers;
    numbers.retain(|number| !are_digits(number.bytes()));
    numbers.sort_unstable();
    numbers.dedup();
    numbers
}
