//! Spans of numbers.
ghost use Rattle.std.specs.Prelude.{◌≡◌, ◌↔◌, ◌*◌, ◌^◌, ◌<◌, ◌≤◌, length, IsTrue, Some};
ghost use Rattle.tn_values.specs.Digit.{are_digits};
ghost use Rattle.tn_values.specs.Merged.{IsSpan, clipped, joined, rank_behind, rank_of};
ghost use Rattle.tn_values.specs.Span.{SpanHolds, span_of, value_of, end_of};

use crate::alphabet::are_digits;
use crate::numbers::Number;
use crate::places::{Place, numbers_of, value_of};
use std::marker::Model;

/// The numbers of digits alone that are as long as a first one and follow it, `TelephoneNumberRange` of RFC 8226,
/// section 9.
///
/// A span of size s holds the numbers of start's length from start to start + s - 1. If that end passes the last number
/// of start's length, the span ends at that last number, and its size stays as given. A contract sees `start`, a list
/// of bytes, and `size`, a number.
#[derive(Clone, Copy, Debug, PartialEq, Eq, Hash)]
pub struct Span {
    start: Number,
    size: u64,
}

impl Model for Span {
    ghost use Rattle.std.specs.Prelude.{IsTrue};
    ghost use Rattle.tn_values.specs.Span.{SpanView, is_span};

    ghost Value = { SpanView };

    ghost view = { λ s. record { start = s.start; size = s.size } };

    ghost invariant = { λ s. IsTrue (is_span s.start s.size) };

    ghost inverse = { λ v. record { start = v.start; size = v.size } };
}

impl Span {
    ghost use Rattle.tn_values.specs.Place.{covers};

    /// The span of `size` numbers from `start` on. None if a byte of `start` is no digit, or `size` is 0.
    pub fn new(start: Number, size: u64) -> Option<Span>
        ensures { result ≡ span_of start size }
    {
        if size == 0 || !are_digits(start.bytes()) {
            return None;
        }
        Some(Span { start, size })
    }

    /// The first number, of digits alone.
    pub fn start(&self) -> Number
        ensures value { result ≡ self.now.start }
        ensures again { span_of self.now.start self.now.size ≡ Some self.now }
    {
        self.start
    }

    /// The size as given, at least 1.
    pub fn size(&self) -> u64
        ensures value { result ≡ self.now.size }
        ensures again { span_of self.now.start self.now.size ≡ Some self.now }
    {
        self.size
    }

    /// Whether the number is one of the span: digits alone, as long as the first number, and no further after it than
    /// the size allows.
    pub fn holds(&self, number: &Number) -> bool
        ensures { IsTrue result ↔ SpanHolds self.now number.now }
    {
        match Place::of(number) {
            Some(place) => self.covers(place),
            None => false,
        }
    }

    /// How many digits each number of the span has, 1 to 15.
    pub(crate) fn digits(&self) -> usize
        ensures value { result ≡ length self.now.start }
        ensures some { 1 ≤ result }
        ensures short { result ≤ 15 }
    {
        self.start.bytes().len()
    }

    /// The value of the first number.
    pub(crate) fn first(&self) -> u64
        ensures value { result ≡ value_of self.now.start }
        ensures below { result < 10 ^ length self.now.start }
    {
        value_of(self.start.bytes())
    }

    /// One past the value of the last number.
    pub(crate) fn end(&self) -> u64
        ensures value { result ≡ end_of self.now }
        ensures short { result ≤ 10 ^ 15 }
    {
        self.first()
            .saturating_add(self.size)
            .min(numbers_of(self.digits()))
    }

    /// The rank of the first number among all numbers of digits alone, which go by length and then by value.
    pub(crate) fn rank(&self) -> u64
        ensures value { result ≡ rank_of self.now.start }
        ensures short { result ≤ 2 * 10 ^ 15 }
        ensures span { IsSpan self.now }
    {
        self.is_span();
        numbers_of(self.digits()) + self.first()
    }

    /// One past the rank of the last number.
    pub(crate) fn rank_behind(&self) -> u64
        ensures value { result ≡ rank_behind self.now }
        ensures above { rank_of self.now.start < result }
        ensures short { result ≤ 2 * 10 ^ 15 }
        ensures span { IsSpan self.now }
    {
        self.is_span();
        numbers_of(self.digits()) + self.end()
    }

    /// What is always so of a span.
    fn is_span(&self)
        ensures { IsSpan self.now }
    {
        let _ = self.start.bytes();
    }

    /// The span with a size that doesn't pass the last number of its start's length.
    pub(crate) fn clipped(&self) -> Span
        ensures value { result ≡ clipped self.now }
        ensures span { IsSpan self.now }
    {
        Span {
            start: self.start,
            size: self.rank_behind() - self.rank(),
        }
    }

    /// The span made so large that it reaches the end of another.
    pub(crate) fn joined(&self, other: &Span) -> Span
        ensures value { result ≡ joined self.now other.now }
        ensures span { IsSpan other.now }
    {
        Span {
            start: self.start,
            size: self.rank_behind().max(other.rank_behind()) - self.rank(),
        }
    }

    /// Whether the number at the place is one of the span.
    pub(crate) fn covers(&self, place: Place) -> bool
        ensures { result ≡ covers self.now place }
    {
        self.digits() == place.digits && self.first() <= place.value && place.value < self.end()
    }
}
