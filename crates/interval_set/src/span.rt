//! A span of moments.
ghost use Rattle.std.specs.Prelude.{◌≡◌, ◌↔◌, pos, ◌+ℤ◌, ◌-ℤ◌, ◌≤ℤ◌, ◌<ℤ◌, IsTrue, IsSome, IfSome, int_lt};
ghost use Rattle.std.specs.Option.{SomeIff};
ghost use Rattle.std.specs.Int.{int_max, int_min};
ghost use Rattle.interval_set.specs.Places.{IsInside};

use std::marker::Model;

/// All moments from one to another, both included: `from` isn't after `to`.
///
/// A moment is any whole number of 64 bits.
///
/// ```text
/// 3  4  5  6  7  8
///    [  4..6 ]
/// ```
#[derive(Clone, Copy, Debug, PartialEq, Eq)]
pub struct Span {
    from: i64,
    to: i64,
}

impl Model for Span {
    ghost use Rattle.std.specs.Prelude.{◌≤ℤ◌};
    ghost use Rattle.itpg_base.specs.Spans.{Span as PlainSpan};

    ghost Value = { PlainSpan };

    ghost view = { λ s. record { from = s.from; to = s.to } };

    ghost invariant = { λ s. s.from ≤ℤ s.to };

    ghost inverse = { λ s. record { from = s.from; to = s.to } };
}

impl Span {
    /// The span from `from` to `to`. None exactly if `from` is after `to`.
    pub fn new(from: i64, to: i64) -> Option<Span>
        ensures ordered { IsSome result ↔ (from ≤ℤ to) }
        ensures value { IfSome result (λ s. s ≡ record { from = from; to = to }) }
    {
        if from > to {
            None
        } else {
            Some(Span { from, to })
        }
    }

    /// The span from the one moment to the other.
    pub(crate) fn between(from: i64, to: i64) -> Span
        requires { from ≤ℤ to }
        ensures { result ≡ record { from = from; to = to } }
    {
        Span { from, to }
    }

    /// The first moment of the span.
    pub fn from(&self) -> i64
        ensures value { result ≡ self.now.from }
        ensures ordered { self.now.from ≤ℤ self.now.to }
    {
        self.from
    }

    /// The last moment of the span.
    pub fn to(&self) -> i64
        ensures value { result ≡ self.now.to }
        ensures ordered { self.now.from ≤ℤ self.now.to }
    {
        self.to
    }

    /// Whether the span ends before the moment, with at least one moment missing between.
    pub(crate) fn ends_apart_before(&self, t: i64) -> bool
        ensures { result ≡ int_lt (self.now.to +ℤ pos 1) t }
    {
        self.to < t && self.to + 1 < t
    }

    /// Whether the span begins after the moment, with at least one moment missing between.
    pub(crate) fn begins_apart_after(&self, t: i64) -> bool
        ensures { result ≡ int_lt (t +ℤ pos 1) self.now.from }
    {
        t < self.from && t + 1 < self.from
    }

    /// Whether the span begins at the moment or earlier.
    pub(crate) fn begins_by(&self, t: i64) -> bool
        ensures { IsTrue result ↔ (self.now.from ≤ℤ t) }
    {
        self.from <= t
    }

    /// Whether every moment of the span is one of `other`.
    pub(crate) fn is_inside(&self, other: &Span) -> bool
        ensures { IsTrue result ↔ IsInside self.now other.now }
    {
        other.from <= self.from && self.to <= other.to
    }

    /// The span from where it or `first` begins to where it or `last` ends.
    pub(crate) fn reaching(&self, first: &Span, last: &Span) -> Span
        ensures from { result.from ≡ int_min self.now.from first.now.from }
        ensures to { result.to ≡ int_max self.now.to last.now.to }
    {
        Span {
            from: self.from.min(first.from),
            to: self.to.max(last.to),
        }
    }
    /// The moments of the span before `s`, if any.
    pub(crate) fn before(&self, s: &Span) -> Option<Span>
        ensures { SomeIff result (self.now.from <ℤ s.now.from) (record { from = self.now.from; to = int_min self.now.to (s.now.from -ℤ pos 1) }) }
    {
        if s.from <= self.from {
            return None;
        }
        Some(Span {
            from: self.from,
            to: self.to.min(s.from - 1),
        })
    }

    /// The moments of the span after `s`, if any.
    pub(crate) fn after(&self, s: &Span) -> Option<Span>
        ensures { SomeIff result (s.now.to <ℤ self.now.to) (record { from = int_max self.now.from (s.now.to +ℤ pos 1); to = self.now.to }) }
    {
        if self.to <= s.to {
            return None;
        }
        Some(Span {
            from: self.from.max(s.to + 1),
            to: self.to,
        })
    }
}
