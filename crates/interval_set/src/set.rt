//! Sets of moments.
ghost use Rattle.std.specs.Prelude.{◌≡◌, ◌<◌, ◌↔◌, ◌⊎◌, ℤ, List, [], length, IsTrue, IfOk, OnOk, OnErr};
ghost use Rattle.itpg_base.specs.Spans.{Span as PlainSpan, Within, Covers, IsCoalesced};
ghost use Rattle.interval_set.specs.Runs.{AreRuns};
ghost use Rattle.interval_set.specs.Operations.{Keeps};

use crate::changes::{clearing, putting};
use crate::places::next_from;
use crate::span::Span;
use crate::splice::may_pass;
use crate::sweep::{Operation, combined};
use std::alloc::{AllocError, Global};
use std::marker::Model;

/// A set of moments, kept as its coalesced list of spans: they rise, and between two of them at least
/// one moment is missing.
///
/// ```text
/// 0 1 2 3 4 5 6 7 8 9      the set {1, 2, 3, 6, 7}
///   [1..3 ]     [6..7]
/// ```
#[derive(Debug, Drop)]
pub struct IntervalSet {
    spans: Vec<Span>,
}

impl Model for IntervalSet {
    ghost use Rattle.std.specs.Prelude.{List};
    ghost use Rattle.itpg_base.specs.Spans.{Span as PlainSpan, IsCoalesced};

    ghost Value = { List PlainSpan };

    ghost view = { λ a. a.spans.items };

    ghost invariant = { λ a. IsCoalesced a.spans.items };
}

impl IntervalSet {
    /// The empty set. It takes no memory.
    pub fn new(alloc: Global) -> IntervalSet
        ensures { result ≡ [] }
    {
        IntervalSet {
            spans: Vec::new(alloc),
        }
    }

    /// The result of the operation on this set and the other.
    fn combined_with(&self, operation: Operation, other: &[Span]) -> Result<IntervalSet, AllocError>
        requires { IsCoalesced other.now }
        ensures { IfOk result (λ spans. AreRuns (λ t. Keeps operation (Covers self.now t) (Covers other.now t)) spans) }
    {
        let spans = combined(*self.spans.allocator(), operation, &self.spans, other)?;
        Ok(IntervalSet { spans })
    }

    /// The set of these spans.
    pub(crate) fn from_spans(spans: Vec<Span>) -> IntervalSet
        requires { IsCoalesced spans.items }
        ensures { result ≡ spans.items }
    {
        IntervalSet { spans }
    }

    /// The spans of the set, rising.
    pub fn spans(&self) -> &[Span]
        ensures value { result.now ≡ self.now }
        ensures coalesced { IsCoalesced self.now }
    {
        &self.spans
    }

    /// Whether the moment is in the set.
    pub fn holds(&self, t: i64) -> bool
        ensures { IsTrue result ↔ Covers self.now t }
    {
        match next_from(&self.spans, t) {
            Some(span) => span.begins_by(t),
            None => false,
        }
    }

    /// Whether every moment of `s` is in the set.
    pub fn covers(&self, s: Span) -> bool
        ensures { IsTrue result ↔ ((t : ℤ) → Within t s → Covers self.now t) }
    {
        match next_from(&self.spans, s.from()) {
            Some(span) => s.is_inside(span),
            None => false,
        }
    }

    /// Whether some moment of `s` is in the set.
    pub fn touches(&self, s: Span) -> bool
        ensures { IsTrue result ↔ ((t : ℤ) × Within t s × Covers self.now t) }
    {
        match next_from(&self.spans, s.from()) {
            Some(span) => span.begins_by(s.to()),
            None => false,
        }
    }

    /// How many spans the set would have with the moments of `s` added.
    pub fn count_joined(&self, s: Span) -> usize
        ensures { (spans : List PlainSpan) → AreRuns (λ t. Covers self.now t ⊎ Within t s) spans → result ≡ length spans }
    {
        putting(&self.spans, s).count(&self.spans)
    }

    /// Whether the set would have more than `most` spans with the moments of `s` added.
    pub fn joins_beyond(&self, s: Span, most: usize) -> bool
        ensures { (spans : List PlainSpan) → AreRuns (λ t. Covers self.now t ⊎ Within t s) spans → IsTrue result ↔ (most < length spans) }
    {
        may_pass(self.spans().len(), most) && self.count_joined(s) > most
    }

    /// Adds the moments of `s`. Without memory the set stays as it was.
    ///
    /// ```text
    /// set          [0..4]     [7..20      ]
    /// s                  [5..6]
    /// afterwards   [0..20                 ]
    /// ```
    pub fn join_span(&mut self, s: Span) -> Result<(), AllocError>
        ensures ok { OnOk result (AreRuns (λ t. Covers self.old t ⊎ Within t s) self.new) }
        ensures err { OnErr result (self.new ≡ self.old) }
    {
        putting(&self.spans, s).apply(&mut self.spans)
    }

    /// How many spans the set would have with the moments of `s` taken out.
    pub fn count_cut(&self, s: Span) -> usize
        ensures { (spans : List PlainSpan) → AreRuns (λ t. Covers self.now t × (¬ Within t s)) spans → result ≡ length spans }
    {
        clearing(&self.spans, s).count(&self.spans)
    }

    /// Takes the moments of `s` out. Without memory the set stays as it was.
    ///
    /// ```text
    /// set          [0..20                 ]
    /// s                  [5..6]
    /// afterwards   [0..4]     [7..20      ]
    /// ```
    pub fn cut_span(&mut self, s: Span) -> Result<(), AllocError>
        ensures ok { OnOk result (AreRuns (λ t. Covers self.old t × (¬ Within t s)) self.new) }
        ensures err { OnErr result (self.new ≡ self.old) }
    {
        clearing(&self.spans, s).apply(&mut self.spans)
    }

    /// The moments that both sets have.
    pub fn meet(&self, other: &IntervalSet) -> Result<IntervalSet, AllocError>
        ensures { IfOk result (λ both. AreRuns (λ t. Covers self.now t × Covers other.now t) both) }
    {
        self.combined_with(Operation::Meet, &other.spans)
    }

    /// The moments that the one set has or the other.
    pub fn join(&self, other: &IntervalSet) -> Result<IntervalSet, AllocError>
        ensures { IfOk result (λ either. AreRuns (λ t. Covers self.now t ⊎ Covers other.now t) either) }
    {
        self.combined_with(Operation::Join, &other.spans)
    }

    /// The moments that this set has and the other hasn't.
    pub fn minus(&self, other: &IntervalSet) -> Result<IntervalSet, AllocError>
        ensures { IfOk result (λ rest. AreRuns (λ t. Covers self.now t × (¬ Covers other.now t)) rest) }
    {
        self.combined_with(Operation::Minus, &other.spans)
    }

    /// The moments of the horizon that aren't in the set.
    ///
    /// ```text
    /// horizon      [0..100                          ]
    /// set          [0..4]     [7..20  ]
    /// result             [5..6]        [21..100     ]
    /// ```
    pub fn within(&self, horizon: Span) -> Result<IntervalSet, AllocError>
        ensures { IfOk result (λ rest. AreRuns (λ t. Within t horizon × (¬ Covers self.now t)) rest) }
    {
        let spans = combined(
            *self.spans.allocator(),
            Operation::Minus,
            &[horizon],
            &self.spans,
        )?;
        Ok(IntervalSet { spans })
    }

    /// An equal set of its own.
    pub fn copy(&self) -> Result<IntervalSet, AllocError>
        ensures { IfOk result (λ copy. copy ≡ self.now) }
    {
        let spans = Vec::from_slice(*self.spans.allocator(), &self.spans)?;
        Ok(IntervalSet { spans })
    }
}
