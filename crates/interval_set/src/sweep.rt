//! Operations on two sets of moments, worked out in one walk along both lists of spans.
ghost use Rattle.std.specs.Prelude.{◌≡◌, ◌↔◌, ◌⊎◌, ℤ, pos, ◌+ℤ◌, ◌≤ℤ◌, ◌<ℤ◌, map, length, IsTrue, IfOk, OnOk, IfSome};
ghost use Rattle.itpg_base.specs.Spans.{IsSpan, Within, Covers, IsCoalesced};
ghost use Rattle.interval_set.specs.Runs.{AreRuns};
ghost use Rattle.interval_set.specs.Plain.{plain_run};
ghost use Rattle.interval_set.specs.Places.{AreNeighbours};
ghost use Rattle.interval_set.specs.Operations.{Keeps, EndsFrom, IsStretch, NothingBefore, earlier_of};

use crate::changes::putting_among;
use crate::span::Span;
use std::alloc::{AllocError, Global};

/// An operation on two sets of moments.
#[derive(Clone, Copy)]
pub(crate) enum Operation {
    /// The moments of both.
    Meet,
    /// The moments of either.
    Join,
    /// The moments of the one that aren't in the other.
    Minus,
}

impl Operation {
    /// Whether a moment is in the result, from whether it is in the one set and in the other.
    fn keeps(self, own: bool, other: bool) -> bool
        ensures { IsTrue result ↔ Keeps self (IsTrue own) (IsTrue other) }
    {
        match self {
            Operation::Meet => own && other,
            Operation::Join => own || other,
            Operation::Minus => own && !other,
        }
    }
}

/// The result of the operation.
///
/// The walk goes from stretch to stretch: along a stretch each of the two sets has all moments or none.
///
/// ```text
/// own         [0..4]    [7..20        ]
/// other           [3..8    ]
/// stretches   |   | |   |  |          |
/// ```
pub(crate) fn combined(
    alloc: Global,
    operation: Operation,
    mut own: &[Span],
    mut other: &[Span],
) -> Result<Vec<Span>, AllocError>
    requires own { IsCoalesced own.now }
    requires other { IsCoalesced other.now }
    ensures { IfOk result (λ spans. AreRuns (λ t. Keeps operation (Covers own.now t) (Covers other.now t)) spans.items) }
{
    let mut spans = Vec::new(alloc);
    let mut next = earlier(begin(own), begin(other));
    while let Some(at) = next {
        let (in_own, own_last) = stretch(own, at);
        let (in_other, other_last) = stretch(other, at);
        let last = own_last.min(other_last);
        if operation.keeps(in_own, in_other) {
            append(&mut spans, Span::between(at, last))?;
        }
        own = rest_after(own, last);
        other = rest_after(other, last);
        next = earlier(resumed(own, last), resumed(other, last));
    }
    Ok(spans)
}

/// The first moment of the spans, if any.
fn begin(spans: &[Span]) -> Option<i64>
    requires { IsCoalesced spans.now }
    ensures { NothingBefore (Covers spans.now) result }
{
    Some(spans.first()?.from())
}

/// The earlier of two moments that may be missing.
fn earlier(a: Option<i64>, b: Option<i64>) -> Option<i64>
    ensures { result ≡ earlier_of a b }
{
    match (a, b) {
        (Some(a), Some(b)) => Some(a.min(b)),
        (Some(a), None) => Some(a),
        (None, b) => b,
    }
}

/// Whether the spans have the moment, and the last moment up to which that stays so.
fn stretch(spans: &[Span], at: i64) -> (bool, i64)
    requires coalesced { IsCoalesced spans.now }
    requires ends { EndsFrom at spans.now }
    ensures { IsStretch spans.now at result.0 result.1 }
{
    match spans.first() {
        Some(span) if span.begins_by(at) => (true, span.to()),
        Some(span) => (false, span.from() - 1),
        None => (false, i64::MAX),
    }
}

/// The spans without the first, if that ends at the moment.
fn rest_after(spans: &[Span], last: i64) -> &[Span]
    requires coalesced { IsCoalesced spans.now }
    requires ends { EndsFrom last spans.now }
    ensures coalesced { IsCoalesced result.now }
    ensures ends { EndsFrom (last +ℤ pos 1) result.now }
    ensures same { (t : ℤ) → last <ℤ t → Covers spans.now t ↔ Covers result.now t }
{
    match spans {
        [first, rest @ ..] if first.to() == last => rest,
        _ => spans,
    }
}

/// The first moment after the last one that the spans have, if any.
fn resumed(spans: &[Span], last: i64) -> Option<i64>
    requires coalesced { IsCoalesced spans.now }
    requires ends { EndsFrom (last +ℤ pos 1) spans.now }
    ensures later { IfSome result (λ next. last <ℤ next) }
    ensures nothing { NothingBefore (λ t. (last <ℤ t) × Covers spans.now t) result }
{
    match spans.first() {
        Some(span) if last < span.from() => Some(span.from()),
        Some(span) if last < span.to() => Some(last + 1),
        _ => None,
    }
}

/// Adds the moments of a span that begins after all others end.
fn append(spans: &mut Vec<Span>, s: Span) -> Result<(), AllocError>
    requires coalesced { IsCoalesced spans.old.items }
    requires later { (t : ℤ) → Covers spans.old.items t → t <ℤ s.from }
    ensures { OnOk result (AreRuns (λ t. Covers spans.old.items t ⊎ Within t s) spans.new.items) }
{
    putting_among(spans, place_at_end(spans, s), spans.len(), s).apply(spans)
}

/// The place of the last span if the moments of `s` touch it, and else the end.
fn place_at_end(spans: &[Span], s: Span) -> usize
    requires coalesced { IsCoalesced spans.now }
    requires later { (t : ℤ) → Covers spans.now t → t <ℤ s.from }
    ensures ordered { IsSpan s }
    ensures places { AreNeighbours (map plain_run spans.now) s result (length spans.now) }
{
    let from = s.from();
    match spans.last() {
        Some(last) if !last.ends_apart_before(from) => spans.len() - 1,
        _ => spans.len(),
    }
}
