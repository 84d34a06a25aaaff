//! Where a span lies among the items of a list that rises.
ghost use Rattle.std.specs.Prelude.{◌≡◌, ◌↔◌, ◌≤◌, ◌<◌, ◌+◌, ℤ, pos, ◌+ℤ◌, ◌≤ℤ◌, ◌<ℤ◌, List};
ghost use Rattle.std.specs.Prelude.{length, take, drop, map, All, true, false, IsTrue, IsNone, IfSome, option_map};
ghost use Rattle.std.specs.Option.{option_copied};
ghost use Rattle.itpg_base.specs.Spans.{Span as PlainSpan, IsSpan};
ghost use Rattle.itpg_base.specs.Words.{Word};
ghost use Rattle.itpg_base.specs.Graphs.{Valued, RunsHave, AreRunsOfValues};
ghost use Rattle.interval_set.specs.Plain.{plain_run};
ghost use Rattle.interval_set.specs.Places.{AreNeighbours, IsNext};

use crate::span::Span;

/// An item of a list that is a run: it has a span, and a value over it.
pub(crate) trait Spanned: Copy {
    ghost as_run: { Self → Valued };

    /// The span of the item.
    fn span(&self) -> Span
        ensures { result ≡ (as_run self.now).span };

    /// The item's value over another span.
    fn over(&self, span: Span) -> Self
        ensures { as_run result ≡ record { span = span; value = (as_run self.now).value } };

    /// Whether the two have the same value.
    fn is_alike(&self, other: &Self) -> bool
        ensures { IsTrue result ↔ ((as_run self.now).value ≡ (as_run other.now).value) };
}

/// A span alone is a run of the empty value.
impl Spanned for Span {
    ghost as_run = { plain_run };

    fn span(&self) -> Span {
        *self
    }

    fn over(&self, span: Span) -> Span {
        span
    }

    fn is_alike(&self, _other: &Span) -> bool {
        true
    }
}

/// The places of the items that overlap or touch `s`: from the first number to before the second.
pub(crate) fn neighbours<T: Spanned>(items: &[T], s: Span) -> (usize, usize)
    requires { AreRunsOfValues (map T.as_run items.now) }
    ensures ordered { IsSpan s }
    ensures places { AreNeighbours (map T.as_run items.now) s result.0 result.1 }
{
    let first = ended_apart_before(items, s.from());
    (first, begun_from(items, first, s.to()))
}

/// The first of the items that ends at the moment or later.
pub(crate) fn next_from<T: Spanned>(items: &[T], t: i64) -> Option<&T>
    requires { AreRunsOfValues (map T.as_run items.now) }
    ensures { IsNext (map T.as_run items.now) t (option_map T.as_run (option_copied result)) }
{
    items.get(ended_before(items, t))
}

/// The item that has the moment.
pub(crate) fn run_at<T: Spanned>(items: &[T], t: i64) -> Option<&T>
    requires { AreRunsOfValues (map T.as_run items.now) }
    ensures none { IsNone result ↔ ((value : Word) → ¬ RunsHave (map T.as_run items.now) t value) }
    ensures some { IfSome result (λ run. (value : Word) → ((T.as_run run.now).value ≡ value) ↔ RunsHave (map T.as_run items.now) t value) }
{
    match next_from(items, t) {
        Some(run) if run.span().begins_by(t) => Some(run),
        _ => None,
    }
}

/// How many of the items end before the moment.
fn ended_before<T: Spanned>(items: &[T], t: i64) -> usize
    requires { AreRunsOfValues (map T.as_run items.now) }
    ensures within { result ≤ length items.now }
    ensures ended { All (λ r. r.span.to <ℤ t) (take result (map T.as_run items.now)) }
    ensures going { All (λ r. t ≤ℤ r.span.to) (drop result (map T.as_run items.now)) }
{
    items.partition_point(|item| item.span().to() < t)
}

/// How many of the items end before the moment, with at least one moment missing between.
fn ended_apart_before<T: Spanned>(items: &[T], t: i64) -> usize
    requires { AreRunsOfValues (map T.as_run items.now) }
    ensures within { result ≤ length items.now }
    ensures apart { All (λ r. (r.span.to +ℤ pos 1) <ℤ t) (take result (map T.as_run items.now)) }
    ensures near { All (λ r. t ≤ℤ (r.span.to +ℤ pos 1)) (drop result (map T.as_run items.now)) }
{
    items.partition_point(|item| item.span().ends_apart_before(t))
}

/// How many of the items begin at the moment after `t`, or earlier, if those before `first` do.
/// Mostly they are all, or one more is.
fn begun_from<T: Spanned>(items: &[T], first: usize, t: i64) -> usize
    requires runs { AreRunsOfValues (map T.as_run items.now) }
    requires place { first ≤ length items.now }
    requires begun { All (λ r. r.span.from ≤ℤ (t +ℤ pos 1)) (take first (map T.as_run items.now)) }
    ensures within { result ≤ length items.now }
    ensures near { All (λ r. r.span.from ≤ℤ (t +ℤ pos 1)) (take result (map T.as_run items.now)) }
    ensures apart { All (λ r. (t +ℤ pos 1) <ℤ r.span.from) (drop result (map T.as_run items.now)) }
{
    if are_apart_from(items, first, t) {
        return first;
    }
    if are_apart_from(items, first + 1, t) {
        return first + 1;
    }
    begun_by_next(items, t)
}

/// Whether the items from the place on begin after `t`, with at least one moment missing between.
fn are_apart_from<T: Spanned>(items: &[T], place: usize, t: i64) -> bool
    requires { AreRunsOfValues (map T.as_run items.now) }
    ensures apart { result ≡ true → All (λ r. (t +ℤ pos 1) <ℤ r.span.from) (drop place (map T.as_run items.now)) }
    ensures within { result ≡ false → place < length items.now }
    ensures near { result ≡ false → All (λ r. r.span.from ≤ℤ (t +ℤ pos 1)) (take (place + 1) (map T.as_run items.now)) }
{
    match items.get(place) {
        Some(item) => item.span().begins_apart_after(t),
        None => true,
    }
}

/// How many of the items begin at the moment after `t`, or earlier.
fn begun_by_next<T: Spanned>(items: &[T], t: i64) -> usize
    requires { AreRunsOfValues (map T.as_run items.now) }
    ensures within { result ≤ length items.now }
    ensures near { All (λ r. r.span.from ≤ℤ (t +ℤ pos 1)) (take result (map T.as_run items.now)) }
    ensures apart { All (λ r. (t +ℤ pos 1) <ℤ r.span.from) (drop result (map T.as_run items.now)) }
{
    items.partition_point(|item| !item.span().begins_apart_after(t))
}
