//! The splices that put a run into a list and that clear a span of it.
ghost use Rattle.std.specs.Prelude.{◌≡◌, ◌-◌, ◌*◌, ◌^◌, ◌<◌, ℤ, List, length, map, slice_get, option_map, slice_range, OnOk, OnErr};
ghost use Rattle.std.specs.Mem.{type_size};
ghost use Rattle.itpg_base.specs.Spans.{IsSpan};
ghost use Rattle.itpg_base.specs.Graphs.{Valued, AreRunsOfValues};
ghost use Rattle.interval_set.specs.Runs.{AreRunsOf, HasPut, HasCleared};
ghost use Rattle.interval_set.specs.Places.{AreNeighbours};
ghost use Rattle.interval_set.specs.Splices.{CanSplice, spliced};
ghost use Rattle.interval_set.specs.Borders.{IsLeftBefore, IsLeftAfter, LeavesBefore, LeavesAfter, MeetsBefore, MeetsAfter};

use crate::places::{Spanned, neighbours};
use crate::span::Span;
use crate::splice::Splice;
use std::alloc::AllocError;

/// Gives each moment of the item's span its value, whatever was there. Without memory the list stays as it was.
pub(crate) fn put_run<T: Spanned>(items: &mut Vec<T>, item: T) -> Result<(), AllocError>
    requires runs { AreRunsOfValues (map T.as_run items.old.items) }
    requires small { 3 * type_size T.row < 2 ^ 63 }
    ensures ok { OnOk result (AreRunsOf (HasPut (map T.as_run items.old.items) (T.as_run item).span (T.as_run item).value) (map T.as_run items.new.items)) }
    ensures err { OnErr result (items.new.items ≡ items.old.items) }
{
    putting(items, item).apply(items)
}

/// Takes the items' values at the moments of the span away. Without memory the list stays as it was.
pub(crate) fn clear_runs<T: Spanned>(items: &mut Vec<T>, s: Span) -> Result<(), AllocError>
    requires runs { AreRunsOfValues (map T.as_run items.old.items) }
    requires small { 3 * type_size T.row < 2 ^ 63 }
    ensures ok { OnOk result (AreRunsOf (HasCleared (map T.as_run items.old.items) s) (map T.as_run items.new.items)) }
    ensures err { OnErr result (items.new.items ≡ items.old.items) }
{
    clearing(items, s).apply(items)
}

/// The splice that gives the item's value to each moment of its span.
pub(crate) fn putting<T: Spanned>(items: &[T], item: T) -> Splice<T>
    requires { AreRunsOfValues (map T.as_run items.now) }
    ensures places { CanSplice result (length items.now) }
    ensures runs { AreRunsOf (HasPut (map T.as_run items.now) (T.as_run item).span (T.as_run item).value) (map T.as_run (spliced result items.now)) }
{
    let (first, last) = neighbours(items, item.span());
    putting_among(items, first, last, item)
}

/// The same, where it is known which items overlap or touch the span.
pub(crate) fn putting_among<T: Spanned>(
    items: &[T],
    first: usize,
    last: usize,
    item: T,
) -> Splice<T>
    requires runs { AreRunsOfValues (map T.as_run items.now) }
    requires span { IsSpan (T.as_run item).span }
    requires neighbours { AreNeighbours (map T.as_run items.now) (T.as_run item).span first last }
    ensures places { CanSplice result (length items.now) }
    ensures runs { AreRunsOf (HasPut (map T.as_run items.now) (T.as_run item).span (T.as_run item).value) (map T.as_run (spliced result items.now)) }
{
    let near = &items[first..last];
    let (before, begin) = begin_among(near, &item);
    let (after, end) = end_among(near, &item);
    Splice {
        first,
        last,
        before,
        own: Some(item.over(item.span().reaching(&begin, &end))),
        after,
    }
}

/// The splice that takes each moment of the span out.
pub(crate) fn clearing<T: Spanned>(items: &[T], s: Span) -> Splice<T>
    requires { AreRunsOfValues (map T.as_run items.now) }
    ensures places { CanSplice result (length items.now) }
    ensures runs { AreRunsOf (HasCleared (map T.as_run items.now) s) (map T.as_run (spliced result items.now)) }
{
    let (first, last) = neighbours(items, s);
    let near = &items[first..last];
    Splice {
        first,
        last,
        before: left_before(near, s),
        own: None,
        after: left_after(near, s),
    }
}

/// What is left of the first of `near` where the item is put after it, and the span that the item begins with.
fn begin_among<T: Spanned>(near: &[T], item: &T) -> (Option<T>, Span)
    ensures { MeetsBefore (slice_get (map T.as_run near.now) 0) (T.as_run item.now) (option_map T.as_run result.0) result.1 }
{
    match near.first() {
        Some(run) if run.is_alike(item) => (None, run.span()),
        Some(run) => (part_before(run, item.span()), item.span()),
        None => (None, item.span()),
    }
}

/// What is left of the last of `near` where the item is put before it, and the span that the item ends with.
fn end_among<T: Spanned>(near: &[T], item: &T) -> (Option<T>, Span)
    ensures { MeetsAfter (slice_get (map T.as_run near.now) (length near.now - 1)) (T.as_run item.now) (option_map T.as_run result.0) result.1 }
{
    match near.last() {
        Some(run) if run.is_alike(item) => (None, run.span()),
        Some(run) => (part_after(run, item.span()), item.span()),
        None => (None, item.span()),
    }
}

/// What is left of the first of `near` before the span.
fn left_before<T: Spanned>(near: &[T], s: Span) -> Option<T>
    ensures { LeavesBefore (slice_get (map T.as_run near.now) 0) s (option_map T.as_run result) }
{
    part_before(near.first()?, s)
}

/// What is left of the last of `near` after the span.
fn left_after<T: Spanned>(near: &[T], s: Span) -> Option<T>
    ensures { LeavesAfter (slice_get (map T.as_run near.now) (length near.now - 1)) s (option_map T.as_run result) }
{
    part_after(near.last()?, s)
}

/// The part of the item before the span, if any.
fn part_before<T: Spanned>(item: &T, s: Span) -> Option<T>
    ensures { IsLeftBefore (T.as_run item.now) s (option_map T.as_run result) }
{
    Some(item.over(item.span().before(&s)?))
}

/// The part of the item after the span, if any.
fn part_after<T: Spanned>(item: &T, s: Span) -> Option<T>
    ensures { IsLeftAfter (T.as_run item.now) s (option_map T.as_run result) }
{
    Some(item.over(item.span().after(&s)?))
}
