//! How many objects there are, moment by moment: a sweep over the starts and the ends of one-time rows.
//!
//! At a moment so many rows are there as end by it or later, less those that begin after it. This stays
//! until the next row begins or the next one ends.

ghost use Rattle.std.specs.Prelude.{◌≡◌, ◌↔◌, ◌⊎◌, ◌<◌, ◌≤◌, ◌-◌, ◌^◌, ℤ, pos, ◌+ℤ◌, ◌≤ℤ◌};
ghost use Rattle.std.specs.Prelude.{◌<ℤ◌, [], ◌++◌, length, take, drop, slice_get, Some, None, IfOk, OnOk, IsTrue};
ghost use Rattle.std.specs.List.Sorted.{IsPermutation};
ghost use Rattle.itpg_base.specs.Spans.{Within, IsSpan};
ghost use Rattle.itpg_base.specs.Lists.{Among, Ordered};
ghost use Rattle.relation_rows.specs.declared.times.OneRow.{OneRow as PlainOneRow};
ghost use Rattle.relation_rows.specs.Times.{TimesHold, IsOneTime};
ghost use Rattle.arrivals.specs.Counting.{AreCounts, GivesCounts};
ghost use Rattle.arrivals.specs.Sweeping.{StartsUpTo, StopsUpTo, begins_by, begins_at, ends_by, IsRest, IsStretchEnd, IsStretch, WithSome, Added};

use interval_set::Span;
use relation_rows::{OneRow, OneTime, RelFault};
use std::alloc::{AllocError, Global};
use std::marker::Model;

/// A span of moments, and how many objects there are at each of them.
#[derive(Clone, Copy, Debug, PartialEq, Eq)]
pub struct CountRow {
    /// The moments, all from the first to the last.
    pub span: Span,
    /// How many objects there are.
    pub number: u32,
}

/// How many objects there are, as the spans of equal numbers above 0, in order.
#[derive(Drop)]
pub struct Counts {
    rows: Vec<CountRow>,
}

impl Model for Counts {
    ghost use Rattle.std.specs.Prelude.{List};
    ghost use Rattle.arrivals.specs.declared.counts.CountRow.{CountRow};

    ghost Value = { List CountRow };

    ghost view = { λ r. r.rows.items };
}

impl Counts {
    /// The rows in order.
    pub fn rows(&self) -> &[CountRow]
        ensures { result.now ≡ self.now }
    {
        &self.rows
    }
}

fn by_start(alloc: Global, times: &[OneRow]) -> Result<Vec<OneRow>, AllocError>
    ensures same { IfOk result (λ sorted. IsPermutation times.now sorted.items) }
    ensures order { IfOk result (λ sorted. Ordered StartsUpTo sorted.items) }
{
    let mut sorted = Vec::from_slice(alloc, times)?;
    sorted.sort_by_key(|row| row.span.from())?;
    Ok(sorted)
}

fn by_stop(alloc: Global, times: &[OneRow]) -> Result<Vec<OneRow>, AllocError>
    ensures same { IfOk result (λ sorted. IsPermutation times.now sorted.items) }
    ensures order { IfOk result (λ sorted. Ordered StopsUpTo sorted.items) }
{
    let mut sorted = Vec::from_slice(alloc, times)?;
    sorted.sort_by_key(|row| row.span.to())?;
    Ok(sorted)
}

fn begins_by_next(row: &OneRow, last: &CountRow) -> bool
    ensures { result ≡ begins_by row.now last.now.span.to }
{
    row.span.from() <= last.span.to() || row.span.from() - 1 == last.span.to()
}

fn begins_with(row: &OneRow, first: &OneRow) -> bool
    ensures { result ≡ begins_at row.now first.now.span.from }
{
    row.span.from() <= first.span.from()
}

fn has_ended(row: &OneRow, last: &CountRow) -> bool
    ensures { result ≡ ends_by row.now last.now.span.to }
{
    row.span.to() <= last.span.to()
}

// The rows that begin after the first one.
fn after_first<'a>(rows: &'a [OneRow], first: &OneRow) -> &'a [OneRow]
    requires { Ordered StartsUpTo rows.now }
    ensures { IsRest (λ r. begins_at r first.now.span.from) rows.now result.now }
{
    let count = rows.partition_point(|row| begins_with(row, first));
    &rows[count..]
}

// The rows that don't begin by the moment after the last stretch.
fn still_waiting<'a>(rows: &'a [OneRow], last: &CountRow) -> &'a [OneRow]
    requires { Ordered StartsUpTo rows.now }
    ensures { IsRest (λ r. begins_by r last.now.span.to) rows.now result.now }
{
    let count = rows.partition_point(|row| begins_by_next(row, last));
    &rows[count..]
}

// The rows that don't end by the end of the last stretch.
fn still_ending<'a>(rows: &'a [OneRow], last: &CountRow) -> &'a [OneRow]
    requires { Ordered StopsUpTo rows.now }
    ensures { IsRest (λ r. ends_by r last.now.span.to) rows.now result.now }
{
    let count = rows.partition_point(|row| has_ended(row, last));
    &rows[count..]
}

// How far the moments go from this one on at which no row begins or ends.
fn stretch_end(at: i64, waiting: &[OneRow], stop: &OneRow) -> i64
    requires order { Ordered StartsUpTo waiting.now }
    requires waits { (r : PlainOneRow) → Among waiting.now r → at <ℤ r.span.from }
    requires stops { at ≤ℤ stop.now.span.to }
    ensures { IsStretchEnd at waiting.now stop.now result }
{
    let Some(row) = waiting.first() else {
        return stop.span.to();
    };
    if stop.span.to() < row.span.from() {
        return stop.span.to();
    }
    row.span.from() - 1
}

// From the moment on as far as no row begins or ends.
fn stretch(at: i64, waiting: &[OneRow], ending: &[OneRow], stop: &OneRow) -> CountRow
    requires order { Ordered StartsUpTo waiting.now }
    requires waits { (r : PlainOneRow) → Among waiting.now r → at <ℤ r.span.from }
    requires stops { at ≤ℤ stop.now.span.to }
    requires fewer { length waiting.now ≤ length ending.now }
    requires few { length ending.now < 2 ^ 32 }
    ensures { IsStretch at waiting.now ending.now stop.now result }
{
    let to = stretch_end(at, waiting, stop);
    CountRow {
        span: Span::new(at, to).unwrap(),
        number: (ending.len() - waiting.len()) as u32,
    }
}

fn first_stretch(first: &OneRow, waiting: &[OneRow], ending: &[OneRow], stop: &OneRow) -> CountRow
    requires order { Ordered StartsUpTo waiting.now }
    requires waits { (r : PlainOneRow) → Among waiting.now r → first.now.span.from <ℤ r.span.from }
    requires stops { first.now.span.from ≤ℤ stop.now.span.to }
    requires fewer { length waiting.now ≤ length ending.now }
    requires few { length ending.now < 2 ^ 32 }
    ensures { IsStretch first.now.span.from waiting.now ending.now stop.now result }
{
    stretch(first.span.from(), waiting, ending, stop)
}

fn next_stretch(last: &CountRow, waiting: &[OneRow], ending: &[OneRow], stop: &OneRow) -> CountRow
    requires order { Ordered StartsUpTo waiting.now }
    requires waits { (r : PlainOneRow) → Among waiting.now r → (last.now.span.to +ℤ pos 1) <ℤ r.span.from }
    requires stops { (last.now.span.to +ℤ pos 1) ≤ℤ stop.now.span.to }
    requires fewer { length waiting.now ≤ length ending.now }
    requires few { length ending.now < 2 ^ 32 }
    ensures { IsStretch (last.now.span.to +ℤ pos 1) waiting.now ending.now stop.now result }
{
    let done = last.span.to();
    let until = stop.span.to();
    prove!(done < until);
    stretch(done + 1, waiting, ending, stop)
}

// Adds the stretch, if there are objects.
fn push_some(rows: &mut Vec<CountRow>, last: &CountRow) -> Result<(), AllocError>
    ensures { OnOk result (WithSome last.now rows.old.items rows.new.items) }
{
    if last.number > 0 {
        rows.push(*last)?;
    }
    Ok(())
}

fn longer(last: &CountRow, next: &CountRow) -> CountRow
    requires { last.now.span.from ≤ℤ next.now.span.to }
    ensures number { result.number ≡ last.now.number }
    ensures from { result.span.from ≡ last.now.span.from }
    ensures to { result.span.to ≡ next.now.span.to }
{
    CountRow {
        span: Span::new(last.span.from(), next.span.to()).unwrap(),
        number: last.number,
    }
}

fn add(rows: &mut Vec<CountRow>, last: &CountRow, next: &CountRow) -> Result<CountRow, AllocError>
    requires { last.now.span.from ≤ℤ next.now.span.to }
    ensures { IfOk result (λ now. Added last.now next.now rows.old.items rows.new.items now) }
{
    if next.number == last.number {
        return Ok(longer(last, next));
    }
    push_some(rows, last)?;
    Ok(*next)
}

// The counts of the rows, which stand by their starts and by their ends too.
fn swept(
    alloc: Global,
    times: &[OneRow],
    starts: &[OneRow],
    stops: &[OneRow],
) -> Result<Vec<CountRow>, AllocError>
    requires times { IsOneTime times.now }
    requires few { length times.now < 2 ^ 32 }
    requires starts { IsPermutation times.now starts.now }
    requires stops { IsPermutation times.now stops.now }
    requires first { Ordered StartsUpTo starts.now }
    requires last { Ordered StopsUpTo stops.now }
    ensures { IfOk result (λ rows. AreCounts (TimesHold times.now) rows.items) }
{
    let mut rows = Vec::new(alloc);
    let Some(first) = starts.first() else {
        return Ok(rows);
    };
    let Some(stop) = stops.first() else {
        return Ok(rows);
    };
    let begun = after_first(starts, first);
    let mut last = first_stretch(first, begun, stops, stop);
    let mut waiting = still_waiting(begun, &last);
    let mut ending = still_ending(stops, &last);
    while let Some(stop) = ending.first() {
        let next = next_stretch(&last, waiting, ending, stop);
        last = add(&mut rows, &last, &next)?;
        waiting = still_waiting(waiting, &last);
        ending = still_ending(ending, &last);
    }
    push_some(&mut rows, &last)?;
    Ok(rows)
}

fn counted(alloc: Global, times: &[OneRow]) -> Result<Vec<CountRow>, AllocError>
    requires times { IsOneTime times.now }
    requires few { length times.now < 2 ^ 32 }
    ensures { IfOk result (λ rows. AreCounts (TimesHold times.now) rows.items) }
{
    let starts = by_start(alloc, times)?;
    let stops = by_stop(alloc, times)?;
    let rows = swept(alloc, times, &starts, &stops)?;
    Ok(rows)
}

/// How many objects there are at each moment. `Wide` exactly where the counts have more rows than `max_rows`.
pub fn count(alloc: Global, times: &OneTime, max_rows: u32) -> Result<Counts, RelFault>
    requires { length times.now < 2 ^ 32 }
    ensures { GivesCounts result (TimesHold times.now) max_rows }
{
    let rows = counted(alloc, times.rows())?;
    if rows.len() > max_rows as usize {
        return Err(RelFault::Wide);
    }
    Ok(Counts { rows })
}
