//! One-time rows: at which moments each of some objects is, as runs of moments.

ghost use Rattle.std.specs.Prelude.{◌≡◌, ◌⊎◌, ◌↔◌, ◌≤◌, ℕ, ℤ, pos, ◌+ℤ◌, ◌≤ℤ◌, length, IfOk, OnOk, IsTrue};
ghost use Rattle.itpg_base.specs.Spans.{Within, Covers, IsSpan, IsCoalesced};
ghost use Rattle.band_normal.specs.declared.band.Band.{Band as PlainBand};
ghost use Rattle.itpg_base.specs.Lists.{Among, Ordered};
ghost use Rattle.band_normal.specs.Bands.{IsWellFormed};
ghost use Rattle.relation_rows.specs.declared.rows.Row.{Row as PlainRow};
ghost use Rattle.relation_rows.specs.declared.times.OneRow.{OneRow as PlainOneRow};
ghost use Rattle.relation_rows.specs.Times.{InTime, TimesHold, IsOneTime, OnlyFirstHas, SomeHas, begins_by, ends_before, TimeUpTo, AreTimes, Departs, Arrives, Joins, DepartsIn, ArrivesIn};
ghost use Rattle.relation_rows.specs.Answers.{Gives};
ghost use Rattle.relation_rows.specs.Resting.{AreNearTimes, StaysWithin};

use crate::held::Held;
use crate::relations::Relation;
use crate::resting::rows_at_rest;
use crate::rows::{RelFault, Row};
use crate::times_minus::only_first;
use band_normal::Band;
use interval_set::Span;
use itpg_base::ObjNo;
use std::alloc::{AllocError, Global};
use std::marker::Model;

/// An object over a span of moments.
#[derive(Clone, Copy, Debug, PartialEq, Eq)]
pub struct OneRow {
    /// The object.
    pub object: ObjNo,
    /// The moments, all from the first to the last.
    pub span: Span,
}

/// Objects at moments, as the runs of each object's moments: they stand by object, then by the first
/// moment, and between two of one object at least one moment is missing.
#[derive(Drop)]
pub struct OneTime {
    pub(crate) rows: Held,
}

impl Model for OneTime {
    ghost use Rattle.std.specs.Prelude.{List};
    ghost use Rattle.relation_rows.specs.declared.times.OneRow.{OneRow};
    ghost use Rattle.relation_rows.specs.Times.{IsOneTime};
    ghost use Rattle.relation_rows.specs.Held.{held};

    ghost Value = { List OneRow };

    ghost view = { λ r. held r.rows };

    ghost invariant = { λ r. IsOneTime (held r.rows) };
}

impl OneTime {
    /// The rows in order.
    pub fn rows(&self) -> &[OneRow]
        ensures value { result.now ≡ self.now }
        ensures times { AreTimes (TimesHold self.now) self.now }
    {
        self.rows.rows()
    }

    /// The objects at the moments of these rows, which stand by object and first moment, and between two of one object at least one
    /// moment is missing.
    pub fn from_rows(rows: Vec<OneRow>) -> OneTime
        requires { IsOneTime rows.items }
        ensures { result ≡ rows.items }
    {
        OneTime {
            rows: Held::Own(rows),
        }
    }

    /// The runs of the moments that the rows have, in whatever order they stand.
    pub fn from_spans(times: Vec<OneRow>) -> Result<OneTime, AllocError>
        requires { (r : PlainOneRow) → Among times.items r → IsSpan r.span }
        ensures { IfOk result (λ rows. AreTimes (TimesHold times.items) rows) }
    {
        runs_of(*times.allocator(), times)
    }

    /// The same rows.
    pub(crate) fn copy(&self) -> Result<OneTime, AllocError>
        ensures { IfOk result (λ copy. copy ≡ self.now) }
    {
        Ok(OneTime {
            rows: self.rows.copy()?,
        })
    }

    /// Whether the two have the same rows.
    pub(crate) fn same(&self, other: &OneTime) -> bool
        ensures { IsTrue result ↔ (self.now ≡ other.now) }
    {
        self.rows.rows() == other.rows.rows()
    }

    /// The relation in which each of the points leads to itself. `Wide` exactly if its normal rows, one for each row here, are more than
    /// `max_rows`.
    ///
    /// The moments lie within 4 * 10^12 of zero.
    pub fn as_relation(&self, max_rows: u32) -> Result<Relation, RelFault>
        requires { AreNearTimes self.now }
        ensures { Gives result (StaysWithin self.now) max_rows }
    {
        let times = self.rows.rows();
        if times.len() > max_rows as usize {
            return Err(RelFault::Wide);
        }
        let rows = rows_at_rest(self.rows.allocator(), times)?;
        Ok(Relation { rows })
    }

    /// The objects at the moments that these rows have and the others haven't.
    pub fn minus(&self, other: &OneTime) -> Result<OneTime, AllocError>
        ensures { IfOk result (λ rest. AreTimes (OnlyFirstHas self.now other.now) rest) }
    {
        only_first(self.rows.allocator(), self.rows.rows(), other.rows.rows())
    }
}

/// Which end of a pair is meant.
#[derive(Clone, Copy)]
pub(crate) enum Side {
    /// The object and the moment from which it leads.
    Departure,
    /// Those to which it leads.
    Arrival,
}

ghost use Rattle.relation_rows.specs.Sides.{HasTime, HaveTime};

// Whether the row is of the same object as the last one, and begins by one moment after it ends.
fn joins(last: &OneRow, row: &OneRow) -> bool
    ensures { IsTrue result ↔ Joins last.now row.now }
{
    if row.object.0 != last.object.0 {
        return false;
    }
    row.span.from() <= last.span.to() || row.span.from() - 1 == last.span.to()
}

// Both rows as one. The first begins no later than the second.
fn joined(last: &OneRow, row: &OneRow) -> OneRow
    requires up { last.now.span.from ≤ℤ row.now.span.from }
    requires joins { Joins last.now row.now }
    ensures object { result.object ≡ last.now.object }
    ensures from { result.span.from ≡ last.now.span.from }
    ensures moments { (t : ℤ) → Within t result.span ↔ (Within t last.now.span ⊎ Within t row.now.span) }
    ensures span { IsSpan result.span }
{
    let to = last.span.to().max(row.span.to());
    OneRow {
        object: last.object,
        span: Span::new(last.span.from(), to).unwrap(),
    }
}

// The rows, joined where they overlap or touch.
fn joined_all(alloc: Global, times: &[OneRow]) -> Result<Vec<OneRow>, AllocError>
    requires order { Ordered TimeUpTo times.now }
    requires spans { (r : PlainOneRow) → Among times.now r → IsSpan r.span }
    ensures times { IfOk result (λ rows. AreTimes (TimesHold times.now) rows.items) }
    ensures few { IfOk result (λ rows. length rows.items ≤ length times.now) }
{
    let mut rows = Vec::new(alloc);
    let Some(first) = times.first() else {
        return Ok(rows);
    };
    let mut last = *first;
    for row in &times[1..] {
        if joins(&last, row) {
            last = joined(&last, row);
        } else {
            rows.push(last)?;
            last = *row;
        }
    }
    rows.push(last)?;
    Ok(rows)
}

// Whether the row comes no earlier than the last one, by object and first moment.
fn comes_later(last: &OneRow, row: &OneRow) -> bool
    ensures { IsTrue result → TimeUpTo last.now row.now }
{
    if last.object.0 < row.object.0 {
        return true;
    }
    last.object.0 == row.object.0 && last.span.from() <= row.span.from()
}

fn are_in_order(times: &[OneRow]) -> bool
    ensures { IsTrue result → Ordered TimeUpTo times.now }
{
    for i in 1..times.len() {
        if !comes_later(&times[i - 1], &times[i]) {
            return false;
        }
    }
    true
}

// Puts the rows in order by object and first moment, in which they often stand.
fn put_in_order(times: &mut Vec<OneRow>)
    ensures order { Ordered TimeUpTo times.new.items }
    ensures same { (r : PlainOneRow) → Among times.new.items r ↔ Among times.old.items r }
    ensures count { length times.new.items ≡ length times.old.items }
{
    if are_in_order(times) {
        return;
    }
    times.sort_unstable_by_key(|row| (row.object, row.span.from()));
}

// The runs of the moments that the rows have.
fn runs_of(alloc: Global, mut times: Vec<OneRow>) -> Result<OneTime, AllocError>
    requires { (r : PlainOneRow) → Among times.items r → IsSpan r.span }
    ensures times { IfOk result (λ rows. AreTimes (TimesHold times.items) rows) }
    ensures few { IfOk result (λ rows. length rows ≤ length times.items) }
{
    put_in_order(&mut times);
    let rows = joined_all(alloc, &times)?;
    Ok(OneTime {
        rows: Held::shared(alloc, rows)?,
    })
}

// The moments at which the band arrives. Its ends move by one or stay, so they are all from its low
// end at the first departure to its high end at the last.
fn arrival_span(band: &Band) -> Span
    requires { IsWellFormed band.now }
    ensures moments { (u : ℤ) → Within u result ↔ ArrivesIn band.now u }
    ensures span { IsSpan result }
{
    Span::new(band.low.at(band.from), band.high.at(band.to)).unwrap()
}

fn departure_span(band: &Band) -> Span
    requires { IsWellFormed band.now }
    ensures moments { (t : ℤ) → Within t result ↔ DepartsIn band.now t }
    ensures span { IsSpan result }
{
    Span::new(band.from, band.to).unwrap()
}

// When and where the row departs, or arrives.
fn time_of(row: &Row, side: Side) -> OneRow
    requires { IsWellFormed row.now.band }
    ensures times { (o : ℕ) → (t : ℤ) → InTime result o t ↔ HasTime side row.now o t }
    ensures span { IsSpan result.span }
{
    match side {
        Side::Departure => OneRow {
            object: row.source,
            span: departure_span(&row.band),
        },
        Side::Arrival => OneRow {
            object: row.target,
            span: arrival_span(&row.band),
        },
    }
}

/// The objects at the moments at which some pair of the rows departs, or arrives. There are no more rows than those.
pub(crate) fn times_of(alloc: Global, rows: &[Row], side: Side) -> Result<OneTime, AllocError>
    requires { (r : PlainRow) → Among rows.now r → IsWellFormed r.band }
    ensures times { IfOk result (λ times. AreTimes (HaveTime side rows.now) times) }
    ensures few { IfOk result (λ times. length times ≤ length rows.now) }
{
    let mut times = Vec::with_capacity(alloc, rows.len())?;
    for row in rows {
        times.push(time_of(row, side))?;
    }
    runs_of(alloc, times)
}
