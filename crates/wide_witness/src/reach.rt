//! What steps from a point reach, kept as runs.
//!
//! A step goes on from what the last one has added alone. Whether a run was reached before is looked up among those that stand in order,
//! and in the few that were added since they were put there; either answer is right where it isn't seen.

ghost use Rattle.std.specs.Prelude.{◌≡◌, ◌+◌, ℕ, IsTrue, IfOk, OnOk};
ghost use Rattle.itpg_base.specs.Lists.{Among};
ghost use Rattle.itpg_base.specs.Points.{Point};
ghost use Rattle.itpg_base.specs.Spans.{IsSpan};
ghost use Rattle.band_normal.specs.Bands.{IsWellFormed};
ghost use Rattle.relation_rows.specs.declared.rows.Row.{Row as PlainRow};
ghost use Rattle.relation_rows.specs.Rows.{RowsHold};
ghost use Rattle.relation_rows.specs.Times.{AreTimes, InTime};
ghost use Rattle.wide_witness.specs.Steps.{AreReached, AreSpans, HavePoint, IsAdded, IsPushed, point};

use crate::onward::led_by;
use relation_rows::{OneRow, OneTime, Relation, Row};
use std::alloc::AllocError;

// So many runs are gone through one by one, and one more for each so many that stand in order.
const FEW: usize = 64;

/// The objects at the moments that steps reach.
#[derive(Drop)]
pub(crate) struct Reach {
    /// All of them. Those before the place `settled` stand in order.
    pub(crate) all: Vec<OneRow>,
    pub(crate) settled: usize,
    /// Those that the last step has added.
    pub(crate) newest: Vec<OneRow>,
}

// Whether the other run has all moments of the run.
fn is_within(run: &OneRow, other: &OneRow) -> bool
    ensures { IsTrue result → (y : Point) → InTime run.now y.object y.moment → InTime other.now y.object y.moment }
{
    if run.object.0 != other.object.0 {
        return false;
    }
    if run.span.from() < other.span.from() {
        return false;
    }
    run.span.to() <= other.span.to()
}

// Whether the other run begins by the run's first moment. It has no clause, since no answer depends on it.
fn begins_by(other: &OneRow, run: &OneRow) -> bool {
    other.object.0 < run.object.0
        || other.object.0 == run.object.0 && other.span.from() <= run.span.from()
}

// Whether one of the runs has all moments of the run.
fn some_has(runs: &[OneRow], run: &OneRow) -> bool
    ensures { IsTrue result → (y : Point) → InTime run.now y.object y.moment → HavePoint runs.now y }
{
    for other in runs {
        if is_within(run, other) {
            return true;
        }
    }
    false
}

// Whether the runs have all moments of the run, as far as this is seen.
fn is_had(all: &[OneRow], settled: usize, run: &OneRow) -> bool
    ensures { IsTrue result → (y : Point) → InTime run.now y.object y.moment → HavePoint all.now y }
{
    let (ordered, added) = all.split_at(settled.min(all.len()));
    if some_has(added, run) {
        return true;
    }
    let count = ordered.partition_point(|other| begins_by(other, run));
    some_has(&ordered[count.saturating_sub(1)..count], run)
}

// Adds where the rows lead from the run, but for what is had.
fn push_led(
    added: &mut Vec<OneRow>,
    all: &[OneRow],
    settled: usize,
    run: &OneRow,
    here: &[Row],
) -> Result<(), AllocError>
    requires rows { (r : PlainRow) → Among here.now r → IsWellFormed r.band }
    requires run { IsSpan run.now.span }
    ensures { OnOk result (IsPushed run.now here.now all.now added.old.items added.new.items) }
{
    for row in here {
        if let Some(led) = led_by(row, run) {
            if !is_had(all, settled, &led) {
                added.push(led)?;
            }
        }
    }
    Ok(())
}

impl Reach {
    /// What is reached at the start, by runs that stand in order, and the newest of them.
    pub(crate) fn new(all: Vec<OneRow>, newest: Vec<OneRow>) -> Reach
        ensures all { result.all.items ≡ all.items }
        ensures newest { result.newest.items ≡ newest.items }
    {
        let settled = all.len();
        Reach {
            all,
            settled,
            newest,
        }
    }

    /// How many rows the next step looks at. It has no clause, since no answer depends on it.
    pub(crate) fn rows_ahead(&self, x: &Relation) -> u64 {
        let mut count = 0u64;
        for run in &self.newest {
            count = count.saturating_add(x.rows_from(run.object).len() as u64);
        }
        count
    }

    // What a step adds.
    fn added(&self, x: &Relation) -> Result<Vec<OneRow>, AllocError>
        requires newest { AreSpans self.now.newest.items }
        requires rows { (r : PlainRow) → Among x.now r → IsWellFormed r.band }
        ensures { IfOk result (λ added. IsAdded x.now self.now.newest.items self.now.all.items added.items) }
    {
        let mut added = Vec::new(*self.all.allocator());
        for run in &self.newest {
            let here = x.rows_from(run.object);
            push_led(&mut added, &self.all, self.settled, run, here)?;
        }
        Ok(added)
    }

    /// Goes one step on.
    pub(crate) fn step(&mut self, x: &Relation) -> Result<(), AllocError>
        requires newest { AreSpans self.old.newest.items }
        requires rows { (r : PlainRow) → Among x.now r → IsWellFormed r.band }
        ensures { OnOk result ((from : Point) (n : ℕ) → AreReached (RowsHold x.now) from n self.old.all.items self.old.newest.items →
            AreReached (RowsHold x.now) from (n + 1) self.new.all.items self.new.newest.items) }
    {
        let added = self.added(x)?;
        self.all.extend_from_slice(&added)?;
        self.newest = added;
        Ok(())
    }

    /// Puts all runs in order, joined where they touch.
    pub(crate) fn settle(&mut self) -> Result<(), AllocError>
        requires { AreSpans self.old.all.items }
        ensures newest { self.new.newest ≡ self.old.newest }
        ensures all { OnOk result (AreTimes (λ o t. HavePoint self.old.all.items (point o t)) self.new.all.items) }
    {
        let times = OneTime::from_spans(Vec::from_slice(*self.all.allocator(), &self.all)?)?;
        self.all = Vec::from_slice(*self.all.allocator(), times.rows())?;
        self.settled = self.all.len();
        Ok(())
    }

    /// Whether so many runs were added that they are to be put in order.
    pub(crate) fn is_unsettled(&self) -> bool {
        self.all.len()
            > self
                .settled
                .saturating_add(FEW)
                .saturating_add(self.settled / FEW)
    }
}
