//! Points from which steps are followed.

ghost use Rattle.std.specs.Prelude.{◌≤ℤ◌, IsTrue, IfOk, IfSome};
ghost use Rattle.itpg_base.specs.Lists.{Among};
ghost use Rattle.band_normal.specs.Bands.{IsWellFormed};
ghost use Rattle.relation_rows.specs.declared.rows.Row.{Row as PlainRow};
ghost use Rattle.relation_rows.specs.Rows.{RowsHold};
ghost use Rattle.wide_witness.specs.Steps.{AreSeenFrom, IsDepartureOf, IsSeenWide};

use crate::reach::Reach;
use band_normal::zone_of;
use interval_set::Span;
use itpg_base::ObjNo;
use relation_rows::{OneRow, Relation, Row};
use std::alloc::{AllocError, Global};

// From so many points at most steps are tried.
const POINTS: usize = 32;

// After so many steps, and again after as many, it is asked whether they lead to ever more runs.
const TRIED: u64 = 256;

// So many rows at most are looked at by the first of these steps.
const FEW_LOOKS: u64 = 8_192;

// And so many for each step that is wanted, from all points together.
const LOOKS: u64 = 64;

// How many rows were looked at: from one point, and from all.
#[derive(Clone, Copy)]
struct Looks {
    own: u64,
    all: u64,
}

// Whether it doesn't look as if further steps would lead to many runs, or as if it would take long. It has no clause, since either answer is
// right.
fn is_hopeless(reach: &Reach, step: u64, looks: Looks, steps: u64) -> bool {
    if reach.newest.is_empty() || looks.all > steps.saturating_mul(LOOKS) {
        return true;
    }
    if step < TRIED {
        return looks.own > FEW_LOOKS;
    }
    step % TRIED == 0 && (reach.all.len() as u64) < step / 2
}

// Whether one departure may lead to more runs than the limit: those of one object stand apart, and at each of their moments some row
// arrives. It has no clause, since either answer is right.
fn may_be_many(rows: &[Row], limit: u32) -> bool
    requires { (r : PlainRow) → Among rows.now r → IsWellFormed r.band }
{
    let mut first = i64::MAX;
    let mut last = i64::MIN;
    for row in rows {
        let bounds = zone_of(&row.band).bounds();
        first = first.min(bounds.c);
        last = last.max(bounds.d);
    }
    let most = (last.abs_diff(first) / 2).saturating_add(1);
    most.saturating_mul(rows.len() as u64) >= limit as u64
}

// The row's source at one of its departures.
fn start_at(row: &Row, departure: i64) -> Option<OneRow>
    requires formed { IsWellFormed row.now.band }
    requires from { row.now.band.from ≤ℤ departure }
    requires to { departure ≤ℤ row.now.band.to }
    ensures { IfSome result (λ start. IsDepartureOf row.now start) }
{
    let span = Span::new(departure, departure)?;
    Some(OneRow {
        object: row.source,
        span,
    })
}

// To how many runs at most so many steps lead from the start, at which a row departs, as far as it is tried; 0 where it is given up. How many
// rows were looked at is added to `spent`.
fn runs_from(
    alloc: Global,
    x: &Relation,
    start: &OneRow,
    steps: u64,
    spent: &mut u64,
) -> Result<u64, AllocError>
    requires start { (r : PlainRow) × Among x.now r × IsDepartureOf r start.now }
    requires rows { (r : PlainRow) → Among x.now r → IsWellFormed r.band }
    ensures { IfOk result (λ count. AreSeenFrom (RowsHold x.now) steps start.now.object.0 count) }
{
    let all = Vec::from_slice(alloc, &[*start])?;
    let newest = Vec::from_slice(alloc, &[*start])?;
    let mut reach = Reach::new(all, newest);
    let mut looks = Looks {
        own: 0,
        all: *spent,
    };
    for step in 0..steps {
        let ahead = reach.rows_ahead(x);
        looks.own = looks.own.saturating_add(ahead);
        looks.all = looks.all.saturating_add(ahead);
        *spent = looks.all;
        if is_hopeless(&reach, step, looks, steps) {
            return Ok(0);
        }
        if reach.is_unsettled() || step == TRIED {
            reach.settle()?;
        }
        reach.step(x)?;
    }
    reach.settle()?;
    Ok(reach.all.len() as u64)
}

// The same from the row's source at one of its departures.
fn runs_at(
    alloc: Global,
    x: &Relation,
    row: &Row,
    departure: i64,
    steps: u64,
    spent: &mut u64,
) -> Result<u64, AllocError>
    requires row { Among x.now row.now }
    requires from { row.now.band.from ≤ℤ departure }
    requires to { departure ≤ℤ row.now.band.to }
    requires rows { (r : PlainRow) → Among x.now r → IsWellFormed r.band }
    ensures { IfOk result (λ count. AreSeenFrom (RowsHold x.now) steps row.now.source.0 count) }
{
    let Some(start) = start_at(row, departure) else {
        return Ok(0);
    };
    runs_from(alloc, x, &start, steps, spent)
}

// The more of these from where the row departs first, and from where it departs last, since steps may lead back in time.
fn runs_from_row(
    alloc: Global,
    x: &Relation,
    row: &Row,
    steps: u64,
    spent: &mut u64,
) -> Result<u64, AllocError>
    requires row { Among x.now row.now }
    requires rows { (r : PlainRow) → Among x.now r → IsWellFormed r.band }
    ensures { IfOk result (λ count. AreSeenFrom (RowsHold x.now) steps row.now.source.0 count) }
{
    let first = runs_at(alloc, x, row, row.band.from, steps, spent)?;
    if row.band.from == row.band.to {
        return Ok(first);
    }
    let last = runs_at(alloc, x, row, row.band.to, steps, spent)?;
    Ok(first.max(last))
}

/// Whether it is seen that at most so many steps of the relation lead from some points, no two of them of one object, to more runs of moments
/// than the limit, all together. It is false also where that isn't seen.
///
/// ```text
///     a at 0..10^12 leads two moments on      after 3 steps from 0 the runs are 0, 2, 4 and 6
///     so does b                               8 runs together
/// ```
///
/// # Errors
///
/// If memory runs out.
pub fn is_seen_wide(alloc: Global, x: &Relation, steps: u64, limit: u32) -> Result<bool, AllocError>
    ensures { IfOk result (λ seen. IsTrue seen → IsSeenWide (RowsHold x.now) steps limit) }
{
    let rows = x.rows();
    if !may_be_many(rows, limit) {
        return Ok(false);
    }
    let mut spent = 0;
    // From the objects before the last one, and the most from a point of this.
    let mut before = 0u64;
    let mut most = 0u64;
    let mut object = ObjNo(0);
    for row in rows.iter().step_by(rows.len() / POINTS + 1) {
        if object.0 < row.source.0 {
            before = before.saturating_add(most);
            most = 0;
            object = row.source;
        }
        most = most.max(runs_from_row(alloc, x, row, steps, &mut spent)?);
        if before.saturating_add(most) > limit as u64 {
            return Ok(true);
        }
    }
    Ok(false)
}
