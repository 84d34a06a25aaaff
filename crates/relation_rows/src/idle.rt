//! Compositions that give one of their sides back whole.
//!
//! A test is a relation in which points lead to themselves. If these are all points at which another relation arrives, or all from
//! which it departs, the composition of both is that other relation. One walk tells so, and no way is made.

ghost use Rattle.std.specs.Prelude.{◌≡◌, IsTrue, IfOk, IfSome};
ghost use Rattle.itpg_base.specs.Lists.{Among};
ghost use Rattle.band_normal.specs.Bands.{IsWellFormed};
ghost use Rattle.relation_rows.specs.declared.rows.Row.{Row as PlainRow};
ghost use Rattle.relation_rows.specs.Rows.{RowsHold, IsRelation};
ghost use Rattle.relation_rows.specs.Answers.{Gives};
ghost use Rattle.relation_rows.specs.Idle.{IsIdle, AreIdle, TakesOn, DepartsWith, EachHas, IsWholeSide};

use crate::direct::{first_arrival, last_arrival, rests};
use crate::offsets::{Offsets, offsets_of};
use crate::relations::Relation;
use crate::rows::{RelFault, Row};
use std::alloc::{AllocError, Global};

// Whether the row leads from an object to itself, and arrives when it departs.
fn is_idle(row: &Row) -> bool
    requires { IsWellFormed row.now.band }
    ensures { IsTrue result → IsIdle row.now }
{
    if row.source.0 != row.target.0 {
        return false;
    }
    rests(&row.band)
}

fn are_idle(rows: &[Row]) -> bool
    requires { (r : PlainRow) → Among rows.now r → IsWellFormed r.band }
    ensures { IsTrue result → AreIdle rows.now }
{
    for row in rows {
        if !is_idle(row) {
            return false;
        }
    }
    true
}

// Whether the next row departs from where the row arrives, whenever that does.
fn takes_on(next: &Row, row: &Row) -> bool
    requires { IsWellFormed row.now.band }
    ensures { IsTrue result → TakesOn next.now row.now }
{
    if next.source.0 != row.target.0 {
        return false;
    }
    if first_arrival(&row.band) < next.band.from {
        return false;
    }
    if next.band.to < last_arrival(&row.band) {
        return false;
    }
    true
}

// Whether each row is taken on by one of the second list.
fn are_taken_on(rows: &[Row], second: &Offsets<'_>) -> bool
    requires { (r : PlainRow) → Among rows.now r → IsWellFormed r.band }
    ensures { IsTrue result → EachHas TakesOn rows.now second.now }
{
    for row in rows {
        let Some(next) = second.from(row.target).first() else {
            return false;
        };
        if !takes_on(next, row) {
            return false;
        }
    }
    true
}

// Whether the row departs from where the next row does, whenever that does.
fn departs_with(row: &Row, next: &Row) -> bool
    ensures { IsTrue result → DepartsWith row.now next.now }
{
    if row.source.0 != next.source.0 {
        return false;
    }
    row.band.from <= next.band.from && next.band.to <= row.band.to
}

// Whether with each row of the second list one of the rows departs.
fn are_reached(rows: &Offsets<'_>, second: &[Row]) -> bool
    ensures { IsTrue result → EachHas DepartsWith second.now rows.now }
{
    for next in second {
        let Some(row) = rows.from(next.source).first() else {
            return false;
        };
        if !departs_with(row, next) {
            return false;
        }
    }
    true
}

/// Whether the second list has all ways by the rows and then itself. False also where that isn't seen.
pub(crate) fn is_second_whole(
    alloc: Global,
    rows: &[Row],
    second: &[Row],
) -> Result<bool, AllocError>
    requires rows { IsRelation rows.now }
    requires second { IsRelation second.now }
    ensures { IfOk result (λ whole. IsTrue whole → IsWholeSide rows.now second.now second.now) }
{
    if !are_idle(rows) {
        return Ok(false);
    }
    let starts = offsets_of(alloc, rows, second.len())?;
    Ok(are_reached(&starts, second))
}

/// Whether the rows have all ways by themselves and then the second list. False also where that isn't seen.
pub(crate) fn is_first_whole(rows: &[Row], second: &Offsets<'_>) -> bool
    requires rows { IsRelation rows.now }
    requires second { IsRelation second.now }
    ensures { IsTrue result → IsWholeSide rows.now second.now rows.now }
{
    if !are_idle(second.rows()) {
        return false;
    }
    are_taken_on(rows, second)
}

/// A relation of the same rows.
pub(crate) fn copied(alloc: Global, rows: &[Row], max_rows: usize) -> Result<Relation, RelFault>
    requires { IsRelation rows.now }
    ensures { Gives result (RowsHold rows.now) max_rows }
{
    if rows.len() > max_rows {
        return Err(RelFault::Wide);
    }
    let rows = Vec::from_slice(alloc, rows)?;
    Ok(Relation { rows })
}
