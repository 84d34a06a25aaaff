//! A step from one half of some rows to the other, before the rows or behind them.

ghost use Rattle.std.specs.Prelude.{◌↔◌, [], Ok, IfOk, IfSome, ◌≡◌};
ghost use Rattle.itpg_base.specs.Points.{Point};
ghost use Rattle.itpg_base.specs.Lists.{Among, Ordered};
ghost use Rattle.band_normal.specs.Bands.{IsWellFormed};
ghost use Rattle.relation_rows.specs.declared.rows.Row.{Row as PlainRow};
ghost use Rattle.relation_rows.specs.Rows.{RowBefore, RowsHold};
ghost use Rattle.relation_rows.specs.Answers.{Gives};
ghost use Rattle.relation_rows.specs.Relations.{HasMiddlePoint};

use crate::compose::busy_legs;
use crate::gather::{Item, gathered_all};
use crate::known::Known;
use crate::offsets::offsets_of;
use crate::relations::Relation;
use crate::rows::{RelFault, Row};
use crate::stretches::by_zones;
use band_normal::zone_of;
use std::alloc::AllocError;
use zone_compose::{compose, flip};

/// The relation, or none where it has too many rows.
pub(crate) fn unless_wide(given: Result<Relation, RelFault>) -> Result<Option<Relation>, AllocError>
    ensures { IfOk result (λ found. IfSome found (λ all. given ≡ Ok all)) }
{
    match given {
        Ok(relation) => Ok(Some(relation)),
        Err(RelFault::Memory) => Err(AllocError),
        Err(RelFault::Wide) => Ok(None),
    }
}

// The first row back behind the second, from its source to itself: the step from the one to the other, where all is even.
fn step_before(first: &Row, second: &Row) -> Option<Item>
    requires first { IsWellFormed first.now.band }
    requires second { IsWellFormed second.now.band }
{
    let zone = compose(&zone_of(&second.band), &flip(&zone_of(&first.band)))?;
    Some((second.source, second.source, zone))
}

// The second row behind the first back, from its target to itself: the step from the one to the other, where all is even.
fn step_after(first: &Row, second: &Row) -> Option<Item>
    requires first { IsWellFormed first.now.band }
    requires second { IsWellFormed second.now.band }
{
    let zone = compose(&flip(&zone_of(&first.band)), &zone_of(&second.band))?;
    Some((first.target, first.target, zone))
}

/// The ways by one of the rows and then one of the others.
pub(crate) fn onward(
    known: &mut Known,
    rows: &[Row],
    others: &[Row],
    most: usize,
) -> Result<Relation, RelFault>
    requires rows { (r : PlainRow) → Among rows.now r → IsWellFormed r.band }
    requires order { Ordered RowBefore others.now }
    requires others { (r : PlainRow) → Among others.now r → IsWellFormed r.band }
    ensures { Gives result (HasMiddlePoint rows.now others.now) most }
{
    let alloc = known.allocator();
    let second = offsets_of(alloc, others, rows.len())?;
    let busy = busy_legs(alloc, rows, &second)?;
    by_zones(known, rows, &second, &busy, most)
}

/// A step behind which the rows are those of the other half, if one is seen.
pub(crate) fn step_to(
    known: &mut Known,
    rows: &[Row],
    half: &[Row],
) -> Result<Option<Relation>, AllocError>
    requires order { Ordered RowBefore rows.now }
    requires rows { (r : PlainRow) → Among rows.now r → IsWellFormed r.band }
    requires half { (r : PlainRow) → Among half.now r → IsWellFormed r.band }
    ensures { IfOk result (λ found. IfSome found (λ step. (x : Point) → (y : Point) → RowsHold half.now x y ↔ HasMiddlePoint step rows.now x y)) }
{
    let (Some(first), Some(second)) = (rows.first(), half.first()) else {
        return Ok(None);
    };
    let Some(item) = step_before(first, second) else {
        return Ok(None);
    };
    let alloc = known.allocator();
    let step = gathered_all(alloc, Vec::from_slice(alloc, &[item])?)?;
    let Some(moved) = unless_wide(onward(known, &step.rows, rows, rows.len()))? else {
        return Ok(None);
    };
    if &moved.rows[..] == half {
        Ok(Some(step))
    } else {
        Ok(None)
    }
}

/// A step that leads on from the rows to those of the other half, if one is seen.
pub(crate) fn step_from(
    known: &mut Known,
    rows: &[Row],
    half: &[Row],
) -> Result<Option<Relation>, AllocError>
    requires rows { (r : PlainRow) → Among rows.now r → IsWellFormed r.band }
    requires half { (r : PlainRow) → Among half.now r → IsWellFormed r.band }
    ensures { IfOk result (λ found. IfSome found (λ step. (x : Point) → (y : Point) → RowsHold half.now x y ↔ HasMiddlePoint rows.now step x y)) }
{
    let (Some(first), Some(second)) = (rows.first(), half.first()) else {
        return Ok(None);
    };
    let Some(item) = step_after(first, second) else {
        return Ok(None);
    };
    let alloc = known.allocator();
    let step = gathered_all(alloc, Vec::from_slice(alloc, &[item])?)?;
    let Some(led) = unless_wide(onward(known, rows, &step.rows, rows.len()))? else {
        return Ok(None);
    };
    if &led.rows[..] == half {
        Ok(Some(step))
    } else {
        Ok(None)
    }
}
