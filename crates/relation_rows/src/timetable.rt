//! The rows of a relation by their source and first departure, to find those that depart in a span.
//!
//! Rows that begin by the end of the span stand in front, but their last departures rise and fall, so no search among those can stop
//! early. So the middle row of the list, and of each half down to the last, also tells the last departure of all of them: a half that
//! ends too soon is passed over whole, and a search costs as much as it finds, times the halvings.

ghost use Rattle.std.specs.Prelude.{◌≡◌, ◌⊎◌, ◌↔◌, ℕ, map, IfOk, OnOk};
ghost use Rattle.std.specs.List.Sorted.{IsPermutation};
ghost use Rattle.itpg_base.specs.Points.{Point};
ghost use Rattle.itpg_base.specs.Lists.{Among, Ordered};
ghost use Rattle.band_normal.specs.Bands.{IsWellFormed};
ghost use Rattle.relation_rows.specs.declared.rows.Row.{Row as PlainRow};
ghost use Rattle.relation_rows.specs.declared.timetable.Leg.{Leg as PlainLeg};
ghost use Rattle.relation_rows.specs.Rows.{RowsHold};
ghost use Rattle.relation_rows.specs.Timetables.{DepartsUpTo, LegUpTo, LegsHold, IsTimetable, Reaches, AreReached, HasLegs, HasFound, DepartsWithin, departs_within, departs_by, is_short_of};

use crate::rows::Row;
use itpg_base::ObjNo;
use std::alloc::{AllocError, Global};

/// The last source of some rows, and the last departure from it.
#[derive(Clone, Copy)]
pub(crate) struct Farthest {
    pub(crate) source: ObjNo,
    pub(crate) to: i64,
}

/// A row of a timetable. The one in the middle tells how far all of them reach, and so it is in each half.
#[derive(Clone, Copy)]
pub(crate) struct Leg {
    pub(crate) row: Row,
    pub(crate) reach: Farthest,
}

// How far the row reaches, or the others where that is farther.
fn farther(reach: Farthest, row: &Row) -> Farthest
    ensures row { Reaches result row.now }
    ensures others { (r : PlainRow) → Reaches reach r → Reaches result r }
{
    if reach.source.0 < row.source.0 || reach.source.0 == row.source.0 && reach.to < row.band.to {
        return Farthest {
            source: row.source,
            to: row.band.to,
        };
    }
    reach
}

// How far the rows reach, if not as far as one of them, then farther.
fn reach_of(rows: &[Row], one: &Row) -> Farthest
    ensures { (r : PlainRow) → Among rows.now r → Reaches result r }
{
    let mut reach = Farthest {
        source: one.source,
        to: one.band.to,
    };
    for row in rows {
        reach = farther(reach, row);
    }
    reach
}

// Adds the legs of the rows.
fn push_legs(legs: &mut Vec<Leg>, rows: &[Row]) -> Result<(), AllocError>
    ensures { OnOk result (HasLegs rows.now legs.old.items legs.new.items) }
{
    let (before, rest) = rows.split_at(rows.len() / 2);
    let Some((row, behind)) = rest.split_first() else {
        return Ok(());
    };
    push_legs(legs, before)?;
    legs.push(Leg {
        row: *row,
        reach: reach_of(rows, row),
    })?;
    push_legs(legs, behind)?;
    Ok(())
}

// The rows by source and first departure. Often they stand so.
fn by_source(alloc: Global, rows: &[Row]) -> Result<Vec<Row>, AllocError>
    ensures order { IfOk result (λ sorted. Ordered DepartsUpTo sorted.items) }
    ensures same { IfOk result (λ sorted. IsPermutation rows.now sorted.items) }
{
    let mut sorted = Vec::from_slice(alloc, rows)?;
    if sorted.is_sorted_by_key(|row| (row.source, row.band.from)) {
        return Ok(sorted);
    }
    sorted.sort_by_key(|row| (row.source, row.band.from))?;
    Ok(sorted)
}

/// A timetable of the rows.
pub(crate) fn timetable(alloc: Global, rows: &[Row]) -> Result<Vec<Leg>, AllocError>
    requires { (r : PlainRow) → Among rows.now r → IsWellFormed r.band }
    ensures table { IfOk result (λ legs. IsTimetable legs.items) }
    ensures holds { IfOk result (λ legs. (x : Point) → (y : Point) → LegsHold legs.items x y ↔ RowsHold rows.now x y) }
{
    let sorted = by_source(alloc, rows)?;
    let mut legs = Vec::with_capacity(alloc, sorted.len())?;
    push_legs(&mut legs, &sorted)?;
    Ok(legs)
}

// Whether the leg is of the object and departs in the span, both ends included.
fn departs_in(leg: &Leg, object: ObjNo, span: (i64, i64)) -> bool
    ensures { result ≡ departs_within leg.now object.0 span.0 span.1 }
{
    leg.row.source.0 == object.0 && leg.row.band.from <= span.1 && span.0 <= leg.row.band.to
}

fn is_departed_by(leg: &Leg, object: ObjNo, span: (i64, i64)) -> bool
    ensures { result ≡ departs_by leg.now object.0 span.1 }
{
    leg.row.source.0 < object.0 || leg.row.source.0 == object.0 && leg.row.band.from <= span.1
}

fn is_short(reach: &Farthest, object: ObjNo, span: (i64, i64)) -> bool
    ensures { result ≡ is_short_of reach.now object.0 span.0 }
{
    reach.source.0 < object.0 || reach.source.0 == object.0 && reach.to < span.0
}

// Adds the leg where it is of the object and departs in the span.
fn push_found(
    found: &mut Vec<Leg>,
    leg: &Leg,
    object: ObjNo,
    span: (i64, i64),
) -> Result<(), AllocError>
    ensures { OnOk result ((s : PlainLeg) → Among found.new.items s ↔ (Among found.old.items s ⊎ ((leg.now ≡ s) × DepartsWithin s object.0 span.0 span.1))) }
{
    if !departs_in(leg, object, span) {
        return Ok(());
    }
    found.push(*leg)?;
    Ok(())
}

// Adds the legs of the object that depart in the span.
fn push_departing(
    found: &mut Vec<Leg>,
    legs: &[Leg],
    object: ObjNo,
    span: (i64, i64),
) -> Result<(), AllocError>
    requires order { Ordered LegUpTo legs.now }
    requires reach { (depth : ℕ) → AreReached depth legs.now }
    ensures { OnOk result (HasFound legs.now object.0 span.0 span.1 found.old.items found.new.items) }
{
    if let [leg] = legs {
        return push_found(found, leg, object, span);
    }
    let (before, rest) = legs.split_at(legs.len() / 2);
    let Some((leg, behind)) = rest.split_first() else {
        return Ok(());
    };
    if is_short(&leg.reach, object, span) {
        return Ok(());
    }
    push_departing(found, before, object, span)?;
    if !is_departed_by(leg, object, span) {
        return Ok(());
    }
    push_found(found, leg, object, span)?;
    push_departing(found, behind, object, span)?;
    Ok(())
}

/// Fills the list with the legs of the object that have a departure in the span, both ends included. What it held is gone.
pub(crate) fn find_departing(
    found: &mut Vec<Leg>,
    legs: &[Leg],
    object: ObjNo,
    span: (i64, i64),
) -> Result<(), AllocError>
    requires { IsTimetable legs.now }
    ensures { OnOk result ((s : PlainLeg) → Among found.new.items s ↔ (Among legs.now s × DepartsWithin s object.0 span.0 span.1)) }
{
    found.clear();
    push_departing(found, legs, object, span)
}
