//! Ways that begin with many rows, stretch by stretch of their departures.
//!
//! Once a moment is free at which no row departs, no later way can join the rows of those before it. So these rows are counted, and only
//! their zones are kept, which is why a relation that is too wide is told by few ways more than its limit.

ghost use Rattle.std.specs.Prelude.{◌↔◌, ◌<◌, ◌≤◌, length, take, drop, IfOk, IfSome, IfNone};
ghost use Rattle.itpg_base.specs.Lists.{Among, Ordered};
ghost use Rattle.band_normal.specs.Bands.{IsWellFormed};
ghost use Rattle.relation_rows.specs.declared.rows.Row.{Row as PlainRow};
ghost use Rattle.relation_rows.specs.Answers.{Gives};
ghost use Rattle.relation_rows.specs.Relations.{HasMiddlePoint};
ghost use Rattle.relation_rows.specs.Ways.{AreComposed, DepartsNoLater, DepartApart};

use crate::apart::{is_apart, last_with};
use crate::compose::BATCH;
use crate::gather::{gathered_of, push_zones};
use crate::known::Known;
use crate::offsets::Offsets;
use crate::relations::Relation;
use crate::rows::{RelFault, Row};
use crate::timetable::Leg;
use crate::ways::{FEW, MANY, with_ways};
use std::alloc::{AllocError, Global};

/// The rows by their first departure, if they don't stand so. Those of one target do.
pub(crate) fn by_departure(alloc: Global, rows: &[Row]) -> Result<Option<Vec<Row>>, AllocError>
    ensures kept { IfOk result (λ o. IfNone o (Ordered DepartsNoLater rows.now)) }
    ensures order { IfOk result (λ o. IfSome o (λ sorted. Ordered DepartsNoLater sorted.items)) }
    ensures same { IfOk result (λ o. IfSome o (λ sorted. (r : PlainRow) → Among sorted.items r ↔ Among rows.now r)) }
{
    if rows.is_sorted_by_key(|row| row.band.from) {
        return Ok(None);
    }
    let mut sorted = Vec::from_slice(alloc, rows)?;
    sorted.sort_by_key(|row| row.band.from)?;
    Ok(Some(sorted))
}

// How many of the rows, from the first on, depart before a moment is free at which none does.
fn stretch_len(rows: &[Row]) -> usize
    requires some { 0 < length rows.now }
    requires order { Ordered DepartsNoLater rows.now }
    ensures some { 0 < result }
    ensures within { result ≤ length rows.now }
    ensures apart { (r : PlainRow) → (s : PlainRow) → Among (take result rows.now) r → Among (drop result rows.now) s → DepartApart r s }
{
    let mut last = i64::MIN;
    for (i, row) in rows.iter().enumerate() {
        if i > 0 {
            if is_apart(last, row) {
                return i;
            }
        }
        last = last_with(last, row);
    }
    rows.len()
}

// The relation of the ways that begin with the rows, which depart one no sooner than the one before it.
fn by_stretches(
    known: &mut Known,
    rows: &[Row],
    second: &Offsets<'_>,
    busy: &[Leg],
    room: usize,
) -> Result<Relation, RelFault>
    requires order { Ordered DepartsNoLater rows.now }
    requires rows { (r : PlainRow) → Among rows.now r → IsWellFormed r.band }
    requires second { AreComposed second.now busy.now }
    ensures { Gives result (HasMiddlePoint rows.now second.now) room }
{
    let alloc = known.allocator();
    let mut found = Vec::new(alloc);
    let mut kept = Vec::new(alloc);
    let mut count = 0;
    let mut ways = Vec::with_capacity(alloc, rows.len().saturating_mul(FEW).min(MANY))?;
    let mut left = rows;
    while !left.is_empty() {
        let (part, later) = left.split_at(stretch_len(left));
        ways = with_ways(ways, &mut found, part, second, busy)?;
        if ways.len() > MANY {
            let complete = gathered_of(known, ways, room - count)?;
            count += complete.rows.len();
            push_zones(&mut kept, &complete.rows)?;
            ways = Vec::new(alloc);
        }
        left = later;
    }
    ways.extend_from_slice(&kept)?;
    gathered_of(known, ways, room)
}

/// The relation of the ways that begin with the rows, by their zones.
pub(crate) fn by_zones(
    known: &mut Known,
    rows: &[Row],
    second: &Offsets<'_>,
    busy: &[Leg],
    room: usize,
) -> Result<Relation, RelFault>
    requires rows { (r : PlainRow) → Among rows.now r → IsWellFormed r.band }
    requires second { AreComposed second.now busy.now }
    ensures { Gives result (HasMiddlePoint rows.now second.now) room }
{
    let alloc = known.allocator();
    if rows.len() <= BATCH {
        let mut found = Vec::new(alloc);
        let space = Vec::with_capacity(alloc, BATCH)?;
        let ways = with_ways(space, &mut found, rows, second, busy)?;
        return gathered_of(known, ways, room);
    }
    let Some(sorted) = by_departure(alloc, rows)? else {
        return by_stretches(known, rows, second, busy, room);
    };
    by_stretches(known, &sorted, second, busy, room)
}
