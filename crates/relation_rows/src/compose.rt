//! Composition: the ways from a few sources at a time, by the rows that depart where they arrive.
//!
//! The ways of these sources are made normal together, source by source and target by target. Where one source has many rows, its
//! ways go by departure (`stretches`).

ghost use Rattle.std.specs.Prelude.{◌≡◌, ◌==◌, ◌↔◌, ◌<◌, ◌≤◌, length, take, drop, slice_get, Some, IfOk};
ghost use Rattle.itpg_base.specs.Lists.{Among, Ordered};
ghost use Rattle.band_normal.specs.Bands.{IsWellFormed};
ghost use Rattle.relation_rows.specs.declared.rows.Row.{Row as PlainRow};
ghost use Rattle.relation_rows.specs.Rows.{RowBefore, RowsHold};
ghost use Rattle.relation_rows.specs.Answers.{Gives};
ghost use Rattle.relation_rows.specs.Relations.{HasMiddlePoint};
ghost use Rattle.relation_rows.specs.Apart.{AreLone};
ghost use Rattle.relation_rows.specs.Ways.{HasBusy, AreComposed};

use crate::direct::direct_rows;
use crate::halves::by_runs;
use crate::known::Known;
use crate::offsets::Offsets;
use crate::relations::Relation;
use crate::rows::{RelFault, Row};
use crate::stretches::{by_departure, by_zones};
use crate::timetable::{Leg, timetable};
use crate::ways::{FEW, is_timetable_due};
use itpg_base::count_leading;
use std::alloc::{AllocError, Global};

/// So many rows of whole sources are worked together.
pub(crate) const BATCH: usize = 32;

fn have_one_source(row: &Row, first: &Row) -> bool
    ensures { result ≡ (row.now.source.0 == first.now.source.0) }
{
    row.source.0 == first.source.0
}

// How many of the rows, from the first on, have its source.
fn source_count(rows: &[Row], first: &Row) -> usize
    requires order { Ordered RowBefore rows.now }
    requires first { slice_get rows.now 0 ≡ Some first.now }
    ensures some { 0 < result }
    ensures within { result ≤ length rows.now }
    ensures same { (r : PlainRow) → Among (take result rows.now) r → r.source.0 ≡ first.now.source.0 }
    ensures later { (r : PlainRow) → Among (drop result rows.now) r → first.now.source.0 < r.source.0 }
{
    if let Some(second) = rows.get(1) {
        if !have_one_source(second, first) {
            return 1;
        }
    }
    count_leading(rows, |row| row.source.0 == first.source.0)
}

// How many of the rows, from the first on, are worked together: few rows, if the first source hasn't many, of whole sources.
fn batch_len(rows: &[Row], first: &Row) -> usize
    requires order { Ordered RowBefore rows.now }
    requires first { slice_get rows.now 0 ≡ Some first.now }
    ensures some { 0 < result }
    ensures within { result ≤ length rows.now }
    ensures apart { (r : PlainRow) → (s : PlainRow) → Among (take result rows.now) r → Among (drop result rows.now) s → r.source.0 < s.source.0 }
{
    if rows.len() <= BATCH {
        return rows.len();
    }
    for count in (1..BATCH + 1).rev() {
        if rows[count - 1].source.0 < rows[count].source.0 {
            return count;
        }
    }
    source_count(rows, first)
}

// The rows from the objects from which there are many.
fn busy_rows(alloc: Global, rows: &[Row]) -> Result<Vec<Row>, AllocError>
    requires { Ordered RowBefore rows.now }
    ensures there { IfOk result (λ busy. (r : PlainRow) → Among busy.items r → Among rows.now r) }
    ensures busy { IfOk result (λ busy. HasBusy rows.now busy.items) }
{
    let mut busy = Vec::new(alloc);
    let mut left = rows;
    while let Some(first) = left.first() {
        let (group, later) = left.split_at(source_count(left, first));
        if group.len() > FEW {
            match by_departure(alloc, group)? {
                Some(sorted) => busy.extend_from_slice(&sorted)?,
                None => busy.extend_from_slice(group)?,
            }
        }
        left = later;
    }
    Ok(busy)
}

/// The relation, unless it has too many rows.
pub(crate) fn within(relation: Relation, room: usize) -> Result<Relation, RelFault>
    ensures { Gives result (RowsHold relation) room }
{
    if relation.rows.len() > room {
        return Err(RelFault::Wide);
    }
    Ok(relation)
}

// The relation of the ways that begin with the rows.
fn of_sources(
    known: &mut Known,
    rows: &[Row],
    second: &Offsets<'_>,
    busy: &[Leg],
    room: usize,
) -> Result<Relation, RelFault>
    requires order { Ordered RowBefore rows.now }
    requires rows { AreLone rows.now }
    requires lone { AreLone second.now }
    requires second { AreComposed second.now busy.now }
    ensures { Gives result (HasMiddlePoint rows.now second.now) room }
{
    let Some(ways) = direct_rows(known, rows, second, room)? else {
        let Some(all) = by_runs(known, rows, second)? else {
            return by_zones(known, rows, second, busy, room);
        };
        return within(all, room);
    };
    if ways.len() > room {
        return Err(RelFault::Wide);
    }
    Ok(Relation { rows: ways })
}

/// A timetable of the second rows from the objects from which there are many, if it pays to search for what the first ones go on by.
pub(crate) fn busy_legs(
    alloc: Global,
    first: &[Row],
    second: &Offsets<'_>,
) -> Result<Vec<Leg>, AllocError>
    requires first { (r : PlainRow) → Among first.now r → IsWellFormed r.band }
    requires second { (r : PlainRow) → Among second.now r → IsWellFormed r.band }
    ensures { IfOk result (λ busy. AreComposed second.now busy.items) }
{
    let all = second.rows();
    if !is_timetable_due(first, second) {
        return Ok(Vec::new(alloc));
    }
    let rows = busy_rows(alloc, all)?;
    let legs = timetable(alloc, &rows)?;
    Ok(legs)
}

/// The relation of the ways that begin with the rows, a few sources at a time.
pub(crate) fn by_sources(
    known: &mut Known,
    rows: &[Row],
    second: &Offsets<'_>,
    busy: &[Leg],
    max_rows: usize,
) -> Result<Relation, RelFault>
    requires order { Ordered RowBefore rows.now }
    requires rows { AreLone rows.now }
    requires lone { AreLone second.now }
    requires second { AreComposed second.now busy.now }
    ensures { Gives result (HasMiddlePoint rows.now second.now) max_rows }
{
    let mut done = Vec::new(known.allocator());
    let mut left = rows;
    while let Some(first) = left.first() {
        let (group, later) = left.split_at(batch_len(left, first));
        let room = max_rows - done.len();
        let more = of_sources(known, group, second, busy, room)?;
        done.extend_from_slice(&more.rows)?;
        left = later;
    }
    Ok(Relation { rows: done })
}

/// The relation of the ways that begin with the rows and go on in the second.
pub(crate) fn composed(
    alloc: Global,
    rows: &[Row],
    second: &Offsets<'_>,
    max_rows: usize,
) -> Result<Relation, RelFault>
    requires order { Ordered RowBefore rows.now }
    requires rows { AreLone rows.now }
    requires second { AreLone second.now }
    ensures { Gives result (HasMiddlePoint rows.now second.now) max_rows }
{
    let mut known = Known::new(alloc);
    let mut done = Vec::with_capacity(alloc, rows.len().min(second.rows().len()))?;
    let mut left = rows;
    while let Some(first) = left.first() {
        let (group, later) = left.split_at(batch_len(left, first));
        let room = max_rows - done.len();
        let Some(ways) = direct_rows(&mut known, group, second, room)? else {
            break;
        };
        if ways.len() > room {
            return Err(RelFault::Wide);
        }
        done.extend_from_slice(&ways)?;
        left = later;
    }
    if left.is_empty() {
        return Ok(Relation { rows: done });
    }
    let busy = busy_legs(alloc, left, second)?;
    while let Some(first) = left.first() {
        let (group, later) = left.split_at(batch_len(left, first));
        let room = max_rows - done.len();
        let more = of_sources(&mut known, group, second, &busy, room)?;
        done.extend_from_slice(&more.rows)?;
        left = later;
    }
    Ok(Relation { rows: done })
}
