//! What is known, and where some rows go on from it.
//!
//! Ways by the last step lead most often to where others have led before, and lie within one of the rows that are known from there. Such
//! ways are passed over before they are put in order. The rows of those that are left, and all known ones, are settled together.

ghost use Rattle.std.specs.Prelude.{◌⊎◌, ◌↔◌, IsTrue, IfOk};
ghost use Rattle.itpg_base.specs.Points.{Point};
ghost use Rattle.itpg_base.specs.Lists.{Among};
ghost use Rattle.band_normal.specs.Bands.{IsWellFormed};
ghost use Rattle.relation_rows.specs.declared.rows.Row.{Row as PlainRow};
ghost use Rattle.relation_rows.specs.Rows.{InRow, IsRelation, RowsHold};
ghost use Rattle.relation_rows.specs.Answers.{Gives};
ghost use Rattle.relation_rows.specs.Relations.{InItem, ItemsHold, HasMiddlePoint, HoldsOrLeads};
ghost use Rattle.relation_rows.specs.Ways.{AreComposed};

use crate::compose::within;
use crate::gather::Item;
use crate::item_rows::relation_of;
use crate::latest::{NOTED, note, noted};
use crate::offsets::Offsets;
use crate::relations::Relation;
use crate::rows::{RelFault, Row, first_arrival_of};
use crate::search::{comes_before_key, is_of_key};
use crate::timetable::Leg;
use crate::ways::with_ways;
use band_normal::zone_of;
use std::alloc::{AllocError, Global};

// So many rows are passed one after the other, before they are searched.
const STRIDE: usize = 8;

// For so many ways by each row there is room from the start.
const ROOM: usize = 4;

// Whether the row leads as the item does and departs no later.
fn departs_by(row: &Row, item: &Item) -> bool {
    is_of_key(row, item.0, item.1) && row.band.from <= item.2.bounds().a
}

// A guess at the place of the last row that leads as the item does and departs no later, sought from the hint on. It has no clause, since
// the rows there are looked at.
fn place_for(rows: &[Row], item: &Item, hint: usize) -> usize {
    let mut place = hint;
    for _ in 0..STRIDE {
        let Some(row) = rows.get(place) else {
            break;
        };
        if !departs_by(row, item) {
            break;
        }
        let next = place.saturating_add(1);
        let Some(row) = rows.get(next) else {
            return place;
        };
        if !departs_by(row, item) {
            return place;
        }
        place = next;
    }
    let count = rows.partition_point(|row| {
        comes_before_key(row, item.0, item.1) || departs_by(row, item)
    });
    count.saturating_sub(1)
}

// Whether the item has no pair that the row hasn't. False also where that isn't seen.
fn is_in_row(item: &Item, row: &Row) -> bool
    requires { IsWellFormed row.now.band }
    ensures { IsTrue result → (x : Point) → (y : Point) → InItem item.now x y → InRow row.now x y }
{
    is_of_key(row, item.0, item.1) && item.2.inside(&zone_of(&row.band))
}

// Whether the row at the place, if there is one, has each pair of the item. False also where that isn't seen.
fn is_in_row_at(rows: &[Row], item: &Item, place: usize) -> bool
    requires { (r : PlainRow) → Among rows.now r → IsWellFormed r.band }
    ensures { IsTrue result → (x : Point) → (y : Point) → InItem item.now x y → RowsHold rows.now x y }
{
    let Some(row) = rows.get(place) else {
        return false;
    };
    is_in_row(item, row)
}

// Whether the row at the place or the one before it has each pair of the item. False also where that isn't seen.
fn is_known(rows: &[Row], item: &Item, place: usize) -> bool
    requires { (r : PlainRow) → Among rows.now r → IsWellFormed r.band }
    ensures { IsTrue result → (x : Point) → (y : Point) → InItem item.now x y → RowsHold rows.now x y }
{
    is_in_row_at(rows, item, place) || is_in_row_at(rows, item, place.saturating_sub(1))
}

// The ways that lie in none of the rows, as far as that is seen.
fn beyond(alloc: Global, ways: &[Item], rows: &[Row]) -> Result<Vec<Item>, AllocError>
    requires { (r : PlainRow) → Among rows.now r → IsWellFormed r.band }
    ensures there { IfOk result (λ left. (x : Point) → (y : Point) → ItemsHold left.items x y → ItemsHold ways.now x y) }
    ensures each { IfOk result (λ left. (x : Point) → (y : Point) → ItemsHold ways.now x y → ItemsHold left.items x y ⊎ RowsHold rows.now x y) }
{
    let mut left = Vec::with_capacity(alloc, ways.len() / 2)?;
    let mut places = [0usize; NOTED];
    for way in ways {
        let place = place_for(rows, way, noted(&places, way.1));
        note(&mut places, way.1, place);
        if is_known(rows, way, place) {
            continue;
        }
        left.push(*way)?;
    }
    Ok(left)
}

// The rows by first departure, and of those that depart together the one first that arrives first. Its ways have most often all pairs of
// those by the others.
fn by_arrival(alloc: Global, rows: &[Row]) -> Result<Vec<Row>, AllocError>
    ensures { IfOk result (λ sorted. (r : PlainRow) → Among sorted.items r ↔ Among rows.now r) }
{
    let mut sorted = Vec::from_slice(alloc, rows)?;
    sorted.sort_unstable_by_key(|row| (row.band.from, first_arrival_of(row)));
    Ok(sorted)
}

// The ways by one of the rows and the second, without most of those that all rows know. Their rows will stand nearly in order.
fn fresh_ways(
    alloc: Global,
    all: &[Row],
    rows: &[Row],
    second: &Offsets<'_>,
    busy: &[Leg],
) -> Result<Vec<Item>, AllocError>
    requires all { (r : PlainRow) → Among all.now r → IsWellFormed r.band }
    requires rows { (r : PlainRow) → Among rows.now r → IsWellFormed r.band }
    requires second { AreComposed second.now busy.now }
    ensures there { IfOk result (λ fresh. (x : Point) → (y : Point) → ItemsHold fresh.items x y → HasMiddlePoint rows.now second.now x y) }
    ensures each { IfOk result (λ fresh. (x : Point) → (y : Point) → HasMiddlePoint rows.now second.now x y → ItemsHold fresh.items x y ⊎ RowsHold all.now x y) }
{
    let sorted = by_arrival(alloc, rows)?;
    let mut found = Vec::new(alloc);
    let space = Vec::with_capacity(alloc, rows.len().saturating_mul(ROOM))?;
    let ways = with_ways(space, &mut found, &sorted, second, busy)?;
    let mut fresh = beyond(alloc, &ways, all)?;
    fresh.sort_unstable_by_key(|item| (item.0, item.1, item.2.bounds().a));
    Ok(fresh)
}

/// The relation of all rows and of the ways by one of the rows and the second.
pub(crate) fn joined(
    alloc: Global,
    all: &[Row],
    rows: &[Row],
    second: &Offsets<'_>,
    busy: &[Leg],
    room: usize,
) -> Result<Relation, RelFault>
    requires all { IsRelation all.now }
    requires rows { (r : PlainRow) → Among rows.now r → IsWellFormed r.band }
    requires second { AreComposed second.now busy.now }
    ensures { Gives result (HoldsOrLeads all.now rows.now second.now) room }
{
    let fresh = fresh_ways(alloc, all, rows, second, busy)?;
    let relation = relation_of(alloc, &fresh, all)?;
    within(relation, room)
}
