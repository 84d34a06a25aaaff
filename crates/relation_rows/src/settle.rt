//! Ways whose bands are known, made normal part by part.
//!
//! A part has the ways of one source and target up to a departure that is free. Of most parts one way has all pairs, or the ways are normal
//! as they stand; the zones of the others are made normal.

ghost use Rattle.std.specs.Prelude.{◌≡◌, ◌++◌, ◌<◌, ◌≤◌, List, length, take, drop, slice_get, Some, IfOk, OnOk, IfSome, IsTrue};
ghost use Rattle.itpg_base.specs.Lists.{Among, Ordered};
ghost use Rattle.itpg_base.specs.Points.{Point};
ghost use Rattle.band_normal.specs.Bands.{IsWellFormed};
ghost use Rattle.relation_rows.specs.declared.rows.Row.{Row as PlainRow};
ghost use Rattle.relation_rows.specs.Rows.{HasKey, InRow, RowsHold};
ghost use Rattle.relation_rows.specs.Apart.{AreLone, PartBefore, StandsUpTo};
ghost use Rattle.relation_rows.specs.Direct.{AreItsRows};

use crate::apart::{is_apart, last_with, stand_apart, stand_clear};
use crate::gather::{Item, push_bands, push_zones};
use crate::known::Known;
use crate::rows::Row;
use crate::search::is_of_key;
use band_normal::zone_of;
use std::alloc::AllocError;

// How many of the rows, from the first on, are one part.
fn part_len(rows: &[Row], first: &Row) -> usize
    requires first { slice_get rows.now 0 ≡ Some first.now }
    requires order { Ordered StandsUpTo rows.now }
    ensures some { 0 < result }
    ensures within { result ≤ length rows.now }
    ensures key { (r : PlainRow) → Among (take result rows.now) r → HasKey r first.now.source.0 first.now.target.0 }
    ensures apart { (r : PlainRow) → (s : PlainRow) → Among (take result rows.now) r → Among (drop result rows.now) s → PartBefore r s }
{
    let mut last = i64::MIN;
    for (i, row) in rows.iter().enumerate() {
        if i > 0 {
            if !is_of_key(row, first.source, first.target) {
                return i;
            }
            if is_apart(last, row) {
                return i;
            }
        }
        last = last_with(last, row);
    }
    rows.len()
}

// Whether the inner row has no pair that the outer one hasn't. False also where that isn't seen.
fn lies_within(inner: &Row, outer: &Row) -> bool
    requires inner { IsWellFormed inner.now.band }
    requires outer { IsWellFormed outer.now.band }
    ensures { IsTrue result → (x : Point) → (y : Point) → InRow inner.now x y → InRow outer.now x y }
{
    if inner.band.from < outer.band.from || outer.band.to < inner.band.to {
        return false;
    }
    is_of_key(inner, outer.source, outer.target)
        && zone_of(&inner.band).inside(&zone_of(&outer.band))
}

// The row of the part that has the pairs of all, if one is seen to have them.
fn row_of_all(part: &[Row]) -> Option<Row>
    requires { (r : PlainRow) → Among part.now r → IsWellFormed r.band }
    ensures there { IfSome result (λ r. Among part.now r) }
    ensures all { IfSome result (λ r. (x : Point) → (y : Point) → RowsHold part.now x y → InRow r x y) }
{
    let mut outer = *part.first()?;
    for row in part {
        if lies_within(row, &outer) {
            continue;
        }
        if !lies_within(&outer, row) {
            return None;
        }
        outer = *row;
    }
    Some(outer)
}

// Whether the ways are seen to be normal as they stand.
fn are_normal(part: &[Row]) -> bool
    requires { AreLone part.now }
    ensures { IsTrue result → AreItsRows (RowsHold part.now) part.now }
{
    if stand_clear(part) {
        return true;
    }
    stand_apart(part)
}

// Adds the normal rows of the part, whose source and target are the key's. What is in `items` is for this call alone, in memory that all
// parts share.
fn push_part(
    known: &mut Known,
    items: &mut Vec<Item>,
    done: &mut Vec<Row>,
    key: &Row,
    part: &[Row],
) -> Result<(), AllocError>
    requires lone { AreLone part.now }
    requires key { (r : PlainRow) → Among part.now r → HasKey r key.now.source.0 key.now.target.0 }
    ensures { OnOk result ((rows : List PlainRow) × (done.new.items ≡ done.old.items ++ rows) × AreItsRows (RowsHold part.now) rows) }
{
    if let [row] = part {
        done.push(*row)?;
        return Ok(());
    }
    if let Some(row) = row_of_all(part) {
        done.push(row)?;
        return Ok(());
    }
    if are_normal(part) {
        done.extend_from_slice(part)?;
        return Ok(());
    }
    items.clear();
    push_zones(items, part)?;
    known.learn(items)?;
    push_bands(done, key.source, key.target, known.bands())?;
    Ok(())
}

/// The normal rows of the ways, which stand by source, target and first departure.
pub(crate) fn settled(known: &mut Known, ways: &[Row]) -> Result<Vec<Row>, AllocError>
    requires lone { AreLone ways.now }
    requires order { Ordered StandsUpTo ways.now }
    ensures { IfOk result (λ rows. AreItsRows (RowsHold ways.now) rows.items) }
{
    let mut done = Vec::with_capacity(known.allocator(), ways.len())?;
    let mut items = Vec::new(known.allocator());
    let mut left = ways;
    while let Some(first) = left.first() {
        let (part, later) = left.split_at(part_len(left, first));
        push_part(known, &mut items, &mut done, first, part)?;
        left = later;
    }
    Ok(done)
}
