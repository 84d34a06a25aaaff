//! Searches among objects and rows.

ghost use Rattle.std.specs.Prelude.{◌≡◌, ◌↔◌, ◌==◌, ◌≤◌, ℕ, length, nat_lt, true, false, IsTrue, IfOk};
ghost use Rattle.std.specs.List.Sorted.{IsPartitionedBy, IsPartitionPoint};
ghost use Rattle.band_normal.specs.Bands.{InBand, IsWellFormed};
ghost use Rattle.itpg_base.specs.Lists.{Among, Ordered};
ghost use Rattle.relation_rows.specs.declared.rows.Row.{Row};
ghost use Rattle.relation_rows.specs.Rows.{RowBefore, HasKey};
ghost use Rattle.relation_rows.specs.Relations.{Rise, IsOneOf};
ghost use Rattle.relation_rows.specs.Searching.{AreKept, comes_before, has_key};

use crate::rows::Row;
use band_normal::Band;
use itpg_base::{ObjNo, count_leading};
use std::alloc::{AllocError, Global};

// So many rows are searched first.
const NEAR: usize = 8;

// Where all of these come before, so many times as many are searched next.
const STRIDE: usize = 4;

/// Whether the object is one of the list, which rises.
pub(crate) fn is_one_of(objects: &[ObjNo], object: ObjNo) -> bool
    requires { Rise objects.now }
    ensures { IsTrue result ↔ IsOneOf objects.now object.0 }
{
    // Often the list has all objects, from the first on.
    if let Some(there) = objects.get(object.0 as usize) {
        if there.0 == object.0 {
            return true;
        }
    }
    objects.binary_search(&object).is_ok()
}

/// Whether the band has the pair.
pub(crate) fn is_in_band(band: &Band, t: i64, u: i64) -> bool
    requires { IsWellFormed band.now }
    ensures { IsTrue result ↔ InBand band.now t u }
{
    if t < band.from || band.to < t {
        return false;
    }
    band.low.at(t) <= u && u <= band.high.at(t)
}

/// Whether the row's source and target come before these.
pub(crate) fn comes_before_key(row: &Row, source: ObjNo, target: ObjNo) -> bool
    ensures { result ≡ comes_before row.now source.0 target.0 }
{
    row.source.0 < source.0 || row.source.0 == source.0 && row.target.0 < target.0
}

/// Whether the row leads from the source to the target.
pub(crate) fn is_of_key(row: &Row, source: ObjNo, target: ObjNo) -> bool
    ensures { result ≡ has_key row.now source.0 target.0 }
{
    row.source.0 == source.0 && row.target.0 == target.0
}

/// How many of the rows, from the first on, come before the source and target, of rows in order. It looks at few rows where these are
/// few, and at none that stands far behind them.
pub(crate) fn leading_before(rows: &[Row], source: ObjNo, target: ObjNo) -> usize
    requires { Ordered RowBefore rows.now }
    ensures within { result ≤ length rows.now }
    ensures point { IsPartitionPoint (λ (r : Row). comes_before r source.0 target.0 ≡ true) (λ (r : Row). comes_before r source.0 target.0 ≡ false) rows.now result }
{
    let mut near = NEAR;
    while near < rows.len() {
        if !comes_before_key(&rows[near], source, target) {
            return rows[..near].partition_point(|row| comes_before_key(row, source, target));
        }
        near = near.saturating_mul(STRIDE);
    }
    rows.partition_point(|row| comes_before_key(row, source, target))
}

/// The rows from the source to the target, of rows in order.
pub(crate) fn rows_of_key(rows: &[Row], source: ObjNo, target: ObjNo) -> &[Row]
    requires { Ordered RowBefore rows.now }
    ensures rows { (r : Row) → Among result.now r ↔ (Among rows.now r × HasKey r source.0 target.0) }
    ensures order { Ordered RowBefore result.now }
{
    let begin = rows.partition_point(|row| comes_before_key(row, source, target));
    let from = &rows[begin..];
    let count = count_leading(from, |row| is_of_key(row, source, target));
    &from[..count]
}

// How many of the rows come from an object before the source.
fn count_before(rows: &[Row], source: ObjNo) -> usize
    requires { Ordered RowBefore rows.now }
    ensures within { result ≤ length rows.now }
    ensures point { IsPartitionPoint (λ (r : Row). nat_lt r.source.0 source.0 ≡ true) (λ (r : Row). nat_lt r.source.0 source.0 ≡ false) rows.now result }
{
    let count = rows.len();
    if count > 0 {
        if rows[count - 1].source.0 < source.0 {
            return count;
        }
    }
    rows.partition_point(|row| row.source.0 < source.0)
}

// How many of the rows, from the first on, come from the source.
fn count_of(rows: &[Row], source: ObjNo) -> usize
    requires { IsPartitionedBy (λ (r : Row). r.source.0 == source.0) rows.now }
    ensures within { result ≤ length rows.now }
    ensures point { IsPartitionPoint (λ (r : Row). (r.source.0 == source.0) ≡ true) (λ (r : Row). (r.source.0 == source.0) ≡ false) rows.now result }
{
    count_leading(rows, |row| row.source.0 == source.0)
}

/// The rows from the source, of rows in order.
pub(crate) fn rows_from(rows: &[Row], source: ObjNo) -> &[Row]
    requires { Ordered RowBefore rows.now }
    ensures rows { (r : Row) → Among result.now r ↔ (Among rows.now r × (r.source.0 ≡ source.0)) }
    ensures order { Ordered RowBefore result.now }
{
    let begin = count_before(rows, source);
    let from = &rows[begin..];
    let count = count_of(from, source);
    &from[..count]
}

fn leads_between(row: &Row, sources: &[ObjNo], targets: &[ObjNo]) -> bool
    requires sources { Rise sources.now }
    requires targets { Rise targets.now }
    ensures { IsTrue result ↔ (IsOneOf sources.now row.now.source.0 × IsOneOf targets.now row.now.target.0) }
{
    is_one_of(sources, row.source) && is_one_of(targets, row.target)
}

/// The rows that lead from one of the sources to one of the targets, in their order.
pub(crate) fn rows_between(
    alloc: Global,
    rows: &[Row],
    sources: &[ObjNo],
    targets: &[ObjNo],
) -> Result<Vec<Row>, AllocError>
    requires order { Ordered RowBefore rows.now }
    requires sources { Rise sources.now }
    requires targets { Rise targets.now }
    ensures { IfOk result (λ kept. AreKept (λ (o : ℕ) (p : ℕ). IsOneOf sources.now o × IsOneOf targets.now p) rows.now kept.items) }
{
    let mut kept = Vec::new(alloc);
    for row in rows {
        if leads_between(row, sources, targets) {
            kept.push(*row)?;
        }
    }
    Ok(kept)
}
