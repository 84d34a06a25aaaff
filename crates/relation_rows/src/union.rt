//! Union: one walk along both lists of rows, source and target by source and target.
//!
//! The rows of a source and a target that only one of the relations has are taken as they are, and those of the first that come before
//! all others of the second are taken together.

ghost use Rattle.std.specs.Prelude.{◌≡◌, ◌⊎◌, ◌++◌, ◌≤◌, [], length, take, drop, IfOk, OnOk, IfSome, IfNone};
ghost use Rattle.band_normal.specs.declared.band.Band.{Band as PlainBand};
ghost use Rattle.itpg_base.specs.Lists.{Among, Ordered};
ghost use Rattle.band_normal.specs.Bands.{IsWellFormed};
ghost use Rattle.band_normal.specs.Normal.{Normal};
ghost use Rattle.relation_rows.specs.declared.rows.Row.{Row as PlainRow};
ghost use Rattle.relation_rows.specs.Rows.{RowBefore, HasKey, KeyBefore, IsRelation};
ghost use Rattle.relation_rows.specs.Answers.{Gives};
ghost use Rattle.relation_rows.specs.Relations.{EitherHolds};
ghost use Rattle.relation_rows.specs.Uniting.{KeyUpTo, IsNext, IsPart, EitherHas, HasPushed, ComeFirst};

use crate::gather::{push_bands, push_zones, sort_items};
use crate::known::Known;
use crate::relations::Relation;
use crate::rows::{RelFault, Row};
use crate::search::{comes_before_key, is_of_key, leading_before};
use std::alloc::{AllocError, Global};

// Of both lists a first row, whose source and target come first.
fn next_row(first: &[Row], second: &[Row]) -> Option<Row>
    requires first { Ordered RowBefore first.now }
    requires second { Ordered RowBefore second.now }
    ensures none { IfNone result ((first.now ≡ []) × (second.now ≡ [])) }
    ensures some { IfSome result (λ r. IsNext first.now second.now r) }
{
    let Some(row) = first.first() else {
        return second.first().copied();
    };
    let Some(other) = second.first() else {
        return Some(*row);
    };
    if comes_before_key(other, row.source, row.target) {
        Some(*other)
    } else {
        Some(*row)
    }
}

/// How many of the rows, from the first on, have the source and the target of the other. It looks at these and at the next one.
pub(crate) fn leading(rows: &[Row], key: &Row) -> usize
    requires order { Ordered RowBefore rows.now }
    requires up { (r : PlainRow) → Among rows.now r → KeyUpTo key.now r }
    ensures within { result ≤ length rows.now }
    ensures same { (r : PlainRow) → Among (take result rows.now) r → HasKey r key.now.source.0 key.now.target.0 }
    ensures later { (r : PlainRow) → Among (drop result rows.now) r → KeyBefore key.now.source.0 key.now.target.0 r.source.0 r.target.0 }
{
    for (i, row) in rows.iter().enumerate() {
        if !is_of_key(row, key.source, key.target) {
            return i;
        }
    }
    rows.len()
}

// Learns the normal bands of both.
fn learn_both(known: &mut Known, here: &[Row], there: &[Row]) -> Result<(), AllocError>
    requires here { (r : PlainRow) → Among here.now r → IsWellFormed r.band }
    requires there { (r : PlainRow) → Among there.now r → IsWellFormed r.band }
    ensures normal { OnOk result (Normal (EitherHas here.now there.now) known.new) }
    ensures formed { OnOk result ((b : PlainBand) → Among known.new b → IsWellFormed b) }
{
    let mut items = Vec::new(known.allocator());
    push_zones(&mut items, here)?;
    push_zones(&mut items, there)?;
    sort_items(&mut items);
    known.learn(&items)?;
    Ok(())
}

// Adds the rows, most often one.
fn push_rows(rows: &mut Vec<Row>, more: &[Row]) -> Result<(), AllocError>
    ensures { OnOk result (rows.new.items ≡ rows.old.items ++ more.now) }
{
    if let [row] = more {
        rows.push(*row)?;
        return Ok(());
    }
    rows.extend_from_slice(more)?;
    Ok(())
}

// Adds the rows of one source and one target.
fn push_both(
    rows: &mut Vec<Row>,
    known: &mut Known,
    key: &Row,
    here: &[Row],
    there: &[Row],
) -> Result<(), AllocError>
    requires here { IsPart key.now here.now }
    requires there { IsPart key.now there.now }
    ensures { OnOk result (HasPushed key.now here.now there.now rows.old.items rows.new.items) }
{
    if there.is_empty() {
        push_rows(rows, here)?;
        return Ok(());
    }
    if here.is_empty() {
        push_rows(rows, there)?;
        return Ok(());
    }
    if here == there {
        push_rows(rows, here)?;
        return Ok(());
    }
    learn_both(known, here, there)?;
    push_bands(rows, key.source, key.target, known.bands())?;
    Ok(())
}

// How many of the left rows, from the first on, come by source and target before all others of both lists. Most often none do, which
// their first rows tell.
fn alone_count(left: &[Row], right: &[Row]) -> usize
    requires left { Ordered RowBefore left.now }
    requires right { Ordered RowBefore right.now }
    ensures within { result ≤ length left.now }
    ensures first { ComeFirst left.now right.now result }
{
    let Some(next) = right.first() else {
        return left.len();
    };
    if let Some(row) = left.first() {
        if !comes_before_key(row, next.source, next.target) {
            return 0;
        }
    }
    leading_before(left, next.source, next.target)
}

/// The relation of what either list of rows holds.
pub(crate) fn united(
    alloc: Global,
    first: &[Row],
    second: &[Row],
    max_rows: usize,
) -> Result<Relation, RelFault>
    requires first { IsRelation first.now }
    requires second { IsRelation second.now }
    ensures { Gives result (EitherHolds first.now second.now) max_rows }
{
    let mut rows = Vec::with_capacity(alloc, first.len() + second.len())?;
    let mut known = Known::new(alloc);
    let mut left = first;
    let mut right = second;
    while let Some(key) = next_row(left, right) {
        let (here, later) = left.split_at(leading(left, &key));
        let (there, others) = right.split_at(leading(right, &key));
        push_both(&mut rows, &mut known, &key, here, there)?;
        let (alone, rest) = later.split_at(alone_count(later, others));
        push_rows(&mut rows, alone)?;
        if rows.len() > max_rows {
            return Err(RelFault::Wide);
        }
        left = rest;
        right = others;
    }
    Ok(Relation { rows })
}
