//! Two lists of rows without the rows that stand in both.

ghost use Rattle.std.specs.Prelude.{◌≡◌, ◌↔◌, IfOk, IsTrue};
ghost use Rattle.itpg_base.specs.Points.{Point};
ghost use Rattle.itpg_base.specs.Lists.{Among, Ordered};
ghost use Rattle.relation_rows.specs.declared.rows.Row.{Row as PlainRow};
ghost use Rattle.relation_rows.specs.Rows.{KeyBefore, RowBefore, IsRelation};
ghost use Rattle.relation_rows.specs.Relations.{OnlyFirstHolds};

use crate::rows::{Row, first_arrival_of};
use crate::search::{comes_before_key, leading_before};
use itpg_base::ObjNo;
use std::alloc::{AllocError, Global};

// For half of the rows, and so many at most, there is room from the start.
const ROOM: usize = 4_096;

// By this rows stand in order.
fn place_of(row: &Row) -> (ObjNo, ObjNo, i64, i64) {
    (row.source, row.target, row.band.from, first_arrival_of(row))
}

// Whether the cut comes by source and target after all rows that were kept and before the next one, so that it cuts none.
fn is_between(kept: &[Row], cut: &Row, next: &Row) -> bool
    requires { Ordered RowBefore kept.now }
    ensures next { IsTrue result → KeyBefore cut.now.source.0 cut.now.target.0 next.now.source.0 next.now.target.0 }
    ensures kept { IsTrue result → (r : PlainRow) → Among kept.now r → KeyBefore r.source.0 r.target.0 cut.now.source.0 cut.now.target.0 }
{
    if !comes_before_key(cut, next.source, next.target) {
        return false;
    }
    let count = kept.len();
    if count == 0 {
        return true;
    }
    comes_before_key(&kept[count - 1], cut.source, cut.target)
}

/// Both lists without the rows that stand in both. What the first holds and the second doesn't stays the same.
///
/// One walk along both, in which cuts of other sources and targets are passed together. Which of two unequal rows is passed first means nothing for what is held.
pub(crate) fn struck(
    alloc: Global,
    first: &[Row],
    second: &[Row],
) -> Result<(Vec<Row>, Vec<Row>), AllocError>
    requires first { IsRelation first.now }
    requires second { Ordered RowBefore second.now }
    ensures order { IfOk result (λ p. Ordered RowBefore p.0.items) }
    ensures cuts_order { IfOk result (λ p. Ordered RowBefore p.1.items) }
    ensures there { IfOk result (λ p. (r : PlainRow) → Among p.0.items r → Among first.now r) }
    ensures cuts_there { IfOk result (λ p. (r : PlainRow) → Among p.1.items r → Among second.now r) }
    ensures same { IfOk result (λ p. (x : Point) → (y : Point) → OnlyFirstHolds p.0.items p.1.items x y ↔ OnlyFirstHolds first.now second.now x y) }
{
    let mut kept = Vec::with_capacity(alloc, (first.len() / 2).min(ROOM))?;
    let mut cuts = Vec::with_capacity(alloc, (second.len() / 2).min(ROOM))?;
    let mut left = first;
    let mut right = second;
    while let Some((row, rows)) = left.split_first() {
        let Some((other, others)) = right.split_first() else {
            break;
        };
        if row == other {
            left = rows;
            right = others;
        } else if place_of(row) < place_of(other) {
            kept.push(*row)?;
            left = rows;
        } else if is_between(&kept, other, row) {
            let (_, later) = others.split_at(leading_before(others, row.source, row.target));
            right = later;
        } else {
            cuts.push(*other)?;
            right = others;
        }
    }
    kept.extend_from_slice(left)?;
    cuts.extend_from_slice(right)?;
    Ok((kept, cuts))
}
