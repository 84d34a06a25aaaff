//! What one of two lists of one-time rows has, in one walk along both.

ghost use Rattle.std.specs.Prelude.{◌≡◌, ◌⊎◌, ◌↔◌, ℤ, ◌∷◌, [], ◌++◌, ◌≤ℤ◌, IsTrue, IfOk, OnOk};
ghost use Rattle.itpg_base.specs.Lists.{Among};
ghost use Rattle.itpg_base.specs.Spans.{IsSpan, Within};
ghost use Rattle.relation_rows.specs.declared.times.OneRow.{OneRow as PlainOneRow};
ghost use Rattle.relation_rows.specs.Times.{TimesHold, IsOneTime, AreTimes, TimeUpTo, Joins};
ghost use Rattle.condition_eval.specs.Walking.{AreJoined};

use interval_set::Span;
use relation_rows::OneRow;
use std::alloc::{AllocError, Global};

/// The objects at the moments that one of the lists has, or both. Of the first rows of both the one that begins first is added.
pub(crate) fn either(
    alloc: Global,
    own: &[OneRow],
    other: &[OneRow],
) -> Result<Vec<OneRow>, AllocError>
    requires own { IsOneTime own.now }
    requires other { IsOneTime other.now }
    ensures { IfOk result (λ rows. AreTimes (λ o t. TimesHold own.now o t ⊎ TimesHold other.now o t) rows.items) }
{
    let mut rows = Vec::with_capacity(alloc, own.len().max(other.len()))?;
    let mut left = own;
    let mut right = other;
    while let Some((row, behind)) = left.split_first() {
        let Some((partner, others)) = right.split_first() else {
            push_all(&mut rows, left)?;
            return Ok(rows);
        };
        if begins_up_to(row, partner) {
            push_joined(&mut rows, *row)?;
            left = behind;
        } else {
            push_joined(&mut rows, *partner)?;
            right = others;
        }
    }
    push_all(&mut rows, right)?;
    Ok(rows)
}

fn begins_up_to(row: &OneRow, partner: &OneRow) -> bool
    ensures { IsTrue result ↔ TimeUpTo row.now partner.now }
{
    if row.object.0 != partner.object.0 {
        return row.object.0 < partner.object.0;
    }
    row.span.from() <= partner.span.from()
}

// Adds rows, none of which begins before one that is there.
fn push_all(rows: &mut Vec<OneRow>, more: &[OneRow]) -> Result<(), AllocError>
    requires order { IsOneTime rows.old.items }
    requires more { IsOneTime more.now }
    requires up { (r : PlainOneRow) → (s : PlainOneRow) → Among rows.old.items r → Among more.now s → TimeUpTo r s }
    ensures { OnOk result (AreJoined (rows.old.items ++ more.now) rows.new.items) }
{
    for row in more {
        push_joined(rows, *row)?;
    }
    Ok(())
}

// Adds a row that begins before none that is there: where it overlaps or touches the last one, both become one.
fn push_joined(rows: &mut Vec<OneRow>, row: OneRow) -> Result<(), AllocError>
    requires order { IsOneTime rows.old.items }
    requires span { IsSpan row.span }
    requires up { (r : PlainOneRow) → Among rows.old.items r → TimeUpTo r row }
    ensures { OnOk result (AreJoined (rows.old.items ++ row ∷ []) rows.new.items) }
{
    let Some(last) = rows.pop() else {
        rows.push(row)?;
        return Ok(());
    };
    if joins(&last, &row) {
        rows.push(joined(&last, &row))?;
        return Ok(());
    }
    rows.push(last)?;
    rows.push(row)?;
    Ok(())
}

// Whether the row is of the same object as the last one, and begins by one moment after it ends.
fn joins(last: &OneRow, row: &OneRow) -> bool
    ensures { IsTrue result ↔ Joins last.now row.now }
{
    if row.object.0 != last.object.0 {
        return false;
    }
    row.span.from() <= last.span.to() || row.span.from() - 1 == last.span.to()
}

// Both rows as one. The first begins no later than the second.
fn joined(last: &OneRow, row: &OneRow) -> OneRow
    requires up { last.now.span.from ≤ℤ row.now.span.from }
    requires joins { Joins last.now row.now }
    ensures object { result.object ≡ last.now.object }
    ensures from { result.span.from ≡ last.now.span.from }
    ensures moments { (t : ℤ) → Within t result.span ↔ (Within t last.now.span ⊎ Within t row.now.span) }
    ensures span { IsSpan result.span }
{
    let to = last.span.to().max(row.span.to());
    OneRow {
        object: last.object,
        span: Span::new(last.span.from(), to).unwrap(),
    }
}
