//! What one list of one-time rows has and another hasn't, in one walk along both.

ghost use Rattle.std.specs.Prelude.{◌≡◌, ◌⊎◌, ◌++◌, ◌↔◌, pos, ◌+ℤ◌, ◌≤ℤ◌, ◌<ℤ◌, IsTrue, IfOk, OnOk};
ghost use Rattle.itpg_base.specs.Spans.{IsSpan};
ghost use Rattle.itpg_base.specs.Lists.{Among};
ghost use Rattle.relation_rows.specs.declared.times.OneRow.{OneRow as PlainOneRow};
ghost use Rattle.relation_rows.specs.Times.{IsOneTime, AreTimes, OnlyFirstHas, HasUncut, MeetsTime, gap};
ghost use Rattle.condition_eval.specs.Walking.{EndsBefore};

use interval_set::Span;
use itpg_base::ObjNo;
use relation_rows::OneRow;
use std::alloc::{AllocError, Global};

/// The objects at the moments that the first rows have and the second haven't.
pub(crate) fn without(
    alloc: Global,
    first: &[OneRow],
    second: &[OneRow],
) -> Result<Vec<OneRow>, AllocError>
    requires first { IsOneTime first.now }
    requires second { IsOneTime second.now }
    ensures { IfOk result (λ rows. AreTimes (OnlyFirstHas first.now second.now) rows.items) }
{
    let mut rows = Vec::with_capacity(alloc, first.len())?;
    let mut cuts = second;
    for row in first {
        cuts = going_at(cuts, row);
        push_uncut(&mut rows, row, begun_in(cuts, row))?;
    }
    Ok(rows)
}

fn ends_before(cut: &OneRow, row: &OneRow) -> bool
    ensures { IsTrue result ↔ EndsBefore cut.now row.now }
{
    if cut.object.0 != row.object.0 {
        return cut.object.0 < row.object.0;
    }
    cut.span.to() < row.span.from()
}

// The cuts from the first on that doesn't end before the row begins.
fn going_at<'a>(cuts: &'a [OneRow], row: &OneRow) -> &'a [OneRow]
    requires { IsOneTime cuts.now }
    ensures order { IsOneTime result.now }
    ensures there { (s : PlainOneRow) → Among result.now s → Among cuts.now s }
    ensures going { (s : PlainOneRow) → Among result.now s → ¬ EndsBefore s row.now }
    ensures ended { (s : PlainOneRow) → Among cuts.now s → EndsBefore s row.now ⊎ Among result.now s }
{
    let mut left = cuts;
    while let Some((cut, behind)) = left.split_first() {
        if !ends_before(cut, row) {
            return left;
        }
        left = behind;
    }
    left
}

// The cuts before the first that begins after the row ends. None ends before the row begins.
fn begun_in<'a>(cuts: &'a [OneRow], row: &OneRow) -> &'a [OneRow]
    requires order { IsOneTime cuts.now }
    requires going { (s : PlainOneRow) → Among cuts.now s → ¬ EndsBefore s row.now }
    ensures order { IsOneTime result.now }
    ensures there { (s : PlainOneRow) → Among result.now s → Among cuts.now s }
    ensures meets { (s : PlainOneRow) → Among result.now s → MeetsTime row.now s }
    ensures all { (s : PlainOneRow) → Among cuts.now s → MeetsTime row.now s → Among result.now s }
{
    for count in 0..cuts.len() {
        if ends_before(row, &cuts[count]) {
            return &cuts[..count];
        }
    }
    cuts
}

// Adds the object at the moments from the first on that come before the other, if there are any.
fn push_gap(rows: &mut Vec<OneRow>, object: ObjNo, from: i64, before: i64) -> Result<(), AllocError>
    ensures { OnOk result (rows.new.items ≡ rows.old.items ++ gap object from before) }
{
    if from < before {
        rows.push(OneRow {
            object,
            span: Span::new(from, before - 1).unwrap(),
        })?;
    }
    Ok(())
}

fn ends_within(row: &OneRow, cut: &OneRow) -> bool
    ensures { IsTrue result ↔ (row.now.span.to ≤ℤ cut.now.span.to) }
{
    row.span.to() <= cut.span.to()
}

// The first moment after the cut, which comes by the last one.
fn first_after(cut: &OneRow, last: i64) -> i64
    requires { cut.now.span.to <ℤ last }
    ensures { result ≡ cut.now.span.to +ℤ pos 1 }
{
    cut.span.to() + 1
}

// Adds what the row has and no cut has. The cuts stand in order, and each shares a moment with the row.
fn push_uncut(rows: &mut Vec<OneRow>, row: &OneRow, cuts: &[OneRow]) -> Result<(), AllocError>
    requires span { IsSpan row.now.span }
    requires order { IsOneTime cuts.now }
    requires meets { (s : PlainOneRow) → Among cuts.now s → MeetsTime row.now s }
    ensures { OnOk result (HasUncut row.now cuts.now rows.old.items rows.new.items) }
{
    let mut from = row.span.from();
    for cut in cuts {
        push_gap(rows, row.object, from, cut.span.from())?;
        if ends_within(row, cut) {
            return Ok(());
        }
        from = first_after(cut, row.span.to());
    }
    rows.push(OneRow {
        object: row.object,
        span: Span::new(from, row.span.to()).unwrap(),
    })?;
    Ok(())
}
