//! Difference of one-time rows: one row after the other without the cuts that it meets.
//!
//! Both lists stand in order, so each is passed once, and what is left of the rows comes out in order too: nothing is sorted, and no
//! list is made for a row. A row that both have costs one comparison.

ghost use Rattle.std.specs.Prelude.{◌≡◌, ◌++◌, ◌↔◌, pos, ◌+ℤ◌, ◌≤ℤ◌, ◌<ℤ◌, IsTrue, IfOk, OnOk};
ghost use Rattle.itpg_base.specs.Spans.{IsSpan};
ghost use Rattle.itpg_base.specs.Lists.{Among};
ghost use Rattle.relation_rows.specs.declared.times.OneRow.{OneRow as PlainOneRow};
ghost use Rattle.relation_rows.specs.Times.{IsOneTime, AreTimes, OnlyFirstHas, HasUncut, MeetsTime, HaveSameMoments, Reaches, CutsRow, begins_by, ends_before, gap};

use crate::times::{OneRow, OneTime};
use interval_set::Span;
use itpg_base::{ObjNo, count_leading};
use std::alloc::{AllocError, Global};

fn begins_in_time(cut: &OneRow, row: &OneRow) -> bool
    ensures { result ≡ begins_by cut.now row.now.object.0 row.now.span.to }
{
    cut.object.0 < row.object.0 || cut.object.0 == row.object.0 && cut.span.from() <= row.span.to()
}

fn ends_too_soon(cut: &OneRow, row: &OneRow) -> bool
    ensures { result ≡ ends_before cut.now row.now.object.0 row.now.span.from }
{
    cut.object.0 < row.object.0 || cut.object.0 == row.object.0 && cut.span.to() < row.span.from()
}

// Of the rows those that share an object and a moment with the row.
fn meeting<'a>(rows: &'a [OneRow], row: &OneRow) -> &'a [OneRow]
    requires { IsOneTime rows.now }
    ensures there { (s : PlainOneRow) → Among result.now s → Among rows.now s }
    ensures object { (s : PlainOneRow) → Among result.now s → s.object.0 ≡ row.now.object.0 }
    ensures meets { (s : PlainOneRow) → Among result.now s → MeetsTime row.now s }
    ensures order { IsOneTime result.now }
    ensures all { (s : PlainOneRow) → Among rows.now s → s.object.0 ≡ row.now.object.0 → s.span.from ≤ℤ row.now.span.to → row.now.span.from ≤ℤ s.span.to → Among result.now s }
{
    let count = count_leading(rows, |cut| begins_in_time(cut, row));
    let begun = &rows[..count];
    let left = count_leading(begun, |cut| ends_too_soon(cut, row));
    &begun[left..]
}

// Adds the object at the moments from the first on that come before the other, if there are any.
fn push_gap(
    times: &mut Vec<OneRow>,
    object: ObjNo,
    from: i64,
    before: i64,
) -> Result<(), AllocError>
    ensures { OnOk result (times.new.items ≡ times.old.items ++ gap object from before) }
{
    if from < before {
        times.push(OneRow {
            object,
            span: Span::new(from, before - 1).unwrap(),
        })?;
    }
    Ok(())
}

fn ends_within(row: &OneRow, cut: &OneRow) -> bool
    ensures { IsTrue result ↔ (row.now.span.to ≤ℤ cut.now.span.to) }
{
    row.span.to() <= cut.span.to()
}

// The first moment after the cut, which comes by the last one.
fn first_after(cut: &OneRow, last: i64) -> i64
    requires { cut.now.span.to <ℤ last }
    ensures { result ≡ cut.now.span.to +ℤ pos 1 }
{
    cut.span.to() + 1
}

// Adds what the row has and no cut has. The cuts stand in order, and each shares a moment with the row.
fn push_uncut(times: &mut Vec<OneRow>, row: &OneRow, cuts: &[OneRow]) -> Result<(), AllocError>
    requires span { IsSpan row.now.span }
    requires order { IsOneTime cuts.now }
    requires meets { (s : PlainOneRow) → Among cuts.now s → MeetsTime row.now s }
    ensures { OnOk result (HasUncut row.now cuts.now times.old.items times.new.items) }
{
    let mut from = row.span.from();
    for cut in cuts {
        push_gap(times, row.object, from, cut.span.from())?;
        if ends_within(row, cut) {
            return Ok(());
        }
        from = first_after(cut, row.span.to());
    }
    times.push(OneRow {
        object: row.object,
        span: Span::new(from, row.span.to()).unwrap(),
    })?;
    Ok(())
}

// Whether the two have the same object and the same moments.
fn is_same(cut: &OneRow, row: &OneRow) -> bool
    ensures { IsTrue result → HaveSameMoments cut.now row.now }
{
    if cut.object.0 != row.object.0 {
        return false;
    }
    cut.span.from() == row.span.from() && cut.span.to() == row.span.to()
}

// The cuts that don't end before the row begins.
fn reaching<'a>(cuts: &'a [OneRow], row: &OneRow) -> &'a [OneRow]
    requires { IsOneTime cuts.now }
    ensures order { IsOneTime result.now }
    ensures there { (s : PlainOneRow) → Among result.now s → Among cuts.now s }
    ensures kept { (s : PlainOneRow) → Among cuts.now s → Reaches row.now s → Among result.now s }
{
    let passed = count_leading(cuts, |cut| ends_too_soon(cut, row));
    &cuts[passed..]
}

// Adds what the row has and no cut has. The cuts that may have something of the rows behind it are left.
fn push_left<'a>(
    times: &mut Vec<OneRow>,
    row: &OneRow,
    cuts: &'a [OneRow],
) -> Result<&'a [OneRow], AllocError>
    requires span { IsSpan row.now.span }
    requires order { IsOneTime cuts.now }
    ensures { IfOk result (λ left. CutsRow row.now cuts.now left.now times.old.items times.new.items) }
{
    if let Some((cut, later)) = cuts.split_first() {
        if is_same(cut, row) {
            return Ok(later);
        }
    }
    let left = reaching(cuts, row);
    push_uncut(times, row, meeting(left, row))?;
    Ok(left)
}

/// What the first rows have and the second haven't.
pub(crate) fn only_first(
    alloc: Global,
    first: &[OneRow],
    second: &[OneRow],
) -> Result<OneTime, AllocError>
    requires first { IsOneTime first.now }
    requires second { IsOneTime second.now }
    ensures { IfOk result (λ rest. AreTimes (OnlyFirstHas first.now second.now) rest) }
{
    let mut times = Vec::new(alloc);
    let mut cuts = second;
    for row in first {
        cuts = push_left(&mut times, row, cuts)?;
    }
    Ok(OneTime::from_rows(times))
}
