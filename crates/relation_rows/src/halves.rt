//! Ways by many rows of which one half is the other behind a step, or with one behind it.
//!
//! Such ways take the rows of both relations multiplied. So only those by a few rows are listed. The ways that begin with the second half
//! are the step and then those that begin with the first; the ways that go on by the second half are those that go on by the first, and
//! then the step. Where both lists are even, the first is halved: a step before them moves departures, so that the many rows which the ways
//! may have at a few departures aren't made anew for each half. Only where rows go on by themselves the longer of the two lists is halved
//! each time: their ways are about as many as they are, so that all halves together take hardly longer than the last ones to be joined.
//!
//! Long even runs may stand among other rows. Then the ways by these runs are taken by halves, and those by the rest as they are.

ghost use Rattle.std.specs.Prelude.{◌≡◌, List, Ok, IfOk, IfSome};
ghost use Rattle.itpg_base.specs.Lists.{Among, Ordered};
ghost use Rattle.band_normal.specs.Bands.{IsWellFormed};
ghost use Rattle.relation_rows.specs.declared.rows.Row.{Row as PlainRow};
ghost use Rattle.relation_rows.specs.Rows.{RowBefore, NormalRows};
ghost use Rattle.relation_rows.specs.Relations.{EitherHolds, HasMiddlePoint};

use crate::evenness::{AreEven, comes_first, comes_second, evenness, is_halved, run_len};
use crate::known::Known;
use crate::offsets::Offsets;
use crate::parted::{Parted, in_parts};
use crate::relations::Relation;
use crate::rows::{RelFault, Row};
use crate::steps::{onward, step_from, step_to, unless_wide};
use crate::union::united;
use std::alloc::AllocError;

// So many rows at most are made on the way.
const MOST: usize = 1_048_576;

// The pairs of either relation, if both are there.
fn either(one: &Relation, other: Result<Relation, RelFault>) -> Result<Option<Relation>, AllocError>
    ensures { IfOk result (λ found. IfSome found (λ all. (rows : List PlainRow) × (other ≡ Ok rows) × NormalRows (EitherHolds one.now rows) all)) }
{
    let Some(other) = unless_wide(other)? else {
        return Ok(None);
    };
    both_of(one, &other)
}

// The pairs of both.
fn both_of(one: &Relation, other: &Relation) -> Result<Option<Relation>, AllocError>
    ensures { IfOk result (λ found. IfSome found (λ all. NormalRows (EitherHolds one.now other.now) all)) }
{
    unless_wide(united(*one.rows.allocator(), &one.rows, &other.rows, MOST))
}

// The ways that begin with the rows and go on by the others, by halves of those that are even; none where they aren't.
fn by_halves(
    known: &mut Known,
    rows: &[Row],
    others: &[Row],
    even: AreEven,
) -> Result<Option<Relation>, AllocError>
    requires order { Ordered RowBefore rows.now }
    requires rows { (r : PlainRow) → Among rows.now r → IsWellFormed r.band }
    requires others_order { Ordered RowBefore others.now }
    requires others { (r : PlainRow) → Among others.now r → IsWellFormed r.band }
    ensures { IfOk result (λ found. IfSome found (λ all. NormalRows (HasMiddlePoint rows.now others.now) all)) }
{
    if is_halved(rows.len(), comes_first(rows, others, even)) {
        let (front, last) = rows.split_at(rows.len() / 2 * 2);
        let (first, half) = front.split_at(rows.len() / 2);
        let Some(step) = step_to(known, first, half)? else {
            return Ok(None);
        };
        let Some(done) = by_halves(known, first, others, even)? else {
            return Ok(None);
        };
        let moved = onward(known, &step.rows, &done.rows, MOST);
        let Some(both) = either(&done, moved)? else {
            return Ok(None);
        };
        let Some(more) = by_halves(known, last, others, even)? else {
            return Ok(None);
        };
        return both_of(&both, &more);
    }
    if is_halved(others.len(), comes_second(rows, others, even)) {
        let (front, last) = others.split_at(others.len() / 2 * 2);
        let (first, half) = front.split_at(others.len() / 2);
        let Some(step) = step_from(known, first, half)? else {
            return Ok(None);
        };
        let Some(done) = by_halves(known, rows, first, even)? else {
            return Ok(None);
        };
        let moved = onward(known, &done.rows, &step.rows, MOST);
        let Some(both) = either(&done, moved)? else {
            return Ok(None);
        };
        let Some(more) = by_halves(known, rows, last, even)? else {
            return Ok(None);
        };
        return both_of(&both, &more);
    }
    unless_wide(onward(known, rows, others, MOST))
}

// The ways that begin with the rows and go on by the others, which are even, run by run.
fn by_second_runs(
    known: &mut Known,
    rows: &[Row],
    others: &[Row],
    even: AreEven,
) -> Result<Option<Relation>, AllocError>
    requires order { Ordered RowBefore rows.now }
    requires rows { (r : PlainRow) → Among rows.now r → IsWellFormed r.band }
    requires others_order { Ordered RowBefore others.now }
    requires others { (r : PlainRow) → Among others.now r → IsWellFormed r.band }
    ensures { IfOk result (λ found. IfSome found (λ all. NormalRows (HasMiddlePoint rows.now others.now) all)) }
{
    let mut all = Relation::empty(known.allocator());
    let mut left = others;
    while !left.is_empty() {
        let (run, later) = left.split_at(run_len(left));
        let Some(more) = by_halves(known, rows, run, even)? else {
            return Ok(None);
        };
        let Some(both) = both_of(&all, &more)? else {
            return Ok(None);
        };
        all = both;
        left = later;
    }
    Ok(Some(all))
}

// The ways that begin with the rows and go on by the others: by their long even runs, if these are to be halved, and by the rest.
fn by_second_parts(
    known: &mut Known,
    rows: &[Row],
    others: &Parted<'_>,
    even: AreEven,
) -> Result<Option<Relation>, AllocError>
    requires order { Ordered RowBefore rows.now }
    requires rows { (r : PlainRow) → Among rows.now r → IsWellFormed r.band }
    requires others { (r : PlainRow) → Among others.now r → IsWellFormed r.band }
    ensures { IfOk result (λ found. IfSome found (λ all. NormalRows (HasMiddlePoint rows.now others.now) all)) }
{
    if !even.second {
        return by_halves(known, rows, others.rows(), even);
    }
    let (runs, rest) = others.parts();
    let Some(by_even) = by_second_runs(known, rows, runs, even)? else {
        return Ok(None);
    };
    if rest.is_empty() {
        return Ok(Some(by_even));
    }
    let Some(by_rest) = by_halves(known, rows, rest, even.by_first())? else {
        return Ok(None);
    };
    both_of(&by_even, &by_rest)
}

// The ways that begin with the rows, which are even, and go on by the others, run by run of the rows.
fn by_first_runs(
    known: &mut Known,
    rows: &[Row],
    others: &Parted<'_>,
    even: AreEven,
) -> Result<Option<Relation>, AllocError>
    requires order { Ordered RowBefore rows.now }
    requires rows { (r : PlainRow) → Among rows.now r → IsWellFormed r.band }
    requires others { (r : PlainRow) → Among others.now r → IsWellFormed r.band }
    ensures { IfOk result (λ found. IfSome found (λ all. NormalRows (HasMiddlePoint rows.now others.now) all)) }
{
    let mut all = Relation::empty(known.allocator());
    let mut left = rows;
    while !left.is_empty() {
        let (run, later) = left.split_at(run_len(left));
        let Some(more) = by_second_parts(known, run, others, even)? else {
            return Ok(None);
        };
        let Some(both) = both_of(&all, &more)? else {
            return Ok(None);
        };
        all = both;
        left = later;
    }
    Ok(Some(all))
}

/// The ways that begin with the rows, where many of these or of the second ones are in long even runs and many ways are to be listed; none
/// where neither are.
pub(crate) fn by_runs(
    known: &mut Known,
    rows: &[Row],
    second: &Offsets<'_>,
) -> Result<Option<Relation>, AllocError>
    requires order { Ordered RowBefore rows.now }
    requires rows { (r : PlainRow) → Among rows.now r → IsWellFormed r.band }
    requires second { (r : PlainRow) → Among second.now r → IsWellFormed r.band }
    ensures { IfOk result (λ found. IfSome found (λ all. NormalRows (HasMiddlePoint rows.now second.now) all)) }
{
    let even = evenness(rows, second);
    if !even.first && !even.second {
        return Ok(None);
    }
    let alloc = known.allocator();
    let first = in_parts(alloc, rows, even.first)?;
    let others = in_parts(alloc, second.rows(), even.halves_second())?;
    let (runs, rest) = first.parts();
    if runs.is_empty() {
        return by_second_parts(known, rest, &others, even.of_rest());
    }
    let Some(of_even) = by_first_runs(known, runs, &others, even)? else {
        return Ok(None);
    };
    if rest.is_empty() {
        return Ok(Some(of_even));
    }
    let Some(of_rest) = by_second_parts(known, rest, &others, even.of_rest())? else {
        return Ok(None);
    };
    both_of(&of_even, &of_rest)
}
