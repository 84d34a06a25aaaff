//! Repetitions that come to an end after few steps, worked out from one source after the other.
//!
//! A step goes on from the pairs that the last one has added alone, and its lists are those of one source. Once it adds nothing, no further
//! step does. By then it is known how many rows each number of steps makes from this source, and the greatest of these numbers, summed over
//! the sources, is at least the number of rows from all of them.

ghost use Rattle.std.specs.Prelude.{◌≡◌, ◌↔◌, ◌≤◌, ℕ, Ok, Some, take, slice_get, IsTrue, IfOk, IfSome};
ghost use Rattle.itpg_base.specs.Lists.{Ordered};
ghost use Rattle.itpg_base.specs.Points.{Point};
ghost use Rattle.relation_rows.specs.Relations.{HoldsOrLeads, OnlyFirstHolds};
ghost use Rattle.relation_rows.specs.Rows.{Fits, NormalRows, RowBefore, RowsHold};
ghost use Rattle.wide_witness.specs.Along.{IsAlong};
ghost use Rattle.wide_witness.specs.BySource.{IsAlongFrom, IsSource};

use itpg_base::ObjNo;
use relation_rows::{Onward, RelFault, Relation, Row};
use std::alloc::{AllocError, Global};

// So many steps are tried from each source, and those that the sources before it left over.
const MANY: u64 = 24;

// With fewer rows than these, it is soon worked out for all sources at once.
const FEW_ROWS: u64 = 32;

// Where so few rows are new, or so many, what they lead to is made by itself: few lead to little that is known, and with many it may be
// too wide before the union.
const FEW_NEW: u64 = 128;

const MANY_NEW: u64 = 65_536;

// What the steps lead to from a source, the most rows that it has for any number of steps, and how many of them led to something new.
#[derive(Drop)]
struct Closed {
    all: Relation,
    most_rows: u64,
    count: u64,
}

// The relation, or None where it is too wide.
fn unless_wide(made: Result<Relation, RelFault>) -> Result<Option<Relation>, AllocError>
    ensures { IfOk result (λ o. IfSome o (λ rows. made ≡ Ok rows)) }
{
    match made {
        Ok(rows) => Ok(Some(rows)),
        Err(RelFault::Wide) => Ok(None),
        Err(RelFault::Memory) => Err(AllocError),
    }
}

// What is known together with where one step leads on from the newest, and what of this isn't known. None where it is too wide.
fn one_step_on(
    onward: &Onward<'_>,
    known: &Relation,
    newest: &Relation,
    max_rows: u32,
) -> Result<Option<(Relation, Relation)>, AllocError>
    ensures all { IfOk result (λ o. IfSome o (λ p. NormalRows (HoldsOrLeads known.now newest.now onward.now) p.0)) }
    ensures fresh { IfOk result (λ o. IfSome o (λ p. NormalRows (OnlyFirstHolds p.0 known.now) p.1)) }
{
    let count = newest.row_count();
    if FEW_NEW < count && count < MANY_NEW {
        let Some(all) = unless_wide(onward.union_behind(known, newest, max_rows))? else {
            return Ok(None);
        };
        let fresh = all.minus(known)?;
        return Ok(Some((all, fresh)));
    }
    let Some(made) = unless_wide(onward.behind(newest, max_rows))? else {
        return Ok(None);
    };
    let fresh = made.minus(known)?;
    let Some(all) = unless_wide(known.union(&fresh, max_rows))? else {
        return Ok(None);
    };
    Ok(Some((all, fresh)))
}

// Where the steps lead from the source. None where each of so many of them leads to something new, or where it is too wide.
fn closed_from(
    one: &Relation,
    onward: &Onward<'_>,
    source: ObjNo,
    limit: u64,
    max_rows: u32,
) -> Result<Option<Closed>, AllocError>
    requires { (x : Point) → (y : Point) → RowsHold one.now x y → x ≡ y }
    ensures made { IfOk result (λ o. IfSome o (λ c. (most : ℕ) → limit ≤ most → NormalRows (IsAlongFrom one.now onward.now source.0 most) c.all)) }
    ensures few { IfOk result (λ o. IfSome o (λ c. (n : ℕ) → Fits (IsAlongFrom one.now onward.now source.0 n) c.most_rows)) }
{
    let mut known = one.from_source(source)?;
    let mut newest = one.from_source(source)?;
    let mut most_rows = known.row_count();
    for count in 0..limit {
        let Some((next, fresh)) = one_step_on(onward, &known, &newest, max_rows)? else {
            return Ok(None);
        };
        if fresh.row_count() == 0 {
            let all = known;
            return Ok(Some(Closed {
                all,
                most_rows,
                count,
            }));
        }
        most_rows = most_rows.max(next.row_count());
        known = next;
        newest = fresh;
    }
    Ok(None)
}

// Whether the row at the place leads from the source of one before it.
fn is_source_had(rows: &[Row], i: usize, row: &Row) -> bool
    requires order { Ordered RowBefore rows.now }
    requires place { slice_get rows.now i ≡ Some row.now }
    ensures { IsTrue result ↔ IsSource (take i rows.now) row.now.source.0 }
{
    i > 0 && rows[i - 1].source.0 == row.source.0
}

// Where the steps lead from each source of the one relation.
fn from_sources(
    alloc: Global,
    one: &Relation,
    onward: &Onward<'_>,
    most: u64,
    max_rows: u32,
) -> Result<Option<Relation>, AllocError>
    requires { (x : Point) → (y : Point) → RowsHold one.now x y → x ≡ y }
    ensures made { IfOk result (λ o. IfSome o (λ all. (x : Point) → (y : Point) → RowsHold all x y ↔ IsAlong one.now onward.now most x y)) }
    ensures fits { IfOk result (λ o. IfSome o (λ _. (n : ℕ) → Fits (IsAlong one.now onward.now n) max_rows)) }
{
    let rows = one.rows();
    let mut all = Relation::empty(alloc);
    let mut total = 0u64;
    let mut spare = MANY;
    for (i, row) in rows.iter().enumerate() {
        if is_source_had(rows, i, row) {
            continue;
        }
        let limit = spare.min(most);
        let Some(closed) = closed_from(one, onward, row.source, limit, max_rows)? else {
            return Ok(None);
        };
        spare = spare.saturating_sub(closed.count).saturating_add(MANY);
        total = total.saturating_add(closed.most_rows);
        if total > max_rows as u64 {
            return Ok(None);
        }
        all.append(&closed.all)?;
    }
    Ok(Some(all))
}

/// Where `one` leads and then at most `most` of the steps, worked out by single steps from one source after the other. None where `most` is
/// below 24, where `one` has fewer than 32 rows, where from some source steps go on to lead to something new when 24 for it and each source
/// before it are used up, or where it isn't seen that for any number of steps this has at most `max_rows` normal rows. It may be None at any
/// time.
///
/// ```text
///     one: each of a, b, c and more to itself     steps: a to b, b to c
///     from a: to a, then to b, then to c, then to nothing new     3 rows
///     from b: to b, then to c, then to nothing new                2 rows
///     from c: to c, then to nothing new                           1 row, so at most 6 from these three for any number of steps
/// ```
///
/// # Errors
///
/// If memory runs out.
pub fn source_by_source(
    alloc: Global,
    one: &Relation,
    steps: &Relation,
    most: u64,
    max_rows: u32,
) -> Result<Option<Relation>, AllocError>
    requires { (x : Point) → (y : Point) → RowsHold one.now x y → x ≡ y }
    ensures made { IfOk result (λ o. IfSome o (λ all. (x : Point) → (y : Point) → RowsHold all x y ↔ IsAlong one.now steps.now most x y)) }
    ensures fits { IfOk result (λ o. IfSome o (λ _. (n : ℕ) → Fits (IsAlong one.now steps.now n) max_rows)) }
{
    if most < MANY || one.row_count() < FEW_ROWS {
        return Ok(None);
    }
    let onward = steps.onward()?;
    from_sources(alloc, one, &onward, most, max_rows)
}
