//! Repetitions of steps that lead each object to itself one moment later.
//!
//! At most n of them lead a point to itself, and up to n moments on within its stretch, the departures of a row and the moment after them. No
//! two stretches of an object touch, since their rows would be one. So the zones of this are had at once from the rows of the steps.

ghost use Rattle.std.specs.Prelude.{◌≡◌, ◌⊎◌, ◌↔◌, ◌+◌, ◌*◌, ◌≤◌, ℕ, ℤ, length, IsTrue, IfOk, IfSome, OnOk};
ghost use Rattle.itpg_base.specs.Lists.{Among};
ghost use Rattle.itpg_base.specs.Points.{Point};
ghost use Rattle.zone_core.specs.Zone.{Meets};
ghost use Rattle.band_normal.specs.Bands.{IsWellFormed};
ghost use Rattle.relation_rows.specs.declared.rows.Row.{Row as PlainRow};
ghost use Rattle.relation_rows.specs.Relations.{ItemsHold};
ghost use Rattle.relation_rows.specs.Rows.{Fits, RowsHold};
ghost use Rattle.wide_witness.specs.Along.{AlongBand, AlongRows, IsAlong, IsOneOn, LeadOneOn, LeadsOneOn};

use band_normal::{Band, End, zone_of};
use itpg_base::ObjNo;
use relation_rows::{RelFault, Relation, Row};
use std::alloc::{AllocError, Global};
use zone_core::{Bounds, Zone, tight};

// The greatest difference of two moments.
const FARTHEST: u64 = 8_000_000_000_000;

// An item of a relation: a zone from an object to another.
type Item = (ObjNo, ObjNo, Zone);

// Whether the end stands one moment after each departure of the band.
fn is_one_on(end: End, band: &Band) -> bool
    requires { IsWellFormed band.now }
    ensures { IsTrue result → IsOneOn end band.now }
{
    match end {
        End::Moving(wait) => wait == 1,
        End::Fixed(moment) => band.from == band.to && moment == band.from + 1,
    }
}

// Whether the row leads an object to itself, one moment later.
fn leads_one_on(row: &Row) -> bool
    requires { IsWellFormed row.now.band }
    ensures { IsTrue result → LeadsOneOn row.now }
{
    if row.source.0 != row.target.0 || !is_one_on(row.band.low, &row.band) {
        return false;
    }
    is_one_on(row.band.high, &row.band)
}

// Whether each row does.
fn lead_one_on(rows: &[Row]) -> bool
    requires { (r : PlainRow) → Among rows.now r → IsWellFormed r.band }
    ensures { IsTrue result → LeadOneOn rows.now }
{
    for row in rows {
        if !leads_one_on(row) {
            return false;
        }
    }
    true
}

// Whether six rows for each of the steps and two for each of the one relation are within the limit.
//
// For any number of steps a row begins where it begins to be cut otherwise how far they lead, or one moment later. That is where a row of the
// one relation begins, and where a stretch begins, where its end is as near as the steps reach, and behind its end.
fn are_few(one: &Relation, steps: &Relation, max_rows: u32) -> bool
    ensures { IsTrue result → 6 * length steps.now + 2 * length one.now ≤ max_rows }
{
    let of_steps = steps.row_count().saturating_mul(6);
    let of_one = one.row_count().saturating_mul(2);
    of_steps.saturating_add(of_one) <= max_rows as u64
}

// The zone of the pairs to which at most so many steps of the row lead.
fn zone_along(row: &Row, most: u64) -> Zone
    requires formed { IsWellFormed row.now.band }
    requires steps { LeadsOneOn row.now }
    ensures { (t : ℤ) → (u : ℤ) → Meets result t u ↔ AlongBand row.now.band most t u }
{
    let last = row.band.to + 1;
    let bounds = Bounds {
        a: row.band.from,
        b: last,
        c: row.band.from,
        d: last,
        e: 0,
        f: most.min(FARTHEST) as i64,
    };
    tight(bounds).unwrap()
}

// Adds the zone of each row.
fn push_rows(items: &mut Vec<Item>, rows: &[Row]) -> Result<(), AllocError>
    requires { (r : PlainRow) → Among rows.now r → IsWellFormed r.band }
    ensures { OnOk result ((x y : Point) → ItemsHold items.new.items x y ↔ (ItemsHold items.old.items x y ⊎ RowsHold rows.now x y)) }
{
    for row in rows {
        items.push((row.source, row.target, zone_of(&row.band)))?;
    }
    Ok(())
}

// Adds where at most so many steps of each row lead.
fn push_along(items: &mut Vec<Item>, rows: &[Row], most: u64) -> Result<(), AllocError>
    requires formed { (r : PlainRow) → Among rows.now r → IsWellFormed r.band }
    requires steps { LeadOneOn rows.now }
    ensures { OnOk result ((x y : Point) → ItemsHold items.new.items x y ↔ (ItemsHold items.old.items x y ⊎ AlongRows rows.now most x y)) }
{
    for row in rows {
        items.push((row.source, row.source, zone_along(row, most)))?;
    }
    Ok(())
}

/// Where `one` leads and then at most `most` of the steps, where each step leads from an object to itself one moment later. None where some
/// step doesn't, or where it isn't seen at once that for any number of steps this has at most `max_rows` normal rows, and it may be None at
/// any time.
///
/// ```text
///     one: a at 0..9 to itself     steps: a at 2..5, one moment on     at most 2 of them
///     at 0..1 and 7..9 to itself, at 2..4 up to two moments on, at 5..6 up to 6
/// ```
///
/// # Errors
///
/// If memory runs out.
pub fn along_time(
    alloc: Global,
    one: &Relation,
    steps: &Relation,
    most: u64,
    max_rows: u32,
) -> Result<Option<Relation>, AllocError>
    requires same { (x : Point) → (y : Point) → RowsHold one.now x y → x ≡ y }
    requires inside { (x : Point) → (y : Point) → RowsHold steps.now x y → RowsHold one.now x x × RowsHold one.now y y }
    ensures made { IfOk result (λ o. IfSome o (λ all. (x : Point) → (y : Point) → RowsHold all x y ↔ IsAlong one.now steps.now most x y)) }
    ensures fits { IfOk result (λ o. IfSome o (λ _. (n : ℕ) → Fits (IsAlong one.now steps.now n) max_rows)) }
{
    let one_rows = one.rows();
    let step_rows = steps.rows();
    if !lead_one_on(step_rows) || !are_few(one, steps, max_rows) {
        return Ok(None);
    }
    let mut items = Vec::with_capacity(alloc, one_rows.len().saturating_add(step_rows.len()))?;
    push_rows(&mut items, one_rows)?;
    push_along(&mut items, step_rows, most)?;
    match Relation::from_zones(alloc, items, max_rows) {
        Ok(all) => Ok(Some(all)),
        Err(RelFault::Memory) => Err(AllocError),
        Err(RelFault::Wide) => Ok(None),
    }
}
