//! What is left of the rows of one source and one target, one row after the other.
//!
//! Where rows and cuts stand by first departure, the cuts that end before a row departs are passed for good, and those that a row
//! shares departures with stand together from there. Where most rows share departures with few cuts, this is all there is to do.

ghost use Rattle.std.specs.Prelude.{◌↔◌, ◌⊎◌, ◌≤◌, ◌<ℤ◌, ℤ, length, take, drop, IfOk, OnOk, IfSome, IsTrue};
ghost use Rattle.itpg_base.specs.Lists.{Among, Ordered};
ghost use Rattle.band_normal.specs.Bands.{InBand, IsWellFormed};
ghost use Rattle.band_normal.specs.Zones.{SomeMeets};
ghost use Rattle.relation_rows.specs.declared.rows.Row.{Row as PlainRow};
ghost use Rattle.relation_rows.specs.Uniting.{SomeHasBand};
ghost use Rattle.relation_rows.specs.Minus.{OnlyFirstHasBand};
ghost use Rattle.relation_rows.specs.Ways.{DepartsNoLater};

use crate::minus::{push_without, without_each, zones_of_bands};
use crate::rows::Row;
use band_normal::zone_of;
use std::alloc::{AllocError, Global};
use zone_core::Zone;

// For each row and each cut there may be so many steps.
const STEPS: usize = 16;

// Whether the rows stand by first departure.
fn stand_by_departure(rows: &[Row]) -> bool
    ensures { IsTrue result → Ordered DepartsNoLater rows.now }
{
    rows.is_sorted_by_key(|row| row.band.from)
}

// Whether the cut ends before the row departs.
fn ends_too_soon(cut: &Row, row: &Row) -> bool
    ensures { IsTrue result ↔ (cut.now.band.to <ℤ row.now.band.from) }
{
    cut.band.to < row.band.from
}

// Whether the cut begins after the row's last departure.
fn begins_too_late(cut: &Row, row: &Row) -> bool
    ensures { IsTrue result ↔ (row.now.band.to <ℤ cut.now.band.from) }
{
    row.band.to < cut.band.from
}

// How many of the cuts, from the first on, end before the row departs.
fn ended_count(cuts: &[Row], row: &Row) -> usize
    ensures within { result ≤ length cuts.now }
    ensures ended { (c : PlainRow) → Among (take result cuts.now) c → c.band.to <ℤ row.now.band.from }
{
    for (i, cut) in cuts.iter().enumerate() {
        if !ends_too_soon(cut, row) {
            return i;
        }
    }
    cuts.len()
}

// How many of the cuts, from the first on, begin by the row's last departure.
fn begun_count(cuts: &[Row], row: &Row) -> usize
    requires { Ordered DepartsNoLater cuts.now }
    ensures within { result ≤ length cuts.now }
    ensures later { (c : PlainRow) → Among (drop result cuts.now) c → row.now.band.to <ℤ c.band.from }
{
    for (i, cut) in cuts.iter().enumerate() {
        if begins_too_late(cut, row) {
            return i;
        }
    }
    cuts.len()
}

// Adds what is left of the row without the cuts.
fn push_row_left(left: &mut Vec<Zone>, row: &Row, cuts: &[Row]) -> Result<(), AllocError>
    requires row { IsWellFormed row.now.band }
    requires cuts { (r : PlainRow) → Among cuts.now r → IsWellFormed r.band }
    ensures { OnOk result ((t : ℤ) → (u : ℤ) → SomeMeets left.new.items t u ↔ (SomeMeets left.old.items t u ⊎ (InBand row.now.band t u × (¬ SomeHasBand cuts.now t u)))) }
{
    let zone = zone_of(&row.band);
    if cuts.is_empty() {
        left.push(zone)?;
        return Ok(());
    }
    if let [cut] = cuts {
        push_without(left, &zone, &zone_of(&cut.band))?;
        return Ok(());
    }
    let alloc = *left.allocator();
    let zones = zones_of_bands(alloc, cuts)?;
    let rest = without_each(alloc, &[zone], &zones)?;
    left.extend_from_slice(&rest)?;
    Ok(())
}

/// The pairs of moments of the rows' bands that no cut has. None where the rows or the cuts don't stand by first departure, or where
/// that takes too many steps.
pub(crate) fn left_by_rows(
    alloc: Global,
    rows: &[Row],
    cuts: &[Row],
) -> Result<Option<Vec<Zone>>, AllocError>
    requires rows { (r : PlainRow) → Among rows.now r → IsWellFormed r.band }
    requires cuts { (r : PlainRow) → Among cuts.now r → IsWellFormed r.band }
    ensures { IfOk result (λ o. IfSome o (λ left. (t : ℤ) → (u : ℤ) → SomeMeets left.items t u ↔ OnlyFirstHasBand rows.now cuts.now t u)) }
{
    if !stand_by_departure(rows) || !stand_by_departure(cuts) {
        return Ok(None);
    }
    let most = rows.len().saturating_add(cuts.len()).saturating_mul(STEPS);
    let mut left = Vec::with_capacity(alloc, rows.len())?;
    let mut later = cuts;
    let mut steps = 0usize;
    for row in rows {
        let (_, lasting) = later.split_at(ended_count(later, row));
        let (met, _) = lasting.split_at(begun_count(lasting, row));
        steps = steps.saturating_add(met.len().saturating_mul(met.len()));
        if steps > most {
            return Ok(None);
        }
        push_row_left(&mut left, row, met)?;
        later = lasting;
    }
    Ok(Some(left))
}
