//! The ways that begin with a row, or with one of some rows, and go on by a row that departs where that one arrives.
//!
//! The rows from one object stand together, from a place that is listed. A few of them are gone through; if there are more, those
//! that depart in time are searched in a timetable, which has only the rows from such busy objects, and which is made only if few of
//! them do. A way that lies within the last one to its target is passed over. Where the ways become many they are made fewer (`fewer`), so that ways
//! that lie within others take no memory for long.

ghost use Rattle.std.specs.Prelude.{◌≡◌, ◌⊎◌, ◌↔◌, ◌<◌, ℤ, length, IsTrue, IfOk, OnOk};
ghost use Rattle.itpg_base.specs.Points.{Point};
ghost use Rattle.zone_core.specs.Zone.{Between, Holds, Meets};
ghost use Rattle.zone_compose.specs.Compose.{AreArrivals};
ghost use Rattle.itpg_base.specs.Lists.{Among};
ghost use Rattle.band_normal.specs.Bands.{IsWellFormed};
ghost use Rattle.relation_rows.specs.declared.rows.Row.{Row as PlainRow};
ghost use Rattle.relation_rows.specs.Relations.{InItem, ItemsHold, HasMiddlePoint};
ghost use Rattle.relation_rows.specs.Timetables.{IsTimetable};
ghost use Rattle.relation_rows.specs.Ways.{ItemThere, GoesBy, GoesOn, GoesOnBy, GoesThrough, IsStill, AreComposed};

use crate::direct::{first_arrival, last_arrival};
use crate::fewer::{fewer_beyond, most_ways};
use crate::gather::Item;
use crate::latest::{NOTED, are_had, is_missed, note, noted};
use crate::offsets::Offsets;
use crate::rows::Row;
use crate::timetable::{Leg, find_departing};
use band_normal::{Band, End, zone_of};
use itpg_base::ObjNo;
use std::alloc::AllocError;
use zone_compose::{arrivals, compose};
use zone_core::{Zone, tight};

/// More ways than these are made fewer.
pub(crate) const MANY: usize = 65_536;

/// So many rows from one object are gone through, and more are searched.
pub(crate) const FEW: usize = 8;

// So many of the rows from one object are tried, before they are searched.
const TRIED: usize = 8;

// A leg of a timetable takes as long as passing so many rows.
const DEAR: usize = 32;

fn push_there(
    items: &mut Vec<Item>,
    source: ObjNo,
    target: ObjNo,
    zone: Option<Zone>,
) -> Result<(), AllocError>
    ensures { OnOk result ((x : Point) → (y : Point) → ItemsHold items.new.items x y ↔ (ItemsHold items.old.items x y ⊎ ItemThere source target zone x y)) }
{
    if let Some(zone) = zone {
        items.push((source, target, zone))?;
    }
    Ok(())
}

/// Whether each pair of the band arrives when it departs.
pub(crate) fn is_still(band: &Band) -> bool
    ensures { IsTrue result → IsStill band.now }
{
    match band.low {
        End::Fixed(_) => false,
        End::Moving(low) => match band.high {
            End::Fixed(_) => false,
            End::Moving(high) => low == 0 && high == 0,
        },
    }
}

// The zone's pairs that arrive while the band departs.
fn arriving_in(zone: &Zone, band: &Band) -> Option<Zone>
    requires { IsWellFormed band.now }
    ensures { (t : ℤ) → (u : ℤ) → Holds result t u ↔ (Meets zone.now t u × Between band.now.from band.now.to u) }
{
    let mut bounds = zone.bounds();
    bounds.c = bounds.c.max(band.from);
    bounds.d = bounds.d.min(band.to);
    tight(bounds)
}

// The zone of the ways by the zone's pairs and then the band's. Where these depart too soon or too late, there is none.
fn way_by(zone: &Zone, span: (i64, i64), band: &Band) -> Option<Zone>
    requires span { AreArrivals zone.now span.0 span.1 }
    requires band { IsWellFormed band.now }
    ensures { (t : ℤ) → (u : ℤ) → Holds result t u ↔ GoesThrough zone.now band.now t u }
{
    if band.to < span.0 || span.1 < band.from {
        return None;
    }
    if is_still(band) {
        return arriving_in(zone, band);
    }
    compose(zone, &zone_of(band))
}

// Whether the zone has each pair of moments that leads by the first zone and then the band. False also where that isn't seen.
fn is_around(zone: &Zone, first: &Zone, band: &Band) -> bool
    requires { IsWellFormed band.now }
    ensures { IsTrue result → (t : ℤ) → (u : ℤ) → GoesThrough first.now band.now t u → Meets zone.now t u }
{
    let all = zone.bounds();
    let departing = first.bounds();
    if departing.a < all.a || all.b < departing.b {
        return false;
    }
    let low = first_arrival(band);
    let high = last_arrival(band);
    if low < all.c || all.d < high {
        return false;
    }
    if low - departing.b < all.e {
        return false;
    }
    high - departing.a <= all.f
}

/// Whether the item has each way from the source by the zone and then the row. False also where that isn't seen.
pub(crate) fn has_ways(item: &Item, source: ObjNo, zone: &Zone, next: &Row) -> bool
    requires { IsWellFormed next.now.band }
    ensures { IsTrue result → (x : Point) → (y : Point) → GoesBy source zone.now next.now x y → InItem item.now x y }
{
    if item.0.0 != source.0 || item.1.0 != next.target.0 {
        return false;
    }
    is_around(&item.2, zone, &next.band)
}

// Adds the ways from the source by the zone and then the row, unless the item that was last added for its target has them.
fn push_way(
    items: &mut Vec<Item>,
    latest: &mut [usize],
    source: ObjNo,
    zone: &Zone,
    span: (i64, i64),
    next: &Row,
) -> Result<(), AllocError>
    requires span { AreArrivals zone.now span.0 span.1 }
    requires next { IsWellFormed next.now.band }
    ensures { OnOk result ((x : Point) → (y : Point) → ItemsHold items.new.items x y ↔ (ItemsHold items.old.items x y ⊎ GoesBy source zone.now next.now x y)) }
{
    if are_had(items, noted(latest, next.target), source, zone, next) {
        return Ok(());
    }
    note(latest, next.target, items.len());
    let way = way_by(zone, span, &next.band);
    push_there(items, source, next.target, way)?;
    Ok(())
}

/// Adds the ways by the row and one of those from where it arrives, most of which depart too soon or too late.
pub(crate) fn push_scanned(
    items: &mut Vec<Item>,
    latest: &mut [usize],
    row: &Row,
    here: &[Row],
) -> Result<(), AllocError>
    requires row { IsWellFormed row.now.band }
    requires here { (r : PlainRow) → Among here.now r → IsWellFormed r.band }
    requires source { (r : PlainRow) → Among here.now r → r.source.0 ≡ row.now.target.0 }
    ensures { OnOk result ((x : Point) → (y : Point) → ItemsHold items.new.items x y ↔ (ItemsHold items.old.items x y ⊎ GoesOn row.now here.now x y)) }
{
    let zone = zone_of(&row.band);
    let span = arrivals(&zone);
    for next in here {
        if is_missed(&zone, span, &next.band) {
            continue;
        }
        push_way(items, latest, row.source, &zone, span, next)?;
    }
    Ok(())
}

// Adds the ways by the row and a leg's row. What is in `found` is for this call alone, in memory that all rows share.
fn push_searched(
    items: &mut Vec<Item>,
    latest: &mut [usize],
    found: &mut Vec<Leg>,
    row: &Row,
    legs: &[Leg],
) -> Result<(), AllocError>
    requires row { IsWellFormed row.now.band }
    requires legs { IsTimetable legs.now }
    ensures { OnOk result ((x : Point) → (y : Point) → ItemsHold items.new.items x y ↔ (ItemsHold items.old.items x y ⊎ GoesOnBy row.now legs.now x y)) }
{
    let zone = zone_of(&row.band);
    let span = arrivals(&zone);
    find_departing(found, legs, row.target, span)?;
    for leg in found.as_slice() {
        push_way(items, latest, row.source, &zone, span, &leg.row)?;
    }
    Ok(())
}

// Whether so many of some of the rows depart while the band arrives that a search for them doesn't pay. It has no clause, since either
// answer is right.
fn are_often_met(here: &[Row], band: &Band) -> bool
    requires { IsWellFormed band.now }
{
    let first = first_arrival(band);
    let last = last_arrival(band);
    let mut met = 0u32;
    for i in 0..TRIED {
        if let Some(row) = here.get((here.len() / TRIED).saturating_mul(i)) {
            if first <= row.band.to && row.band.from <= last {
                met = met.saturating_add(1);
            }
        }
    }
    met > 1
}

/// Whether a timetable of the second list pays. It has no clause, since either answer is right.
pub(crate) fn is_timetable_due(rows: &[Row], second: &Offsets<'_>) -> bool
    requires { (r : PlainRow) → Among rows.now r → IsWellFormed r.band }
{
    let most = second.rows().len().saturating_mul(DEAR);
    let mut passed = 0usize;
    for row in rows {
        let others = second.from(row.target);
        if others.len() > FEW && !are_often_met(others, &row.band) {
            passed = passed.saturating_add(others.len());
        }
        if passed > most {
            return true;
        }
    }
    false
}

// Whether the rows that the row goes on by, of these from where it arrives, are searched.
fn is_searched(here: &[Row], busy: &[Leg], band: &Band) -> bool
    requires { IsWellFormed band.now }
    ensures many { IsTrue result → 8 < length here.now }
    ensures legs { IsTrue result → 0 < length busy.now }
{
    if here.len() <= FEW {
        return false;
    }
    if busy.is_empty() {
        return false;
    }
    !are_often_met(here, band)
}

// Adds the ways that begin with the row.
fn push_ways(
    items: &mut Vec<Item>,
    latest: &mut [usize],
    found: &mut Vec<Leg>,
    row: &Row,
    second: &Offsets<'_>,
    busy: &[Leg],
) -> Result<(), AllocError>
    requires row { IsWellFormed row.now.band }
    requires second { AreComposed second.now busy.now }
    ensures { OnOk result ((x : Point) → (y : Point) → ItemsHold items.new.items x y ↔ (ItemsHold items.old.items x y ⊎ GoesOn row.now second.now x y)) }
{
    let here = second.from(row.target);
    if is_searched(here, busy, &row.band) {
        push_searched(items, latest, found, row, busy)?;
        return Ok(());
    }
    push_scanned(items, latest, row, here)?;
    Ok(())
}

/// The ways that there are, and those that begin with one of the rows.
pub(crate) fn with_ways(
    ways: Vec<Item>,
    found: &mut Vec<Leg>,
    rows: &[Row],
    second: &Offsets<'_>,
    busy: &[Leg],
) -> Result<Vec<Item>, AllocError>
    requires rows { (r : PlainRow) → Among rows.now r → IsWellFormed r.band }
    requires second { AreComposed second.now busy.now }
    ensures { IfOk result (λ all. (x : Point) → (y : Point) → ItemsHold all.items x y ↔ (ItemsHold ways.items x y ⊎ HasMiddlePoint rows.now second.now x y)) }
{
    let mut latest = [0usize; NOTED];
    let mut all = ways;
    let mut most = most_ways(&all);
    for row in rows {
        push_ways(&mut all, &mut latest, found, row, second, busy)?;
        let (left, count) = fewer_beyond(all, most)?;
        all = left;
        most = count;
    }
    Ok(all)
}
