//! Difference: of each source and target, the rows' pairs that the other list hasn't there.
//!
//! Where rows and cuts go along in time, one row is taken after the other. Elsewhere the zones of both are parted, over and over, by
//! departures, arrivals or differences, as long as that leaves less to do. Then a zone is split only by those that it shares a pair with.

ghost use Rattle.std.specs.Prelude.{◌≡◌, ◌⊎◌, ◌↔◌, ◌<◌, ◌≤◌, ℤ, length, take, slice_get, Some, IfOk, OnOk, IsTrue};
ghost use Rattle.itpg_base.specs.Points.{Point};
ghost use Rattle.zone_core.specs.Zone.{Meets, MeetsBoth, MeetsFirstOnly, SomeHolds};
ghost use Rattle.itpg_base.specs.Lists.{Among, Ordered};
ghost use Rattle.band_normal.specs.Bands.{IsWellFormed};
ghost use Rattle.band_normal.specs.Zones.{SomeMeets};
ghost use Rattle.relation_rows.specs.declared.rows.Row.{Row as PlainRow};
ghost use Rattle.relation_rows.specs.Rows.{RowBefore, HasKey};
ghost use Rattle.relation_rows.specs.Relations.{ItemsHold, OnlyFirstHolds};
ghost use Rattle.relation_rows.specs.Uniting.{SomeHasBand};
ghost use Rattle.relation_rows.specs.Minus.{OnlyFirstMeets, OnlyFirstHasBand, HasAcross, IsLeftAcross};

use crate::by_rows::left_by_rows;
use crate::gather::{Item, push_zones};
use crate::parting::parting;
use crate::rows::Row;
use crate::search::rows_of_key;
use crate::union::leading;
use band_normal::zone_of;
use std::alloc::{AllocError, Global};
use zone_core::Zone;

// Zones are parted so many times, one within the other, at most.
const MOST_PARTINGS: u32 = 96;

// For so many zones more than there are there is room, where one is taken from each.
const ROOM: usize = 8;

fn push_places(zones: &mut Vec<Zone>, places: &[Option<Zone>]) -> Result<(), AllocError>
    ensures { OnOk result ((t : ℤ) → (u : ℤ) → SomeMeets zones.new.items t u ↔ (SomeMeets zones.old.items t u ⊎ SomeHolds places.now t u)) }
{
    for place in places {
        if let Some(zone) = place {
            zones.push(*zone)?;
        }
    }
    Ok(())
}

/// Adds what is left of the zone without the pairs of the other. It stays whole where it has none of them.
pub(crate) fn push_without(left: &mut Vec<Zone>, zone: &Zone, cut: &Zone) -> Result<(), AllocError>
    ensures { OnOk result ((t : ℤ) → (u : ℤ) → SomeMeets left.new.items t u ↔ (SomeMeets left.old.items t u ⊎ MeetsFirstOnly zone.now cut.now t u)) }
{
    if let None = zone.meet(cut) {
        left.push(*zone)?;
        return Ok(());
    }
    push_places(left, &zone.minus(cut))?;
    Ok(())
}

// The zones without the pairs of one more.
fn without(alloc: Global, zones: &[Zone], cut: &Zone) -> Result<Vec<Zone>, AllocError>
    ensures { IfOk result (λ left. (t : ℤ) → (u : ℤ) → SomeMeets left.items t u ↔ (SomeMeets zones.now t u × (¬ Meets cut.now t u))) }
{
    let mut left = Vec::with_capacity(alloc, zones.len().saturating_add(ROOM))?;
    for zone in zones {
        push_without(&mut left, zone, cut)?;
    }
    Ok(left)
}

// Whether no zone shares a pair with the cut.
fn are_clear_of(zones: &[Zone], cut: &Zone) -> bool
    ensures { IsTrue result → (t : ℤ) → (u : ℤ) → SomeMeets zones.now t u → ¬ Meets cut.now t u }
{
    for zone in zones {
        if let Some(_) = zone.meet(cut) {
            return false;
        }
    }
    true
}

// The zones without the pairs of one more, of which most often they have none.
fn less(zones: Vec<Zone>, cut: &Zone) -> Result<Vec<Zone>, AllocError>
    ensures { IfOk result (λ left. (t : ℤ) → (u : ℤ) → SomeMeets left.items t u ↔ (SomeMeets zones.items t u × (¬ Meets cut.now t u))) }
{
    if are_clear_of(&zones, cut) {
        return Ok(zones);
    }
    let left = without(*zones.allocator(), &zones, cut)?;
    Ok(left)
}

/// The zones without the pairs of all cuts, one cut after the other.
pub(crate) fn without_each(
    alloc: Global,
    zones: &[Zone],
    cuts: &[Zone],
) -> Result<Vec<Zone>, AllocError>
    ensures { IfOk result (λ left. (t : ℤ) → (u : ℤ) → SomeMeets left.items t u ↔ OnlyFirstMeets zones.now cuts.now t u) }
{
    let mut left = Vec::from_slice(alloc, zones)?;
    for cut in cuts {
        left = less(left, cut)?;
    }
    Ok(left)
}

// Adds the pairs that the zone shares with the part.
fn push_shared(shared: &mut Vec<Zone>, zone: &Zone, part: &Zone) -> Result<(), AllocError>
    ensures { OnOk result ((t : ℤ) → (u : ℤ) → SomeMeets shared.new.items t u ↔ (SomeMeets shared.old.items t u ⊎ MeetsBoth zone.now part.now t u)) }
{
    if let Some(both) = zone.meet(part) {
        shared.push(both)?;
    }
    Ok(())
}

// The zones with the pairs of the part alone.
fn within(alloc: Global, zones: &[Zone], part: &Zone) -> Result<Vec<Zone>, AllocError>
    ensures { IfOk result (λ shared. (t : ℤ) → (u : ℤ) → SomeMeets shared.items t u ↔ (SomeMeets zones.now t u × Meets part.now t u)) }
{
    let mut shared = Vec::with_capacity(alloc, zones.len())?;
    for zone in zones {
        push_shared(&mut shared, zone, part)?;
    }
    Ok(shared)
}

// Adds the zones without the pairs of the cuts.
fn push_rest(
    rest: &mut Vec<Zone>,
    zones: &[Zone],
    cuts: &[Zone],
    partings: u32,
) -> Result<(), AllocError>
    ensures { OnOk result ((t : ℤ) → (u : ℤ) → SomeMeets rest.new.items t u ↔ (SomeMeets rest.old.items t u ⊎ OnlyFirstMeets zones.now cuts.now t u)) }
{
    let alloc = *rest.allocator();
    let part = parting(alloc, zones, cuts)?;
    if let Some(part) = part
        && partings > 0
    {
        let inside = within(alloc, zones, &part)?;
        let cuts_inside = within(alloc, cuts, &part)?;
        push_rest(rest, &inside, &cuts_inside, partings - 1)?;
        let outside = without(alloc, zones, &part)?;
        let cuts_outside = without(alloc, cuts, &part)?;
        push_rest(rest, &outside, &cuts_outside, partings - 1)?;
        return Ok(());
    }
    let left = without_each(alloc, zones, cuts)?;
    rest.extend_from_slice(&left)?;
    Ok(())
}

/// The zones of the rows' bands.
pub(crate) fn zones_of_bands(alloc: Global, rows: &[Row]) -> Result<Vec<Zone>, AllocError>
    requires { (r : PlainRow) → Among rows.now r → IsWellFormed r.band }
    ensures { IfOk result (λ zones. (t : ℤ) → (u : ℤ) → SomeMeets zones.items t u ↔ SomeHasBand rows.now t u) }
{
    let mut zones = Vec::with_capacity(alloc, rows.len())?;
    for row in rows {
        zones.push(zone_of(&row.band))?;
    }
    Ok(zones)
}

// The pairs of moments of the rows' bands that no cut has.
fn left_of(alloc: Global, rows: &[Row], cuts: &[Row]) -> Result<Vec<Zone>, AllocError>
    requires rows { (r : PlainRow) → Among rows.now r → IsWellFormed r.band }
    requires cuts { (r : PlainRow) → Among cuts.now r → IsWellFormed r.band }
    ensures { IfOk result (λ left. (t : ℤ) → (u : ℤ) → SomeMeets left.items t u ↔ OnlyFirstHasBand rows.now cuts.now t u) }
{
    if let Some(left) = left_by_rows(alloc, rows, cuts)? {
        return Ok(left);
    }
    let zones = zones_of_bands(alloc, rows)?;
    let zones_of_cuts = zones_of_bands(alloc, cuts)?;
    let mut left = Vec::new(alloc);
    push_rest(&mut left, &zones, &zones_of_cuts, MOST_PARTINGS)?;
    Ok(left)
}

// Adds the zones from the row's source to its target.
fn push_items(items: &mut Vec<Item>, row: &Row, zones: &[Zone]) -> Result<(), AllocError>
    ensures { OnOk result ((x : Point) → (y : Point) → ItemsHold items.new.items x y ↔ (ItemsHold items.old.items x y ⊎ HasAcross row.now zones.now x y)) }
{
    for zone in zones {
        items.push((row.source, row.target, *zone))?;
    }
    Ok(())
}

// Adds the zones of what is left of the group, whose source and target are the row's. Most often there is no cut.
fn push_left(
    items: &mut Vec<Item>,
    row: &Row,
    group: &[Row],
    cuts: &[Row],
) -> Result<(), AllocError>
    requires group { (r : PlainRow) → Among group.now r → HasKey r row.now.source.0 row.now.target.0 }
    requires formed { (r : PlainRow) → Among group.now r → IsWellFormed r.band }
    requires cuts { (r : PlainRow) → Among cuts.now r → IsWellFormed r.band }
    ensures { OnOk result ((x : Point) → (y : Point) → ItemsHold items.new.items x y ↔ (ItemsHold items.old.items x y ⊎ IsLeftAcross row.now group.now cuts.now x y)) }
{
    if cuts.is_empty() {
        push_zones(items, group)?;
        return Ok(());
    }
    let zones = left_of(*items.allocator(), group, cuts)?;
    push_items(items, row, &zones)?;
    Ok(())
}

// How many of the rows, from the first on, have its source and its target.
fn key_count(rows: &[Row], first: &Row) -> usize
    requires order { Ordered RowBefore rows.now }
    requires first { slice_get rows.now 0 ≡ Some first.now }
    ensures some { 0 < result }
    ensures within { result ≤ length rows.now }
    ensures same { (r : PlainRow) → Among (take result rows.now) r → HasKey r first.now.source.0 first.now.target.0 }
{
    leading(rows, first)
}

/// The zones of the pairs that the first rows have and the second haven't. Both stand in order.
pub(crate) fn only_in_first(
    alloc: Global,
    first: &[Row],
    second: &[Row],
) -> Result<Vec<Item>, AllocError>
    requires order { Ordered RowBefore first.now }
    requires second { Ordered RowBefore second.now }
    requires rows { (r : PlainRow) → Among first.now r → IsWellFormed r.band }
    requires cuts { (r : PlainRow) → Among second.now r → IsWellFormed r.band }
    ensures { IfOk result (λ items. (x : Point) → (y : Point) → ItemsHold items.items x y ↔ OnlyFirstHolds first.now second.now x y) }
{
    let mut items = Vec::with_capacity(alloc, first.len())?;
    let mut left = first;
    while let Some(row) = left.first() {
        let (group, later) = left.split_at(key_count(left, row));
        let cuts = rows_of_key(second, row.source, row.target);
        push_left(&mut items, row, group, cuts)?;
        left = later;
    }
    Ok(items)
}
