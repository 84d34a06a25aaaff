//! Rows gathered from zones, source by source and target by target.
//!
//! The zones of one source and one target are made normal together, and their rows counted then. So
//! the limit is compared with normal rows alone, and no more rows are made than the first source and
//! target needs whose rows pass it.

ghost use Rattle.std.specs.Prelude.{◌≡◌, ◌⊎◌, ◌++◌, ℤ, ◌<◌, ◌≤◌, ◌↔◌, length, map, take, drop, slice_get, Some, IfOk, OnOk, IsTrue};
ghost use Rattle.std.specs.List.Sorted.{IsPermutation};
ghost use Rattle.itpg_base.specs.declared.object_number.ObjNo.{ObjNo as PlainObjNo};
ghost use Rattle.itpg_base.specs.Points.{Point};
ghost use Rattle.zone_core.specs.Zone.{Meets};
ghost use Rattle.band_normal.specs.declared.band.Band.{Band};
ghost use Rattle.itpg_base.specs.Lists.{Among, Ordered};
ghost use Rattle.band_normal.specs.Bands.{IsWellFormed};
ghost use Rattle.band_normal.specs.Normal.{Normal};
ghost use Rattle.band_normal.specs.Zones.{SomeMeets};
ghost use Rattle.relation_rows.specs.declared.rows.Row.{Row};
ghost use Rattle.relation_rows.specs.Rows.{KeyBefore, RowsHold, NormalRows, rows_at};
ghost use Rattle.relation_rows.specs.Answers.{Gives};
ghost use Rattle.relation_rows.specs.Relations.{InItem, Item, ItemsHold, Rise};
ghost use Rattle.relation_rows.specs.Gathering.{ItemUpTo, HaveOneKey, IsCounted, have_one_key};

use crate::known::Known;
use crate::relations::Relation;
use crate::rows::{RelFault, Row};
use band_normal::{Band, normal, push_bands_of, zone_of};
use itpg_base::{ObjNo, count_leading};
use std::alloc::{AllocError, Global};
use std::cmp::Reverse;
use zone_core::Zone;

// For so many rows at most there is room from the start.
const ROOM: usize = 4_096;

// So many zones are very many.
const LONG: usize = 65_536;

/// A zone of moments from a source to a target.
pub(crate) type Item = (ObjNo, ObjNo, Zone);

fn are_of_one_key(item: &Item, first: &Item) -> bool
    ensures { result ≡ have_one_key item.now first.now }
{
    item.0.0 == first.0.0 && item.1.0 == first.1.0
}

// How many of the items, from the first on, have its source and its target.
fn first_count(items: &[Item], first: &Item) -> usize
    requires order { Ordered ItemUpTo items.now }
    requires first { slice_get items.now 0 ≡ Some first.now }
    ensures some { 0 < result }
    ensures within { result ≤ length items.now }
    ensures same { (i : Item) → Among (take result items.now) i → HaveOneKey first.now i }
    ensures later { (i : Item) → Among (drop result items.now) i → KeyBefore first.now.0.0 first.now.1.0 i.0.0 i.1.0 }
{
    if let Some(second) = items.get(1) {
        if !are_of_one_key(second, first) {
            return 1;
        }
    }
    count_leading(items, |item| are_of_one_key(item, first))
}

// Adds the zone, if it has a pair that the last one hasn't.
fn push_zone(zones: &mut Vec<Zone>, zone: &Zone) -> Result<(), AllocError>
    ensures { OnOk result ((t : ℤ) → (u : ℤ) → SomeMeets zones.new.items t u ↔ (SomeMeets zones.old.items t u ⊎ Meets zone.now t u)) }
{
    let last = zones.last().copied();
    if let Some(last) = last
        && zone.inside(&last)
    {
        return Ok(());
    }
    zones.push(*zone)?;
    Ok(())
}

/// Fills the list with zones that have the pairs of the items' zones. What it held is gone.
pub(crate) fn fill_zones(zones: &mut Vec<Zone>, items: &[Item]) -> Result<(), AllocError>
    ensures { OnOk result ((t : ℤ) → (u : ℤ) → SomeMeets zones.new.items t u ↔ SomeMeets (map (λ (i : Item). i.2) items.now) t u) }
{
    zones.clear();
    for item in items {
        push_zone(zones, &item.2)?;
    }
    Ok(())
}

// The normal bands of the items' zones.
fn bands_of_items(alloc: Global, items: &[Item]) -> Result<Vec<Band>, AllocError>
    ensures normal { IfOk result (λ bands. Normal (SomeMeets (map (λ (i : Item). i.2) items.now)) bands.items) }
    ensures formed { IfOk result (λ bands. (b : Band) → Among bands.items b → IsWellFormed b) }
{
    let mut zones = Vec::with_capacity(alloc, items.len())?;
    fill_zones(&mut zones, items)?;
    let bands = normal(alloc, zones)?;
    Ok(bands)
}

// Fills the list with the normal bands of the items' zones. What it held is gone. Very many zones aren't known beyond it, since that takes
// their memory twice.
fn find_bands(bands: &mut Vec<Band>, known: &mut Known, items: &[Item]) -> Result<(), AllocError>
    ensures normal { OnOk result (Normal (SomeMeets (map (λ (i : Item). i.2) items.now)) bands.new.items) }
    ensures formed { OnOk result ((b : Band) → Among bands.new.items b → IsWellFormed b) }
{
    if let [item] = items {
        bands.clear();
        push_bands_of(bands, &item.2)?;
        return Ok(());
    }
    if items.len() > LONG {
        *bands = bands_of_items(known.allocator(), items)?;
        return Ok(());
    }
    known.learn(items)?;
    bands.clear();
    bands.extend_from_slice(known.bands())?;
    Ok(())
}

/// The bands as rows of the source and target, behind those that there are.
pub(crate) fn push_bands(
    rows: &mut Vec<Row>,
    source: ObjNo,
    target: ObjNo,
    bands: &[Band],
) -> Result<(), AllocError>
    ensures { OnOk result (rows.new.items ≡ rows.old.items ++ rows_at source.0 target.0 bands.now) }
{
    for band in bands {
        rows.push(Row {
            source,
            target,
            band: *band,
        })?;
    }
    Ok(())
}

/// The relation of the items, which stand by source and target.
pub(crate) fn gathered(known: &mut Known, items: &[Item], room: usize) -> Result<Relation, RelFault>
    requires { Ordered ItemUpTo items.now }
    ensures gives { Gives result (ItemsHold items.now) room }
    ensures counted { IsCounted result room }
{
    let mut rows = Vec::with_capacity(known.allocator(), items.len().min(ROOM))?;
    let mut bands = Vec::new(known.allocator());
    let mut left = items;
    while let Some(first) = left.first() {
        let (group, later) = left.split_at(first_count(left, first));
        find_bands(&mut bands, known, group)?;
        push_bands(&mut rows, first.0, first.1, &bands)?;
        if rows.len() > room {
            return Err(RelFault::Wide);
        }
        left = later;
    }
    Ok(Relation { rows })
}

// By this items are sorted: by source and target, and then such that a zone often lies inside the one before it. Of those that begin
// together the longest comes first.
fn place_of(item: &Item) -> ((ObjNo, ObjNo), (i64, i64, Reverse<i64>))
    ensures { result ≡ ((item.now.0, item.now.1), (item.now.2.a, item.now.2.c, record { 0 = item.now.2.b })) }
{
    let bounds = item.2.bounds();
    ((item.0, item.1), (bounds.a, bounds.c, Reverse(bounds.b)))
}

/// Puts the items in order.
pub(crate) fn sort_items(items: &mut Vec<Item>)
    ensures order { Ordered ItemUpTo items.new.items }
    ensures same { IsPermutation items.old.items items.new.items }
{
    items.sort_unstable_by_key(|item| place_of(item));
}

// Whether the item has no pair that the other hasn't. False also where that isn't seen.
fn is_inside(item: &Item, other: &Item) -> bool
    ensures { IsTrue result → (x : Point) → (y : Point) → InItem item.now x y → InItem other.now x y }
{
    are_of_one_key(item, other) && item.2.inside(&other.2)
}

// Adds the item, unless the last one has all its pairs.
fn push_outer(items: &mut Vec<Item>, item: &Item) -> Result<(), AllocError>
    ensures { OnOk result ((x : Point) → (y : Point) → ItemsHold items.new.items x y ↔ (ItemsHold items.old.items x y ⊎ InItem item.now x y)) }
{
    let last = items.last().copied();
    if let Some(last) = last
        && is_inside(item, &last)
    {
        return Ok(());
    }
    items.push(*item)?;
    Ok(())
}

// The items without those that lie inside the last one before them that is left.
fn outer_of(alloc: Global, items: &[Item]) -> Result<Vec<Item>, AllocError>
    ensures { IfOk result (λ left. (x : Point) → (y : Point) → ItemsHold left.items x y ↔ ItemsHold items.now x y) }
{
    let mut left = Vec::with_capacity(alloc, items.len())?;
    for item in items {
        push_outer(&mut left, item)?;
    }
    Ok(left)
}

/// The items in order, without those that lie inside the last one before them that is left.
pub(crate) fn thinned(mut items: Vec<Item>) -> Result<Vec<Item>, AllocError>
    ensures { IfOk result (λ left. (x : Point) → (y : Point) → ItemsHold left.items x y ↔ ItemsHold items.items x y) }
{
    sort_items(&mut items);
    let left = outer_of(*items.allocator(), &items)?;
    Ok(left)
}

/// The relation of the items, in whatever order they stand.
pub(crate) fn gathered_of(
    known: &mut Known,
    mut items: Vec<Item>,
    room: usize,
) -> Result<Relation, RelFault>
    ensures gives { Gives result (ItemsHold items.items) room }
    ensures counted { IsCounted result room }
{
    sort_items(&mut items);
    gathered(known, &items, room)
}

// Puts the items in order by source and target alone. Most often they stand so.
fn sort_by_target(items: &mut Vec<Item>)
    ensures order { Ordered ItemUpTo items.new.items }
    ensures same { IsPermutation items.old.items items.new.items }
{
    items.sort_unstable_by_key(|item| (item.0, item.1));
}

/// The relation of the items, whatever number of rows it has.
pub(crate) fn gathered_all(alloc: Global, mut items: Vec<Item>) -> Result<Relation, AllocError>
    ensures { IfOk result (λ rows. NormalRows (ItemsHold items.items) rows) }
{
    sort_by_target(&mut items);
    match gathered(&mut Known::new(alloc), &items, usize::MAX) {
        Ok(relation) => Ok(relation),
        Err(RelFault::Memory) => Err(AllocError),
        Err(RelFault::Wide) => unreachable!(),
    }
}

/// The relation of the zone from each object to itself. The zone is made normal once for all.
pub(crate) fn each_to_itself(
    alloc: Global,
    objects: &[ObjNo],
    zone: Zone,
    room: usize,
) -> Result<Relation, RelFault>
    requires { Rise objects.now }
    ensures { Gives result (ItemsHold (map (λ (o : PlainObjNo). (o, o, zone)) objects.now)) room }
{
    let zones = Vec::from_slice(alloc, &[zone])?;
    let bands = normal(alloc, zones)?;
    let mut all = Vec::new(alloc);
    for object in objects {
        push_bands(&mut all, *object, *object, &bands)?;
        if all.len() > room {
            return Err(RelFault::Wide);
        }
    }
    Ok(Relation { rows: all })
}

/// Adds the zone of each row.
pub(crate) fn push_zones(items: &mut Vec<Item>, rows: &[Row]) -> Result<(), AllocError>
    requires { (r : Row) → Among rows.now r → IsWellFormed r.band }
    ensures { OnOk result ((x : Point) → (y : Point) → ItemsHold items.new.items x y ↔ (ItemsHold items.old.items x y ⊎ RowsHold rows.now x y)) }
{
    for row in rows {
        items.push((row.source, row.target, zone_of(&row.band)))?;
    }
    Ok(())
}
