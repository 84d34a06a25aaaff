//! First arrivals and last departures of a relation, one source and target after the other.

ghost use Rattle.std.specs.Prelude.{◌≡◌, ◌↔◌, ◌⊎◌, ◌<◌, ◌≤◌, ℤ, length, take, drop, slice_get, Some, IfOk, OnOk};
ghost use Rattle.itpg_base.specs.Points.{Point};
ghost use Rattle.itpg_base.specs.Lists.{Among, Ordered};
ghost use Rattle.band_normal.specs.Bands.{InBand, IsWellFormed};
ghost use Rattle.band_normal.specs.Zones.{SomeMeets};
ghost use Rattle.relation_rows.specs.declared.rows.Row.{Row as PlainRow};
ghost use Rattle.relation_rows.specs.Rows.{RowBefore, HasKey, KeyBefore, RowsHold, IsRelation};
ghost use Rattle.relation_rows.specs.Relations.{ItemsHold};
ghost use Rattle.relation_rows.specs.Searching.{has_key};
ghost use Rattle.relation_rows.specs.Answers.{Gives};
ghost use Rattle.arrivals.specs.Firsts.{Least, Latest, SomeOf};
ghost use Rattle.arrivals.specs.Choosing.{AddsBetween, Beats, Unbeaten, Chosen, InBandOf};

use crate::zones::{latest_of, least_of};
use band_normal::zone_of;
use itpg_base::ObjNo;
use relation_rows::{RelFault, Relation, Row};
use std::alloc::{AllocError, Global};
use zone_core::Zone;

/// Which pairs of a source and target are kept.
#[derive(Clone, Copy)]
pub(crate) enum Choice {
    /// Of each departure, the one that arrives first.
    First,
    /// To each arrival, the one that departs last.
    Last,
}

// A zone of moments from a source to a target.
type Item = (ObjNo, ObjNo, Zone);

fn push_rows(zones: &mut Vec<Zone>, rows: &[Row]) -> Result<(), AllocError>
    requires { (r : PlainRow) → Among rows.now r → IsWellFormed r.band }
    ensures { OnOk result ((t : ℤ) → (u : ℤ) → SomeMeets zones.new.items t u ↔ (SomeMeets zones.old.items t u ⊎ SomeOf InBandOf rows.now t u)) }
{
    for row in rows {
        zones.push(zone_of(&row.band))?;
    }
    Ok(())
}

fn zones_of(alloc: Global, rows: &[Row]) -> Result<Vec<Zone>, AllocError>
    requires { (r : PlainRow) → Among rows.now r → IsWellFormed r.band }
    ensures { IfOk result (λ zones. (t : ℤ) → (u : ℤ) → SomeMeets zones.items t u ↔ SomeOf InBandOf rows.now t u) }
{
    let mut zones = Vec::new(alloc);
    push_rows(&mut zones, rows)?;
    Ok(zones)
}

// Of rows from one object to one, what is kept.
fn chosen_of(alloc: Global, rows: &[Row], choice: Choice) -> Result<Vec<Zone>, AllocError>
    requires { (r : PlainRow) → Among rows.now r → IsWellFormed r.band }
    ensures { IfOk result (λ zones. (t : ℤ) → (u : ℤ) → SomeMeets zones.items t u ↔ Unbeaten (Beats choice) (SomeOf InBandOf rows.now) t u) }
{
    let zones = zones_of(alloc, rows)?;
    match choice {
        Choice::First => {
            let least = least_of(alloc, &zones)?;
            Ok(least)
        }
        Choice::Last => {
            let latest = latest_of(alloc, &zones)?;
            Ok(latest)
        }
    }
}

// Adds the zones from the row's source to its target.
fn push_items(items: &mut Vec<Item>, row: &Row, zones: &[Zone]) -> Result<(), AllocError>
    ensures { OnOk result (AddsBetween row.now zones.now items.old.items items.new.items) }
{
    for zone in zones {
        items.push((row.source, row.target, *zone))?;
    }
    Ok(())
}

fn is_of_key(row: &Row, first: &Row) -> bool
    ensures { result ≡ has_key row.now first.now.source.0 first.now.target.0 }
{
    row.source.0 == first.source.0 && row.target.0 == first.target.0
}

// How many of the rows, from the first on, have its source and its target. It looks at these and at the next one.
fn key_count(rows: &[Row], first: &Row) -> usize
    requires order { Ordered RowBefore rows.now }
    requires first { slice_get rows.now 0 ≡ Some first.now }
    ensures some { 0 < result }
    ensures within { result ≤ length rows.now }
    ensures same { (r : PlainRow) → Among (take result rows.now) r → HasKey r first.now.source.0 first.now.target.0 }
    ensures later { (r : PlainRow) → Among (drop result rows.now) r → HasKey r first.now.source.0 first.now.target.0 → ⊥ }
{
    for (i, row) in rows.iter().enumerate() {
        if !is_of_key(row, first) {
            return i;
        }
    }
    rows.len()
}

// What is kept of the pairs of the rows, which stand in order.
fn items_of(alloc: Global, rows: &[Row], choice: Choice) -> Result<Vec<Item>, AllocError>
    requires order { Ordered RowBefore rows.now }
    requires formed { (r : PlainRow) → Among rows.now r → IsWellFormed r.band }
    ensures { IfOk result (λ items. (x : Point) → (y : Point) → ItemsHold items.items x y ↔ Chosen (Beats choice) (RowsHold rows.now) x y) }
{
    let mut items = Vec::new(alloc);
    let mut left = rows;
    while let Some(row) = left.first() {
        let (group, later) = left.split_at(key_count(left, row));
        let zones = chosen_of(alloc, group, choice)?;
        push_items(&mut items, row, &zones)?;
        left = later;
    }
    Ok(items)
}

// The items of what is kept of the relation.
fn chosen_items(alloc: Global, rel: &Relation, choice: Choice) -> Result<Vec<Item>, AllocError>
    ensures { IfOk result (λ items. (x : Point) → (y : Point) → ItemsHold items.items x y ↔ Chosen (Beats choice) (RowsHold rel.now) x y) }
{
    let items = items_of(alloc, rel.rows(), choice)?;
    Ok(items)
}

/// Of each departure of the relation between two objects, the first arrival. `Wide` exactly where its
/// normal rows are more than `max_rows`.
pub fn first(alloc: Global, rel: &Relation, max_rows: u32) -> Result<Relation, RelFault>
    ensures { Gives result (Least (RowsHold rel.now)) max_rows }
{
    let items = chosen_items(alloc, rel, Choice::First)?;
    Relation::from_zones(alloc, items, max_rows)
}

/// To each arrival of the relation between two objects, the last departure. `Wide` exactly where its
/// normal rows are more than `max_rows`.
pub fn last(alloc: Global, rel: &Relation, max_rows: u32) -> Result<Relation, RelFault>
    ensures { Gives result (Latest (RowsHold rel.now)) max_rows }
{
    let items = chosen_items(alloc, rel, Choice::Last)?;
    Relation::from_zones(alloc, items, max_rows)
}
