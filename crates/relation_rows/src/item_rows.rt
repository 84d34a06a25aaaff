//! The relation of zones and of rows that are known: the zones' rows and these in one order, which is settled part by part.

ghost use Rattle.std.specs.Prelude.{◌⊎◌, [], true, IfOk, OnOk};
ghost use Rattle.itpg_base.specs.Points.{Point};
ghost use Rattle.relation_rows.specs.Rows.{NormalRows, RowsHold};
ghost use Rattle.relation_rows.specs.Relations.{InItem, ItemsHold};
ghost use Rattle.relation_rows.specs.Apart.{AreLone};
ghost use Rattle.relation_rows.specs.Direct.{AddsWays};

use crate::direct::sort_rows;
use crate::gather::{Item, push_bands};
use crate::known::Known;
use crate::relations::Relation;
use crate::rows::Row;
use crate::settle::settled;
use band_normal::{Band, push_bands_of};
use std::alloc::{AllocError, Global};

// Adds the rows of the item's zone. What is in `bands` is for this call alone, in memory that all items share.
fn push_rows_of(rows: &mut Vec<Row>, bands: &mut Vec<Band>, item: &Item) -> Result<(), AllocError>
    ensures { OnOk result (AddsWays (InItem item.now) true rows.old.items rows.new.items) }
{
    bands.clear();
    push_bands_of(bands, &item.2)?;
    push_bands(rows, item.0, item.1, bands)?;
    Ok(())
}

// The rows, and those of the items.
fn rows_of_both(alloc: Global, items: &[Item], rows: &[Row]) -> Result<Vec<Row>, AllocError>
    requires { AreLone rows.now }
    ensures { IfOk result (λ both. AddsWays (λ x y. ItemsHold items.now x y ⊎ RowsHold rows.now x y) true [] both.items) }
{
    let mut both = Vec::with_capacity(alloc, rows.len().saturating_add(items.len()))?;
    both.extend_from_slice(rows)?;
    let mut bands = Vec::new(alloc);
    for item in items {
        push_rows_of(&mut both, &mut bands, item)?;
    }
    Ok(both)
}

// The relation of the rows, in whatever order they stand.
fn settled_relation(alloc: Global, mut rows: Vec<Row>) -> Result<Relation, AllocError>
    requires { AreLone rows.items }
    ensures { IfOk result (λ made. NormalRows (RowsHold rows.items) made) }
{
    sort_rows(&mut rows)?;
    let rows = settled(&mut Known::new(alloc), &rows)?;
    Ok(Relation { rows })
}

/// The relation of what the items and the rows hold.
pub(crate) fn relation_of(
    alloc: Global,
    items: &[Item],
    rows: &[Row],
) -> Result<Relation, AllocError>
    requires { AreLone rows.now }
    ensures { IfOk result (λ made. NormalRows (λ (x : Point) (y : Point). ItemsHold items.now x y ⊎ RowsHold rows.now x y) made) }
{
    let both = rows_of_both(alloc, items, rows)?;
    let relation = settled_relation(alloc, both)?;
    Ok(relation)
}
