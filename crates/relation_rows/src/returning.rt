//! The ways that lead from an object back to itself, and the pairs that lead to another.

ghost use Rattle.std.specs.Prelude.{◌≡◌, ◌≢◌, ◌⊎◌, ◌↔◌, IfOk, OnOk};
ghost use Rattle.itpg_base.specs.Points.{Point};
ghost use Rattle.itpg_base.specs.Lists.{Among};
ghost use Rattle.band_normal.specs.Bands.{IsWellFormed};
ghost use Rattle.relation_rows.specs.declared.rows.Row.{Row as PlainRow};
ghost use Rattle.relation_rows.specs.Rows.{RowsHold, NormalRows, IsRelation};
ghost use Rattle.relation_rows.specs.Answers.{Gives};
ghost use Rattle.relation_rows.specs.Relations.{ItemsHold, HasMiddlePoint};
ghost use Rattle.relation_rows.specs.Ways.{GoesOn};

use crate::gather::{Item, gathered_of};
use crate::known::Known;
use crate::latest::NOTED;
use crate::relations::Relation;
use crate::rows::{RelFault, Row};
use crate::search::rows_of_key;
use crate::ways::push_scanned;
use std::alloc::{AllocError, Global};

impl Relation {
    /// The pairs with a middle point, to which this relation leads and from which the other does, that lead from an object back to
    /// it. `Wide` exactly if its normal rows are more than `max_rows`.
    ///
    /// ```text
    /// a 0..4 to b at once       b 2..9 to a and to c at once       back: a 2..4 to a at once
    /// ```
    pub fn compose_back(&self, other: &Relation, max_rows: u32) -> Result<Relation, RelFault>
        ensures { Gives result (λ x y. HasMiddlePoint self.now other.now x y × (x.object ≡ y.object)) max_rows }
    {
        let alloc = *self.rows.allocator();
        let ways = ways_back(alloc, &self.rows, &other.rows)?;
        gathered_of(&mut Known::new(alloc), ways, max_rows as usize)
    }

    /// The pairs that lead from an object to another. It takes no memory.
    pub fn apart(self) -> Relation
        ensures { NormalRows (λ x y. RowsHold self x y × (x.object ≢ y.object)) result }
    {
        let mut rows = self.rows;
        rows.retain(|row| row.source.0 != row.target.0);
        Relation { rows }
    }
}

// Adds the ways by the row and one of the second list's rows from where it arrives back to where it departs. These stand together.
fn push_back(
    items: &mut Vec<Item>,
    latest: &mut [usize],
    row: &Row,
    second: &[Row],
) -> Result<(), AllocError>
    requires row { IsWellFormed row.now.band }
    requires second { IsRelation second.now }
    ensures { OnOk result ((x : Point) → (y : Point) → ItemsHold items.new.items x y ↔ (ItemsHold items.old.items x y ⊎ (GoesOn row.now second.now x y × (x.object ≡ y.object)))) }
{
    let here = rows_of_key(second, row.target, row.source);
    push_scanned(items, latest, row, here)?;
    Ok(())
}

// The ways that begin with one of the rows and lead back.
fn ways_back(alloc: Global, rows: &[Row], second: &[Row]) -> Result<Vec<Item>, AllocError>
    requires rows { (r : PlainRow) → Among rows.now r → IsWellFormed r.band }
    requires second { IsRelation second.now }
    ensures { IfOk result (λ ways. (x : Point) → (y : Point) → ItemsHold ways.items x y ↔ (HasMiddlePoint rows.now second.now x y × (x.object ≡ y.object))) }
{
    let mut latest = [0usize; NOTED];
    let mut ways = Vec::new(alloc);
    for row in rows {
        push_back(&mut ways, &mut latest, row, second)?;
    }
    Ok(ways)
}
