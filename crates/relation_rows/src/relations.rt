//! Relations.

ghost use Rattle.std.specs.Prelude.{◌≡◌, ◌↔◌, ◌<◌, ◌≤◌, ◌++◌, [], length, slice_get, IsTrue, IfOk, OnOk, OnErr};
ghost use Rattle.itpg_base.specs.Points.{Point};
ghost use Rattle.zone_core.specs.Zone.{Within, moment_reach};
ghost use Rattle.itpg_base.specs.Lists.{Among};
ghost use Rattle.band_normal.specs.Bands.{IsWellFormed};
ghost use Rattle.relation_rows.specs.declared.rows.Row.{Row as PlainRow};
ghost use Rattle.relation_rows.specs.Rows.{RowsHold, NormalRows, IsRelation};
ghost use Rattle.relation_rows.specs.Answers.{Gives};
ghost use Rattle.relation_rows.specs.Times.{AreTimes, Departs, Arrives};
ghost use Rattle.relation_rows.specs.Relations.{ItemsHold, Rise, IsItself, EitherHolds, HasMiddlePoint, IsBetween, OnlyFirstHolds};

use crate::compose::composed;
use crate::gather::{each_to_itself, gathered_of};
use crate::idle::{copied, is_first_whole, is_second_whole};
use crate::item_rows::relation_of;
use crate::known::Known;
use crate::minus::only_in_first;
use crate::offsets::offsets_of;
use crate::rows::{RelFault, Row};
use crate::search::{is_in_band, rows_between, rows_from, rows_of_key};
use crate::strike::struck;
use crate::times::{OneTime, Side, times_of};
use crate::union::united;
use interval_set::Span;
use itpg_base::ObjNo;
use std::alloc::{AllocError, Global};
use std::marker::Model;
use zone_compose::diagonal;
use zone_core::Zone;

/// A relation between points, as the normal list of its rows.
///
/// A pair of points leads from an object at a departure to an object at an arrival. Each set of pairs
/// over finitely many points has exactly one normal list, so relations with the same pairs are equal.
#[derive(Drop)]
pub struct Relation {
    pub(crate) rows: Vec<Row>,
}

impl Model for Relation {
    ghost use Rattle.std.specs.Prelude.{List};
    ghost use Rattle.relation_rows.specs.declared.rows.Row.{Row};
    ghost use Rattle.relation_rows.specs.Rows.{IsRelation};

    ghost Value = { List Row };

    ghost view = { λ r. r.rows.items };

    ghost invariant = { λ r. IsRelation r.rows.items };
}

impl Relation {
    /// The relation with no pair. It takes no memory.
    pub fn empty(alloc: Global) -> Relation
        ensures { result ≡ [] }
    {
        Relation {
            rows: Vec::new(alloc),
        }
    }

    /// The rows in order.
    pub fn rows(&self) -> &[Row]
        ensures value { result.now ≡ self.now }
        ensures relation { IsRelation self.now }
    {
        &self.rows
    }

    /// The rows from the object, which stand together.
    ///
    /// ```text
    ///     a 0..9 to b, b 0..4 to a, b 5..9 to c      rows_from(b) is the second and the third
    /// ```
    pub fn rows_from(&self, source: ObjNo) -> &[Row]
        ensures { (r : PlainRow) → Among result.now r ↔ (Among self.now r × (r.source.0 ≡ source.0)) }
    {
        rows_from(&self.rows, source)
    }

    /// The number of rows.
    pub fn row_count(&self) -> u64
        ensures count { result ≡ length self.now }
        ensures relation { IsRelation self.now }
    {
        self.rows.len() as u64
    }

    /// The row at a place, from 0. None exactly if the place is at least the number of rows.
    pub fn row(&self, i: u64) -> Option<Row>
        ensures { result ≡ slice_get self.now i }
    {
        self.rows.get(i as usize).copied()
    }

    /// Whether it leads from the object `o` at the moment `t` to the object `p` at the moment `u`.
    pub fn has(&self, o: ObjNo, t: i64, p: ObjNo, u: i64) -> bool
        ensures { IsTrue result ↔ RowsHold self.now (record { object = o.0; moment = t }) (record { object = p.0; moment = u }) }
    {
        for row in rows_of_key(&self.rows, o, p) {
            if is_in_band(&row.band, t, u) {
                return true;
            }
        }
        false
    }

    /// Whether the two have the same rows.
    pub fn same(&self, other: &Relation) -> bool
        ensures { IsTrue result ↔ (self.now ≡ other.now) }
    {
        self.rows == other.rows
    }

    /// Each point of the objects over the horizon leads to itself. `Wide` exactly if its normal rows,
    /// one for each object, are more than `max_rows`.
    ///
    /// The objects rise, and the moments of the horizon lie within 4 * 10^12 of zero.
    pub fn identity(
        alloc: Global,
        objects: &[ObjNo],
        horizon: Span,
        max_rows: u32,
    ) -> Result<Relation, RelFault>
        requires rise { Rise objects.now }
        requires from { Within moment_reach horizon.from }
        requires to { Within moment_reach horizon.to }
        ensures { Gives result (IsItself objects.now horizon) max_rows }
    {
        let zone = diagonal(horizon.from(), horizon.to()).unwrap();
        each_to_itself(alloc, objects, zone, max_rows as usize)
    }

    /// The relation of items: each leads from its first object to its second, between the moments of
    /// its zone. `Wide` exactly if its normal rows are more than `max_rows`.
    pub fn from_zones(
        alloc: Global,
        items: Vec<(ObjNo, ObjNo, Zone)>,
        max_rows: u32,
    ) -> Result<Relation, RelFault>
        ensures { Gives result (ItemsHold items.items) max_rows }
    {
        gathered_of(&mut Known::new(alloc), items, max_rows as usize)
    }

    /// The pairs of either relation. `Wide` exactly if its normal rows are more than `max_rows`.
    pub fn union(&self, other: &Relation, max_rows: u32) -> Result<Relation, RelFault>
        ensures { Gives result (EitherHolds self.now other.now) max_rows }
    {
        let alloc = *self.rows.allocator();
        united(alloc, &self.rows, &other.rows, max_rows as usize)
    }

    /// The pairs with a middle point, to which this relation leads and from which the other does. `Wide`
    /// exactly if its normal rows are more than `max_rows`.
    ///
    /// From object 0 to object 1 at the moments 5 to 12, and from there back to 0 at the moments 0 to 9,
    /// leads from 0 to 0 at 5 to 9:
    ///
    /// ```text
    /// 0 to 1            5 6 7 8 9 . . .
    /// 1 to 0  . . . . . 5 6 7 8 9
    /// ```
    pub fn compose(&self, other: &Relation, max_rows: u32) -> Result<Relation, RelFault>
        ensures { Gives result (HasMiddlePoint self.now other.now) max_rows }
    {
        let alloc = *self.rows.allocator();
        if is_second_whole(alloc, &self.rows, &other.rows)? {
            return copied(alloc, &other.rows, max_rows as usize);
        }
        let second = offsets_of(alloc, &other.rows, self.rows.len())?;
        if is_first_whole(&self.rows, &second) {
            return copied(alloc, &self.rows, max_rows as usize);
        }
        composed(alloc, &self.rows, &second, max_rows as usize)
    }

    /// The pairs that lead from one of the sources to one of the targets. Both lists rise.
    pub fn restrict(&self, sources: &[ObjNo], targets: &[ObjNo]) -> Result<Relation, AllocError>
        requires sources { Rise sources.now }
        requires targets { Rise targets.now }
        ensures { IfOk result (λ rows. NormalRows (IsBetween self.now sources.now targets.now) rows) }
    {
        let rows = rows_between(*self.rows.allocator(), &self.rows, sources, targets)?;
        Ok(Relation { rows })
    }

    /// The pairs that lead from the object.
    pub fn from_source(&self, source: ObjNo) -> Result<Relation, AllocError>
        ensures { IfOk result (λ from. NormalRows (λ x y. RowsHold self.now x y × (x.object ≡ source.0)) from) }
    {
        let rows = Vec::from_slice(*self.rows.allocator(), rows_from(&self.rows, source))?;
        Ok(Relation { rows })
    }

    /// Adds the pairs of a relation whose sources all come later. Without memory the relation stays as it was.
    pub fn append(&mut self, later: &Relation) -> Result<(), AllocError>
        requires { (r : PlainRow) → (s : PlainRow) → Among self.old r → Among later.now s → r.source.0 < s.source.0 }
        ensures ok { OnOk result (self.new ≡ self.old ++ later.now) }
        ensures err { OnErr result (self.new ≡ self.old) }
    {
        self.rows.extend_from_slice(&later.rows)
    }

    /// The pairs of this relation that the other hasn't.
    pub fn minus(&self, other: &Relation) -> Result<Relation, AllocError>
        ensures { IfOk result (λ rows. NormalRows (OnlyFirstHolds self.now other.now) rows) }
    {
        let alloc = *self.rows.allocator();
        if self.rows == other.rows {
            return Ok(Relation::empty(alloc));
        }
        let (kept, cuts) = struck(alloc, &self.rows, &other.rows)?;
        let items = only_in_first(alloc, &kept, &cuts)?;
        let rows = relation_of(alloc, &items, &[])?;
        Ok(rows)
    }

    /// The objects at the moments at which some pair departs. There are no more rows than here.
    pub fn sources(&self) -> Result<OneTime, AllocError>
        ensures times { IfOk result (λ times. AreTimes (Departs self.now) times) }
        ensures few { IfOk result (λ times. length times ≤ length self.now) }
    {
        times_of(*self.rows.allocator(), &self.rows, Side::Departure)
    }

    /// The objects at the moments at which some pair arrives. There are no more rows than here.
    pub fn targets(&self) -> Result<OneTime, AllocError>
        ensures times { IfOk result (λ times. AreTimes (Arrives self.now) times) }
        ensures few { IfOk result (λ times. length times ≤ length self.now) }
    {
        times_of(*self.rows.allocator(), &self.rows, Side::Arrival)
    }
}
