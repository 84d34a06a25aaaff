//! A relation made ready for many others to be composed with it.
//!
//! What `compose` works out of its second relation alone is made once and kept: the places of the rows from each object, and the
//! timetable, where one pays for as many rows as there are.

ghost use Rattle.std.specs.Prelude.{◌≡◌, IfOk};
ghost use Rattle.relation_rows.specs.Answers.{Gives};
ghost use Rattle.relation_rows.specs.Relations.{HasMiddlePoint, HoldsOrLeads};

use crate::beyond::joined;
use crate::compose::{busy_legs, by_sources};
use crate::known::Known;
use crate::offsets::{Offsets, offsets_of};
use crate::relations::Relation;
use crate::rows::RelFault;
use crate::timetable::Leg;
use std::alloc::AllocError;
use std::marker::Model;

/// A relation with what helps to find its rows from an object, so that many others are composed with it soon.
///
/// A contract sees the list of its rows.
#[derive(Drop)]
pub struct Onward<'a> {
    rows: Offsets<'a>,
    busy: Vec<Leg>,
}

impl<'a> Model for Onward<'a> {
    ghost use Rattle.std.specs.Prelude.{List};
    ghost use Rattle.relation_rows.specs.declared.rows.Row.{Row};
    ghost use Rattle.relation_rows.specs.Ways.{AreReady};

    ghost Value = { List Row };

    ghost view = { λ o. o.rows };

    ghost invariant = { λ o. AreReady o.rows o.busy.items };
}

impl Relation {
    /// The same relation, made ready for many others to be composed with it.
    pub fn onward(&self) -> Result<Onward<'_>, AllocError>
        ensures { IfOk result (λ onward. onward ≡ self.now) }
    {
        let alloc = *self.rows.allocator();
        let rows = offsets_of(alloc, &self.rows, self.rows.len())?;
        let busy = busy_legs(alloc, &self.rows, &rows)?;
        Ok(Onward { rows, busy })
    }
}

impl<'a> Onward<'a> {
    /// The pairs with a middle point, to which the first relation leads and from which this one does. `Wide`
    /// exactly if its normal rows are more than `max_rows`.
    pub fn behind(&self, first: &Relation, max_rows: u32) -> Result<Relation, RelFault>
        ensures { Gives result (HasMiddlePoint first.now self.now) max_rows }
    {
        let mut known = Known::new(*self.busy.allocator());
        by_sources(
            &mut known,
            &first.rows,
            &self.rows,
            &self.busy,
            max_rows as usize,
        )
    }

    /// The pairs of `all`, and those with a middle point, to which the first relation leads and from which this one does. `Wide`
    /// exactly if its normal rows are more than `max_rows`.
    ///
    /// ```text
    ///     all: a to b     first: a to b     this one: b to a, b to c      a to a, to b and to c
    /// ```
    ///
    /// It lists all ways behind the first relation, and pays where this has few rows and `all` knows most of what they lead to.
    pub fn union_behind(
        &self,
        all: &Relation,
        first: &Relation,
        max_rows: u32,
    ) -> Result<Relation, RelFault>
        ensures { Gives result (HoldsOrLeads all.now first.now self.now) max_rows }
    {
        let alloc = *self.busy.allocator();
        let room = max_rows as usize;
        joined(alloc, &all.rows, &first.rows, &self.rows, &self.busy, room)
    }
}
