//! Rows in order with the places at which those from each object begin, so that they are found without a search.

ghost use Rattle.std.specs.Prelude.{◌≡◌, ◌↔◌, ◌+◌, ◌≤◌, IfOk, OnOk, IfSome};
ghost use Rattle.itpg_base.specs.Lists.{Among, Ordered};
ghost use Rattle.relation_rows.specs.declared.rows.Row.{Row as PlainRow};
ghost use Rattle.relation_rows.specs.Rows.{RowBefore};
ghost use Rattle.relation_rows.specs.Offsets.{IsBegin, AreBegins, IsFilled};

use crate::rows::Row;
use crate::search::rows_from;
use itpg_base::ObjNo;
use std::alloc::{AllocError, Global};
use std::marker::Model;

// If there are more objects than these for each row and each search, no places are listed.
const SPARSE: usize = 8;

// If there are more rows than these for each search, no places are listed.
const MANY: usize = 64;

/// Rows in order, and the places at which those from an object begin, one for each object from the first source to the one behind the
/// last. A contract sees the rows.
#[derive(Drop)]
pub(crate) struct Offsets<'a> {
    rows: &'a [Row],
    first: usize,
    begins: Vec<usize>,
}

impl<'a> Model for Offsets<'a> {
    ghost use Rattle.std.specs.Prelude.{List};
    ghost use Rattle.relation_rows.specs.declared.rows.Row.{Row};
    ghost use Rattle.relation_rows.specs.Offsets.{AreOffsets};

    ghost Value = { List Row };

    ghost view = { λ o. o.rows.now };

    ghost invariant = { λ o. AreOffsets o.rows.now o.first o.begins.items };
}

impl<'a> Offsets<'a> {
    /// All rows.
    pub(crate) fn rows(&self) -> &[Row]
        ensures rows { result.now ≡ self.now }
        ensures order { Ordered RowBefore result.now }
    {
        self.rows
    }

    /// The rows from the object.
    pub(crate) fn from(&self, object: ObjNo) -> &[Row]
        ensures rows { (r : PlainRow) → Among result.now r ↔ (Among self.now r × (r.source.0 ≡ object.0)) }
        ensures order { Ordered RowBefore result.now }
    {
        let Some((begin, end)) = self.places_of(object) else {
            return rows_from(self.rows, object);
        };
        &self.rows[begin..end]
    }

    // Where the rows from the object begin, and where those from the next one do, if both places are listed.
    fn places_of(&self, object: ObjNo) -> Option<(usize, usize)>
        ensures { IfSome result (λ p. IsBegin self.now object.0 p.0 × IsBegin self.now (object.0 + 1) p.1) }
    {
        let place = (object.0 as usize).checked_sub(self.first)?;
        let begin = self.begins.get(place)?;
        let end = self.begins.get(place + 1)?;
        Some((*begin, *end))
    }
}

// Adds the place until so many are listed.
fn fill(begins: &mut Vec<usize>, count: usize, place: usize) -> Result<(), AllocError>
    ensures { OnOk result (IsFilled count place begins.old.items begins.new.items) }
{
    while begins.len() < count {
        begins.push(place)?;
    }
    Ok(())
}

// The places at which the rows from an object begin, from the first object on. No row comes from one before that.
fn begins_of(alloc: Global, rows: &[Row], first: usize) -> Result<Vec<usize>, AllocError>
    requires order { Ordered RowBefore rows.now }
    requires first { (r : PlainRow) → Among rows.now r → first ≤ r.source.0 }
    ensures { IfOk result (λ begins. AreBegins rows.now first begins.items) }
{
    let mut begins = Vec::new(alloc);
    for (place, row) in rows.iter().enumerate() {
        let count = row.source.0 as usize - first + 1;
        fill(&mut begins, count, place)?;
    }
    let count = begins.len() + 1;
    fill(&mut begins, count, rows.len())?;
    Ok(begins)
}

// Whether listing places pays for so many searches. It has no clause, since either answer is right.
fn pays(rows: usize, objects: usize, searches: usize) -> bool {
    searches >= rows / MANY && rows.saturating_add(searches) >= objects / SPARSE
}

/// The rows, which stand in order, with places if they pay for so many searches.
pub(crate) fn offsets_of<'a>(
    alloc: Global,
    rows: &'a [Row],
    searches: usize,
) -> Result<Offsets<'a>, AllocError>
    requires { Ordered RowBefore rows.now }
    ensures { IfOk result (λ offsets. offsets ≡ rows.now) }
{
    let none = Offsets {
        rows,
        first: 0,
        begins: Vec::new(alloc),
    };
    let (Some(row), Some(last)) = (rows.first(), rows.last()) else {
        return Ok(none);
    };
    let first = row.source.0 as usize;
    let objects = (last.source.0 as usize).saturating_sub(first);
    if !pays(rows.len(), objects, searches) {
        return Ok(none);
    }
    let begins = begins_of(alloc, rows, first)?;
    Ok(Offsets {
        rows,
        first,
        begins,
    })
}
