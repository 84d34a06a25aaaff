//! The ways by two rows, where the band of the ways is the band of one of them.
//!
//! Nearly all compositions are with rows that arrive when they depart: a test leads from a point to itself, and an edge stays in time.
//! Such a way needs no zone. If all ways of some rows are so, they are put in order, and only those of them are made normal that aren't.

ghost use Rattle.std.specs.Prelude.{◌≡◌, ◌↔◌, ℤ, ◌≤ℤ◌, [], true, IsTrue, IfOk, IfSome, OnOk};
ghost use Rattle.itpg_base.specs.Lists.{Among, Ordered};
ghost use Rattle.zone_core.specs.Zone.{Between};
ghost use Rattle.band_normal.specs.Bands.{end_at, InBand, IsWellFormed};
ghost use Rattle.relation_rows.specs.declared.rows.Row.{Row as PlainRow};
ghost use Rattle.relation_rows.specs.Relations.{HasMiddlePoint};
ghost use Rattle.relation_rows.specs.Ways.{GoesOn};
ghost use Rattle.relation_rows.specs.Apart.{IsLone, AreLone, StandsUpTo};
ghost use Rattle.relation_rows.specs.Direct.{Rests, TellsWays, LeadsBy, AddsWays, AreItsRows};

use crate::apart::stand_apart;
use crate::known::Known;
use crate::offsets::Offsets;
use crate::rows::Row;
use crate::settle::settled;
use crate::ways::{MANY, is_still};
use band_normal::{Band, End};
use std::alloc::{AllocError, Global};

// So many rows from one object may be passed in vain, and then the search is better.
const MOST: usize = 32;

// What is told of the ways by two bands.
#[derive(Clone, Copy)]
enum Told {
    // There are none.
    Nothing,
    // They are the pairs of this band.
    Way(Band),
    // They aren't known.
    Unknown,
}

/// When the band arrives first.
pub(crate) fn first_arrival(band: &Band) -> i64
    requires { IsWellFormed band.now }
    ensures { result ≡ end_at band.now.low band.now.from }
{
    band.low.at(band.from)
}

/// When the band arrives last.
pub(crate) fn last_arrival(band: &Band) -> i64
    requires { IsWellFormed band.now }
    ensures { result ≡ end_at band.now.high band.now.to }
{
    band.high.at(band.to)
}

// Whether the band has one departure and arrives then.
fn rests_once(band: &Band) -> bool
    requires { IsWellFormed band.now }
    ensures { IsTrue result → Rests band.now }
{
    if band.from != band.to {
        return false;
    }
    first_arrival(band) == band.from && last_arrival(band) == band.to
}

/// Whether the band arrives when it departs.
pub(crate) fn rests(band: &Band) -> bool
    requires { IsWellFormed band.now }
    ensures { IsTrue result → Rests band.now }
{
    if is_still(band) {
        return true;
    }
    rests_once(band)
}

// The band at some of its departures.
fn part_of(band: &Band, from: i64, to: i64) -> Band
    requires band { IsLone band.now }
    requires begins { band.now.from ≤ℤ from }
    requires some { from ≤ℤ to }
    requires ends { to ≤ℤ band.now.to }
    ensures lone { IsLone result }
    ensures pairs { (t : ℤ) → (u : ℤ) → InBand result t u ↔ (InBand band.now t u × Between from to t) }
{
    if from < to {
        return Band {
            from,
            to,
            low: band.low,
            high: band.high,
        };
    }
    Band {
        from,
        to,
        low: End::Fixed(band.low.at(from)),
        high: End::Fixed(band.high.at(from)),
    }
}

// The band at those of its departures that lie in the span, of which there are some.
fn clipped(band: &Band, from: i64, to: i64) -> Band
    requires band { IsLone band.now }
    requires some { from ≤ℤ to }
    requires begins { band.now.from ≤ℤ to }
    requires ends { from ≤ℤ band.now.to }
    ensures lone { IsLone result }
    ensures pairs { (t : ℤ) → (u : ℤ) → InBand result t u ↔ (InBand band.now t u × Between from to t) }
{
    part_of(band, band.from.max(from), band.to.min(to))
}

// The ways by the band and then the next one.
fn way_of(band: &Band, next: &Band) -> Told
    requires band { IsLone band.now }
    requires next { IsLone next.now }
    ensures { TellsWays result band.now next.now }
{
    let first = first_arrival(band);
    let last = last_arrival(band);
    if next.to < first {
        return Told::Nothing;
    }
    if last < next.from {
        return Told::Nothing;
    }
    if rests(band) {
        return Told::Way(clipped(next, band.from, band.to));
    }
    if first < next.from {
        return Told::Unknown;
    }
    if next.to < last {
        return Told::Unknown;
    }
    if rests(next) {
        return Told::Way(*band);
    }
    Told::Unknown
}

// Adds the ways by the two rows. False if they aren't known.
fn push_told(ways: &mut Vec<Row>, row: &Row, next: &Row) -> Result<bool, AllocError>
    requires row { IsLone row.now.band }
    requires next { IsLone next.now.band }
    requires same { next.now.source.0 ≡ row.now.target.0 }
    ensures { IfOk result (λ told. AddsWays (LeadsBy row.now next.now) told ways.old.items ways.new.items) }
{
    match way_of(&row.band, &next.band) {
        Told::Nothing => Ok(true),
        Told::Way(band) => {
            ways.push(Row {
                source: row.source,
                target: next.target,
                band,
            })?;
            Ok(true)
        }
        Told::Unknown => Ok(false),
    }
}

// Whether far more rows were passed than ways were found. It has no clause, since either answer is right.
fn are_in_vain(passed: usize, found: usize) -> bool {
    passed > found.saturating_add(MOST)
}

// Adds the ways by the row and one of those from where it arrives. False if some aren't known, or if few of many lead on.
fn push_onward(ways: &mut Vec<Row>, row: &Row, here: &[Row]) -> Result<bool, AllocError>
    requires row { IsLone row.now.band }
    requires here { AreLone here.now }
    requires source { (r : PlainRow) → Among here.now r → r.source.0 ≡ row.now.target.0 }
    ensures { IfOk result (λ told. AddsWays (GoesOn row.now here.now) told ways.old.items ways.new.items) }
{
    let before = ways.len();
    for (i, next) in here.iter().enumerate() {
        if are_in_vain(i, ways.len().saturating_sub(before)) {
            return Ok(false);
        }
        if !push_told(ways, row, next)? {
            return Ok(false);
        }
    }
    Ok(true)
}

// Adds the ways that begin with the row. False if some aren't known.
fn push_from(ways: &mut Vec<Row>, row: &Row, second: &Offsets<'_>) -> Result<bool, AllocError>
    requires row { IsLone row.now.band }
    requires second { AreLone second.now }
    ensures { IfOk result (λ told. AddsWays (GoesOn row.now second.now) told ways.old.items ways.new.items) }
{
    let here = second.from(row.target);
    let told = push_onward(ways, row, here)?;
    Ok(told)
}

// The ways that begin with the rows, if all are known and they aren't too many.
fn known_ways(
    alloc: Global,
    rows: &[Row],
    second: &Offsets<'_>,
    most: usize,
) -> Result<Option<Vec<Row>>, AllocError>
    requires rows { AreLone rows.now }
    requires second { AreLone second.now }
    ensures { IfOk result (λ o. IfSome o (λ ways. AddsWays (HasMiddlePoint rows.now second.now) true [] ways.items)) }
{
    let mut ways = Vec::with_capacity(alloc, rows.len())?;
    for row in rows {
        if ways.len() > most {
            return Ok(None);
        }
        if !push_from(&mut ways, row, second)? {
            return Ok(None);
        }
    }
    Ok(Some(ways))
}

/// Puts the rows in order.
pub(crate) fn sort_rows(rows: &mut Vec<Row>) -> Result<(), AllocError>
    ensures order { OnOk result (Ordered StandsUpTo rows.new.items) }
    ensures same { OnOk result ((r : PlainRow) → Among rows.new.items r ↔ Among rows.old.items r) }
{
    rows.sort_by_key(|row| ((row.source, row.target), row.band.from))?;
    Ok(())
}

/// The normal rows of the ways that begin with the rows, if they are known without a zone. Where far more are than fit, they aren't sought.
pub(crate) fn direct_rows(
    known: &mut Known,
    rows: &[Row],
    second: &Offsets<'_>,
    room: usize,
) -> Result<Option<Vec<Row>>, AllocError>
    requires rows { AreLone rows.now }
    requires second { AreLone second.now }
    ensures { IfOk result (λ o. IfSome o (λ ways. AreItsRows (HasMiddlePoint rows.now second.now) ways.items)) }
{
    let Some(mut ways) = known_ways(known.allocator(), rows, second, room.max(MANY))? else {
        return Ok(None);
    };
    if stand_apart(&ways) {
        return Ok(Some(ways));
    }
    sort_rows(&mut ways)?;
    Ok(Some(settled(known, &ways)?))
}
