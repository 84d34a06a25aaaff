//! Rows that are normal as they stand: each band alone is, and between two rows of one source and target a departure is free, or they have
//! the same departures and at each an arrival is free.

ghost use Rattle.std.specs.Prelude.{◌≡◌, ◌↔◌, pos, ◌+ℤ◌, ◌≤ℤ◌, ◌<ℤ◌, IsTrue};
ghost use Rattle.itpg_base.specs.Lists.{Ordered};
ghost use Rattle.band_normal.specs.Bands.{end_at, IsWellFormed};
ghost use Rattle.band_normal.specs.Normal.{Steps};
ghost use Rattle.relation_rows.specs.Apart.{AdjoinsApart, AreLone, ArriveApart, ComesApart, ComesClear};

use crate::direct::{first_arrival, last_arrival};
use crate::rows::Row;
use crate::search::{comes_before_key, is_of_key};
use band_normal::Band;

/// Whether the row departs so late that a moment is free after the last departure.
pub(crate) fn is_apart(last: i64, row: &Row) -> bool
    ensures { IsTrue result ↔ ((last +ℤ pos 1) <ℤ row.now.band.from) }
{
    last < row.band.from && last + 1 < row.band.from
}

/// The last departure with one more row.
pub(crate) fn last_with(last: i64, row: &Row) -> i64
    ensures old { last ≤ℤ result }
    ensures row { row.now.band.to ≤ℤ result }
{
    last.max(row.band.to)
}

// The greatest arrival at the first departure.
fn first_high(band: &Band) -> i64
    requires { IsWellFormed band.now }
    ensures { result ≡ end_at band.now.high band.now.from }
{
    band.high.at(band.from)
}

// The least arrival at the last departure.
fn last_low(band: &Band) -> i64
    requires { IsWellFormed band.now }
    ensures { result ≡ end_at band.now.low band.now.to }
{
    band.low.at(band.to)
}

// Whether a moment is free between the arrivals.
fn is_free(high: i64, low: i64) -> bool
    ensures { IsTrue result → ((high +ℤ pos 1) <ℤ low) }
{
    high < low && high + 1 < low
}

// Whether the second band has the departures of the first, and at each of them a moment is free between their arrivals.
fn arrive_apart(first: &Band, second: &Band) -> bool
    requires first { IsWellFormed first.now }
    requires second { IsWellFormed second.now }
    ensures { IsTrue result → ArriveApart first.now second.now }
{
    if first.from != second.from || first.to != second.to {
        return false;
    }
    if !is_free(first_high(first), first_arrival(second)) {
        return false;
    }
    is_free(last_arrival(first), last_low(second))
}

// Whether the row comes after the last one by source and target, or is apart from it.
fn comes_apart(last: &Row, row: &Row) -> bool
    requires last { IsWellFormed last.now.band }
    requires row { IsWellFormed row.now.band }
    ensures { IsTrue result → ComesApart last.now row.now }
{
    if comes_before_key(last, row.source, row.target) {
        return true;
    }
    if !is_of_key(row, last.source, last.target) {
        return false;
    }
    if is_apart(last.band.to, row) {
        return true;
    }
    arrive_apart(&last.band, &row.band)
}

// Whether the second number is the first, or greater by one.
fn is_step(first: i64, second: i64) -> bool
    ensures { IsTrue result ↔ Steps first second }
{
    first == second || first < second && first + 1 == second
}

// Whether the second band's departures begin right behind those of the first, and its first run doesn't continue the last one there.
fn adjoins_apart(first: &Band, second: &Band) -> bool
    requires first { IsWellFormed first.now }
    requires second { IsWellFormed second.now }
    ensures { IsTrue result → AdjoinsApart first.now second.now }
{
    if first.to + 1 != second.from {
        return false;
    }
    if !is_step(last_low(first), first_arrival(second)) {
        return true;
    }
    !is_step(last_arrival(first), first_high(second))
}

// Whether the row comes after the last one by source and target, or departs behind it and doesn't continue it.
fn comes_clear(last: &Row, row: &Row) -> bool
    requires last { IsWellFormed last.now.band }
    requires row { IsWellFormed row.now.band }
    ensures { IsTrue result → ComesClear last.now row.now }
{
    if comes_before_key(last, row.source, row.target) {
        return true;
    }
    if !is_of_key(row, last.source, last.target) {
        return false;
    }
    if is_apart(last.band.to, row) {
        return true;
    }
    adjoins_apart(&last.band, &row.band)
}

/// Whether each row comes clear of the one before it.
pub(crate) fn stand_clear(rows: &[Row]) -> bool
    requires { AreLone rows.now }
    ensures { IsTrue result → Ordered ComesClear rows.now }
{
    for i in 1..rows.len() {
        if !comes_clear(&rows[i - 1], &rows[i]) {
            return false;
        }
    }
    true
}

/// Whether each row comes apart from the one before it.
pub(crate) fn stand_apart(rows: &[Row]) -> bool
    requires { AreLone rows.now }
    ensures { IsTrue result → Ordered ComesApart rows.now }
{
    for i in 1..rows.len() {
        if !comes_apart(&rows[i - 1], &rows[i]) {
            return false;
        }
    }
    true
}
