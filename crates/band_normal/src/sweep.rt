//! The rows of zones by a sweep along the departures.
//!
//! From the first departure on, stretch by stretch: the bands that are active where the stretch
//! begins are merged to runs, which go as far as no band begins or ends and no two ends pass each
//! other. The runs of each stretch are joined to the rows that reach it.
//!
//! Where a row begins and ends is settled by the departures before its own, so one pass from the left completes each row in turn,
//! and looks at no row that ended before. A stretch costs as much as there are active bands: a sweep over few of them is the fastest
//! way there is, and one over a crowd may take the square of the bands, so it can be given up.
//!
//! In contracts `held` is the list of all bands: its pairs are the relation whose runs are meant.

ghost use Rattle.std.specs.Prelude.{◌≡◌, ◌↔◌, ◌++◌, [], ℤ, pos, ◌+ℤ◌, ◌≤ℤ◌, List, IfOk, OnOk, IfSome, IfNone, IsSome, false};
ghost use Rattle.zone_core.specs.Zone.{Meets, Within, moment_reach};
ghost use Rattle.band_normal.specs.declared.band.Band.{Band};
ghost use Rattle.itpg_base.specs.Lists.{Among, Ordered};
ghost use Rattle.band_normal.specs.Bands.{IsWellFormed};
ghost use Rattle.band_normal.specs.Zones.{SomeMeets, present, AddsBands};
ghost use Rattle.band_normal.specs.Strips.{Holds, Covers, BeginsEarlier};
ghost use Rattle.band_normal.specs.Rows.{CanSweep, AreRowsTo};
ghost use Rattle.band_normal.specs.Parts.{AreRowsOf};

use crate::active::{advance, begun_count, strips_before};
use crate::band::Band;
use crate::lasting::span_of;
use crate::pieces::first_piece;
use crate::rows::{Rows, Spare, join, push_some};
use crate::strips::Stretch;
use crate::zones::bands_of;
use std::alloc::{AllocError, Global};
use zone_core::Zone;

// With fewer begins and ends than these, a limited sweep is always tried.
const FEW_TURNS: u64 = 16;

// How many zones may be active at a time, as a mean of their departures, if a limited sweep is to be tried.
const CROWD: i64 = 32;

// How many bands a limited sweep may look at for each one that has begun and each row that is complete.
const LOOKS: u64 = 32;

// How many bands there is room for from the start beside one for each zone, of which some have two or three.
const MORE_BANDS: usize = 4;

/// Whether a sweep may be given up.
#[derive(Clone, Copy)]
pub enum Effort {
    /// Where it looks at many bands for each one that begins and each row that it completes.
    Limited,
    /// Never.
    Full,
}

ghost use Rattle.band_normal.specs.declared.sweep.Effort.{Effort};

/// Adds the bands that there are. An error says that memory ran out; the first of them may have been added.
pub fn push_present(bands: &mut Vec<Band>, more: [Option<Band>; 3]) -> Result<(), AllocError>
    ensures { OnOk result (bands.new.items ≡ bands.old.items ++ present more) }
{
    let [first, second, third] = more;
    push_some(bands, first)?;
    push_some(bands, second)?;
    push_some(bands, third)
}

/// Adds the zone's normal bands, most often one. An error says that memory ran out; the first of them may have been added.
pub fn push_bands_of(bands: &mut Vec<Band>, zone: &Zone) -> Result<(), AllocError>
    ensures { OnOk result (AddsBands zone.now bands.old.items bands.new.items) }
{
    let k = zone.bounds();
    let first = first_piece(k);
    if first.to == k.b {
        bands.push(first)?;
        return Ok(());
    }
    push_present(bands, bands_of(zone))?;
    Ok(())
}

// The bands of all zones.
fn bands_of_all(alloc: Global, zones: &[Zone]) -> Result<Vec<Band>, AllocError>
    ensures pairs { IfOk result (λ v. (t : ℤ) → (u : ℤ) → Holds v.items t u ↔ SomeMeets zones.now t u) }
    ensures well_formed { IfOk result (λ v. (b : Band) → Among v.items b → IsWellFormed b) }
{
    let mut bands = Vec::with_capacity(alloc, zones.len().saturating_add(MORE_BANDS))?;
    for zone in zones {
        push_bands_of(&mut bands, zone)?;
    }
    Ok(bands)
}

// The later of the departure and the band's last.
fn later(last: i64, band: &Band) -> i64
    requires last { Within moment_reach last }
    requires band { Within moment_reach band.now.to }
    ensures near { Within moment_reach result }
    ensures old { last ≤ℤ result }
    ensures band { band.now.to ≤ℤ result }
{
    last.max(band.to)
}

// The last departure of the bands, or the other one if it comes after that.
fn last_departure(bands: &[Band], other: i64) -> i64
    requires well_formed { (b : Band) → Among bands.now b → IsWellFormed b }
    requires near { Within moment_reach other }
    ensures near { Within moment_reach result }
    ensures other { other ≤ℤ result }
    ensures all { (b : Band) → Among bands.now b → b.to ≤ℤ result }
{
    let mut last = other;
    for band in bands {
        last = later(last, band);
    }
    last
}

// Departures from the first one of the bands, which come by it, to the last.
fn departures(bands: &[Band]) -> Option<Stretch>
    requires well_formed { (b : Band) → Among bands.now b → IsWellFormed b }
    requires order { Ordered BeginsEarlier bands.now }
    ensures none { IfNone result (bands.now ≡ []) }
    ensures some { IfSome result (λ s. Covers bands.now s) }
{
    let first = bands.first()?;
    Some(Stretch {
        from: first.from,
        to: last_departure(bands, first.to),
    })
}

// What is left of the departures once a stretch of them is done.
fn after(left: Stretch, done: Stretch) -> Stretch
    requires { Within moment_reach done.to }
    ensures from { result.from ≡ done.to +ℤ pos 1 }
    ensures to { result.to ≡ left.to }
{
    Stretch {
        from: done.to + 1,
        to: left.to,
    }
}

// Whether the sweep is to be given up.
//
// In each stretch the sweep looks at all bands that are active there. That pays where rows end in most stretches, as where
// many ends cross at the same few departures. Where they don't, the looks soon outnumber what has begun and ended: then the
// zones are cut, and few looks have been lost.
fn is_slow(effort: Effort, looks: u64, gains: u64) -> bool
    ensures { effort ≡ Effort.Full → result ≡ false }
{
    match effort {
        Effort::Limited => looks > gains.saturating_mul(LOOKS),
        Effort::Full => false,
    }
}

fn no_rows(alloc: Global) -> Rows
    ensures complete { result.complete.items ≡ [] }
    ensures reaching { result.reaching.items ≡ [] }
{
    Rows {
        complete: Vec::new(alloc),
        reaching: Vec::new(alloc),
        spare: Spare {
            reaching: Vec::new(alloc),
            passed: Vec::new(alloc),
        },
    }
}

// The rows of all departures, up to the last one.
fn rows_over(
    alloc: Global,
    bands: &[Band],
    span: Stretch,
    effort: Effort,
) -> Result<Option<Rows>, AllocError>
    ghost held: { List Band }
    requires { CanSweep held bands.now span }
    ensures rows { IfOk result (λ o. IfSome o (λ r. AreRowsTo (Holds held) (span.to +ℤ pos 1) r.complete.items r.reaching.items)) }
    ensures full { effort ≡ Effort.Full → IfOk result (λ o. IsSome o) }
{
    let mut rows = no_rows(alloc);
    let mut waiting = bands;
    let mut active = Vec::new(alloc);
    let mut reaches = Vec::new(alloc);
    let mut runs = Vec::new(alloc);
    let mut left = span;
    let mut looks: u64 = 0;
    while left.from <= left.to {
        let (begun, later) = waiting.split_at(begun_count(waiting, left));
        advance(&mut active, begun, left)?;
        waiting = later;
        looks = looks.saturating_add(active.len() as u64);
        let gains = bands
            .len()
            .saturating_sub(waiting.len())
            .saturating_add(rows.complete.len());
        if is_slow(effort, looks, gains as u64) {
            return Ok(None);
        }
        let strips = strips_before(&mut reaches, runs, waiting, &active, left)?;
        rows = join(rows, &strips)?;
        left = after(left, strips.along);
        runs = strips.runs;
    }
    Ok(Some(rows))
}

// Whether the sweep isn't even to be tried: where many zones are active at a time, and many of them begin or end then.
fn is_hopeless(zones: &[Zone], effort: Effort) -> bool
    ensures { effort ≡ Effort.Full → result ≡ false }
{
    if let Effort::Full = effort {
        return false;
    }
    if (zones.len() as u64) <= FEW_TURNS {
        return false;
    }
    let span = span_of(zones);
    let mut turns: u64 = 0;
    let mut active: i64 = 0;
    for zone in zones {
        let bounds = zone.bounds();
        if span.from < bounds.a || bounds.b < span.to {
            turns = turns.saturating_add(1);
        }
        active = active.saturating_add(bounds.b.saturating_sub(bounds.a));
    }
    FEW_TURNS < turns && span.to.saturating_sub(span.from).saturating_mul(CROWD) < active
}

/// The rows of the zones, in any order, by a sweep over all of them; none where it was given up.
pub fn swept(alloc: Global, zones: &[Zone], effort: Effort) -> Result<Option<Vec<Band>>, AllocError>
    ensures rows { IfOk result (λ o. IfSome o (λ v. AreRowsOf zones.now v.items)) }
    ensures full { effort ≡ Effort.Full → IfOk result (λ o. IsSome o) }
{
    if is_hopeless(zones, effort) {
        return Ok(None);
    }
    let mut bands = bands_of_all(alloc, zones)?;
    bands.sort_by_key(|band| band.from)?;
    let Some(span) = departures(&bands) else {
        return Ok(Some(Vec::new(alloc)));
    };
    let Some(rows) = rows_over(alloc, &bands, span, effort)? else {
        return Ok(None);
    };
    let Rows {
        mut complete,
        reaching,
        spare: _,
    } = rows;
    if complete.is_empty() {
        return Ok(Some(reaching));
    }
    complete.extend_from_slice(&reaching)?;
    Ok(Some(complete))
}
