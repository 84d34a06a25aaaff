//! The bands that are active at a departure, how far they and no others are, and their runs.

ghost use Rattle.std.specs.Prelude.{◌≡◌, ◌↔◌, ◌++◌, ◌≤◌, ◌≤ℤ◌, ◌<ℤ◌, IsTrue, IfOk, OnOk, length, take, drop, filter, int_le};
ghost use Rattle.zone_core.specs.Zone.{Within, moment_reach};
ghost use Rattle.band_normal.specs.declared.band.Band.{Band};
ghost use Rattle.itpg_base.specs.Lists.{Among, Ordered};
ghost use Rattle.band_normal.specs.Bands.{IsWellFormed, end_at};
ghost use Rattle.band_normal.specs.Strips.{Holds, IsFront, AreMerged, AreRuns, BeginsEarlier};

use crate::band::Band;
use crate::rows::push_all;
use crate::strips::{Ends, Stretch, Strips, cut_to, with_band};
use std::alloc::AllocError;

/// The ends of a band that is active along a stretch, and its low end where the stretch begins.
#[derive(Clone, Copy)]
pub struct Reach {
    pub low: i64,
    pub ends: Ends,
}

ghost use Rattle.band_normal.specs.declared.active.Reach.{Reach};
ghost use Rattle.band_normal.specs.Actives.{IsActiveAt, AddsReach, AreActive, IsFit, BeginsLower, ends_of};

// The stretch up to where the band, which begins later, does.
fn until(along: Stretch, band: Band) -> Stretch
    requires span { along.from ≤ℤ along.to }
    requires later { along.from <ℤ band.from }
    ensures front { IsFront along result }
    ensures apart { result.to <ℤ band.from }
{
    cut_to(along, band.from - 1)
}

fn reach_of(band: Band, along: Stretch) -> Reach
    requires well_formed { IsWellFormed band }
    requires from { band.from ≤ℤ along.from }
    requires to { along.from ≤ℤ band.to }
    ensures low { result.low ≡ end_at band.low along.from }
    ensures low_end { result.ends.low ≡ band.low }
    ensures high_end { result.ends.high ≡ band.high }
{
    Reach {
        low: band.low.at(along.from),
        ends: Ends {
            low: band.low,
            high: band.high,
        },
    }
}

// Adds the band's reach; the stretch cut to where the band ends.
fn add_reach(reaches: &mut Vec<Reach>, band: Band, along: Stretch) -> Result<Stretch, AllocError>
    requires span { along.from ≤ℤ along.to }
    requires well_formed { IsWellFormed band }
    requires active { IsActiveAt along.from band }
    ensures { IfOk result (λ s. AddsReach along reaches.old.items band s reaches.new.items) }
{
    reaches.push(reach_of(band, along))?;
    Ok(cut_to(along, band.to))
}

// Makes the reaches those of the bands, all active where the stretch begins; the stretch cut to where none of them ends.
fn active_along(
    reaches: &mut Vec<Reach>,
    bands: &[Band],
    along: Stretch,
) -> Result<Stretch, AllocError>
    requires span { along.from ≤ℤ along.to }
    requires well_formed { (b : Band) → Among bands.now b → IsWellFormed b }
    requires active { (b : Band) → Among bands.now b → IsActiveAt along.from b }
    ensures front { IfOk result (λ s. IsFront along s) }
    ensures active { IfOk result (λ s. AreActive bands.now s reaches.new.items) }
{
    reaches.clear();
    let mut kept = along;
    for band in bands {
        kept = add_reach(reaches, *band, kept)?;
    }
    Ok(kept)
}

// The runs of the active bands, which come by their low ends, in place of the old runs.
fn merged_runs(mut runs: Vec<Ends>, reaches: &[Reach], along: Stretch) -> Result<Strips, AllocError>
    requires span { along.from ≤ℤ along.to }
    requires from_near { Within moment_reach along.from }
    requires fit { (r : Reach) → Among reaches.now r → IsFit along r }
    requires order { Ordered BeginsLower reaches.now }
    ensures front { IfOk result (λ s. IsFront along s.along) }
    ensures merged { IfOk result (λ s. AreMerged (ends_of reaches.now) s.along s.runs.items) }
{
    runs.clear();
    let mut strips = Strips { along, runs };
    for reach in reaches {
        strips = with_band(strips, reach.ends)?;
    }
    Ok(strips)
}

// The runs of the bands from where the stretch begins on, as far as they go alike, in place of the old runs.
fn strips_along(
    reaches: &mut Vec<Reach>,
    runs: Vec<Ends>,
    bands: &[Band],
    along: Stretch,
) -> Result<Strips, AllocError>
    requires span { along.from ≤ℤ along.to }
    requires from_near { Within moment_reach along.from }
    requires well_formed { (b : Band) → Among bands.now b → IsWellFormed b }
    requires active { (b : Band) → Among bands.now b → IsActiveAt along.from b }
    ensures front { IfOk result (λ s. IsFront along s.along) }
    ensures runs { IfOk result (λ s. AreRuns (Holds bands.now) s.along s.runs.items) }
{
    let kept = active_along(reaches, bands, along)?;
    reaches.sort_by_key(|reach| reach.low)?;
    merged_runs(runs, reaches, kept)
}

fn begins_after(band: Band, left: Stretch) -> bool
    ensures { IsTrue result ↔ (left.from <ℤ band.from) }
{
    left.from < band.from
}

/// How many of the bands begin where the stretch does, or before it.
pub fn begun_count(waiting: &[Band], left: Stretch) -> usize
    requires { Ordered BeginsEarlier waiting.now }
    ensures bound { result ≤ length waiting.now }
    ensures begun { (b : Band) → Among (take result waiting.now) b → b.from ≤ℤ left.from }
    ensures later { (b : Band) → Among (drop result waiting.now) b → left.from <ℤ b.from }
{
    for (i, band) in waiting.iter().enumerate() {
        if begins_after(*band, left) {
            return i;
        }
    }
    waiting.len()
}

/// Adds the bands that have begun to the active ones, and drops those that are over where the stretch begins.
pub fn advance(active: &mut Vec<Band>, begun: &[Band], left: Stretch) -> Result<(), AllocError>
    ensures { OnOk result (active.new.items ≡ filter (λ b. int_le left.from b.to) (active.old.items ++ begun.now)) }
{
    push_all(active, begun)?;
    active.retain(|band| left.from <= band.to);
    Ok(())
}

/// The runs of the active bands from where the stretch begins on, as far as they go alike and no other band begins.
///
/// They come in place of the old runs, and the reaches are made anew, so that a sweep takes their memory once.
pub fn strips_before(
    reaches: &mut Vec<Reach>,
    runs: Vec<Ends>,
    waiting: &[Band],
    active: &[Band],
    left: Stretch,
) -> Result<Strips, AllocError>
    requires span { left.from ≤ℤ left.to }
    requires from_near { Within moment_reach left.from }
    requires order { Ordered BeginsEarlier waiting.now }
    requires later { (b : Band) → Among waiting.now b → left.from <ℤ b.from }
    requires well_formed { (b : Band) → Among active.now b → IsWellFormed b }
    requires active { (b : Band) → Among active.now b → IsActiveAt left.from b }
    ensures front { IfOk result (λ s. IsFront left s.along) }
    ensures runs { IfOk result (λ s. AreRuns (Holds active.now) s.along s.runs.items) }
    ensures before { IfOk result (λ s. (b : Band) → Among waiting.now b → s.along.to <ℤ b.from) }
{
    match waiting.first() {
        None => strips_along(reaches, runs, active, left),
        Some(band) => strips_along(reaches, runs, active, until(left, *band)),
    }
}
