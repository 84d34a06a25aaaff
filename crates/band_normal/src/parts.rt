//! Zones parted into groups that can't meet, adjoin or continue each other.

ghost use Rattle.std.specs.Prelude.{◌≡◌, ◌↔◌, ◌≤◌, ◌<◌, ◌∷◌, [], ℤ, pos, ◌+ℤ◌, ◌≤ℤ◌, ◌<ℤ◌, IsTrue, IfOk, IfSome, IfNone, length, take, drop};
ghost use Rattle.zone_core.specs.declared.Bounds.{Bounds as PlainBounds};
ghost use Rattle.zone_core.specs.Zone.{Within, difference_reach};
ghost use Rattle.itpg_base.specs.Lists.{Among, Ordered};
ghost use Rattle.band_normal.specs.Zones.{SomeMeets};
ghost use Rattle.band_normal.specs.declared.sweep.Effort.{Effort};

use crate::band::Band;
use crate::cuts::{add_linked, cut_in_two};
use crate::sweep::{Effort, push_bands_of, swept};
use std::alloc::{AllocError, Global};
use zone_core::Zone;

// Fewer zones than these are parted once by one measure, since a sweep over them costs less than more rounds.
const FEW_ZONES: usize = 8;

/// How often at most groups are parted further, before they are cut.
pub const ROUNDS: u32 = 12;

/// What zones are told apart by.
#[derive(Clone, Copy)]
pub enum Measure {
    Departure,
    Arrival,
    /// Arrival less departure.
    Difference,
}

ghost use Rattle.band_normal.specs.Parts.{begin_of, end_of, BeginsNoLater, IsBelow, AddsRows};

// The measure to try after this one.
fn following(measure: Measure) -> Measure {
    match measure {
        Measure::Departure => Measure::Arrival,
        Measure::Arrival => Measure::Difference,
        Measure::Difference => Measure::Departure,
    }
}

// The zone's least departure, arrival or difference.
fn begin(zone: &Zone, measure: Measure) -> i64
    ensures { result ≡ begin_of measure zone.now }
{
    let bounds = zone.bounds();
    match measure {
        Measure::Departure => bounds.a,
        Measure::Arrival => bounds.c,
        Measure::Difference => bounds.e,
    }
}

// The greatest one.
fn end(zone: &Zone, measure: Measure) -> i64
    ensures is { result ≡ end_of measure zone.now }
    ensures near { Within difference_reach result }
{
    let bounds = zone.bounds();
    match measure {
        Measure::Departure => bounds.b,
        Measure::Arrival => bounds.d,
        Measure::Difference => bounds.f,
    }
}

// Whether the zone begins so far above that some number lies between.
fn is_above(reach: i64, zone: &Zone, measure: Measure) -> bool
    requires { Within difference_reach reach }
    ensures { IsTrue result ↔ ((reach +ℤ pos 1) <ℤ begin_of measure zone.now) }
{
    reach + 1 < begin(zone, measure)
}

// The reach with one more zone.
fn reach_with(reach: i64, zone: &Zone, measure: Measure) -> i64
    requires { Within difference_reach reach }
    ensures near { Within difference_reach result }
    ensures old { reach ≤ℤ result }
    ensures zone { end_of measure zone.now ≤ℤ result }
{
    reach.max(end(zone, measure))
}

// How many of the zones, from the first on, lie in one group.
fn group_len(zones: &[Zone], measure: Measure) -> usize
    requires some { 0 < length zones.now }
    requires order { Ordered (BeginsNoLater measure) zones.now }
    ensures some { 0 < result }
    ensures within { result ≤ length zones.now }
    ensures apart { (x : PlainBounds) → (y : PlainBounds) → Among (take result zones.now) x → Among (drop result zones.now) y → IsBelow measure x y }
{
    let mut reach = -8_000_000_000_000;
    for (i, zone) in zones.iter().enumerate() {
        if i > 0 {
            if is_above(reach, zone, measure) {
                return i;
            }
        }
        reach = reach_with(reach, zone, measure);
    }
    zones.len()
}

// The zones by where they begin, if they don't stand so.
fn reordered(
    alloc: Global,
    zones: &[Zone],
    measure: Measure,
) -> Result<Option<Vec<Zone>>, AllocError>
    ensures kept { IfOk result (λ o. IfNone o (Ordered (BeginsNoLater measure) zones.now)) }
    ensures order { IfOk result (λ o. IfSome o (λ v. Ordered (BeginsNoLater measure) v.items)) }
    ensures pairs { IfOk result (λ o. IfSome o (λ v. (t : ℤ) → (u : ℤ) → SomeMeets v.items t u ↔ SomeMeets zones.now t u)) }
{
    if zones.is_sorted_by_key(|zone| begin(zone, measure)) {
        return Ok(None);
    }
    let mut sorted = Vec::from_slice(alloc, zones)?;
    sorted.sort_by_key(|zone| begin(zone, measure))?;
    Ok(Some(sorted))
}

/// The rows of the zones, added to others: parted by the measure, for so many rounds, of which the last few parted nothing, and
/// cut so often at most.
///
/// Between groups one number at least stays free, as the arrival 4 here. So no run of the one meets, adjoins or continues one of
/// the other's, and the rows of each are rows of all.
///
/// ```text
/// arrival 6        # # #
///         5        # # #
///         4
///         3  # # # # # #
///         2  # # # # # #
///            0 1 2 3 4 5  departure
/// ```
pub fn add_parted(
    alloc: Global,
    rows: Vec<Band>,
    zones: &[Zone],
    measure: Measure,
    rounds: u32,
    idle: u32,
    cuts: u32,
) -> Result<Vec<Band>, AllocError>
    ensures { IfOk result (λ v. AddsRows rows.items zones.now v.items) }
{
    let mut rows = rows;
    if let [zone] = zones {
        push_bands_of(&mut rows, zone)?;
        return Ok(rows);
    }
    // What one measure leaves together another may part, and each part may then be parted by the first again. Once all three
    // part nothing, the zones are swept together; where the sweep would be slow they are cut, and a cut changes what they
    // reach, so that both parts are parted anew.
    if rounds == 0 || idle >= 3 || idle >= 1 && zones.len() < FEW_ZONES {
        let effort = if cuts == 0 {
            Effort::Full
        } else {
            Effort::Limited
        };
        if let Some(more) = swept(alloc, zones, effort)? {
            if rows.is_empty() {
                return Ok(more);
            }
            rows.extend_from_slice(&more)?;
            return Ok(rows);
        }
        let parts = cut_in_two(alloc, zones)?;
        let front = add_parted(
            alloc,
            Vec::new(alloc),
            &parts.front,
            Measure::Departure,
            ROUNDS,
            0,
            cuts - 1,
        )?;
        let back = add_parted(
            alloc,
            Vec::new(alloc),
            &parts.back,
            Measure::Departure,
            ROUNDS,
            0,
            cuts - 1,
        )?;
        return add_linked(alloc, rows, zones, &parts, front, &back);
    }
    let sorted = reordered(alloc, zones, measure)?;
    let mut left = match &sorted {
        Some(sorted) => &sorted[..],
        None => zones,
    };
    while !left.is_empty() {
        let (group, later) = left.split_at(group_len(left, measure));
        let idle = if group.len() == zones.len() {
            idle.saturating_add(1)
        } else {
            0
        };
        rows = add_parted(
            alloc,
            rows,
            group,
            following(measure),
            rounds - 1,
            idle,
            cuts,
        )?;
        left = later;
    }
    Ok(rows)
}
