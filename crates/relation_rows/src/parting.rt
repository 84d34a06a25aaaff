//! A zone by which zones, and those that are to be taken from them, fall into two parts that have little to do with each other.
//!
//! No call has a clause, since any answer is right: what is left of zones is what is left of them within any one zone, and
//! what is left of them outside of it.

use std::alloc::{AllocError, Global};
use zone_core::{Bounds, Zone, tight};

// Up to so many zones are taken one after the other.
const FEW: usize = 8;

// How far from zero a moment of a zone may lie.
const REACH: i64 = 4_000_000_000_000;

/// What the pairs of zones are told apart by.
#[derive(Clone, Copy)]
enum Measure {
    Departure,
    Arrival,
    Difference,
}

// The least and the greatest that a pair of the zone has.
fn extremes(zone: &Zone, measure: Measure) -> (i64, i64) {
    let bounds = zone.bounds();
    match measure {
        Measure::Departure => (bounds.a, bounds.b),
        Measure::Arrival => (bounds.c, bounds.d),
        Measure::Difference => (bounds.e, bounds.f),
    }
}

// All pairs of moments below the border.
fn below(measure: Measure, border: i64) -> Option<Zone> {
    let all = Bounds {
        a: -REACH,
        b: REACH,
        c: -REACH,
        d: REACH,
        e: -2 * REACH,
        f: 2 * REACH,
    };
    let last = border.saturating_sub(1);
    match measure {
        Measure::Departure => tight(Bounds {
            b: last.clamp(-REACH, REACH),
            ..all
        }),
        Measure::Arrival => tight(Bounds {
            d: last.clamp(-REACH, REACH),
            ..all
        }),
        Measure::Difference => tight(Bounds {
            f: last.clamp(-2 * REACH, 2 * REACH),
            ..all
        }),
    }
}

// The middle one of the least of each zone.
fn middle_of(
    alloc: Global,
    zones: &[Zone],
    cuts: &[Zone],
    measure: Measure,
) -> Result<Option<i64>, AllocError> {
    let mut begins = Vec::new(alloc);
    for zone in zones.iter().chain(cuts.iter()) {
        begins.push(extremes(zone, measure).0)?;
    }
    if begins.is_empty() {
        return Ok(None);
    }
    let place = begins.len() / 2;
    let (_, middle, _) = begins.select_nth_unstable(place);
    Ok(Some(*middle))
}

// How many zones have a pair below the border, and how many have another, together. The greatest number where one part has
// most of all.
fn cost(zones: &[Zone], cuts: &[Zone], measure: Measure, border: i64) -> usize {
    let mut below = 0usize;
    let mut other = 0usize;
    for zone in zones.iter().chain(cuts.iter()) {
        let (least, greatest) = extremes(zone, measure);
        if least < border {
            below = below.saturating_add(1);
        }
        if border <= greatest {
            other = other.saturating_add(1);
        }
    }
    let count = zones.len().saturating_add(cuts.len());
    let most = count - count / 8;
    if most < below || most < other {
        return usize::MAX;
    }
    below.saturating_add(other)
}

/// A zone that parts them, if that is worth its while: the first that leaves hardly a zone in both parts, or else the best.
pub(crate) fn parting(
    alloc: Global,
    zones: &[Zone],
    cuts: &[Zone],
) -> Result<Option<Zone>, AllocError> {
    if zones.is_empty() || cuts.len() <= FEW {
        return Ok(None);
    }
    let count = zones.len().saturating_add(cuts.len());
    let mut least = count.saturating_add(count / 4);
    let mut part = None;
    for measure in [Measure::Departure, Measure::Arrival, Measure::Difference] {
        if let Some(border) = middle_of(alloc, zones, cuts, measure)? {
            let parts = cost(zones, cuts, measure, border);
            if parts < least {
                least = parts;
                part = below(measure, border);
            }
        }
        if least <= count.saturating_add(count / 16) {
            break;
        }
    }
    Ok(part)
}
