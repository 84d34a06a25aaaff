//! Zones that are active at all departures, made fewer.
//!
//! A cut leaves such a zone in both parts, so what many of them hold together would be worked out again in each. Those with
//! an end that moves and those without are made normal apart, since the ends of the ones may pass those of the others in
//! as many stretches as there are pairs of them.

ghost use Rattle.std.specs.Prelude.{◌⊎◌, ◌↔◌, ℤ, IfOk};
ghost use Rattle.band_normal.specs.Zones.{SomeMeets};

use crate::strips::Stretch;
use crate::sweep::{Effort, swept};
use crate::zones::zones_of;
use std::alloc::{AllocError, Global};
use zone_core::Zone;

/// All departures of the zones, from the first to the last.
pub fn span_of(zones: &[Zone]) -> Stretch {
    let mut span = Stretch {
        from: 4_000_000_000_000,
        to: -4_000_000_000_000,
    };
    for zone in zones {
        let bounds = zone.bounds();
        span.from = span.from.min(bounds.a);
        span.to = span.to.max(bounds.b);
    }
    span
}

// Whether the zone is active at all departures, and an end of it moves somewhere, or none does. An end moves where the zone has
// fewer pairs than its departures and arrivals alone allow.
fn lasts(zone: &Zone, span: Stretch, moving: bool) -> bool {
    let bounds = zone.bounds();
    if bounds.a > span.from {
        return false;
    }
    if bounds.b < span.to {
        return false;
    }
    let least_moves = bounds.e > bounds.c.saturating_sub(bounds.b);
    let most_moves = bounds.f < bounds.d.saturating_sub(bounds.a);
    (least_moves || most_moves) == moving
}

// The zones that last, and the others.
fn told_apart(
    alloc: Global,
    zones: &[Zone],
    span: Stretch,
    moving: bool,
) -> Result<(Vec<Zone>, Vec<Zone>), AllocError>
    ensures { IfOk result (λ h. (t : ℤ) → (u : ℤ) → (SomeMeets h.0.items t u ⊎ SomeMeets h.1.items t u) ↔ SomeMeets zones.now t u) }
{
    let mut lasting = Vec::new(alloc);
    let mut others = Vec::new(alloc);
    for zone in zones {
        if lasts(zone, span, moving) {
            lasting.push(*zone)?;
        } else {
            others.push(*zone)?;
        }
    }
    Ok((lasting, others))
}

/// The zones' pairs, with the zones that last made fewer: such as have an end that moves, or the others.
pub fn with_fewer_lasting(
    alloc: Global,
    zones: &[Zone],
    span: Stretch,
    moving: bool,
) -> Result<Vec<Zone>, AllocError>
    ensures { IfOk result (λ v. (t : ℤ) → (u : ℤ) → SomeMeets v.items t u ↔ SomeMeets zones.now t u) }
{
    let (lasting, mut others) = told_apart(alloc, zones, span, moving)?;
    let Some(rows) = swept(alloc, &lasting, Effort::Limited)? else {
        return Vec::from_slice(alloc, zones);
    };
    let fewer = zones_of(alloc, &rows)?;
    others.extend_from_slice(&fewer)?;
    Ok(others)
}
