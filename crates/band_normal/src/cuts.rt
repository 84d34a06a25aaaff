//! Zones cut in two at a departure, and the rows of both parts put together.

ghost use Rattle.std.specs.Prelude.{◌≡◌, ◌∷◌, [], ◌⊎◌, ◌↔◌, ◌++◌, ℤ, ◌≤ℤ◌, ◌<ℤ◌, IfOk, OnOk};
ghost use Rattle.std.specs.Option.{option_to_list};
ghost use Rattle.zone_core.specs.Zone.{Holds, IsNear, Meets, Within, moment_reach};
ghost use Rattle.band_normal.specs.Zones.{SomeMeets};
ghost use Rattle.band_normal.specs.Parts.{AreRowsOf, AddsRows};
ghost use Rattle.band_normal.specs.Cuts.{MeetsUpTo, MeetsAfter, AreCut};

use crate::band::Band;
use crate::lasting::{span_of, with_fewer_lasting};
use crate::links::link;
use crate::rows::push_some;
use crate::strips::Stretch;
use std::alloc::{AllocError, Global};
use zone_core::{Bounds, Zone, after, tight};

// With fewer begins and ends than these, zones are cut in the middle of all departures.
const FEW_TURNS: u64 = 16;

/// A departure at which zones are cut.
#[derive(Clone, Copy)]
pub struct Cut {
    pub last: i64,
}

// What the zone has up to the cut, if anything.
fn up_to(mut k: Bounds, limit: Cut) -> Option<Zone>
    requires k_near { IsNear k }
    requires limit_near { Within moment_reach limit.last }
    ensures { (t : ℤ) → (u : ℤ) → Holds result t u ↔ (Meets k t u × (t ≤ℤ limit.last)) }
{
    k.b = k.b.min(limit.last);
    tight(k)
}

// The zones' pairs up to a departure, and those after it.
fn parts_at(alloc: Global, zones: &[Zone], limit: Cut) -> Result<(Vec<Zone>, Vec<Zone>), AllocError>
    requires { Within moment_reach limit.last }
    ensures front { IfOk result (λ p. (t : ℤ) → (u : ℤ) → SomeMeets p.0.items t u ↔ MeetsUpTo zones.now limit.last t u) }
    ensures back { IfOk result (λ p. (t : ℤ) → (u : ℤ) → SomeMeets p.1.items t u ↔ MeetsAfter zones.now limit.last t u) }
{
    let mut front = Vec::new(alloc);
    let mut back = Vec::new(alloc);
    for zone in zones {
        let bounds = zone.bounds();
        push_some(&mut front, up_to(bounds, limit))?;
        push_some(&mut back, after(bounds, limit.last))?;
    }
    Ok((front, back))
}

// The cut after the departure, or after the nearest one that is in range.
fn cut_after(last: i64) -> Cut
    ensures { Within moment_reach result.last }
{
    if last < -4_000_000_000_000 {
        return Cut {
            last: -4_000_000_000_000,
        };
    }
    if last > 4_000_000_000_000 {
        return Cut {
            last: 4_000_000_000_000,
        };
    }
    Cut { last }
}

// The cut with about as many begins and ends of zones up to it as after it, or else in the middle of the span.
fn middle(alloc: Global, zones: &[Zone], span: Stretch) -> Result<Cut, AllocError>
    ensures { IfOk result (λ c. Within moment_reach c.last) }
{
    let mut turns = Vec::new(alloc);
    for zone in zones {
        let bounds = zone.bounds();
        if bounds.a > span.from {
            turns.push(bounds.a.saturating_sub(1))?;
        }
        if bounds.b < span.to {
            turns.push(bounds.b)?;
        }
    }
    if (turns.len() as u64) < FEW_TURNS {
        return Ok(cut_after(span.from.saturating_add(span.to) / 2));
    }
    turns.sort_unstable();
    let last = match turns.get(turns.len() / 2) {
        Some(turn) => *turn,
        None => 0,
    };
    Ok(cut_after(last))
}

/// Two parts of some zones, which hold what they do up to some departure and after it.
#[derive(Drop)]
pub struct Parts {
    pub front: Vec<Zone>,
    pub back: Vec<Zone>,
}

/// The zones cut in two at a departure.
///
/// A run depends on its departure alone, so the rows of each part are strips of the whole, and once linked they are its rows. The
/// cut lies where half of the begins and ends have been, so that neither part keeps most of them; where there are few, ends pass
/// each other, and in half of the departures fewer do.
pub fn cut_in_two(alloc: Global, zones: &[Zone]) -> Result<Parts, AllocError>
    ensures { IfOk result (λ p. AreCut zones.now p.front.items p.back.items) }
{
    let span = span_of(zones);
    let once = with_fewer_lasting(alloc, zones, span, false)?;
    let fewer = with_fewer_lasting(alloc, &once, span, true)?;
    let last = middle(alloc, &fewer, span)?;
    let (front, back) = parts_at(alloc, &fewer, last)?;
    Ok(Parts { front, back })
}

/// The rows of two parts, added to others as the rows of all.
pub fn add_linked(
    alloc: Global,
    mut rows: Vec<Band>,
    zones: &[Zone],
    parts: &Parts,
    front: Vec<Band>,
    back: &[Band],
) -> Result<Vec<Band>, AllocError>
    requires cut { AreCut zones.now parts.now.front.items parts.now.back.items }
    requires front { AreRowsOf parts.now.front.items front.items }
    requires back { AreRowsOf parts.now.back.items back.now }
    ensures { IfOk result (λ v. AddsRows rows.items zones.now v.items) }
{
    let mut strips = front;
    strips.extend_from_slice(back)?;
    let linked = link(alloc, &strips)?;
    rows.extend_from_slice(&linked)?;
    Ok(rows)
}
