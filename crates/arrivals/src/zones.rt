//! The first arrival of each departure, and the last departure to each arrival, of some zones.
//!
//! Over each zone all that arrives later is added. The normal list of these has at each departure one
//! run, whose low end is the first arrival:
//!
//! ```text
//!     arrivals   . # # .        # # # #
//!                # . # #   ->   # # # #
//!                # . . .        # . # #      the low ends are the first arrivals
//!     departures 0 1 2 3        0 1 2 3
//! ```

ghost use Rattle.std.specs.Prelude.{◌≡◌, ◌↔◌, ◌⊎◌, ◌≤◌, ℤ, pos, neg_ℤ, ◌≤ℤ◌, IfOk, OnOk};
ghost use Rattle.zone_core.specs.Zone.{Meets, IsNear, Within, moment_reach};
ghost use Rattle.band_normal.specs.declared.band.Band.{Band as PlainBand};
ghost use Rattle.itpg_base.specs.Lists.{Among};
ghost use Rattle.band_normal.specs.Bands.{InBand, IsWellFormed};
ghost use Rattle.band_normal.specs.Normal.{Normal};
ghost use Rattle.band_normal.specs.Zones.{SomeMeets};
ghost use Rattle.arrivals.specs.Firsts.{LeastOf, LatestOf, IsAbove, SomeOf, OnLow, Reversed};

use band_normal::{Band, normal, zone_of};
use std::alloc::{AllocError, Global};
use zone_core::{Bounds, Zone, tight};

// The zone's pairs, and for each departure all later arrivals in reach.
fn up_of(zone: &Zone) -> Zone
    ensures { (t : ℤ) → (u : ℤ) → Meets result t u ↔ IsAbove (Meets zone.now) t u }
{
    let mut bounds = zone.bounds();
    bounds.d = 4_000_000_000_000;
    bounds.f = 8_000_000_000_000;
    tight(bounds).unwrap()
}

fn push_ups(ups: &mut Vec<Zone>, zones: &[Zone]) -> Result<(), AllocError>
    ensures { OnOk result ((t : ℤ) → (u : ℤ) → SomeMeets ups.new.items t u ↔ (SomeMeets ups.old.items t u ⊎ SomeOf (λ z. IsAbove (Meets z)) zones.now t u)) }
{
    for zone in zones {
        ups.push(up_of(zone))?;
    }
    Ok(())
}

// For each departure all arrivals from the first one on.
fn above(alloc: Global, zones: &[Zone]) -> Result<Vec<Band>, AllocError>
    ensures normal { IfOk result (λ bands. Normal (IsAbove (SomeMeets zones.now)) bands.items) }
    ensures formed { IfOk result (λ bands. (b : PlainBand) → Among bands.items b → IsWellFormed b) }
{
    let mut ups = Vec::new(alloc);
    push_ups(&mut ups, zones)?;
    let bands = normal(alloc, ups)?;
    Ok(bands)
}

// The band's low end alone.
fn line_of(band: &Band) -> Zone
    requires { IsWellFormed band.now }
    ensures { (t : ℤ) → (u : ℤ) → Meets result t u ↔ OnLow band.now t u }
{
    let mut line = *band;
    line.high = line.low;
    zone_of(&line)
}

fn push_lines(zones: &mut Vec<Zone>, bands: &[Band]) -> Result<(), AllocError>
    requires { (b : PlainBand) → Among bands.now b → IsWellFormed b }
    ensures { OnOk result ((t : ℤ) → (u : ℤ) → SomeMeets zones.new.items t u ↔ (SomeMeets zones.old.items t u ⊎ SomeOf OnLow bands.now t u)) }
{
    for band in bands {
        zones.push(line_of(band))?;
    }
    Ok(())
}

/// The first arrival of each departure.
pub(crate) fn least_of(alloc: Global, zones: &[Zone]) -> Result<Vec<Zone>, AllocError>
    requires { (t : ℤ) → (u : ℤ) → SomeMeets zones.now t u → u ≤ℤ pos moment_reach }
    ensures { IfOk result (λ least. (t : ℤ) → (u : ℤ) → SomeMeets least.items t u ↔ LeastOf (SomeMeets zones.now) t u) }
{
    let bands = above(alloc, zones)?;
    let mut least = Vec::new(alloc);
    push_lines(&mut least, &bands)?;
    Ok(least)
}

fn reversed(k: Bounds) -> Bounds
    requires { IsNear k }
    ensures near { IsNear result }
    ensures pairs { (t : ℤ) → (u : ℤ) → Meets result t u ↔ Reversed (Meets k) t u }
{
    Bounds {
        a: -k.d,
        b: -k.c,
        c: -k.b,
        d: -k.a,
        e: k.e,
        f: k.f,
    }
}

// The zone with time turned round.
fn reverse(zone: &Zone) -> Zone
    ensures { (t : ℤ) → (u : ℤ) → Meets result t u ↔ Reversed (Meets zone.now) t u }
{
    tight(reversed(zone.bounds())).unwrap()
}

fn push_reverse(turned: &mut Vec<Zone>, zones: &[Zone]) -> Result<(), AllocError>
    ensures { OnOk result ((t : ℤ) → (u : ℤ) → SomeMeets turned.new.items t u ↔ (SomeMeets turned.old.items t u ⊎ SomeOf (λ z. Reversed (Meets z)) zones.now t u)) }
{
    for zone in zones {
        turned.push(reverse(zone))?;
    }
    Ok(())
}

fn reverse_all(alloc: Global, zones: &[Zone]) -> Result<Vec<Zone>, AllocError>
    ensures { IfOk result (λ turned. (t : ℤ) → (u : ℤ) → SomeMeets turned.items t u ↔ Reversed (SomeMeets zones.now) t u) }
{
    let mut turned = Vec::new(alloc);
    push_reverse(&mut turned, zones)?;
    Ok(turned)
}

/// The last departure to each arrival: with time turned round, the first arrival of each departure.
pub(crate) fn latest_of(alloc: Global, zones: &[Zone]) -> Result<Vec<Zone>, AllocError>
    requires { (t : ℤ) → (u : ℤ) → SomeMeets zones.now t u → neg_ℤ (pos moment_reach) ≤ℤ t }
    ensures { IfOk result (λ latest. (t : ℤ) → (u : ℤ) → SomeMeets latest.items t u ↔ LatestOf (SomeMeets zones.now) t u) }
{
    let turned = reverse_all(alloc, zones)?;
    let least = least_of(alloc, &turned)?;
    let latest = reverse_all(alloc, &least)?;
    Ok(latest)
}
