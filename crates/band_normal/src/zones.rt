//! The bands of one zone, and the zone of one band.

ghost use Rattle.std.specs.Prelude.{◌≡◌, ◌↔◌, ℤ, IfOk};
ghost use Rattle.zone_core.specs.Zone.{Meets};
ghost use Rattle.band_normal.specs.declared.band.Band.{Band};
ghost use Rattle.itpg_base.specs.Lists.{Among};
ghost use Rattle.band_normal.specs.Bands.{InBand, IsWellFormed};
ghost use Rattle.band_normal.specs.Normal.{Normal};
ghost use Rattle.band_normal.specs.Zones.{SomeMeets, present, EmptyComeLast, with_low, with_high, bounds_of};
ghost use Rattle.band_normal.specs.Strips.{Holds};

use crate::band::{Band, End};
use crate::pieces::{first_piece, piece_after};
use std::alloc::{AllocError, Global};
use zone_core::{Bounds, Zone, tight};

/// The zone's normal bands, in order of their first departure; the empty places come last.
///
/// A zone has at most three: its low end stays at first and then moves, and its high end moves at
/// first and then stays. The zone with departures and arrivals from 0 to 4, and arrivals up to 2
/// after the departure, has two, from `Moving(0)` to `Moving(2)` and from `Moving(0)` to `Fixed(4)`:
///
/// ```text
/// arrival 4      # # #
///         3    # # #
///         2  # # #
///         1  # #
///         0  #
///            0 1 2 3 4  departure
/// ```
pub fn bands_of(z: &Zone) -> [Option<Band>; 3]
    ensures normal { Normal (Meets z.now) (present result) }
    ensures last { EmptyComeLast result }
    ensures well_formed { (b : Band) → Among (present result) b → IsWellFormed b }
{
    let k = z.bounds();
    let first = first_piece(k);
    if first.to == k.b {
        return [Some(first), None, None];
    }
    let second = piece_after(k, first);
    if second.to == k.b {
        return [Some(first), Some(second), None];
    }
    let third = piece_after(k, second);
    [Some(first), Some(second), Some(third)]
}

fn with_low_end(mut k: Bounds, low: End) -> Bounds
    ensures { result ≡ with_low low k }
{
    match low {
        End::Fixed(n) => k.c = n,
        End::Moving(n) => k.e = n,
    }
    k
}

fn with_high_end(mut k: Bounds, high: End) -> Bounds
    ensures { result ≡ with_high high k }
{
    match high {
        End::Fixed(n) => k.d = n,
        End::Moving(n) => k.f = n,
    }
    k
}

fn band_bounds(b: &Band) -> Bounds
    ensures { result ≡ bounds_of b.now }
{
    let departing = Bounds {
        a: b.from,
        b: b.to,
        c: -4_000_000_000_000,
        d: 4_000_000_000_000,
        e: -8_000_000_000_000,
        f: 8_000_000_000_000,
    };
    with_high_end(with_low_end(departing, b.low), b.high)
}

/// The zone of the band's pairs. The band is well formed, so it has a pair.
pub fn zone_of(b: &Band) -> Zone
    requires { IsWellFormed b.now }
    ensures { (t : ℤ) → (u : ℤ) → Meets result t u ↔ InBand b.now t u }
{
    tight(band_bounds(b)).unwrap()
}

/// The zone of each row.
pub fn zones_of(alloc: Global, rows: &[Band]) -> Result<Vec<Zone>, AllocError>
    requires { (b : Band) → Among rows.now b → IsWellFormed b }
    ensures { IfOk result (λ v. (t : ℤ) → (u : ℤ) → SomeMeets v.items t u ↔ Holds rows.now t u) }
{
    let mut zones = Vec::new(alloc);
    for row in rows {
        zones.push(zone_of(row))?;
    }
    Ok(zones)
}
