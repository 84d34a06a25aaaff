//! The normal list of a union of zones.

ghost use Rattle.std.specs.Prelude.{IfOk};
ghost use Rattle.zone_core.specs.Zone.{Meets};
ghost use Rattle.band_normal.specs.declared.band.Band.{Band};
ghost use Rattle.itpg_base.specs.Lists.{Among};
ghost use Rattle.band_normal.specs.Bands.{IsWellFormed};
ghost use Rattle.band_normal.specs.Normal.{Normal};
ghost use Rattle.band_normal.specs.Zones.{SomeMeets};

use crate::band::Band;
use crate::ordering::in_order;
use crate::parts::{Measure, ROUNDS, add_parted};
use crate::sweep::push_present;
use crate::zones::bands_of;
use std::alloc::{AllocError, Global};
use zone_core::Zone;

// How often at most zones are cut in two.
const CUTS: u32 = 48;

// Whether all pairs of the zone have one difference.
fn is_thin(zone: &Zone) -> bool {
    let bounds = zone.bounds();
    bounds.e == bounds.f
}

// Whether between the least differences of the zones a number is free.
fn differ(one: &Zone, other: &Zone) -> bool {
    one.bounds().e.abs_diff(other.bounds().e) > 1
}

// The measure that is to part the zones first. Where each zone has one difference, and these are apart, as the first two are, that parts
// them at once. It has no clause, since any measure is right.
fn first_measure(zones: &[Zone]) -> Measure {
    let [first, second, ..] = zones else {
        return Measure::Departure;
    };
    if !differ(first, second) {
        return Measure::Departure;
    }
    for zone in zones {
        if !is_thin(zone) {
            return Measure::Departure;
        }
    }
    Measure::Difference
}

/// The normal list of the union of the zones.
///
/// The zone of the pairs t, t with t from 0 to 9 has one band. With the pair 5, 6 beside it there are
/// three, since the run 5..6 and the run 6..6 after it have high ends that stay:
///
/// ```text
/// arrival 9                    #
///         8                  #
///         7                #
///         6            + #
///         5            #
///         4          #
///         3        #
///         2      #
///         1    #
///         0  #
///            0 1 2 3 4 5 6 7 8 9  departure
///
/// 0..4 from Moving(0) to Moving(0), 5..6 from Moving(0) to Fixed(6), 7..9 from Moving(0) to Moving(0)
/// ```
///
/// An error says that memory ran out.
pub fn normal(alloc: Global, zones: Vec<Zone>) -> Result<Vec<Band>, AllocError>
    ensures normal { IfOk result (λ rows. Normal (SomeMeets zones.items) rows.items) }
    ensures well_formed { IfOk result (λ rows. (b : Band) → Among rows.items b → IsWellFormed b) }
{
    let mut rows = Vec::new(alloc);
    if let [zone] = &zones[..] {
        push_present(&mut rows, bands_of(zone))?;
        return Ok(rows);
    }
    let measure = first_measure(&zones);
    in_order(add_parted(alloc, rows, &zones, measure, ROUNDS, 0, CUTS)?)
}
