//! The last way to each target, by its place among the ways. Rows that depart together go on to the same few targets, most often
//! within the way that another one has led to there.

ghost use Rattle.std.specs.Prelude.{ℤ, IsTrue};
ghost use Rattle.itpg_base.specs.Points.{Point};
ghost use Rattle.zone_compose.specs.Compose.{AreArrivals};
ghost use Rattle.band_normal.specs.Bands.{IsWellFormed};
ghost use Rattle.relation_rows.specs.Relations.{ItemsHold};
ghost use Rattle.relation_rows.specs.Ways.{GoesBy, GoesThrough};

use crate::gather::Item;
use crate::rows::Row;
use crate::ways::has_ways;
use band_normal::Band;
use itpg_base::ObjNo;
use zone_core::Zone;

/// So many places are noted. Targets whose numbers differ by a multiple of it share one.
pub(crate) const NOTED: usize = 128;

/// The place that is noted for the target. Any answer is right, since the item there is looked at.
pub(crate) fn noted(latest: &[usize], target: ObjNo) -> usize {
    match latest.get(target.0 as usize % NOTED) {
        Some(place) => *place,
        None => 0,
    }
}

/// Notes the place for the target.
pub(crate) fn note(latest: &mut [usize], target: ObjNo, place: usize) {
    if let Some(slot) = latest.get_mut(target.0 as usize % NOTED) {
        *slot = place;
    }
}

/// Whether the item at the place has each way from the source by the zone and then the row. False also where that isn't seen.
pub(crate) fn are_had(items: &[Item], place: usize, source: ObjNo, zone: &Zone, next: &Row) -> bool
    requires { IsWellFormed next.now.band }
    ensures { IsTrue result → (x : Point) → (y : Point) → GoesBy source zone.now next.now x y → ItemsHold items.now x y }
{
    let Some(item) = items.get(place) else {
        return false;
    };
    has_ways(item, source, zone, next)
}

/// Whether the band departs only before the first of the zone's pairs arrives, or only after the last.
pub(crate) fn is_missed(zone: &Zone, span: (i64, i64), band: &Band) -> bool
    requires span { AreArrivals zone.now span.0 span.1 }
    requires band { IsWellFormed band.now }
    ensures { IsTrue result → (t : ℤ) → (u : ℤ) → ¬ GoesThrough zone.now band.now t u }
{
    if band.to < span.0 {
        return true;
    }
    if span.1 < band.from {
        return true;
    }
    false
}
