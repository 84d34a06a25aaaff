//! Measures `normal` over made-up zones, and `struck` over their bands.

ghost use Rattle.zone_core.specs.Zone.{Within, difference_reach};

use anyhow::Result;
use band_normal::{normal, struck};
use std::alloc::Global;
use std::time::Instant;
use zone_core::{Bounds, Zone, tight};

/// A difference that all moments have.
pub(crate) const ANY: i64 = 8_000_000_000_000;

/// How made-up zones lie.
#[derive(Clone, Copy)]
pub(crate) enum Shape {
    /// So many moments after each other. They last from 11 to 41 departures, and arrive at 11 to 31 moments soon after.
    Spread(u32),
    /// Along the diagonal, each within the one before.
    Nested,
    /// About a thousand active at a time.
    Crowded,
    /// From all moments so far to a life of one moment.
    Moments,
    /// Half of them with arrivals that stay and half with arrivals that move, of which each two cross.
    Crossing,
    /// Each zone twice.
    Equal,
}

impl Shape {
    /// Prints how many bands the zones have, and how long the call of `normal` took.
    pub(crate) fn measure(self, rt: &HostRuntime, count: u32) -> Result<()> {
        let zones = self.zones(rt.alloc(), count)?;
        let start = Instant::now(rt)?;
        let bands = normal(rt.alloc(), zones)?.len();
        let micros = start.elapsed(rt)?.as_micros();
        println!(rt; "{count} zones, {bands} bands")?;
        eprintln!(rt; "{micros} µs")?;
        Ok(())
    }

    /// So for `struck` of the bands and the same bands.
    pub(crate) fn measure_struck(self, rt: &HostRuntime, count: u32) -> Result<()> {
        let bands = normal(rt.alloc(), self.zones(rt.alloc(), count)?)?;
        let start = Instant::now(rt)?;
        let (kept, cuts) = struck(rt.alloc(), &bands, &bands)?;
        let micros = start.elapsed(rt)?.as_micros();
        let [all, kept, cuts] = [bands.len(), kept.len(), cuts.len()];
        println!(rt; "{all} bands, {kept} and {cuts} in one list alone")?;
        eprintln!(rt; "{micros} µs")?;
        Ok(())
    }

    fn zones(self, alloc: Global, count: u32) -> Result<Vec<Zone>> {
        let mut zones = Vec::new(alloc);
        for index in 0..count {
            if let Some(zone) = self.zone(index, count) {
                zones.push(zone)?;
            }
        }
        Ok(zones)
    }

    fn zone(self, index: u32, count: u32) -> Option<Zone> {
        match self {
            Shape::Spread(moments) => spread(index, moments),
            Shape::Nested => {
                let end = times(count, 2).saturating_sub(index);
                zone((index, end), (index, end), 0, 0)
            }
            Shape::Crowded => {
                let low = plus(index, times(index, 13) % 2_000);
                let end = plus(index, 1_000 + times(index, 31) % 501);
                let high = plus(low, 300 + times(index, 17) % 900);
                zone(
                    (index, end),
                    (low, high),
                    -ANY,
                    whole(times(index, 19) % 3_000),
                )
            }
            Shape::Moments => {
                let moment = times(index, 2);
                zone((0, moment), (moment, moment), -ANY, ANY)
            }
            Shape::Crossing if index % 2 == 0 => {
                let low = times(index, 8);
                zone((0, times(count, 4)), (low, plus(low, 1)), -ANY, ANY)
            }
            Shape::Crossing => {
                let least = whole(times(index, 8));
                zone((0, times(count, 4)), (0, 2_000_000_000), least, least + 1)
            }
            Shape::Equal => spread(index / 2, 1),
        }
    }
}

fn spread(index: u32, moments: u32) -> Option<Zone> {
    let begin = times(index, moments);
    let low = plus(begin, index % 11);
    let high = plus(low, 10 + index % 21);
    zone(
        (begin, plus(begin, 10 + index % 31)),
        (low, high),
        0,
        whole(5 + index % 13),
    )
}

/// The zone with these departures and arrivals, and differences from the least to the most.
pub(crate) fn zone(
    departures: (u32, u32),
    arrivals: (u32, u32),
    least: i64,
    most: i64,
) -> Option<Zone>
    requires least { Within difference_reach least }
    requires most { Within difference_reach most }
{
    tight(Bounds {
        a: whole(departures.0),
        b: whole(departures.1),
        c: whole(arrivals.0),
        d: whole(arrivals.1),
        e: least,
        f: most,
    })
}

pub(crate) fn times(n: u32, k: u32) -> u32 {
    n.saturating_mul(k)
}

pub(crate) fn plus(n: u32, k: u32) -> u32 {
    n.saturating_add(k)
}

/// The number as a moment.
pub(crate) fn whole(n: u32) -> i64
    ensures { Within 4294967295 result }
{
    i64::from(n)
}
