//! Measures `first`, `last` and `count` over made-up relations, whose answers have numbers of rows that are known beforehand.

use crate::relations::{Item, MOST_ROWS, begin, given};
use crate::zones::{ANY, plus, times, zone};
use anyhow::{Result, bail, ensure};
use arrivals::{count, first, last};
use itpg_base::ObjNo;
use relation_rows::Relation;
use std::alloc::Global;
use std::time::Instant;
use zone_core::{Bounds, Zone, tight};

// More one-time rows than any workload has.
const MOST_TIMES: usize = 4_000_000_000;

/// How made-up rows lie.
#[derive(Clone, Copy)]
pub(crate) enum Lie {
    /// From one object to itself, at ten departures each, with free moments between the rows.
    Apart,
    /// The same, each row from an object of its own to the next.
    Pairs,
    /// From one object to itself, each row until the last moment: it begins one departure after the one before, and arrives sooner.
    Stairs,
    /// Each object to itself, beginning one after another, and all there at two moments.
    Together,
    /// From one object to itself after up to twelve moments, over all moments that there are: two rows, whatever the size.
    Wait,
}

impl Lie {
    /// Prints how many rows each call gave, and how long it took. An error where they aren't the right numbers.
    pub(crate) fn measure(self, rt: &HostRuntime, size: u32) -> Result<()> {
        let all = self.relation(rt.alloc(), size)?;
        let firsts = measure_first(rt, &all)?;
        let lasts = measure_last(rt, &all)?;
        let counts = measure_count(rt, &all)?;
        let [right_firsts, right_lasts, right_counts] = self.right(size);
        ensure!(
            firsts == u64::from(right_firsts),
            "{firsts} first arrivals, where {right_firsts} are right"
        );
        ensure!(
            lasts == u64::from(right_lasts),
            "{lasts} last departures, where {right_lasts} are right"
        );
        ensure!(
            counts == u64::from(right_counts),
            "{counts} counts, where {right_counts} are right"
        );
        let rows = all.row_count();
        let name = self.name();
        println!(rt; "{name}: {rows} rows, {firsts} first, {lasts} last, {counts} counts")?;
        Ok(())
    }

    fn name(self) -> &'static str {
        match self {
            Lie::Apart => "apart",
            Lie::Pairs => "pairs",
            Lie::Stairs => "stairs",
            Lie::Together => "together",
            Lie::Wait => "wait",
        }
    }

    fn relation(self, alloc: Global, size: u32) -> Result<Relation> {
        let mut items: Vec<Item> = Vec::new(alloc);
        for index in 0..self.zones(size) {
            let (source, target) = self.objects(index);
            if let Some(zone) = self.zone(index, size) {
                items.push((ObjNo(source), ObjNo(target), zone))?;
            }
        }
        given(Relation::from_zones(alloc, items, MOST_ROWS))
    }

    fn zones(self, size: u32) -> u32 {
        match self {
            Lie::Wait => 1,
            Lie::Apart | Lie::Pairs | Lie::Stairs | Lie::Together => size,
        }
    }

    fn objects(self, index: u32) -> (u32, u32) {
        match self {
            Lie::Pairs => (index, plus(index, 1)),
            Lie::Together => (index, index),
            Lie::Apart | Lie::Stairs | Lie::Wait => (0, 0),
        }
    }

    fn zone(self, index: u32, size: u32) -> Option<Zone> {
        match self {
            Lie::Apart | Lie::Pairs => {
                let begin = begin(index);
                let last = plus(begin, 9);
                zone((begin, last), (last, plus(last, 6)), -ANY, ANY)
            }
            Lie::Stairs => {
                let arrival = times(size, 10).saturating_sub(times(index, 2));
                zone((index, size), (arrival, arrival), -ANY, ANY)
            }
            Lie::Together => {
                let span = (index, plus(index, size));
                zone(span, span, 0, 0)
            }
            Lie::Wait => tight(Bounds {
                a: -1_000_000_000_000,
                b: 1_000_000_000_000,
                c: -1_000_000_000_000,
                d: 1_000_000_000_000,
                e: 0,
                f: 12,
            }),
        }
    }

    // How many rows the first arrivals, the last departures and the counts have. Of stairs each row arrives first at its first
    // departure, and all go on to the last one.
    fn right(self, size: u32) -> [u32; 3] {
        match self {
            Lie::Apart | Lie::Pairs => [size, size, size],
            Lie::Stairs => [size, size, 1],
            Lie::Together => [size, size, times(size, 2).saturating_sub(1)],
            Lie::Wait => [1, 1, 1],
        }
    }
}

fn measure_first(rt: &HostRuntime, all: &Relation) -> Result<u64> {
    let start = Instant::now(rt)?;
    let answer = first(rt.alloc(), all, MOST_ROWS);
    let micros = start.elapsed(rt)?.as_micros();
    eprintln!(rt; "first {micros} µs")?;
    Ok(given(answer)?.row_count())
}

fn measure_last(rt: &HostRuntime, all: &Relation) -> Result<u64> {
    let start = Instant::now(rt)?;
    let answer = last(rt.alloc(), all, MOST_ROWS);
    let micros = start.elapsed(rt)?.as_micros();
    eprintln!(rt; "last {micros} µs")?;
    Ok(given(answer)?.row_count())
}

// The counts of the relation's departures.
fn measure_count(rt: &HostRuntime, all: &Relation) -> Result<u64> {
    let departures = all.sources()?;
    if departures.rows().len() > MOST_TIMES {
        bail!("more than {MOST_TIMES} one-time rows");
    }
    let start = Instant::now(rt)?;
    let answer = count(rt.alloc(), &departures, MOST_ROWS);
    let micros = start.elapsed(rt)?.as_micros();
    eprintln!(rt; "count {micros} µs")?;
    Ok(given(answer)?.rows().len() as u64)
}
