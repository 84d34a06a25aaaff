//! Measures `union` and `compose` over made-up relations, whose answers have a number of rows that is known beforehand.

use crate::zones::{ANY, whole};
use anyhow::{Result, bail, ensure};
use itpg_base::ObjNo;
use relation_rows::{RelFault, Relation};
use std::alloc::Global;
use std::time::Instant;
use zone_compose::diagonal;
use zone_core::{Bounds, Zone, tight};

/// The limit of rows of each answer.
pub(crate) const MOST_ROWS: u32 = 2_000_000;

// Above the numbers of all other objects.
const MIDDLE: u32 = 2_000_000;

/// A zone from a source to a target.
pub(crate) type Item = (ObjNo, ObjNo, Zone);

/// A call, with the two relations that it is measured over.
#[derive(Clone, Copy)]
pub(crate) enum Workload {
    /// The union of two relations with half of the rows each, from object o to o + 1 in both. Where o is 0, 1, 2, .. their
    /// spans overlap, adjoin, lie apart, and so on.
    Union,
    /// The composition of two relations with all rows each, from object o to o + 1 and from there to o + 2.
    Chain,
    /// The composition of two relations with all rows each, all to one object and all from it. Each leads there at a span
    /// of its own, and one leads on then.
    Middle,
    /// The composition of an object's lives of one moment, a fourth as many, with free moments between them, each leading to all
    /// moments from its own on, and of each life to itself: so each life leads to each that comes no sooner.
    Lives,
    /// As [`Workload::Middle`], with one more row in the second relation, from the one object to itself, that lasts as long
    /// as all others together.
    Lasting,
}

impl Workload {
    /// Prints how many rows the answer has, and how long the call took. An error where they aren't the right number.
    pub(crate) fn measure(self, rt: &HostRuntime, count: u32) -> Result<()> {
        let first = self.first(rt.alloc(), count)?;
        let second = self.second(rt.alloc(), count)?;
        let start = Instant::now(rt)?;
        let answer = self.answer(&first, &second);
        let micros = start.elapsed(rt)?.as_micros();
        let rows = given(answer)?.row_count();
        let right = u64::from(self.right(count));
        ensure!(rows == right, "{rows} rows, where {right} are right");
        let name = self.name();
        println!(rt; "{name}: {count} rows, {rows} in the answer")?;
        eprintln!(rt; "{micros} µs")?;
        Ok(())
    }

    fn name(self) -> &'static str {
        match self {
            Workload::Union => "union",
            Workload::Chain => "chain",
            Workload::Middle => "middle",
            Workload::Lasting => "lasting",
            Workload::Lives => "lives",
        }
    }

    fn first(self, alloc: Global, count: u32) -> Result<Relation> {
        let mut items = Vec::new(alloc);
        for index in 0..self.each(count) {
            match self {
                Workload::Union | Workload::Chain => add(&mut items, index, index + 1, 0)?,
                Workload::Middle | Workload::Lasting => add(
                    &mut items,
                    index,
                    MIDDLE,
                    begin(index),
                )?,
                Workload::Lives => add_life(&mut items, index, begin(count))?,
            }
        }
        given(Relation::from_zones(alloc, items, MOST_ROWS))
    }

    fn second(self, alloc: Global, count: u32) -> Result<Relation> {
        let mut items = Vec::new(alloc);
        for index in 0..self.each(count) {
            match self {
                Workload::Union => add(&mut items, index, index + 1, later(index))?,
                Workload::Chain => add(&mut items, index + 1, index.saturating_add(2), 5)?,
                Workload::Middle | Workload::Lasting => {
                    let begin = begin(index).saturating_add(5);
                    add(&mut items, MIDDLE, count.saturating_sub(index), begin)?;
                }
                Workload::Lives => add_life(&mut items, index, begin(index))?,
            }
        }
        if let Workload::Lasting = self
            && let Some(zone) = diagonal(0, whole(begin(count)))
        {
            items.push((ObjNo(MIDDLE), ObjNo(MIDDLE), zone))?;
        }
        given(Relation::from_zones(alloc, items, MOST_ROWS))
    }

    fn answer(self, first: &Relation, second: &Relation) -> Result<Relation, RelFault> {
        match self {
            Workload::Union => first.union(second, MOST_ROWS),
            Workload::Chain | Workload::Middle | Workload::Lasting | Workload::Lives => {
                first.compose(second, MOST_ROWS)
            }
        }
    }

    // How many rows each of the two relations has.
    fn each(self, count: u32) -> u32 {
        match self {
            Workload::Union => count / 2,
            Workload::Lives => count / 4,
            Workload::Chain | Workload::Middle | Workload::Lasting => count,
        }
    }

    // How many rows the answer has. A union has two at each third object, where the spans lie apart, and else one. Where a
    // row lasts, each row of the first relation goes on in two.
    fn right(self, count: u32) -> u32 {
        match self {
            Workload::Union => count / 2 + count / 2 / 3,
            Workload::Chain | Workload::Middle => count,
            Workload::Lasting => count.saturating_mul(2),
            Workload::Lives => (count / 4).saturating_mul((count / 4).saturating_add(1)) / 2,
        }
    }
}

// A row from the source to the target at ten moments, each to itself.
fn add(items: &mut Vec<Item>, source: u32, target: u32, begin: u32) -> Result<()> {
    let end = begin.saturating_add(9);
    if let Some(zone) = diagonal(whole(begin), whole(end)) {
        items.push((ObjNo(source), ObjNo(target), zone))?;
    }
    Ok(())
}

// A row from the object's life at a moment to all moments from then on, up to the last one.
fn add_life(items: &mut Vec<Item>, index: u32, last: u32) -> Result<()> {
    let moment = whole(begin(index));
    let zone = tight(Bounds {
        a: moment,
        b: moment,
        c: moment,
        d: whole(last),
        e: -ANY,
        f: ANY,
    });
    if let Some(zone) = zone {
        items.push((ObjNo(MIDDLE), ObjNo(MIDDLE), zone))?;
    }
    Ok(())
}

/// Where spans begin that share no moment, if they last up to twenty.
pub(crate) fn begin(index: u32) -> u32 {
    index.saturating_mul(20)
}

// Where ten moments begin that overlap with the moments 0 to 9, adjoin them, or lie apart from them.
fn later(index: u32) -> u32 {
    match index % 3 {
        0 => 5,
        1 => 10,
        _ => 20,
    }
}

/// The answer, if there is one.
pub(crate) fn given<T>(answer: Result<T, RelFault>) -> Result<T> {
    match answer {
        Ok(answer) => Ok(answer),
        Err(RelFault::Memory) => bail!("out of memory"),
        Err(RelFault::Wide) => bail!("more than {MOST_ROWS} rows"),
    }
}
