//! Measures calls of the layers, and of the whole, over made-up input.
//!
//! The words are the name of a workload and its size: how many nodes, zones or rows it has, at most a million. Without words
//! each workload is run with the size 1,000. What was made, and how much came of it, goes to standard output, and the time
//! of the call to standard error.
#![tactic(auto)]

mod firsts;
mod ingest;
mod relations;
mod zones;

use anyhow::{Result, bail, ensure};
use firsts::Lie;
use relations::Workload;
use std::env;
use zones::Shape;

const MOST: u32 = 1_000_000;

const FEW: u32 = 1_000;

// All workloads.
const NAMES: [&str; 19] = [
    "ingest",
    "zones",
    "close_zones",
    "nested",
    "crowded",
    "moments",
    "crossing",
    "equal",
    "struck",
    "union",
    "chain",
    "middle",
    "lasting",
    "lives",
    "apart",
    "pairs",
    "stairs",
    "together",
    "wait",
];

fn main(rt: HostRuntime) -> Result<()> {
    let mut words = env::args(&rt)?.skip(1);
    match words.next() {
        Some(name) => measure(&rt, name.as_str(), size(words.next())?),
        None => measure_each(&rt),
    }
}

fn measure_each(rt: &HostRuntime) -> Result<()> {
    for name in &NAMES {
        measure(rt, name, FEW)?;
    }
    Ok(())
}

fn measure(rt: &HostRuntime, name: &str, size: u32) -> Result<()> {
    match name {
        "ingest" => ingest::measure(rt, size),
        "zones" => Shape::Spread(7).measure(rt, size),
        "close_zones" => Shape::Spread(1).measure(rt, size),
        "nested" => Shape::Nested.measure(rt, size),
        "crowded" => Shape::Crowded.measure(rt, size),
        "moments" => Shape::Moments.measure(rt, size),
        "crossing" => Shape::Crossing.measure(rt, size),
        "equal" => Shape::Equal.measure(rt, size),
        "struck" => Shape::Spread(7).measure_struck(rt, size),
        "union" => Workload::Union.measure(rt, size),
        "chain" => Workload::Chain.measure(rt, size),
        "middle" => Workload::Middle.measure(rt, size),
        "lasting" => Workload::Lasting.measure(rt, size),
        "lives" => Workload::Lives.measure(rt, size),
        "apart" => Lie::Apart.measure(rt, size),
        "pairs" => Lie::Pairs.measure(rt, size),
        "stairs" => Lie::Stairs.measure(rt, size),
        "together" => Lie::Together.measure(rt, size),
        "wait" => Lie::Wait.measure(rt, size),
        _ => bail!("no workload has the name {name}"),
    }
}

fn size(word: Option<String>) -> Result<u32> {
    let n = match word {
        Some(word) => word.as_str().parse::<u32>()?,
        None => FEW,
    };
    ensure!(n <= MOST, "{n} is more than {MOST}");
    Ok(n)
}
