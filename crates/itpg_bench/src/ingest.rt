//! Measures `serve` over a made-up script of edits. The folder `bench/` makes the same script.

use anyhow::{Result, ensure};
use itpg_base::{MemSource, TallySink};
use itpg_run::{Ending, Status, serve};
use std::alloc::{AllocError, Global};
use std::time::Instant;

// How many bytes the source gives at a call.
const CHUNK: usize = 65_536;

// The last moment of the horizon.
const LAST: u32 = 999_999;

/// Runs a script with so many nodes and as many edges, and prints how many bytes it has and writes, and how long that took.
pub(crate) fn measure(rt: &HostRuntime, nodes: u32) -> Result<()> {
    let script = script(rt.alloc(), nodes)?;
    let read = script.len();
    let mut source = MemSource::new(script, CHUNK, Vec::new(rt.alloc()));
    let mut sink = TallySink::new();
    let start = Instant::now(rt)?;
    let status = serve(rt.alloc(), &[], &mut source, &mut sink, Ending::Free);
    let micros = start.elapsed(rt)?.as_micros();
    ensure!(
        status == Status::Done,
        "some line was refused, or memory ran out"
    );
    let written = sink.bytes();
    println!(rt; "ingest: {nodes} nodes, {read} bytes read, {written} written")?;
    eprintln!(rt; "{micros} µs")?;
    Ok(())
}

// Nodes, edges between them, their lives and values, all of which are accepted; and a question at the end.
fn script(alloc: Global, nodes: u32) -> Result<Vec<u8>, AllocError> {
    let mut script = Vec::new(alloc);
    add(&mut script, format!(in alloc; "graph g 0 {LAST}\n")?)?;
    for i in 0..nodes {
        let label = if i % 4 == 0 { "Room" } else { "Person" };
        add(&mut script, format!(in alloc; "node n{i} {label}\n")?)?;
    }
    for i in 0..nodes {
        add(&mut script, format!(in alloc; "live n{i} 0 {LAST}\n")?)?;
    }
    for i in 0..nodes {
        let other = other(i, nodes);
        add(
            &mut script,
            format!(in alloc; "edge e{i} meets n{i} n{other}\n")?,
        )?;
    }
    for i in 0..nodes {
        add_changes(&mut script, alloc, i)?;
    }
    for i in 0..nodes {
        if i % 10 == 0 {
            add(&mut script, format!(in alloc; "drop e{i}\n")?)?;
        }
    }
    add(&mut script, format!(in alloc; "ask MATCH (x:Room)\n")?)?;
    Ok(script)
}

// What changes at an edge and at a node.
fn add_changes(script: &mut Vec<u8>, alloc: Global, i: u32) -> Result<(), AllocError> {
    let from = i % 9_000 * 100;
    let [to, next, end] = [from + 99, from + 100, from + 199];
    add(script, format!(in alloc; "live e{i} {from} {to}\n")?)?;
    add(script, format!(in alloc; "live e{i} {next} {end}\n")?)?;
    add(script, format!(in alloc; "gone e{i} {to} {next}\n")?)?;
    add(
        script,
        format!(in alloc; "set n{i} risk 'high' {from} {end}\n")?,
    )?;
    add(
        script,
        format!(in alloc; "set n{i} risk 'low' {next} {end}\n")?,
    )?;
    add(
        script,
        format!(in alloc; "unset n{i} risk {from} {from}\n")?,
    )
}

fn add(script: &mut Vec<u8>, line: String) -> Result<(), AllocError> {
    script.extend_from_slice(line.as_bytes())
}

// The node to which the edge with this number leads.
fn other(i: u32, nodes: u32) -> u32 {
    let at = u64::from(i) * 7_919 % u64::from(nodes.max(1));
    at as u32
}
