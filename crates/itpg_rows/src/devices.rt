//! Compares runs over devices that fail, and over sources that end early, with a table.
//!
//! `devices.txt` lies beside the scripts, and `devices.py`, which wrote it, says what its rows are.

use crate::case::compare;
use crate::runs::{failing_sink, sink_for, step_again};
use anyhow::{Context, Result, bail, ensure};
use itpg_base::{Limits, MAX_ROWS, MemSink, MemSource};
use itpg_run::{Ending, serve};
use itpg_session::Session;
use std::alloc::Global;
use std::fs;

// How many bytes a source gives at a call, where a row doesn't say it.
const CHUNK: usize = 65_536;

/// Tries each row of the table, prints those that differ, and says how many are alike.
pub fn compare_rows(rt: &HostRuntime, folder: &str) -> Result<()> {
    let table = fs::read_to_string(rt, &format!(in rt.alloc(); "{folder}/devices.txt")?)?;
    let short = Script::read(rt, folder, "life_cut")?;
    let study = Script::read(rt, folder, "contact_study_with_a_watch")?;
    let mut rows = 0u32;
    let mut alike = 0u32;
    for line in table.as_str().lines() {
        rows = rows.saturating_add(1);
        if is_alike(rt.alloc(), line, &short, &study)? {
            alike = alike.saturating_add(1);
        } else {
            println!(rt; "{line}: the run differs")?;
        }
    }
    println!(rt; "{alike} of {rows} runs over devices alike")?;
    Ok(())
}

// Whether the run of a row ends as the row says.
fn is_alike(alloc: Global, line: &str, short: &Script, study: &Script) -> Result<bool> {
    let (kind, rest) = line.split_once(' ').context("a row of one word")?;
    let row = Row::read(rest)?;
    match kind {
        "read" => {
            let run = short.run(alloc, usize::MAX, row.first, row.second)?;
            row.is_of(alloc, &run, &short.output)
        }
        "cut" => {
            let run = short.run(alloc, size(row.first), row.second, 0)?;
            row.is_of(alloc, &run, &short.output)
        }
        "write" => {
            let run = study.run_into(alloc, row.first, size(row.second))?;
            row.is_of(alloc, &run, &study.output)
        }
        "again" => {
            let run = study.run_again(alloc, row.first, size(row.second))?;
            row.is_of(alloc, &run, &study.output)
        }
        _ => bail!("{line:?} is no row of a run"),
    }
}

/// A row of the table behind its first word.
#[derive(Clone, Copy)]
struct Row<'a> {
    first: u64,
    second: u64,
    code: u64,
    length: u64,
    text: &'a str,
}

impl<'a> Row<'a> {
    fn read(text: &'a str) -> Result<Row<'a>> {
        let (first, text) = take_number(text)?;
        let (second, text) = take_number(text)?;
        let (code, text) = take_number(text)?;
        let (length, text) = take_number(text)?;
        Ok(Row {
            first,
            second,
            code,
            length,
            text,
        })
    }

    // Whether a run ended as the row says, where the whole output is this.
    fn is_of(&self, alloc: Global, run: &Ended, output: &[u8]) -> Result<bool> {
        let front = &output[..output.len().min(size(self.length))];
        let mut wanted = front.to_vec(alloc)?;
        if !self.text.is_empty() {
            wanted.extend_from_slice(self.text.as_bytes())?;
            wanted.push(b'\n')?;
        }
        Ok(u64::from(run.code) == self.code && run.sink.held() == wanted.as_slice())
    }
}

// The number that a text begins with, and what stands behind the blank after it.
fn take_number(text: &str) -> Result<(u64, &str)> {
    let (number, rest) = text.split_once(' ').unwrap_or((text, ""));
    Ok((number.parse::<u64>()?, rest))
}

// No row has a size that doesn't fit.
fn size(number: u64) -> usize {
    usize::try_from(number).unwrap_or(usize::MAX)
}

/// What a run wrote, and its status; or how many lines were handed in again.
#[derive(Drop)]
struct Ended {
    sink: MemSink,
    code: u32,
}

/// A script and what it writes where nothing fails.
#[derive(Drop)]
struct Script {
    lines: Vec<u8>,
    output: Vec<u8>,
}

impl Script {
    fn read(rt: &HostRuntime, folder: &str, name: &str) -> Result<Script> {
        let lines = fs::read(rt, &format!(in rt.alloc(); "{folder}/{name}.itpg")?)?;
        let output = fs::read(rt, &format!(in rt.alloc(); "{folder}/{name}.out")?)?;
        Ok(Script { lines, output })
    }

    // Runs at most so many first bytes of the script over a source that gives so many bytes at a call and fails at this call.
    fn run(&self, alloc: Global, count: usize, chunk: u64, fail: u64) -> Result<Ended> {
        let chunk = size(chunk);
        ensure!(chunk > 0, "a source that gives nothing");
        let front = &self.lines[..self.lines.len().min(count)];
        let mut source = MemSource::new(front.to_vec(alloc)?, chunk, vec![in alloc; fail]?);
        let mut sink = sink_for(alloc, self.output.len())?;
        let status = serve(alloc, &[], &mut source, &mut sink, Ending::Free);
        let code = u32::from(status.code());
        Ok(Ended { sink, code })
    }

    // Runs the script over a sink that takes so many bytes of this call's piece and fails.
    fn run_into(&self, alloc: Global, call: u64, take: usize) -> Result<Ended> {
        let mut source = MemSource::new(self.lines.clone()?, CHUNK, Vec::new(alloc));
        let mut sink = failing_sink(alloc, self.output.len(), call, take)?;
        let status = serve(alloc, &[], &mut source, &mut sink, Ending::Free);
        let code = u32::from(status.code());
        Ok(Ended { sink, code })
    }

    // Hands each line to a session over a sink that takes so many bytes of this call's piece and fails, and where it fails, again
    // over one that doesn't. The code is how many lines failed.
    fn run_again(&self, alloc: Global, call: u64, take: usize) -> Result<Ended> {
        let limits = Limits::new(MAX_ROWS).context("no limit of rows")?;
        let mut session = Session::new(alloc, limits);
        let mut sink = sink_for(alloc, self.output.len())?;
        let mut code = 0u32;
        let mut number = 0u64;
        for line in self.lines.split_inclusive(|byte| *byte == b'\n') {
            number = number.saturating_add(1);
            let line = line.strip_suffix(b"\n").unwrap_or(line);
            let mut failing = failing_sink(alloc, self.output.len(), call, take)?;
            if step_again(&mut session, number, line, &mut failing, &mut sink)? {
                code = code.saturating_add(1);
            }
        }
        Ok(Ended { sink, code })
    }
}
