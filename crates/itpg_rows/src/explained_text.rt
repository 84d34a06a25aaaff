//! Runs scripts through `explain`, and compares all that it writes with what it must write.
//!
//! `NAME.explained` has the bytes for the script of that name, with its words, by a clock that stands still.

use crate::case::{Case, Difference, compare};
use crate::explained::NoClock;
use crate::runs::sink_for;
use anyhow::Result;
use explanations::explain;
use itpg_base::MemSource;
use std::alloc::{AllocError, Global};
use std::{fs, io};

// How many bytes a source gives at a call.
const CHUNK: usize = 65_536;

/// Explains each script of these names that has such a file, prints those that differ, and says how many there were.
pub fn compare_texts(rt: &HostRuntime, folder: &str, names: &[String]) -> Result<()> {
    let mut scripts = 0u64;
    let mut differing = 0u64;
    for name in names {
        let path = format!(in rt.alloc(); "{folder}/{name}.explained")?;
        let Some(wanted) = read_if_there(rt, path.as_str())? else {
            continue;
        };
        scripts = scripts.saturating_add(1);
        let case = Case::read(rt, folder, name.as_str())?;
        if let Some(difference) = difference(rt.alloc(), &case, &wanted)? {
            println!(rt; "{name} explained: {difference}")?;
            differing = differing.saturating_add(1);
        }
    }
    println!(rt; "{scripts} scripts explained to the last byte, {differing} differ")?;
    Ok(())
}

// How what is explained of a script differs from what must be, if it does.
fn difference(alloc: Global, case: &Case, wanted: &[u8]) -> Result<Option<Difference>, AllocError> {
    let words = case.plain_words(alloc)?.unwrap_or(Vec::new(alloc));
    let mut source = MemSource::new(case.script().to_vec(alloc)?, CHUNK, Vec::new(alloc));
    let mut sink = sink_for(alloc, wanted.len())?;
    let status = explain(alloc, &words, &mut source, &mut sink, &mut NoClock);
    Ok(compare(sink.held(), status, wanted, case.status()))
}

// The bytes of a file that may be missing.
fn read_if_there(rt: &HostRuntime, path: &str) -> Result<Option<Vec<u8>>> {
    match fs::read(rt, path) {
        Ok(bytes) => Ok(Some(bytes)),
        Err(error) if error.kind() == io::ErrorKind::NotFound => Ok(None),
        Err(error) => Err(error.into()),
    }
}
