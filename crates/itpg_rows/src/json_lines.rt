//! Runs plain scripts as lines of JSON, and compares the replies, member by member, with the plain ones.
//!
//! Each line of a script that reads as an edit becomes the edit's object, any other stands in a `text` object. `serve` reads them
//! with the script's own words and `--json`. `serde_json` reads each reply line back, and its members in the plain form must be the
//! line in the same place of the plain output. A reply has no text with a blank, so it has no blank. The status must be the plain one.

use crate::case::{Case, Difference};
use crate::json_script::json_script;
use crate::plain_reply::plain_line;
use crate::runs::sink_for;
use anyhow::Result;
use itpg_base::MemSource;
use itpg_run::{Ending, serve};
use serde_json::Value;
use std::alloc::Global;

// How many bytes a source gives at a call.
const CHUNK: usize = 65_536;

// How many times as long as a plain reply one of JSON is at most.
const GROWTH: usize = 8;

/// Runs each plain script of these names but trials, prints those that differ, and says how many there were. Those that no lines of
/// JSON have are passed over.
pub fn compare_scripts(rt: &HostRuntime, folder: &str, names: &[String]) -> Result<()> {
    let mut scripts = 0u64;
    let mut passed_over = 0u64;
    let mut differing = 0u64;
    for name in names {
        let case = Case::read(rt, folder, name.as_str())?;
        let Some(words) = case.json_words(rt.alloc())? else {
            continue;
        };
        let Some(script) = json_script(rt.alloc(), case.script())? else {
            passed_over = passed_over.saturating_add(1);
            continue;
        };
        scripts = scripts.saturating_add(1);
        if let Some(difference) = difference(rt.alloc(), &case, &words, script)? {
            println!(rt; "{name} as lines of JSON: {difference}")?;
            differing = differing.saturating_add(1);
        }
    }
    println!(rt;
        "{scripts} scripts as lines of JSON, {passed_over} passed over, {differing} differ"
    )?;
    Ok(())
}

// How the run over the script as lines of JSON differed from the plain one, if it did.
fn difference(
    alloc: Global,
    case: &Case,
    words: &[String],
    script: Vec<u8>,
) -> Result<Option<Difference>> {
    let mut source = MemSource::new(script, CHUNK, Vec::new(alloc));
    let mut sink = sink_for(alloc, case.output().len().saturating_mul(GROWTH))?;
    let status = serve(alloc, words, &mut source, &mut sink, Ending::Free);
    let code = u32::from(status.code());
    if let Some(line) = differing_line(alloc, sink.held(), case.output())? {
        Ok(Some(Difference::Line(line)))
    } else if code != case.status() {
        Ok(Some(Difference::Status(case.status(), code)))
    } else {
        Ok(None)
    }
}

// The number, from 1, of the first reply line that doesn't say what the plain one does.
fn differing_line(alloc: Global, json: &[u8], plain: &[u8]) -> Result<Option<usize>> {
    let mut number = 0usize;
    let mut others = plain.split_inclusive(|byte| *byte == b'\n');
    for line in json.split_inclusive(|byte| *byte == b'\n') {
        number = number.saturating_add(1);
        let is_same = match others.next() {
            Some(other) => is_alike(alloc, line, other)?,
            None => false,
        };
        if !is_same {
            return Ok(Some(number));
        }
    }
    match others.next() {
        Some(_) => Ok(Some(number.saturating_add(1))),
        None => Ok(None),
    }
}

// Whether a reply line of JSON says what a plain one does, both with their end.
fn is_alike(alloc: Global, json: &[u8], plain: &[u8]) -> Result<bool> {
    let reply = Value::from_slice(alloc, json)?;
    let Ok(line) = plain_line(alloc, &reply) else {
        return Ok(false);
    };
    let plain = plain.strip_suffix(b"\n").unwrap_or(plain);
    Ok(line.as_bytes() == plain && json.ends_with(b"}\n") && !json.contains(&b' '))
}
