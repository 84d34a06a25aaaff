//! Runs scripts and prints each one whose output or status differs from what it must be.
//!
//! `NAME.itpg` is a script, or `NAME.made` makes it, and `NAME.out` has the bytes that it must write; `NAME.status` is the status as a
//! number, 0 where it is missing. It goes through `serve` with the words of `NAME.words`, one a line; where there is a `NAME.limit`, it goes line by
//! line through a session with this limit of rows. The folder is the first word of this program, or else the one that it is
//! run in. A script as long as it may be and one that is longer by a byte are made here. Then each plain script is run as lines of JSON,
//! and its replies are compared with the plain ones; each is explained, and what is said is compared with its replies. Where there is a
//! `NAME.explained`, it has the bytes that must be said. Then come the runs over devices that fail.
#![tactic(auto)]

mod case;
mod devices;
mod explained;
mod explained_text;
mod json_lines;
mod json_script;
mod longest;
mod made;
mod plain_reply;
mod runs;

use anyhow::Result;
use case::Case;
use std::{env, fs};

fn main(rt: HostRuntime) -> Result<()> {
    let folder = folder(&rt)?;
    let names = script_names(&rt, folder.as_str())?;
    let mut differing = 0u64;
    for name in &names {
        let case = Case::read(&rt, folder.as_str(), name.as_str())?;
        if let Some(difference) = case.difference(rt.alloc())? {
            println!(rt; "{name}: {difference}")?;
            differing = differing.saturating_add(1);
        }
    }
    for pieces in &longest::SCRIPTS {
        if let Some(difference) = pieces.difference(rt.alloc())? {
            let times = pieces.times;
            println!(rt; "{times} long pieces: {difference}")?;
            differing = differing.saturating_add(1);
        }
    }
    let count = names.len().saturating_add(longest::SCRIPTS.len());
    println!(rt; "{count} scripts, {differing} differ")?;
    json_lines::compare_scripts(&rt, folder.as_str(), &names)?;
    explained::compare_explained(&rt, folder.as_str(), &names)?;
    explained_text::compare_texts(&rt, folder.as_str(), &names)?;
    devices::compare_rows(&rt, folder.as_str())
}

/// The folder of the scripts.
fn folder(rt: &HostRuntime) -> Result<String> {
    match env::args(rt)?.nth(1) {
        Some(folder) => Ok(folder),
        None => Ok(String::from_str(rt.alloc(), ".")?),
    }
}

/// The names of the scripts in the folder, without their ending, sorted.
fn script_names(rt: &HostRuntime, folder: &str) -> Result<Vec<String>> {
    let mut names = Vec::new(rt.alloc());
    for entry in fs::read_dir(rt, folder)? {
        let entry = entry?;
        if let Some(name) = script_name(entry.file_name()) {
            names.push(String::from_str(rt.alloc(), name)?)?;
        }
    }
    names.sort()?;
    Ok(names)
}

/// The name of the script that a file has or makes, if it does.
fn script_name(file: &str) -> Option<&str> {
    match file.strip_suffix(".itpg") {
        Some(name) => Some(name),
        None => file.strip_suffix(".made"),
    }
}
