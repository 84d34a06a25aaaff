//! One script with what it must write.
use crate::made::make;
use crate::runs::{sink_for, step_lines};
use anyhow::{Context, Result, bail};
use itpg_base::{Limits, MemSource};
use itpg_run::{Ending, Status, serve};
use std::alloc::{AllocError, Global};
use std::{fmt, fs, io};

// How many bytes the source gives at a call.
const CHUNK: usize = 65_536;

/// A script, how it is run, and the bytes and the status that it must end with.
#[derive(Drop)]
pub struct Case {
    way: Way,
    script: Vec<u8>,
    output: Vec<u8>,
    status: u32,
}

/// How a script is run.
#[derive(Drop)]
enum Way {
    /// Through `serve`, with these words of a command line.
    Served(Vec<String>),
    /// Line by line through a session with this limit of rows.
    Stepped(Limits),
}

/// How a run differed from what it must be.
#[derive(Drop)]
pub enum Difference {
    /// The statuses: as it must be, and as it was.
    Status(u32, u32),
    /// The number of the first line of output that differs, from 1.
    Line(usize),
}

impl fmt::Display for Difference {
    fn fmt<W: fmt::Write>(&self, f: &mut fmt::Formatter<W>) -> fmt::Result {
        match self {
            Difference::Status(wanted, got) => write!(f, "status {got} in place of {wanted}"),
            Difference::Line(number) => write!(f, "the output differs from its line {number} on"),
        }
    }
}

impl Case {
    /// Reads the files of this name.
    pub fn read(rt: &HostRuntime, folder: &str, name: &str) -> Result<Case> {
        let script = read_script(rt, folder, name)?;
        let output = fs::read(rt, &format!(in rt.alloc(); "{folder}/{name}.out")?)?;
        let words = read_words(rt, &format!(in rt.alloc(); "{folder}/{name}.words")?)?;
        let limits = read_limits(rt, &format!(in rt.alloc(); "{folder}/{name}.limit")?)?;
        let status = read_number(rt, &format!(in rt.alloc(); "{folder}/{name}.status")?)?;
        Ok(Case {
            way: way_of(words, limits),
            script,
            output,
            status: status.unwrap_or(0),
        })
    }

    /// The script's bytes.
    pub fn script(&self) -> &[u8] {
        &self.script
    }

    /// The bytes that it must write.
    pub fn output(&self) -> &[u8] {
        &self.output
    }

    /// The status that it must end with.
    pub fn status(&self) -> u32 {
        self.status
    }

    /// The words that ask for plain lines with the script's limit of rows; `None` for a trial, and where they ask for lines of JSON.
    pub fn plain_words(&self, alloc: Global) -> Result<Option<Vec<String>>, AllocError> {
        let mut words = Vec::new(alloc);
        match &self.way {
            Way::Served(own) => {
                for word in own {
                    if !is_plain(word.as_str()) {
                        return Ok(None);
                    }
                    words.push(word.clone()?)?;
                }
            }
            Way::Stepped(limits) => {
                let rows = limits.max_rows();
                words.push(format!(in alloc; "--max-rows={rows}")?)?;
            }
        }
        Ok(Some(words))
    }

    /// The words that ask for lines of JSON and else for the same; `None` for a trial, and where they ask for JSON already.
    pub fn json_words(&self, alloc: Global) -> Result<Option<Vec<String>>, AllocError> {
        let Some(mut words) = self.plain_words(alloc)? else {
            return Ok(None);
        };
        words.push(String::from_str(alloc, "--json")?)?;
        Ok(Some(words))
    }

    /// Runs the script, and says how the run differed from what it must be, if it did.
    pub fn difference(&self, alloc: Global) -> Result<Option<Difference>, AllocError> {
        let mut sink = sink_for(alloc, self.output.len())?;
        let status = match &self.way {
            Way::Served(words) => {
                let mut source = MemSource::new(self.script.clone()?, CHUNK, Vec::new(alloc));
                serve(alloc, words, &mut source, &mut sink, Ending::Free)
            }
            Way::Stepped(limits) => step_lines(alloc, *limits, &self.script, &mut sink),
        };
        Ok(compare(sink.held(), status, &self.output, self.status))
    }
}

/// How an output and a status differ from what they must be, if they do.
pub fn compare(held: &[u8], status: Status, output: &[u8], wanted: u32) -> Option<Difference> {
    let got = u32::from(status.code());
    if held != output {
        Some(Difference::Line(differing_line(held, output)))
    } else if got != wanted {
        Some(Difference::Status(wanted, got))
    } else {
        None
    }
}

// The number, from 1, of the first line at which two texts differ.
fn differing_line(xs: &[u8], ys: &[u8]) -> usize {
    let mut line = 1usize;
    for (x, y) in xs.iter().zip(ys.iter()) {
        if x != y {
            break;
        }
        if *x == b'\n' {
            line = line.saturating_add(1);
        }
    }
    line
}

// Whether a word asks neither for a trial nor for lines of JSON.
fn is_plain(word: &str) -> bool {
    !word.starts_with("--trial") && !word.starts_with("--json")
}

fn way_of(words: Vec<String>, limits: Option<Limits>) -> Way {
    match limits {
        Some(limits) => Way::Stepped(limits),
        None => Way::Served(words),
    }
}

// The script that the file has, or the one that the rows of a file make.
fn read_script(rt: &HostRuntime, folder: &str, name: &str) -> Result<Vec<u8>> {
    match read_optional(rt, &format!(in rt.alloc(); "{folder}/{name}.made")?)? {
        Some(rows) => make(rt.alloc(), rows.as_str()),
        None => Ok(fs::read(rt, &format!(in rt.alloc(); "{folder}/{name}.itpg")?)?),
    }
}

// The words of the file, one a line; none if there is no such file.
fn read_words(rt: &HostRuntime, path: &str) -> Result<Vec<String>> {
    let mut words = Vec::new(rt.alloc());
    if let Some(text) = read_optional(rt, path)? {
        for line in text.as_str().lines() {
            words.push(String::from_str(rt.alloc(), line)?)?;
        }
    }
    Ok(words)
}

// The limit of rows that the file names, if there is such a file.
fn read_limits(rt: &HostRuntime, path: &str) -> Result<Option<Limits>> {
    match read_number(rt, path)? {
        None => Ok(None),
        Some(rows) => match Limits::new(rows) {
            Some(limits) => Ok(Some(limits)),
            None => bail!("{path}: {rows} is no limit of rows"),
        },
    }
}

// The number that the file has, if there is such a file.
fn read_number(rt: &HostRuntime, path: &str) -> Result<Option<u32>> {
    match read_optional(rt, path)? {
        Some(text) => {
            let number = text
                .as_str()
                .trim()
                .parse::<u32>()
                .context(format_args!("reading {path}"))?;
            Ok(Some(number))
        }
        None => Ok(None),
    }
}

// The text of a file that may be missing.
fn read_optional(rt: &HostRuntime, path: &str) -> Result<Option<String>> {
    match fs::read_to_string(rt, path) {
        Ok(text) => Ok(Some(text)),
        Err(error) if error.kind() == io::ErrorKind::NotFound => Ok(None),
        Err(error) => Err(error.into()),
    }
}
