//! Runs plain scripts through `explain`, and compares what it says with the replies that they must have.
//!
//! `explain` writes what it says of a line in one piece, with the head of the reply in it. Each head `line N ..` of the script's output
//! must stand in such a piece, in the same order, with none left over, and the status must be the script's. Of an `ask` that names both
//! ends, and that isn't refused, the members must agree with the reply: it is wide exactly if the piece names a wide member, and else it
//! has as many rows as the first member, which is the question's path. With one end named, the reply must be wide if the piece names a
//! wide member; it can be wide without one, where only what is left of the rows has too many.

use crate::case::Case;
use anyhow::Result;
use edit_reader::{Line, read_line, room};
use explanations::explain;
use itpg_base::{Failed, MemSource, Sink};
use match_parser::read_query;
use question_costs::Clock;
use std::alloc::{AllocError, Global};

// How many bytes a source gives at a call.
const CHUNK: usize = 65_536;

/// Explains each script of these names that is neither a trial nor one of JSON, prints those that differ, and says how many there were.
pub fn compare_explained(rt: &HostRuntime, folder: &str, names: &[String]) -> Result<()> {
    let mut scripts = 0u64;
    let mut differing = 0u64;
    for name in names {
        let case = Case::read(rt, folder, name.as_str())?;
        let Some(words) = case.plain_words(rt.alloc())? else {
            continue;
        };
        scripts = scripts.saturating_add(1);
        if !is_alike(rt.alloc(), &case, &words)? {
            println!(rt; "{name}: what is explained differs")?;
            differing = differing.saturating_add(1);
        }
    }
    println!(rt; "{scripts} scripts explained, {differing} differ")?;
    Ok(())
}

// Whether what is explained of a script is what it replies.
fn is_alike(alloc: Global, case: &Case, words: &[String]) -> Result<bool, AllocError> {
    let mut source = MemSource::new(case.script().to_vec(alloc)?, CHUNK, Vec::new(alloc));
    let mut judge = Judge {
        alloc,
        heads: heads_of(alloc, case.output())?,
        next: 0,
        differs: false,
    };
    let status = explain(alloc, words, &mut source, &mut judge, &mut NoClock);
    Ok(judge.is_content() && u32::from(status.code()) == case.status())
}

// The heads of the replies in an output.
fn heads_of<'a>(alloc: Global, output: &'a [u8]) -> Result<Vec<&'a [u8]>, AllocError> {
    let mut heads = Vec::new(alloc);
    for line in output.split(|byte| *byte == b'\n') {
        if is_head(line) {
            heads.push(line)?;
        }
    }
    Ok(heads)
}

// Whether a line is the head of a reply. A row, of a node named `line`, has no word behind it that is a number.
fn is_head(line: &[u8]) -> bool {
    let mut words = line.split(|byte| *byte == b' ');
    let named = words.next() == Some(b"line".as_slice());
    named && words.next().is_some_and(is_number)
}

fn is_number(word: &[u8]) -> bool {
    word.iter().all(|byte| byte.is_ascii_digit())
}

/// A clock that stands still.
#[derive(Drop)]
pub struct NoClock;

impl Clock for NoClock {
    fn micros(&mut self) -> u64 {
        0
    }
}

/// A sink that compares each piece with the next head. It never fails.
#[derive(Drop)]
struct Judge<'a> {
    alloc: Global,
    heads: Vec<&'a [u8]>,
    next: usize,
    differs: bool,
}

impl Judge<'_> {
    // Whether each piece was right, and none was missing.
    fn is_content(&self) -> bool {
        !self.differs && self.next == self.heads.len()
    }

    fn take(&mut self, piece: &[u8]) {
        let said = Said::read(piece);
        let wanted = self.heads.get(self.next).copied();
        let agrees = match said.agrees(self.alloc) {
            Ok(agrees) => agrees,
            Err(AllocError) => false,
        };
        if said.head.is_none() || said.head != wanted || !agrees {
            self.differs = true;
        }
        self.next = self.next.saturating_add(1);
    }
}

impl Sink for Judge<'_> {
    ghost use Rattle.std.specs.Prelude.{ℕ, ◌≡◌, OnOk, OnErr};
    ghost use Rattle.std.specs.declared.option.Option.TheVariants.{None};
    ghost use Rattle.std.specs.Io.KnownBytes.{Appends};
    ghost use Rattle.itpg_base.specs.Outside.{HasCause, AppendsSome};

    ghost held = { λ s. None };

    ghost faults = { λ s. 0 };

    fn write(&mut self, piece: &[u8]) -> Result<(), Failed>
        ensures written { OnOk result (Appends None None piece.now) }
        ensures some { OnErr result (AppendsSome None None piece.now) }
        ensures cause { HasCause 0 0 result }
        ensures calm { OnOk result (◌≡◌ {A = ℕ} 0 0) }
    {
        self.take(piece);
        Ok(())
    }
}

/// What a piece says.
#[derive(Clone, Copy)]
struct Said<'a> {
    /// The line that is explained.
    line: &'a [u8],
    /// The line of the first member.
    root: Option<&'a [u8]>,
    /// Whether a member is named that is wide.
    is_wide: bool,
    /// The head of the reply.
    head: Option<&'a [u8]>,
}

impl<'a> Said<'a> {
    fn read(piece: &'a [u8]) -> Said<'a> {
        let mut lines = piece.split(|byte| *byte == b'\n');
        let mut said = Said {
            line: explained(lines.next().unwrap_or(b"")),
            root: None,
            is_wide: false,
            head: None,
        };
        for line in lines {
            if line.starts_with(b"member ") && said.root.is_none() {
                said.root = Some(line);
            } else if line.starts_with(b"wide member ") {
                said.is_wide = true;
            } else if is_head(line) {
                said.head = Some(line);
            }
        }
        said
    }

    // Whether the members agree with the reply.
    fn agrees(&self, alloc: Global) -> Result<bool, AllocError> {
        let (Some(root), Some(head)) = (self.root, self.head) else {
            return Ok(true);
        };
        let is_wide = head.ends_with(b" wide");
        if !is_wide && rows_in(head).is_none() {
            return Ok(true);
        }
        Ok(match ends_of(alloc, self.line)? {
            Ends::Both => is_wide == self.is_wide && rows_in(root) == rows_in(head),
            Ends::One => is_wide || !self.is_wide,
            Ends::Unasked => true,
        })
    }
}

// The line behind the word `explain` and its number.
fn explained(line: &[u8]) -> &[u8] {
    let mut parts = line.splitn(3, |byte| *byte == b' ');
    parts.nth(2).unwrap_or(b"")
}

// The number behind the word `rows`, which stands behind two words.
fn rows_in(line: &[u8]) -> Option<&[u8]> {
    let mut words = line.split(|byte| *byte == b' ');
    if words.nth(2) == Some(b"rows".as_slice()) {
        words.next()
    } else {
        None
    }
}

/// Which ends of its path a line `ask` names.
#[derive(Clone, Copy)]
enum Ends {
    Both,
    One,
    /// It is another line, or doesn't read.
    Unasked,
}

fn ends_of(alloc: Global, line: &[u8]) -> Result<Ends, AllocError> {
    let mut edit = room();
    let Ok(Line::Ask(text)) = read_line(line, &mut edit) else {
        return Ok(Ends::Unasked);
    };
    match &read_query(alloc, text) {
        Ok(query) if query.first && query.last => Ok(Ends::Both),
        Ok(_) => Ok(Ends::One),
        Err(_) => Ok(Ends::Unasked),
    }
}
