//! The table of script lines with what each asks for.

use anyhow::{Context, Result, bail};
use edit_reader::{Line, read_line, room};
use itpg_base::{LabelSet, Name};
use itpg_edit::Edit;
use std::alloc::Global;
use std::{fs, str};

/// Reads each line of the table, prints those that are read as something else, and how many are alike.
pub fn compare(rt: &HostRuntime) -> Result<()> {
    let text = fs::read_to_string(rt, "script_lines.txt")?;
    let mut line = Vec::new(rt.alloc());
    let mut lines = 0u32;
    let mut alike = 0u32;
    for row in text.as_str().lines() {
        let (kind, rest) = row.split_once(' ').context("a row of one word")?;
        match kind {
            "text" => add_text(&mut line, rest)?,
            "byte" => add_bytes(&mut line, rest)?,
            "is" => {
                let reading = describe(rt.alloc(), line.as_slice())?;
                lines = lines.saturating_add(1);
                if reading.as_str() == rest {
                    alike = alike.saturating_add(1);
                } else {
                    println!(rt; "script line {lines}: {reading} for {rest}")?;
                }
                line.clear();
            }
            _ => bail!("{row:?} is no row of a case"),
        }
    }
    println!(rt; "{alike} of {lines} script lines alike")?;
    Ok(())
}

// `COUNT TEXT`
fn add_text(line: &mut Vec<u8>, piece: &str) -> Result<()> {
    let (count, text) = piece.split_once(' ').context("a piece without text")?;
    for _ in 0..count.parse::<u32>()? {
        line.extend_from_slice(text.as_bytes())?;
    }
    Ok(())
}

// `COUNT NUMBER`
fn add_bytes(line: &mut Vec<u8>, piece: &str) -> Result<()> {
    let (count, number) = piece.split_once(' ').context("a piece without a byte")?;
    let byte = number.parse::<u8>()?;
    for _ in 0..count.parse::<u32>()? {
        line.push(byte)?;
    }
    Ok(())
}

// What the line is read as, in the words of the table.
fn describe(alloc: Global, line: &[u8]) -> Result<String> {
    let mut room = room();
    match &read_line(line, &mut room) {
        Ok(Line::Blank) => Ok(format!(in alloc; "blank")?),
        Ok(Line::Edit(edit)) => describe_edit(alloc, edit),
        Ok(Line::Ask(query)) => {
            let (from, to) = places(line, query)?;
            Ok(format!(in alloc; "ask {from} {to}")?)
        }
        Ok(Line::First(query)) => {
            let (from, to) = places(line, query)?;
            Ok(format!(in alloc; "first {from} {to}")?)
        }
        Ok(Line::Last(query)) => {
            let (from, to) = places(line, query)?;
            Ok(format!(in alloc; "last {from} {to}")?)
        }
        Ok(Line::Count(query)) => {
            let (from, to) = places(line, query)?;
            Ok(format!(in alloc; "count {from} {to}")?)
        }
        Ok(Line::Watch(name, query)) => {
            let (from, to) = places(line, query)?;
            Ok(format!(in alloc; "watch {} {from} {to}", word(name)?)?)
        }
        Ok(Line::Show(name)) => Ok(format!(in alloc; "show {}", word(name)?)?),
        Ok(Line::Unwatch(name)) => Ok(format!(in alloc; "unwatch {}", word(name)?)?),
        Ok(Line::Tick) => Ok(format!(in alloc; "tick")?),
        Ok(Line::OpenPin(name)) => Ok(format!(in alloc; "open {}", word(name)?)?),
        Ok(Line::ClosePin(name)) => Ok(format!(in alloc; "close {}", word(name)?)?),
        Ok(Line::InPin(name, query)) => {
            let (from, to) = places(line, query)?;
            Ok(format!(in alloc; "in {} {from} {to}", word(name)?)?)
        }
        Ok(Line::Follow(name, query)) => {
            let (from, to) = places(line, query)?;
            Ok(format!(in alloc; "follow {} {from} {to}", word(name)?)?)
        }
        Ok(Line::Near(name, id)) => Ok(format!(in alloc; "near {} {}", word(name)?, word(id)?)?),
        Ok(Line::Unfollow(name)) => Ok(format!(in alloc; "unfollow {}", word(name)?)?),
        Err(code) => Ok(format!(in alloc; "fault {}", code.word())?),
    }
}

fn describe_edit(alloc: Global, edit: &Edit) -> Result<String> {
    match edit {
        Edit::Begin { name, lo, hi } => Ok(format!(in alloc; "begin {} {lo} {hi}", word(name)?)?),
        Edit::Extend { lo, hi } => Ok(format!(in alloc; "extend {lo} {hi}")?),
        Edit::AddNode { id, labels } => {
            Ok(format!(in alloc; "node {} {}", word(id)?, listed(alloc, labels)?)?)
        }
        Edit::AddEdge {
            id,
            labels,
            source,
            target,
        } => Ok(format!(in alloc;
            "edge {} {} {} {}",
            word(id)?,
            listed(alloc, labels)?,
            word(source)?,
            word(target)?
        )?),
        Edit::Live { id, from, to } => Ok(format!(in alloc; "live {} {from} {to}", word(id)?)?),
        Edit::Gone { id, from, to } => Ok(format!(in alloc; "gone {} {from} {to}", word(id)?)?),
        Edit::Put {
            id,
            prop,
            value,
            from,
            to,
        } => Ok(format!(in alloc;
            "put {} {} '{}' {from} {to}",
            word(id)?,
            word(prop)?,
            word(value)?
        )?),
        Edit::Clear { id, prop, from, to } => {
            Ok(format!(in alloc; "clear {} {} {from} {to}", word(id)?, word(prop)?)?)
        }
        Edit::Remove { id } => Ok(format!(in alloc; "remove {}", word(id)?)?),
    }
}

fn word(name: &Name) -> Result<&str> {
    Ok(str::from_utf8(name.bytes())?)
}

// The labels by rising name, with commas between them.
fn listed(alloc: Global, labels: &LabelSet) -> Result<String> {
    let mut text = String::new(alloc);
    for place in 0..labels.len() {
        text.push_str(if place == 0 { "" } else { "," })?;
        let label = labels.get(place).context("a place past the last label")?;
        text.push_str(word(&label)?)?;
    }
    Ok(text)
}

// The places in the line of a query text that reaches to its end.
fn places(line: &[u8], query: &[u8]) -> Result<(usize, usize)> {
    let to = match line {
        [body @ .., b'\r'] => body.len(),
        _ => line.len(),
    };
    if query.len() <= to && &line[to - query.len()..to] == query {
        Ok((to - query.len(), to))
    } else {
        bail!("a query text that isn't the end of its line")
    }
}
