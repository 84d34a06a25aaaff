//! Compares `read_query` with what was worked out by hand.
//!
//! `data/queries.txt` has query texts, each with its answer on the line behind it: `bad` and the word of the fault, or which
//! ends are asked for, the graph if one is named, and the path.

use anyhow::Result;
use itpg_base::Name;
use match_parser::{QueryFault, read_query};
use path_ast::{Leaf, Path, Query, Test};
use std::alloc::{AllocError, Global};
use std::fs;

/// Prints each text that has another answer, and how many are alike.
pub fn compare(rt: &HostRuntime) -> Result<()> {
    let data = fs::read_to_string(rt, "queries.txt")?;
    let mut text: &[u8] = b"";
    let mut is_answer = false;
    let mut texts = 0u32;
    let mut alike = 0u32;
    for line in data.as_str().lines() {
        if is_answer {
            let found = answer(rt.alloc(), text)?;
            texts = texts.saturating_add(1);
            if found.as_str() == line {
                alike = alike.saturating_add(1);
            } else {
                println!(rt; "query text {texts}: {found}, for {line}")?;
            }
        }
        text = line.as_bytes();
        is_answer = !is_answer;
    }
    println!(rt; "{alike} of {texts} query texts alike")?;
    Ok(())
}

// The answer to a text, as the data write it.
fn answer(alloc: Global, text: &[u8]) -> Result<String> {
    let mut out = String::new(alloc);
    match read_query(alloc, text) {
        Ok(query) => push_query(&mut out, &query)?,
        Err(QueryFault::Bad(code)) => {
            out.push_str("bad ")?;
            out.push_str(code.word())?;
        }
        Err(QueryFault::Memory) => out.push_str("memory")?,
    }
    Ok(out)
}

fn push_query(out: &mut String, query: &Query) -> Result<(), AllocError> {
    out.push_str(match (query.first, query.last) {
        (true, true) => "both",
        (true, false) => "first",
        (false, true) => "last",
        (false, false) => "none",
    })?;
    if let Some(name) = &query.graph_name {
        out.push_str(" on ")?;
        push_name(out, name)?;
    }
    out.push_str(": ")?;
    push_path(out, &query.path)
}

#[cycle(pushes)]
fn push_path(out: &mut String, path: &Path) -> Result<(), AllocError> {
    match path {
        Path::Test(test) => {
            out.push_str("test(")?;
            push_test(out, test)?;
            out.push_str(")")
        }
        Path::F => out.push_str("F"),
        Path::B => out.push_str("B"),
        Path::N => out.push_str("N"),
        Path::P => out.push_str("P"),
        Path::Seq(a, b) => {
            out.push_str("seq(")?;
            push_path(out, a)?;
            out.push_str(", ")?;
            push_path(out, b)?;
            out.push_str(")")
        }
        Path::Alt(a, b) => {
            out.push_str("alt(")?;
            push_path(out, a)?;
            out.push_str(", ")?;
            push_path(out, b)?;
            out.push_str(")")
        }
        Path::Repeat { body, least, most } => {
            out.push_str("rep(")?;
            push_path(out, body)?;
            push_times(out, *least, *most)
        }
    }
}

// The numbers of times, and the closing bracket.
fn push_times(out: &mut String, least: u64, most: Option<u64>) -> Result<(), AllocError> {
    match most {
        Some(most) => push_text(out, format!(in *out.allocator(); ", {least}, {most})")),
        None => push_text(out, format!(in *out.allocator(); ", {least}, _)")),
    }
}

fn push_text(out: &mut String, text: Result<String, AllocError>) -> Result<(), AllocError> {
    out.push_str(text?.as_str())
}

#[cycle(pushes)]
fn push_test(out: &mut String, test: &Test) -> Result<(), AllocError> {
    match test {
        Test::Leaf(leaf) => push_leaf(out, leaf),
        Test::Cond(path) => {
            out.push_str("cond(")?;
            push_path(out, path)?;
            out.push_str(")")
        }
        Test::And(a, b) => {
            out.push_str("and(")?;
            push_test(out, a)?;
            out.push_str(", ")?;
            push_test(out, b)?;
            out.push_str(")")
        }
        Test::Or(a, b) => {
            out.push_str("or(")?;
            push_test(out, a)?;
            out.push_str(", ")?;
            push_test(out, b)?;
            out.push_str(")")
        }
        Test::Not(a) => {
            out.push_str("not(")?;
            push_test(out, a)?;
            out.push_str(")")
        }
    }
}

fn push_leaf(out: &mut String, leaf: &Leaf) -> Result<(), AllocError> {
    match leaf {
        Leaf::Node => out.push_str("node"),
        Leaf::Edge => out.push_str("edge"),
        Leaf::Exists => out.push_str("exists"),
        Leaf::Label(label) => {
            out.push_str("label ")?;
            push_name(out, label)
        }
        Leaf::Value { prop, value } => {
            out.push_str("value ")?;
            push_name(out, prop)?;
            out.push_str(" '")?;
            push_name(out, value)?;
            out.push_str("'")
        }
        Leaf::Before(k) => push_text(out, format!(in *out.allocator(); "before {k}")),
    }
}

fn push_name(out: &mut String, name: &Name) -> Result<(), AllocError> {
    for byte in name.bytes() {
        out.push(char::from(*byte))?;
    }
    Ok(())
}
