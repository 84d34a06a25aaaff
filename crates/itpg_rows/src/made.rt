//! Scripts that are too long to be stored, made from a few rows.
//!
//! A row is `lines COUNT FIRST STEP TEXT`: a line of this text, so many times. Each `%` in the text stands for a number: at first
//! FIRST, and STEP more from each time to the next. `text` in place of `lines` leaves out the line ends.

use anyhow::{Context, Result, bail};
use std::alloc::Global;

/// The script that the rows make.
pub fn make(alloc: Global, rows: &str) -> Result<Vec<u8>> {
    let mut script = Vec::new(alloc);
    for row in rows.lines() {
        add_row(alloc, &mut script, row)?;
    }
    Ok(script)
}

fn add_row(alloc: Global, script: &mut Vec<u8>, row: &str) -> Result<()> {
    let (kind, text) = row.split_once(' ').context("a row of one word")?;
    let (count, text) = take_number(text)?;
    let (first, text) = take_number(text)?;
    let (step, text) = take_number(text)?;
    let end = match kind {
        "lines" => "\n",
        "text" => "",
        _ => bail!("{row:?} makes nothing"),
    };
    let mut number = first;
    for _ in 0..count {
        let digits = format!(in alloc; "{number}")?;
        add_text(script, text, digits.as_bytes())?;
        script.extend_from_slice(end.as_bytes())?;
        number = number.saturating_add(step);
    }
    Ok(())
}

// Puts the text behind the script, with these digits for each `%`.
fn add_text(script: &mut Vec<u8>, text: &str, digits: &[u8]) -> Result<()> {
    let mut is_first = true;
    for piece in text.split('%') {
        if !is_first {
            script.extend_from_slice(digits)?;
        }
        script.extend_from_slice(piece.as_bytes())?;
        is_first = false;
    }
    Ok(())
}

fn take_number(text: &str) -> Result<(u64, &str)> {
    let (number, rest) = text.split_once(' ').context("a row without text")?;
    Ok((number.parse::<u64>()?, rest))
}
