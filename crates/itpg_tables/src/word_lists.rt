//! Compares `read_words` with what was worked out by hand.
//!
//! `data/word_lists.txt` has lists of words, each word with a comma behind it, and on the line behind each list what it gives:
//! the limit of rows, the trial and `json` if lines are JSON, or `usage`.

use anyhow::Result;
use command_words::{Options, WordsFault, read_words};
use std::alloc::{AllocError, Global};
use std::fs;

/// Prints each list that gives something else, and how many are alike.
pub fn compare(rt: &HostRuntime) -> Result<()> {
    let data = fs::read_to_string(rt, "word_lists.txt")?;
    let mut list = "";
    let mut is_answer = false;
    let mut lists = 0u32;
    let mut alike = 0u32;
    for line in data.as_str().lines() {
        if is_answer {
            let found = answer(rt.alloc(), list)?;
            lists = lists.saturating_add(1);
            if found.as_str() == line {
                alike = alike.saturating_add(1);
            } else {
                println!(rt; "word list {lists}: {found}, for {line}")?;
            }
        }
        list = line;
        is_answer = !is_answer;
    }
    println!(rt; "{alike} of {lists} word lists alike")?;
    Ok(())
}

// What a list of words gives, as the data write it.
fn answer(alloc: Global, list: &str) -> Result<String> {
    let words = words_of(alloc, list)?;
    match read_words(alloc, &words) {
        Ok(options) => Ok(told(alloc, &options)?),
        Err(WordsFault::Usage) => Ok(String::from_str(alloc, "usage")?),
        Err(WordsFault::Memory) => Ok(String::from_str(alloc, "memory")?),
    }
}

fn told(alloc: Global, options: &Options) -> Result<String, AllocError> {
    let rows = options.limits.max_rows();
    let json = if options.json { " json" } else { "" };
    match options.trial {
        Some(trial) => format!(in alloc; "rows {rows} trial {trial}{json}"),
        None => format!(in alloc; "rows {rows} trial none{json}"),
    }
}

// The words, each of which has a comma behind it.
fn words_of(alloc: Global, list: &str) -> Result<Vec<String>, AllocError> {
    let mut words = Vec::new(alloc);
    let mut last = None;
    for piece in list.split(',') {
        if let Some(word) = last {
            words.push(String::from_str(alloc, word)?)?;
        }
        last = Some(piece);
    }
    Ok(words)
}
