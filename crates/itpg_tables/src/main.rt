//! Compares what calls give with tables that were made without them.
//!
//! Each table lies in `data/` beside the script that wrote it, if one did, and has a module here, which prints each case at
//! which the call gives something else, and how many cases are alike.
#![tactic(auto)]

mod edit_lists;
mod list_lines;
mod lists;
mod queries;
mod script_lines;
mod word_lists;

use anyhow::Result;

fn main(rt: HostRuntime) -> Result<()> {
    lists::compare(&rt)?;
    script_lines::compare(&rt)?;
    queries::compare(&rt)?;
    edit_lists::compare(&rt)?;
    word_lists::compare(&rt)
}
