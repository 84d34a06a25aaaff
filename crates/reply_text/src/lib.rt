//! The texts of whole replies, as lines of words or as lines of JSON.
//!
//! It stands on `row_printer`, which prints rows and counts in both forms, and on `itpg_base` for names, codes and sinks. It promises
//! that each reply is written as `docs/REFERENCE.md` says, byte by byte, and that no memory is taken. Its laws say that a row in JSON is
//! serde_json's own text of the row's value.
#![tactic(auto)]

mod heads;
mod laws;
mod replies;
mod ticks;

pub use laws::{
    law_of_json_heads, law_of_json_lines, law_of_json_rows, law_of_plain_lines, law_of_read_rows,
};
pub use replies::{write_bad, write_counts, write_refused, write_rows, write_wide};
pub use ticks::{write_changes, write_tick_wide};
