//! Reads a script line exactly by its grammar.
//!
//! It stands on `script_lex` for the tokens of a line, on `itpg_edit` for the edits that lines ask for, and on `itpg_base`.
//! Promises that each line is read as the one thing that the grammar says, or told by the first of its faults. No call
//! takes memory, and each is linear in the line.
#![tactic(auto)]

mod command;
mod edits;
mod faults;
mod follows;
mod labels;
mod laws;
mod line;
mod parts;
mod pins;
mod quick;
mod reading;

pub use faults::without_end;
pub use laws::{
    law_of_labels, law_of_lines, law_of_long_lines, law_of_moments, law_of_names, law_of_words,
};
pub use line::{Line, Wanted, room};
pub use quick::read_edit;
pub use reading::{MAX_LINE, read_line};
