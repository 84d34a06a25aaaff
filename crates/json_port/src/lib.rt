//! Reads lines of JSON: edits as objects, and any plain line in one.
//!
//! It stands on serde_json, whose own definition says which value a line has, on `edit_reader` for what holds of every line,
//! on `itpg_edit` for the edits that lines ask for, and on `itpg_base`. It promises that each line is read as the one thing
//! that the table of objects says, or told by the first of its faults.
#![tactic(auto)]

mod edits;
mod flat;
mod key;
mod labels;
mod laws;
mod lexemes;
mod limits;
mod line;
mod member;
mod names;
mod object;
mod op;
mod parts;
mod quick;
mod reading;

pub use laws::{
    law_of_codes, law_of_json_lines, law_of_long_json_lines, law_of_objects, law_of_refusals,
};
pub use line::{JsonFault, JsonLine, JsonText};
pub use reading::read_json;
