//! The script that a number generates, line by line.
//!
//! It stands on no other crate of the project. Its definitions (`specs/`) say which numbers are drawn and which lines they make.
//! It promises that `trial_line` gives the lines of that script in their order, each once, and nothing behind the last.
#![tactic(auto)]

mod asks;
mod draws;
mod laws;
mod line;
mod place;
mod trial;

pub use asks::asked;
pub use laws::{law_of_draws, law_of_questions};
pub use trial::{Trial, trial_line};
