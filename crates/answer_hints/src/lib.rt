//! Hints on a question that need answers.
//!
//! Stands on `path_eval`, by which questions are worked out. It promises that a hint that is given is certain from the graph, and that it
//! is given whenever what it needs fits the limit.
#![tactic(auto)]

mod copies;
mod enough;
mod hint;
mod laws;
mod limit;
mod relaxed;
mod repeated;
mod rows;
mod ruled_out;

pub use enough::{Enough, MOST_ROWS, enough_times};
pub use hint::AnswerHint;
pub use laws::{relaxed_short_paths, top_repetitions_of_short_paths};
pub use limit::limit_that_does;
pub use relaxed::without_existence;
pub use repeated::MOST_FURTHER;
pub use rows::fits_within;
pub use ruled_out::existence_rules_out;
