//! The tokens of a script line, and the first fault where a line has one.
//!
//! Stands on `itpg_base`, which names the faults of a text.
//! Promises that each token is the one that the table of tokens gives at its place, and that a fault is named exactly.
//! No call takes memory, and each is linear in the blanks and the token that it reads.
#![tactic(auto)]

mod bytes;
mod laws;
mod lexing;
mod mark;
mod numbers;
mod token;
mod wanted;

pub use laws::{law_of_lines, law_of_places, law_of_reading, law_of_tokens};
pub use lexing::next_token;
pub use mark::Mark;
pub use numbers::{MAX_NUMBER, value_of};
pub use token::{MAX_TOKENS, Token, What};
pub use wanted::{Taken, is_end, next_number, next_word};
