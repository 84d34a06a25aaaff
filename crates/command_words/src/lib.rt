//! The words of the command line, and how a run of the command ends.
//!
//! It stands on `itpg_base` and on clap, whose own definition says which words fit the command. It promises that the words are
//! read as the options that they ask for, and are refused exactly if they ask for none (`read_words`), and that they ask for
//! no two (`law_of_one_reading`).
#![tactic(auto)]

mod laws;
mod number;
mod options;
mod reading;
mod status;

pub use laws::{law_of_flags, law_of_one_reading};
pub use options::{Options, WordsFault};
pub use reading::read_words;
pub use status::Status;
