//! The top call: reads the words of the command line and a script, answers its lines, and says how it ended.
//!
//! It stands on `command_words`, on `trial_script` and on the session, which takes one line at a time, and holds the output over a
//! script as a definition (`specs/`): the turns of the plain machine to its lines, one behind the other. It promises that
//! `serve` writes the bytes of that output, whatever script is read, or the summary of a trial (`serve`'s clauses), that there
//! is exactly one output for each script (`one_output`, `some_output`), and one summary for each trial (`law_of_summaries`),
//! of three lines (`law_of_three_lines`), and that a pin's replies don't see the edits since it was opened (`law_of_pins`). Of
//! graphs only the laws of a trial's script speak (`script_law`).
#![tactic(auto)]

mod law;
mod reader;
mod run;
mod script_law;
mod summary;
mod sums;
mod trial;

pub use command_words::Status;
pub use law::{
    law_of_pins, law_of_summaries, one_output, output_begins, output_grows, some_output,
};
pub use run::{Ending, serve};
pub use script_law::{law_of_script_graphs, law_of_script_lines, law_of_three_lines};
pub use trial::run_trial;
pub use trial_script::{Trial, trial_line};
