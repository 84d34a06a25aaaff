//! The text of an answer, and of counts: a line for each row, in words or as JSON.
//!
//! Stands on `itpg_graph` for the names of objects, and on `relation_rows` and `arrivals`, whose answers and counts are printed. It
//! promises that each row is written as `docs/REFERENCE.md` says, in order, that of an answer after the lead that is handed in, and
//! that no memory is taken. The page on which lines are formed is for the heads of replies too.
#![tactic(auto)]

mod counting;
mod form;
mod json;
mod laws;
mod lines;
mod page;
mod printing;

pub use counting::{print_counts, print_json_counts};
pub use form::Form;
pub use laws::{law_of_counts, law_of_forms, law_of_json_lines, law_of_lines};
pub use page::{PAGE, Page, Piece};
pub use printing::{print_json_rows, print_rows};
