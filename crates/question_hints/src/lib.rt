//! What about a question is certainly a mistake on a graph.
//!
//! Stands on `path_ast` and `itpg_graph`, over whose plain terms and plain graph each hint is stated. It promises that a hint comes
//! exactly if the question can give it and it is certain from the graph.
#![tactic(auto)]

mod asked;
mod certain;
mod forms;
mod having;
mod hint;
mod horizon;
mod kinds;
mod laws;
mod passing;
mod texts;

pub use certain::hints_of;
pub use hint::Hint;
pub use horizon::{Lives, unreached_horizon};
pub use laws::{hints_of_short_paths, law_of_kinds, times_passed_by_short_paths};
