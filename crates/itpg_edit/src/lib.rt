//! The edits of a graph: the first rule that one breaks, and the change that one makes.
//!
//! It stands on `itpg_base` for names and codes, on `interval_set` for spans, and on `itpg_graph`, whose readers and writers
//! it calls. It promises that an edit is refused exactly by the first rule that it breaks, and then changes nothing, and that
//! an edit that breaks none leaves the one graph that differs as the edit says.
#![tactic(auto)]

mod change;
mod checks;
mod edit;
mod facts;
mod fault;
mod finding;
mod laws;
mod making;

pub use checks::broken;
pub use edit::Edit;
pub use fault::EditFault;
pub use laws::{law_of_next, law_of_rules};
pub use making::{apply, make_edit};
