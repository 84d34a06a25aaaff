//! The graph store: a property graph over time that can't be wrong.
//!
//! It stands on `itpg_base`, whose plain graph is what contracts see, and on `interval_set` for the families. It promises
//! that every value of `Graph` is good: an edge exists only where both its ends do, a value only where its object does,
//! and all lists are coalesced.
#![tactic(auto)]

mod by_label;
mod changing;
mod graph;
mod kept_name;
mod laws;
mod links;
mod numbers;
mod part;
mod presence;
mod properties;
mod shared_labels;
mod stored;

pub use graph::{Graph, Kind};
pub use laws::law_of_unique_changes;
pub use part::Part;
