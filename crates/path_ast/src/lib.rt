//! Paths, tests and queries, and what they mean on a graph.
//!
//! Stands on `itpg_base`, whose plain graph, points and relations the meaning is stated over. It promises an exact count
//! of a path's terms and equal copies of a query; its laws, each the contract of a function that does nothing, show that
//! the meaning is what is meant, and that it is always decided.
#![tactic(auto)]

mod ast;
mod copies;
mod counts;
mod laws;

pub use ast::{Leaf, Path, Query, Test};
pub use counts::{MAX_TERMS, terms};
pub use laws::{
    law_of_associativity, law_of_axes_and_kinds, law_of_decided_paths, law_of_decided_tests,
    law_of_kept_objects, law_of_points, law_of_powers, law_of_reverse_axes, law_of_steps,
};
