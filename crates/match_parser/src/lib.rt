//! The reader of query texts.
//!
//! Stands on `script_lex`, whose tokens a text is made of, and on `path_ast`, whose queries it stands for.
//! Its definitions (`specs/`) are the grammar as trees with their spelling and their translation, and the faults of a text
//! in order. It promises that a text reads as at most one query, and as one exactly if it has no fault.
#![tactic(auto)]

mod build;
mod checks;
mod facts_and_steps;
mod fault;
mod kept;
mod laws;
mod paths_and_tests;
mod patterns;
mod reading;
mod scan;
mod times;
mod tokens;
mod words;

pub use fault::QueryFault;
pub use laws::{law_of_queries, law_of_read_queries};
pub use reading::read_query;
