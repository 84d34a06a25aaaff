//! Tests over points: where a test holds, as marks on objects over the whole horizon.
//!
//! Stands on `itpg_graph`, whose readers it asks, and on `relation_rows`, whose one-time rows marks are; what a test means is
//! `Sat` of `path_ast`. It promises that each call marks exactly the points of its objects at which its test holds, whether the
//! objects exist there or not.
#![tactic(auto)]

mod both;
mod either;
mod filtered;
mod laws;
mod leaves;
mod marks;
mod objects;
mod starts;
mod whole;
mod without;

pub use filtered::objects_with;
pub use laws::{
    law_of_conditions, law_of_connectives, law_of_marked_rows, law_of_negation,
    law_of_tests_as_paths, law_of_unique_marks,
};
pub use leaves::leaf_marks;
pub use marks::Marks;
pub use objects::objects_within;
pub use starts::starts_of;
