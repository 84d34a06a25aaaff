//! The nodes of plans, which questions share.
//!
//! Stands on `path_ast`, whose queries it takes, and on `label_scope`, whose scopes and members its nodes are of. It promises
//! that a path between two scopes has one node, that the parts of each node's path have nodes with lower numbers, and that a
//! query adds no more nodes than its path has terms.
#![tactic(auto)]

mod copying;
mod feet;
mod interning;
mod key;
mod laws;
mod nodes;
mod operations;
mod plans;
mod refilling;
mod renumbering;
mod shelf;

pub use laws::{law_of_forgetting, law_of_known_paths, law_of_lower_children, law_of_shared_nodes};
pub use nodes::MAX_NODES;
pub use operations::{PlanNo, PlanOp, PlanTest};
pub use plans::Plans;
pub use shelf::MAX_KEPT_ROWS;
