//! The relation of a plan node, worked out on a graph, and the answer of a query.
//!
//! Stands on `plan_cache`, whose nodes it works out, on `condition_eval`, by which tests are worked out, on `relation_rows`, by
//! whose operations paths are, on `repeat_engine`, by which repetitions are, on `label_scope`, whose scopes say between which
//! objects, and on `source_rows`, by which a path from one object needs its neighbourhood alone. It promises that each node gives
//! the normal rows of exactly what its path means, that a path from one object has its rows on the whole graph, and that a limit of
//! rows refuses either exactly if some member that is worked out on the way has more. By its laws each question has one answer.
#![tactic(auto)]

mod answering;
mod axes;
mod basis;
mod evaluation;
mod laws;
mod made;
mod many_times;
mod nearby;
mod powers;
mod reaching;
mod repeated;
mod step;
mod within_both;

pub use answering::answer;
pub use evaluation::{relation, relation_on};
pub use laws::{
    law_of_cuts, law_of_members, law_of_near_rows, law_of_picked_objects, law_of_times,
};
pub use many_times::law_of_many_times;
pub use nearby::{NearRows, near_rows};
/// Why a path isn't worked out: memory ran out, or some member that is worked out on the way is too wide.
pub use relation_rows::RelFault as EvalFault;
