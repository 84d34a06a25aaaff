//! Standing queries: the list of watches, and what changed between two answers.
//!
//! Stands on `path_ast`, which has the queries, on `label_scope` and `plan_cache`, which have footprints and the numbers of plans, and
//! on `relation_rows`, which has the answers. It promises that the watches are the list that the calls so far have left, that an
//! edit's touch lets go exactly those kept answers whose footprint it meets, and that a change has exactly the rows of what one
//! answer has and the other hasn't.
#![tactic(auto)]

mod gain_loss;
mod kept;
mod laws;
mod settling;
mod watches;

pub use gain_loss::{GainLoss, changes, no_changes};
pub use laws::law_of_changes;
pub use watches::{MAX_WATCHES, Unknown, WatchFault, Watches};
