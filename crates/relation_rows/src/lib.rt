//! Whole relations between points, each kept as the one normal list of rows of exactly its pairs.
//!
//! Stands on `band_normal`, which has the normal list for one source and one target, and on
//! `zone_core` and `zone_compose`, by which pairs of moments are worked. It promises that each call
//! gives the normal rows of exactly the relation that it names, and that a call with a limit answers
//! [`RelFault::Wide`] exactly if these rows are more than the limit.
#![tactic(auto)]

pub mod answered;
mod apart;
mod beyond;
mod by_rows;
mod compose;
mod direct;
mod evenness;
mod fewer;
mod gather;
mod halves;
mod held;
mod idle;
mod item_rows;
mod known;
mod latest;
pub mod laws;
mod minus;
mod offsets;
mod onward;
mod parted;
mod parting;
pub mod relations;
mod resting;
mod returning;
pub mod rows;
mod search;
mod settle;
mod steps;
mod stretches;
mod strike;
pub mod times;
mod times_minus;
mod timetable;
mod union;
mod ways;

pub use answered::Answer;
pub use onward::Onward;
pub use relations::Relation;
pub use rows::{RelFault, Row};
pub use times::{OneRow, OneTime};
