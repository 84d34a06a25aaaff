//! Relations that are seen to be wide: from some points, steps lead to more runs of moments than a relation may have rows. And repetitions of
//! steps that lead one moment on, which are had at once, or that come to an end after few steps, which are had from one source after the other.
//!
//! Stands on `relation_rows`. It promises that where [`is_seen_wide`] says so, each relation that leads from those points as so many
//! steps do has more normal rows than the limit. That it says so wherever it could isn't promised. What [`along_time`] or
//! [`source_by_source`] gives is where at most so many steps lead, and it fits into the limit for any number of them; it may give nothing.
#![tactic(auto)]

mod along;
mod by_source;
pub mod laws;
mod onward;
mod reach;
mod witness;

pub use along::along_time;
pub use by_source::source_by_source;
pub use witness::is_seen_wide;
