//! Sets of moments, and values over moments, as lists of spans that are always coalesced.
//!
//! Stands on `itpg_base`, which says what a moment, a span and a coalesced list are.
//! Promises that each call gives exactly the moments that it names, as the one coalesced list of them,
//! and that a call which finds no memory changes nothing.
#![tactic(auto)]

mod changes;
mod laws;
mod places;
mod run;
mod set;
mod short_run;
mod span;
mod splice;
mod sweep;
mod values;

pub use laws::{
    law_of_changes, law_of_existence, law_of_existing_values, law_of_unique_values,
    law_of_uniqueness,
};
pub use run::Run;
pub use set::IntervalSet;
pub use span::Span;
pub use values::ValuedSet;
