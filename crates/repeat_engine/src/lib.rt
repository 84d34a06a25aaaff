//! Powers, bounded unions of powers and closure, over any lawful composition.
//!
//! Stands on `itpg_base`, for the chain of exponents alone.
//! Promises: over every [`Composed`], [`power`] gives the n-th power, [`up_to`] the union of the powers 0 to n, and
//! [`closure`] the union of all powers. Each answers Ok, unless memory runs out, exactly if the values fit that its
//! comment names.
#![tactic(auto)]

mod calls;
mod composed;
mod costs;
mod doubling;
mod foreseen;
mod grown_union;
mod power_chain;
mod powers;
mod single_steps;
mod union_chain;

pub use composed::Composed;
pub use powers::{closure, power, up_to};
