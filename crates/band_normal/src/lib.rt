//! Bands of departures and arrivals, and the one normal list of them that a relation has.
//!
//! Stands on `zone_core`. Promises that each list given is normal for exactly the pairs that it was
//! asked about, and that a relation has one normal list and no second.
#![tactic(auto)]

mod active;
pub mod band;
mod cuts;
mod joints;
mod lasting;
pub mod laws;
mod links;
mod ordering;
mod parts;
mod pieces;
mod rows;
pub mod strike;
mod strips;
mod sweep;
pub mod union;
pub mod zones;

pub use band::{Band, End};
pub use strike::struck;
pub use sweep::{push_bands_of, push_present};
pub use union::normal;
pub use zones::{bands_of, zone_of};
