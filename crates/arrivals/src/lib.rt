//! First arrivals, last departures, and counts of objects.
//!
//! Stands on `relation_rows`, whose relations and one-time rows it reads, and on `band_normal`, whose normal list
//! of what lies above some zones has the first arrivals as its low ends. It promises the normal rows of exactly
//! the relation that each call names, or the runs of equal counts, and `Wide` exactly where these are more than the limit.
#![tactic(auto)]

mod counts;
pub mod laws;
mod picking;
mod zones;

pub use counts::{CountRow, Counts, count};
pub use picking::{first, last};
