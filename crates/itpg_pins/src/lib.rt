//! Pins: graphs as they stood, each under a name, with a table of plans of its own.
//!
//! Stands on `itpg_graph` and `plan_cache`, of whose values a pin holds copies. It promises that at most 8 pins stand, no two
//! under one name, and that what a pin's table keeps is right on the pin's graph.
#![tactic(auto)]

mod pins;

pub use pins::{MAX_PINS, NoPin, PinFault, Pins};
