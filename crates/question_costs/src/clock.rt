//! The time, from outside.

/// Tells the time. No contract speaks of it.
pub trait Clock {
    /// The microseconds since a moment of the clock's own.
    fn micros(&mut self) -> u64;
}
