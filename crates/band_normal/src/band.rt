//! Bands, and the ends of their arrivals.

ghost use Rattle.std.specs.Prelude.{◌≡◌, FitsSigned};
ghost use Rattle.std.specs.Int.{w64};

/// Where the arrivals of a band end, at each of its departures.
#[derive(Clone, Copy, PartialEq, Eq, Debug)]
pub enum End {
    /// At this moment, whatever the departure is.
    Fixed(i64),
    /// This many moments after the departure; before it, where the number is below zero.
    Moving(i64),
}

/// A span of departures, and for each of them the arrivals from a low end to a high end.
///
/// A band is well formed where it has departures, its moments lie within 4 * 10^12 of zero, and at
/// each of its departures so do its two ends, and the low end isn't above the high end.
///
/// The band from 0 to 4, from `Moving(0)` to `Fixed(5)`:
///
/// ```text
/// arrival 5  # # # # #
///         4  # # # # #
///         3  # # # #
///         2  # # #
///         1  # #
///         0  #
///            0 1 2 3 4  departure
/// ```
#[derive(Clone, Copy, PartialEq, Eq, Debug)]
pub struct Band {
    /// The first departure.
    pub from: i64,
    /// The last departure.
    pub to: i64,
    /// The least arrival at a departure.
    pub low: End,
    /// The greatest arrival at a departure.
    pub high: End,
}

impl End {
    ghost use Rattle.band_normal.specs.Bands.{end_at};

    /// The moment at which the end stands at a departure.
    pub fn at(self, departure: i64) -> i64
        requires { FitsSigned w64 (end_at self departure) }
        ensures { result ≡ end_at self departure }
    {
        match self {
            End::Fixed(n) => n,
            End::Moving(k) => departure + k,
        }
    }
}
