//! Difference zones: sets of pairs of moments, given by six bounds and worked exactly over whole
//! numbers.
//!
//! A pair is a departure `t` and an arrival `u`. A zone is all the pairs whose departure, arrival and
//! difference `u - t` lie between two bounds each. The crate stands on std alone.
//!
//! It promises that a [`Zone`] is never empty, that each of its six bounds is met by some of its
//! pairs, that its pairs determine its bounds, and that each call answers for exactly the pairs that
//! it names. No call takes memory: each is a handful of comparisons and sums.
#![tactic(auto)]

ghost use Rattle.std.specs.Prelude.{◌≡◌, ◌↔◌, ℤ, IsTrue};
ghost use Rattle.zone_core.specs.Zone.{AreApart, IsDeterminedByPairs, IsMet, IsNear, IsTight, IsZoneOf, Meets, MeetsBoth, MeetsFirstOnly, SomeHolds};

mod pieces;
mod steps;

pub use pieces::after;
use std::marker::Model;

/// Six bounds on a pair of moments.
///
/// A departure `t` and an arrival `u` meet them where `a <= t <= b`, `c <= u <= d` and
/// `e <= u - t <= f`. All six are inclusive, and moments and differences are whole numbers of one
/// unit. Any six numbers are bounds: it may be that no pair meets them, or that some of them could be
/// drawn in without losing a pair. [`tight`] tells, and draws them in.
#[derive(Clone, Copy, PartialEq, Eq, Debug)]
pub struct Bounds {
    /// The least departure.
    pub a: i64,
    /// The greatest departure.
    pub b: i64,
    /// The least arrival.
    pub c: i64,
    /// The greatest arrival.
    pub d: i64,
    /// The least difference, arrival less departure.
    pub e: i64,
    /// The greatest difference, arrival less departure.
    pub f: i64,
}

/// All the pairs that meet six bounds, of which there is at least one.
///
/// The zone of the bounds (0, 6, 0, 3, -4, 1), with departures to the right and arrivals upwards:
///
/// ```text
/// 3  . . x x x x x
/// 2  . x x x x x x
/// 1  x x x x x x .
/// 0  x x x x x . .
///    0           6
/// ```
///
/// Each of the six bounds is met by some pair of the zone, so two zones with the same pairs have the
/// same bounds, and are equal. The bounds `a`, `b`, `c` and `d` lie within 4·10^12 of zero, and `e`
/// and `f` within 8·10^12.
#[derive(Clone, Copy, PartialEq, Eq, Debug)]
pub struct Zone {
    bounds: Bounds,
}

impl Model for Zone {
    ghost use Rattle.zone_core.specs.declared.Bounds.{Bounds};
    ghost use Rattle.zone_core.specs.Zone.{IsNear, IsTight};

    ghost Value = { Bounds };

    ghost view = { λ z. z.bounds };

    ghost invariant = { λ z. IsNear z.bounds × IsTight z.bounds };

    ghost inverse = { λ k. record { bounds = k } };
}

/// The zone of the pairs that meet the bounds, or `None` exactly if no pair does.
///
/// The bounds `a`, `b`, `c` and `d` have to lie within 4·10^12 of zero, and `e` and `f` within
/// 8·10^12. No sum that is made on the way lies further from zero than 12·10^12.
///
/// Of the bounds (0, 10, 20, 30, 0, 12) only six pairs are left, and the zone's bounds are
/// (8, 10, 20, 22, 10, 12):
///
/// ```text
/// 22  . . x
/// 21  . x x
/// 20  x x x
///     8   10
/// ```
#[tactic(auto, using(crate::proofs::Tighten::zone_of_tight))]
pub fn tight(bounds: Bounds) -> Option<Zone>
    requires { IsNear bounds }
    ensures { IsZoneOf (Meets bounds) result }
{
    let drawn_in = steps::tightened(bounds);
    if steps::is_in_order(drawn_in) {
        Some(Zone { bounds: drawn_in })
    } else {
        None
    }
}

impl Zone {
    /// The six bounds, each of which is met by some pair of the zone.
    pub fn bounds(&self) -> Bounds
        ensures same { result ≡ self.now }
        ensures near { IsNear result }

        // `met` says of each bound that a pair meets it, and `tight` says it without pairs.
        ensures met { IsMet result }
        ensures tight { IsTight result }
        ensures determined { IsDeterminedByPairs result }
    {
        self.bounds
    }

    /// Whether the zone has the pair of the departure `t` and the arrival `u`, which may be any numbers.
    pub fn has(&self, t: i64, u: i64) -> bool
        ensures { IsTrue result ↔ Meets self.now t u }
    {
        steps::meets(self.bounds, t, u)
    }

    /// Whether every pair of this zone is in `other`.
    pub fn inside(&self, other: &Zone) -> bool
        ensures { IsTrue result ↔ ((t : ℤ) → (u : ℤ) → Meets self.now t u → Meets other.now t u) }
    {
        steps::is_within(self.bounds, other.bounds)
    }

    /// The zone of the pairs that both zones have, or `None` exactly if they share no pair.
    pub fn meet(&self, other: &Zone) -> Option<Zone>
        ensures { IsZoneOf (MeetsBoth self.now other.now) result }
    {
        tight(steps::both(self.bounds, other.bounds))
    }

    /// Zones without a common pair that together have the pairs of this zone that are not in `other`.
    ///
    /// A place is `None` where no pair is left for it. The places are, in order: what departs before
    /// `other` begins, and after it ends; of the other departures, what arrives below `other`, and
    /// above it; of what remains, the pairs whose difference is too small for `other`, and too great.
    ///
    /// Of the zone (0, 4, 0, 4, -4, 4) less (1, 3, 1, 3, 0, 1), whose pairs are dots, each pair has the
    /// number of its place:
    ///
    /// ```text
    /// 4  1 4 4 4 2
    /// 3  1 6 . . 2
    /// 2  1 . . 5 2
    /// 1  1 . 5 5 2
    /// 0  1 3 3 3 2
    ///    0 1 2 3 4
    /// ```
    pub fn minus(&self, other: &Zone) -> [Option<Zone>; 6]
        ensures pairs { (t : ℤ) → (u : ℤ) → SomeHolds result t u ↔ MeetsFirstOnly self.now other.now t u }
        ensures apart { AreApart result }
    {
        let middle = pieces::departing_within(self.bounds, other.bounds);
        let inner = pieces::arriving_within(middle, other.bounds);
        [
            pieces::before(self.bounds, other.bounds.a),
            pieces::after(self.bounds, other.bounds.b),
            pieces::below(middle, other.bounds.c),
            pieces::above(middle, other.bounds.d),
            pieces::sooner(inner, other.bounds.e),
            pieces::later(inner, other.bounds.f),
        ]
    }
}
