//! Composition of difference zones, their projections to one moment, and the zones of staying and of
//! moving by one moment.
//!
//! Stands on `zone_core`, which says what a zone is. It promises that [`compose`] gives exactly the
//! pairs with a middle moment, that [`departures`] and [`arrivals`] give the least and the greatest
//! moment that some pair has, and that each other call gives the zone of exactly the pairs that it
//! names. No call takes memory: each is a handful of comparisons and sums.
//!
//! All moments are whole numbers of one unit, and all spans include both their ends. Of every zone
//! the departures and arrivals lie within 4·10^12 of zero, and the differences within 8·10^12. No sum
//! that is made here lies further from zero than 16·10^12, so none overflows.
#![tactic(auto)]

ghost use Rattle.std.specs.Prelude.{◌↔◌, ℤ, ◌≤ℤ◌, ◌<ℤ◌, IsNone};
ghost use Rattle.zone_core.specs.Zone.{IsNear, IsTight, IsZoneOf, Meets, Within, moment_reach};
ghost use Rattle.zone_compose.specs.Compose.{AreArrivals, AreDepartures, AreShared, HasMiddle, IsOneStep, Moves, Stays};

use zone_core::{Bounds, Zone, tight};

/// The moments that can stand in the middle of a composition: none where `low` is above `high`.
#[derive(Clone, Copy)]
struct Middle {
    low: i64,
    high: i64,
}

/// The zone of the pairs that have a middle moment, or `None` exactly if no pair has one.
///
/// A middle moment of a departure `t` and an arrival `u` is a moment `s` for which `first` has the
/// pair of `t` and `s`, and `second` the pair of `s` and `u`. Any two zones can be composed.
///
/// The zone (5, 6, 5, 20, 0, 15) and then (8, 9, 8, 20, 0, 12) is (5, 6, 8, 20, 2, 15). Between 5 or 6
/// and the arrival stands 8 or 9, so nothing arrives before 8, nor sooner than 2 after it departs:
///
/// ```text
///      5   6   7   8   9  10   ..  20
/// t    x   x
/// s                x   x
/// u                x   x   x   ..   x
/// ```
pub fn compose(first: &Zone, second: &Zone) -> Option<Zone>
    ensures { IsZoneOf (HasMiddle first.now second.now) result }
{
    let x = first.bounds();
    let y = second.bounds();
    let middle = shared(x, y);
    if middle.high < middle.low {
        return None;
    }
    tight(composed(x, y, middle))
}

// The moments that are arrivals of x and departures of y.
fn shared(x: Bounds, y: Bounds) -> Middle
    ensures { AreShared x y result }
{
    Middle {
        low: x.c.max(y.a),
        high: x.d.min(y.b),
    }
}

// Takes the middle moment out: each bound on the departure, on the arrival and on their difference
// comes from two bounds that share the middle moment. The differences are cut to what the departures
// and arrivals allow, so that they stay near.
fn composed(x: Bounds, y: Bounds, middle: Middle) -> Bounds
    requires x_near { IsNear x }
    requires y_near { IsNear y }
    requires x_tight { IsTight x }
    requires y_tight { IsTight y }
    requires shared { AreShared x y middle }
    requires order { middle.low ≤ℤ middle.high }
    ensures near { IsNear result }
    ensures pairs { (t : ℤ) → (u : ℤ) → Meets result t u ↔ HasMiddle x y t u }
{
    Bounds {
        a: x.a.max(middle.low - x.f),
        b: x.b.min(middle.high - x.e),
        c: y.c.max(middle.low + y.e),
        d: y.d.min(middle.high + y.f),
        e: (x.e + y.e).max(y.c - x.b),
        f: (x.f + y.f).min(y.d - x.a),
    }
}

/// The zone with each pair turned round: what departed arrives, and what arrived departs.
///
/// The zone (0, 2, 0, 4, 0, 3), and (0, 4, 0, 2, -3, 0), which has the same pairs turned round:
///
/// ```text
/// 4  . x x       2  . . x x x
/// 3  x x x       1  . x x x x
/// 2  x x x       0  x x x x .
/// 1  x x .          0       4
/// 0  x . .
///    0   2
/// ```
pub fn flip(z: &Zone) -> Zone
    ensures { (t : ℤ) → (u : ℤ) → Meets result t u ↔ Meets z.now u t }
{
    tight(flipped(z.bounds())).unwrap()
}

fn flipped(k: Bounds) -> Bounds
    requires { IsNear k }
    ensures near { IsNear result }
    ensures pairs { (t : ℤ) → (u : ℤ) → Meets result t u ↔ Meets k u t }
{
    Bounds {
        a: k.c,
        b: k.d,
        c: k.a,
        d: k.b,
        e: -k.f,
        f: -k.e,
    }
}

/// The least and the greatest departure of the zone's pairs.
pub fn departures(z: &Zone) -> (i64, i64)
    ensures { AreDepartures z.now result.0 result.1 }
{
    let k = z.bounds();
    (k.a, k.b)
}

/// The least and the greatest arrival of the zone's pairs.
pub fn arrivals(z: &Zone) -> (i64, i64)
    ensures { AreArrivals z.now result.0 result.1 }
{
    let k = z.bounds();
    (k.c, k.d)
}

/// The zone of the pairs that arrive at the moment at which they depart, from `from` to `to`, or
/// `None` exactly if `from` is above `to`.
///
/// Both moments have to lie within 4·10^12 of zero. From 5 to 8:
///
/// ```text
/// 8  . . . x
///    . . x .
///    . x . .
/// 5  x . . .
///    5     8
/// ```
pub fn diagonal(from: i64, to: i64) -> Option<Zone>
    requires from_near { Within moment_reach from }
    requires to_near { Within moment_reach to }
    ensures zone { IsZoneOf (Stays from to) result }
    ensures none { IsNone result ↔ (to <ℤ from) }
{
    tight(Bounds {
        a: from,
        b: to,
        c: from,
        d: to,
        e: 0,
        f: 0,
    })
}

/// The zone of the pairs that arrive one moment after they depart, or one before, with both moments
/// from `from` to `to`, or `None` exactly if there is no such pair.
///
/// The step is 1 or -1: the arrival is the departure plus the step. Both moments have to lie within
/// 4·10^12 of zero. By the step 1, from 5 to 8:
///
/// ```text
/// 8  . . x .
///    . x . .
///    x . . .
/// 5  . . . .
///    5     8
/// ```
pub fn shift(step: i64, from: i64, to: i64) -> Option<Zone>
    requires one { IsOneStep step }
    requires from_near { Within moment_reach from }
    requires to_near { Within moment_reach to }
    ensures { IsZoneOf (Moves step from to) result }
{
    tight(Bounds {
        a: from,
        b: to,
        c: from,
        d: to,
        e: step,
        f: step,
    })
}
