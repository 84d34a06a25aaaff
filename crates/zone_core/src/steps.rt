//! The steps over bounds that the public calls take.

ghost use Rattle.std.specs.Prelude.{◌↔◌, ℤ, ◌≤ℤ◌, IsTrue};
ghost use Rattle.zone_core.specs.Zone.{Between, HaveSamePairs, IsInOrder, IsNear, IsTight, Meets, MeetsBoth};

use crate::Bounds;

// The bounds drawn in, each by the two others that limit it. One round is enough: a bound is a greatest
// distance between two of three points (zero, the departure and the arrival), and a shortest way
// between two of three points has one stop at most.
pub(crate) fn tightened(k: Bounds) -> Bounds
    requires { IsNear k }
    ensures pairs { HaveSamePairs result k }
    ensures tight { IsInOrder result → IsTight result }
    ensures near { IsInOrder result → IsNear result }
{
    Bounds {
        a: k.a.max(k.c - k.f),
        b: k.b.min(k.d - k.e),
        c: k.c.max(k.a + k.e),
        d: k.d.min(k.b + k.f),
        e: k.e.max(k.c - k.b),
        f: k.f.min(k.d - k.a),
    }
}

pub(crate) fn is_in_order(k: Bounds) -> bool
    ensures { IsTrue result ↔ IsInOrder k }
{
    k.a <= k.b && k.c <= k.d && k.e <= k.f
}

fn is_between(low: i64, x: i64, high: i64) -> bool
    ensures { IsTrue result ↔ Between low high x }
{
    low <= x && x <= high
}

pub(crate) fn meets(k: Bounds, t: i64, u: i64) -> bool
    requires { IsNear k }
    ensures { IsTrue result ↔ Meets k t u }
{
    is_between(k.a, t, k.b) && is_between(k.c, u, k.d) && is_between(k.e, u - t, k.f)
}

fn is_in_span(low: i64, high: i64, outer_low: i64, outer_high: i64) -> bool
    ensures { IsTrue result ↔ (outer_low ≤ℤ low) × (high ≤ℤ outer_high) }
{
    outer_low <= low && high <= outer_high
}

pub(crate) fn is_within(k: Bounds, o: Bounds) -> bool
    requires { IsTight k }
    ensures { IsTrue result ↔ ((t : ℤ) → (u : ℤ) → Meets k t u → Meets o t u) }
{
    is_in_span(k.a, k.b, o.a, o.b)
        && is_in_span(k.c, k.d, o.c, o.d)
        && is_in_span(k.e, k.f, o.e, o.f)
}

// The bounds that a pair meets where it meets both.
pub(crate) fn both(k: Bounds, o: Bounds) -> Bounds
    requires k_near { IsNear k }
    requires o_near { IsNear o }
    ensures near { IsNear result }
    ensures pairs { (t : ℤ) → (u : ℤ) → Meets result t u ↔ MeetsBoth k o t u }
{
    Bounds {
        a: k.a.max(o.a),
        b: k.b.min(o.b),
        c: k.c.max(o.c),
        d: k.d.min(o.d),
        e: k.e.max(o.e),
        f: k.f.min(o.f),
    }
}
