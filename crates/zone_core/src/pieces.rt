//! The pieces that a difference of zones falls into.

ghost use Rattle.std.specs.Prelude.{◌↔◌, ℤ, ◌<ℤ◌, ◌-ℤ◌};
ghost use Rattle.zone_core.specs.Zone.{Between, Holds, IsNear, Meets, Within, difference_reach, moment_reach};

use crate::{Bounds, Zone, tight};

// The bounds k, with only the departures that o allows.
pub(crate) fn departing_within(mut k: Bounds, o: Bounds) -> Bounds
    requires k_near { IsNear k }
    requires o_near { IsNear o }
    ensures near { IsNear result }
    ensures pairs { (t : ℤ) → (u : ℤ) → Meets result t u ↔ (Meets k t u × Between o.a o.b t) }
{
    k.a = k.a.max(o.a);
    k.b = k.b.min(o.b);
    k
}

// The bounds k, with only the arrivals that o allows.
pub(crate) fn arriving_within(mut k: Bounds, o: Bounds) -> Bounds
    requires k_near { IsNear k }
    requires o_near { IsNear o }
    ensures near { IsNear result }
    ensures pairs { (t : ℤ) → (u : ℤ) → Meets result t u ↔ (Meets k t u × Between o.c o.d u) }
{
    k.c = k.c.max(o.c);
    k.d = k.d.min(o.d);
    k
}

// Each cut below answers `None` before it takes the number next to the limit: where the limit lies as
// far from zero as a bound may, that number lies too far.

pub(crate) fn before(mut k: Bounds, limit: i64) -> Option<Zone>
    requires k_near { IsNear k }
    requires limit_near { Within moment_reach limit }
    ensures { (t : ℤ) → (u : ℤ) → Holds result t u ↔ (Meets k t u × (t <ℤ limit)) }
{
    if limit <= k.a {
        return None;
    }
    k.b = k.b.min(limit - 1);
    tight(k)
}

/// The pairs within the bounds that depart after the limit, or `None` exactly if there are none.
///
/// The bounds `a`, `b`, `c` and `d` and the limit have to lie within 4·10^12 of zero, and `e` and `f` within 8·10^12.
pub fn after(mut k: Bounds, limit: i64) -> Option<Zone>
    requires k_near { IsNear k }
    requires limit_near { Within moment_reach limit }
    ensures { (t : ℤ) → (u : ℤ) → Holds result t u ↔ (Meets k t u × (limit <ℤ t)) }
{
    if k.b <= limit {
        return None;
    }
    k.a = k.a.max(limit + 1);
    tight(k)
}

pub(crate) fn below(mut k: Bounds, limit: i64) -> Option<Zone>
    requires k_near { IsNear k }
    requires limit_near { Within moment_reach limit }
    ensures { (t : ℤ) → (u : ℤ) → Holds result t u ↔ (Meets k t u × (u <ℤ limit)) }
{
    if limit <= k.c {
        return None;
    }
    k.d = k.d.min(limit - 1);
    tight(k)
}

pub(crate) fn above(mut k: Bounds, limit: i64) -> Option<Zone>
    requires k_near { IsNear k }
    requires limit_near { Within moment_reach limit }
    ensures { (t : ℤ) → (u : ℤ) → Holds result t u ↔ (Meets k t u × (limit <ℤ u)) }
{
    if k.d <= limit {
        return None;
    }
    k.c = k.c.max(limit + 1);
    tight(k)
}

pub(crate) fn sooner(mut k: Bounds, limit: i64) -> Option<Zone>
    requires k_near { IsNear k }
    requires limit_near { Within difference_reach limit }
    ensures { (t : ℤ) → (u : ℤ) → Holds result t u ↔ (Meets k t u × ((u -ℤ t) <ℤ limit)) }
{
    if limit <= k.e {
        return None;
    }
    k.f = k.f.min(limit - 1);
    tight(k)
}

pub(crate) fn later(mut k: Bounds, limit: i64) -> Option<Zone>
    requires k_near { IsNear k }
    requires limit_near { Within difference_reach limit }
    ensures { (t : ℤ) → (u : ℤ) → Holds result t u ↔ (Meets k t u × (limit <ℤ (u -ℤ t))) }
{
    if k.f <= limit {
        return None;
    }
    k.e = k.e.max(limit + 1);
    tight(k)
}
