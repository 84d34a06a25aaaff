//! Unions of powers by single steps, while these look cheap.
ghost use Rattle.std.specs.Prelude.{◌≡◌, ◌<◌, ◌+◌, ℕ, IfOk, IfSome};
ghost use Rattle.repeat_engine.specs.Powers.{union_of_powers};
ghost use Rattle.repeat_engine.specs.Composed.{IsOkWhere};
ghost use Rattle.repeat_engine.specs.GrownUnions.{newest_or, OfEach, IsNewest, IsSound, Grows, GrowsOn};

use crate::Composed;
use crate::calls::{compose, union};
use crate::costs::{are_far_less, doubling_cost, has_replaced, step_cost, steps_ahead};
use crate::grown_union::{Grown, alone, grown_to, newest_of};

/// Twice as far by single steps, while the next ones look much cheaper than all at once. None where they don't, or where what they
/// need doesn't fit.
pub(crate) fn walked<C: Composed>(
    c: &C,
    x: &C::Value,
    half: &Grown<C::Value>,
    k: u64,
) -> Option<Grown<C::Value>>
    requires own_x { C.own c.now (C.means x.now) }
    requires fits_x { C.fits c.now (C.means x.now) }
    requires sound { IsSound (C.own c.now) (C.fits c.now) C.means half.now }
    requires grows { GrowsOn (C.alike c.now) (C.algebra c.now) (C.means x.now) C.means k half.now }
    ensures sound { IfSome result (IsSound (C.own c.now) (C.fits c.now) C.means) }
    ensures grows { let At = Grows (C.alike c.now) (C.algebra c.now) (C.means x.now) C.means in
        IfSome result (At (k + k)) }
{
    let doubling = doubling_cost(c, half);
    let mut spent = 0u64;
    let mut last = None;
    let mut former = u64::MAX;
    for step in 0..k {
        let from = latest_of(&last, half);
        let cost = step_cost(c, x, from);
        let newest = c.size(newest_of(from));
        let ahead = cost.saturating_mul(steps_ahead(former, newest, k - step));
        former = newest;
        if ahead > (doubling / 2).saturating_sub(spent) {
            return None;
        }
        if has_replaced(c, from) && !are_far_less(k - step, cost, doubling) {
            return None;
        }
        spent = spent.saturating_add(cost);
        let next = step_from(c, x, from)?;
        if next.done {
            return Some(next);
        }
        last = Some(next);
    }
    last
}

fn latest_of<'a, V: Drop>(last: &'a Option<Grown<V>>, half: &'a Grown<V>) -> &'a Grown<V>
    ensures { result.now ≡ newest_or last.now half.now }
{
    match last {
        Some(last) => last,
        None => half,
    }
}

// One step further, where all that it needs fits.
fn step_from<C: Composed>(c: &C, x: &C::Value, half: &Grown<C::Value>) -> Option<Grown<C::Value>>
    requires own_x { C.own c.now (C.means x.now) }
    requires fits_x { C.fits c.now (C.means x.now) }
    requires sound { IsSound (C.own c.now) (C.fits c.now) C.means half.now }
    ensures sound { IfSome result (IsSound (C.own c.now) (C.fits c.now) C.means) }
    ensures grows { let On = GrowsOn (C.alike c.now) (C.algebra c.now) (C.means x.now) C.means in
        let At = Grows (C.alike c.now) (C.algebra c.now) (C.means x.now) C.means in
        (k : ℕ) → On k half.now → IfSome result (At (k + 1)) }
{
    let Ok(made) = compose(c, newest_of(half), x) else {
        return None;
    };
    let Ok(all) = union(c, &half.all, &made) else {
        return None;
    };
    let newest = trimmed(c, half, &all, made);
    Some(grown_to(c, half, all, Some(alone(newest))))
}

/// One step further. Where a single step doesn't do, the union is composed with that of the powers 0 and 1.
pub(crate) fn stepped<C: Composed>(
    c: &C,
    x: &C::Value,
    first: &C::Value,
    half: &Grown<C::Value>,
) -> Result<Grown<C::Value>, C::Fault>
    requires own_x { C.own c.now (C.means x.now) }
    requires fits_x { C.fits c.now (C.means x.now) }
    requires own_first { C.own c.now (C.means first.now) }
    requires fits_first { C.fits c.now (C.means first.now) }
    requires first { C.alike c.now (C.means first.now) (union_of_powers (C.algebra c.now) (C.means x.now) 1) }
    requires sound { IsSound (C.own c.now) (C.fits c.now) C.means half.now }
    ensures sound { IfOk result (IsSound (C.own c.now) (C.fits c.now) C.means) }
    ensures grows { let On = GrowsOn (C.alike c.now) (C.algebra c.now) (C.means x.now) C.means in
        let At = Grows (C.alike c.now) (C.algebra c.now) (C.means x.now) C.means in
        (k : ℕ) → On k half.now → IfOk result (At (k + 1)) }
    ensures exact { let On = GrowsOn (C.alike c.now) (C.algebra c.now) (C.means x.now) C.means in
        let union = union_of_powers (C.algebra c.now) (C.means x.now) in
        (k : ℕ) → On k half.now → IsOkWhere C.wants_memory result (C.fits c.now (union (k + 1))) }
{
    if let Some(next) = step_from(c, x, half) {
        return Ok(next);
    }
    let all = compose(c, &half.all, first)?;
    Ok(grown_to(c, half, all, None))
}

// Whether so little of what was made was there before that it isn't worth being found.
fn is_about(made: u64, growth: u64) -> bool {
    made <= growth.saturating_add(growth / 16)
}

// What is new in the further union: what was made, or where that is longer than the union has grown, what it has beyond the
// nearer one.
fn trimmed<C: Composed>(c: &C, half: &Grown<C::Value>, all: &C::Value, made: C::Value) -> C::Value
    requires sound { IsSound (C.own c.now) (C.fits c.now) C.means half.now }
    requires own_made { C.own c.now (C.means made) }
    requires fits_made { C.fits c.now (C.means made) }
    ensures own { C.own c.now (C.means result) }
    ensures fits { C.fits c.now (C.means result) }
    ensures new { let Each = OfEach (C.alike c.now) (C.own c.now) (C.algebra c.now) C.means half.now in
        Each (λ x k. (n : ℕ) → k < n → let union = union_of_powers (C.algebra c.now) x in
        C.alike c.now ((C.algebra c.now).unite (union k) (C.means made)) (union n) →
        IsNewest (C.alike c.now) (C.algebra c.now) x n (C.means result)) }
{
    let growth = c.size(all).saturating_sub(c.size(&half.all));
    if is_about(c.size(&made), growth) {
        return made;
    }
    match c.beyond(&made, &half.all) {
        Ok(rest) => rest,
        Err(_) => made,
    }
}
