//! The n-th power, along the chain of n.
ghost use Rattle.std.specs.Prelude.{◌≡◌, ◌≢◌, ◌%◌, ◌≤◌, ℕ, All, IfOk, IfSome};
ghost use Rattle.itpg_base.specs.Chains.{chain};
ghost use Rattle.repeat_engine.specs.declared.power_chain.Raised.{Raised as PlainRaised};
ghost use Rattle.repeat_engine.specs.Powers.{nth_power};
ghost use Rattle.repeat_engine.specs.Composed.{IsOkWhere};
ghost use Rattle.repeat_engine.specs.RaisedPowers.{IsTurned, IsNext};

use crate::Composed;
use crate::calls::{compose, union};

/// The n-th power, for some n from 1 on.
#[derive(Drop)]
pub(crate) struct Raised<V> {
    pub(crate) value: V,
    /// The power of one more, where each further power is one of these two in turn.
    pub(crate) next: Option<V>,
}

/// The n-th power of x, along the chain of n.
pub(crate) fn raised_to<C: Composed>(
    c: &C,
    x: &C::Value,
    n: u64,
) -> Result<Raised<C::Value>, C::Fault>
    requires above_zero { 1 ≤ n }
    requires own_x { C.own c.now (C.means x.now) }
    requires fits_x { C.fits c.now (C.means x.now) }
    ensures value { let power = nth_power (C.algebra c.now) (C.means x.now) in
        IfOk result (λ r. C.alike c.now (C.means r.value) (power n)) }
    ensures own { IfOk result (λ r. C.own c.now (C.means r.value)) }
    ensures fits { IfOk result (λ r. C.fits c.now (C.means r.value)) }
    ensures next { let Next = IsNext (C.alike c.now) (C.own c.now) (C.fits c.now) (C.algebra c.now) in
        IfOk result (λ r. IfSome r.next (λ d. Next (C.means x.now) n (C.means d))) }
    ensures exact { let power = nth_power (C.algebra c.now) (C.means x.now) in
        IsOkWhere C.wants_memory result (All (λ k. C.fits c.now (power k)) (chain n)) }
{
    if n == 1 {
        // No call copies a value, but the union of x with itself is x.
        let value = union(c, x, x)?;
        return Ok(Raised { value, next: None });
    }
    let half = raised_to(c, x, n / 2)?;
    if half.next.is_some() {
        return Ok(turned(half, n - n / 2));
    }
    let double = compose(c, &half.value, &half.value)?;
    if n % 2 == 0 {
        let next = next_of(c, x, &double);
        return Ok(Raised {
            value: double,
            next,
        });
    }
    let value = compose(c, &double, x)?;
    let next = next_of(c, x, &value);
    Ok(Raised { value, next })
}

// The power of so many more, where the further ones are two in turn.
fn turned<V: Drop>(raised: Raised<V>, steps: u64) -> Raised<V>
    ensures even { steps % 2 ≡ 0 → result ≡ raised }
    ensures odd { steps % 2 ≢ 0 → IsTurned raised result }
{
    if steps % 2 == 0 {
        return raised;
    }
    let Raised { value, next } = raised;
    match next {
        Some(next) => Raised {
            value: next,
            next: Some(value),
        },
        None => Raised { value, next: None },
    }
}

// The power of one more, where two steps lead back. Where that would take longer than a square, it isn't tried.
fn next_of<C: Composed>(c: &C, x: &C::Value, power: &C::Value) -> Option<C::Value>
    requires own_x { C.own c.now (C.means x.now) }
    requires fits_x { C.fits c.now (C.means x.now) }
    requires own_power { C.own c.now (C.means power.now) }
    requires fits_power { C.fits c.now (C.means power.now) }
    ensures own { IfSome result (λ v. C.own c.now (C.means v)) }
    ensures fits { IfSome result (λ v. C.fits c.now (C.means v)) }
    ensures step { let both = (C.algebra c.now).compose (C.means power.now) (C.means x.now) in
        IfSome result (λ v. C.alike c.now (C.means v) both) }
    ensures back { let then = (C.algebra c.now).compose in
        IfSome result (λ v. C.alike c.now (then (C.means v) (C.means x.now)) (C.means power.now)) }
{
    if c.size(x) > c.size(power) / 4 {
        return None;
    }
    let Ok(next) = compose(c, power, x) else {
        return None;
    };
    if c.same(&next, power) {
        return Some(next);
    }
    let Ok(second) = compose(c, &next, x) else {
        return None;
    };
    if c.same(&second, power) {
        Some(next)
    } else {
        None
    }
}
