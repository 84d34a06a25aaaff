//! The union of the powers 0 to n: at once where it is known, and else along the chain of n.
ghost use Rattle.std.specs.Prelude.{◌≡◌, ◌≤◌, ◌+◌, ℕ, None, All, IfOk, false};
ghost use Rattle.itpg_base.specs.Chains.{chain};
ghost use Rattle.repeat_engine.specs.Powers.{union_of_powers};
ghost use Rattle.repeat_engine.specs.Composed.{IsOkWhere};
ghost use Rattle.repeat_engine.specs.GrownUnions.{IsSound, Grows};

use crate::Composed;
use crate::calls::{at_once, union};
use crate::doubling::doubled;
use crate::foreseen::foreseen;
use crate::grown_union::Grown;
use crate::single_steps::stepped;

/// The union of the powers 0 to n. The first union, of `one` and x, is that of the powers 0 and 1.
pub(crate) fn united_from_one<C: Composed>(
    c: &C,
    x: &C::Value,
    n: u64,
) -> Result<Grown<C::Value>, C::Fault>
    requires some { 1 ≤ n }
    requires own_x { C.own c.now (C.means x.now) }
    requires fits_x { C.fits c.now (C.means x.now) }
    ensures sound { IfOk result (IsSound (C.own c.now) (C.fits c.now) C.means) }
    ensures grows { let At = Grows (C.alike c.now) (C.algebra c.now) (C.means x.now) C.means in
        IfOk result (At n) }
    ensures exact { let union = union_of_powers (C.algebra c.now) (C.means x.now) in
        IsOkWhere C.wants_memory result
        (C.fits c.now (C.algebra c.now).one × All (λ k. C.fits c.now (union k)) (chain n)) }
{
    let one = c.one()?;
    if let Some(all) = at_once(c, &one, x, n)? {
        return Ok(whole(all));
    }
    let first = union(c, &one, x)?;
    foreseen(c, x, n)?;
    let grown = united(c, x, &first, n)?;
    Ok(grown)
}

// The union of the powers 0 to n, where `first` is that of 0 and 1.
fn united<C: Composed>(
    c: &C,
    x: &C::Value,
    first: &C::Value,
    n: u64,
) -> Result<Grown<C::Value>, C::Fault>
    requires some { 1 ≤ n }
    requires own_x { C.own c.now (C.means x.now) }
    requires fits_x { C.fits c.now (C.means x.now) }
    requires own_first { C.own c.now (C.means first.now) }
    requires fits_first { C.fits c.now (C.means first.now) }
    requires first { C.alike c.now (C.means first.now) (union_of_powers (C.algebra c.now) (C.means x.now) 1) }
    ensures sound { IfOk result (IsSound (C.own c.now) (C.fits c.now) C.means) }
    ensures grows { let At = Grows (C.alike c.now) (C.algebra c.now) (C.means x.now) C.means in
        IfOk result (At n) }
    ensures exact { let union = union_of_powers (C.algebra c.now) (C.means x.now) in
        IsOkWhere C.wants_memory result (All (λ k. C.fits c.now (union k)) (chain n)) }
{
    if n == 1 {
        return grown_first(c, x, first);
    }
    let half = united(c, x, first, n / 2)?;
    if half.done {
        return Ok(half);
    }
    let double = doubled(c, x, &half, n / 2)?;
    if n % 2 == 0 {
        return Ok(double);
    }
    if double.done {
        return Ok(double);
    }
    // It may be long, and the step makes another long one.
    drop(half);
    stepped(c, x, first, &double)
}

// A union of which nothing is known but itself.
fn whole<V: Drop>(all: V) -> Grown<V>
    ensures all { result.all ≡ all }
    ensures newest { result.newest ≡ None }
    ensures former { result.former ≡ None }
    ensures more { result.done ≡ false }
{
    Grown {
        all,
        newest: None,
        former: None,
        growth: 0,
        done: false,
    }
}

// The union of the powers 0 and 1.
fn grown_first<C: Composed>(
    c: &C,
    x: &C::Value,
    first: &C::Value,
) -> Result<Grown<C::Value>, C::Fault>
    requires own_x { C.own c.now (C.means x.now) }
    requires fits_x { C.fits c.now (C.means x.now) }
    requires own_first { C.own c.now (C.means first.now) }
    requires fits_first { C.fits c.now (C.means first.now) }
    requires first { C.alike c.now (C.means first.now) (union_of_powers (C.algebra c.now) (C.means x.now) 1) }
    ensures sound { IfOk result (IsSound (C.own c.now) (C.fits c.now) C.means) }
    ensures grows { let At = Grows (C.alike c.now) (C.algebra c.now) (C.means x.now) C.means in
        IfOk result (At 1) }
    ensures exact { let union = union_of_powers (C.algebra c.now) (C.means x.now) in
        IsOkWhere C.wants_memory result (C.fits c.now (union 1)) }
{
    // No call copies a value, but the union of a value with itself is that value.
    let all = union(c, first, first)?;
    let newest = union(c, x, x).ok();
    Ok(Grown {
        all,
        newest,
        former: None,
        growth: 0,
        done: false,
    })
}
