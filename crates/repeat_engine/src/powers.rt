//! Powers, unions of powers, and the closure.
#![tactic(auto)]

ghost use Rattle.std.specs.Prelude.{◌≡◌, ◌≤◌, ◌^◌, ℕ, All, IfOk};
ghost use Rattle.itpg_base.specs.Chains.{chain};
ghost use Rattle.repeat_engine.specs.Powers.{nth_power, union_of_powers};
ghost use Rattle.repeat_engine.specs.Composed.{IsOkWhere, Includes, IncludesPowers};

use crate::Composed;
use crate::power_chain::raised_to;
use crate::union_chain::united_from_one;

// The union of the powers up to this one includes all powers (`IsLawful`).
const ENOUGH: u64 = 1 << 60;

/// The n-th power of x: `one` for n = 0, and else x composed with itself, n of them in all. n is at most 10^12.
///
/// ```text
/// x          a ---> b ---> c ---> d
/// power 2    a ----------> c,  b ----------> d
/// power 3    a -----------------> d
/// ```
///
/// It is worked out along the chain of n, which is that of its half (rounded down), then twice the half, and n:
/// 1, 2, 3, 6, 6, 12, 13 for 13, and ends where two steps more lead back to the power. So x is squared at most 39 times.
///
/// It answers a fault other than running out of memory exactly if some power in the chain of n doesn't fit, or, for n = 0,
/// where `one` doesn't fit.
pub fn power<C: Composed>(c: &C, x: &C::Value, n: u64) -> Result<C::Value, C::Fault>
    requires small { n ≤ 10 ^ 12 }
    requires own_x { C.own c.now (C.means x.now) }
    requires fits_x { C.fits c.now (C.means x.now) }
    ensures value { let power = nth_power (C.algebra c.now) (C.means x.now) in
        IfOk result (λ v. C.alike c.now (C.means v) (power n)) }
    ensures own { IfOk result (λ v. C.own c.now (C.means v)) }
    ensures fits { IfOk result (λ v. C.fits c.now (C.means v)) }
    ensures zeroth { n ≡ 0 → IsOkWhere C.wants_memory result (C.fits c.now (C.algebra c.now).one) }
    ensures exact { let power = nth_power (C.algebra c.now) (C.means x.now) in
        1 ≤ n → IsOkWhere C.wants_memory result (All (λ k. C.fits c.now (power k)) (chain n)) }
{
    if n == 0 {
        c.one()
    } else {
        let raised = raised_to(c, x, n)?;
        Ok(raised.value)
    }
}

/// The union of the powers 0 to n of x. n is at most 10^12.
///
/// ```text
/// x          a ---> b ---> c ---> d
/// up to 2    a, b, c and d each to itself,  a ---> b,  b ---> c,  c ---> d,  a ----------> c,  b ----------> d
/// ```
///
/// It answers a fault other than running out of memory exactly if `one` doesn't fit, or the union of the powers 0 to k doesn't
/// for some k in the chain of n.
pub fn up_to<C: Composed>(c: &C, x: &C::Value, n: u64) -> Result<C::Value, C::Fault>
    requires small { n ≤ 10 ^ 12 }
    requires own_x { C.own c.now (C.means x.now) }
    requires fits_x { C.fits c.now (C.means x.now) }
    ensures value { let union = union_of_powers (C.algebra c.now) (C.means x.now) in
        IfOk result (λ v. C.alike c.now (C.means v) (union n)) }
    ensures own { IfOk result (λ v. C.own c.now (C.means v)) }
    ensures fits { IfOk result (λ v. C.fits c.now (C.means v)) }
    ensures exact { let union = union_of_powers (C.algebra c.now) (C.means x.now) in
        IsOkWhere C.wants_memory result
        (C.fits c.now (C.algebra c.now).one × All (λ k. C.fits c.now (union k)) (chain n)) }
{
    if n == 0 {
        let one = c.one()?;
        return Ok(one);
    }
    let grown = united_from_one(c, x, n)?;
    Ok(grown.all)
}

/// The union of all powers of x.
///
/// ```text
/// x          a ---> b ---> c ---> d
/// closure    what is up to 2,  and a -----------------> d
/// ```
///
/// It answers a fault other than running out of memory exactly if `one` doesn't fit, or the union of the powers 0 to 2^j
/// doesn't for some j from 0 to 60.
pub fn closure<C: Composed>(c: &C, x: &C::Value) -> Result<C::Value, C::Fault>
    requires own_x { C.own c.now (C.means x.now) }
    requires fits_x { C.fits c.now (C.means x.now) }
    ensures value { let union = union_of_powers (C.algebra c.now) (C.means x.now) in
        IfOk result (λ v. C.alike c.now (C.means v) (union (2 ^ 60))) }
    ensures includes_powers { let IncludesEach = IncludesPowers (C.alike c.now) (C.algebra c.now) in
        IfOk result (λ v. IncludesEach (C.means v) (C.means x.now)) }
    // Whatever includes every power includes the closure.
    ensures least { let IncludesEach = IncludesPowers (C.alike c.now) (C.algebra c.now) in
        IfOk result (λ v. (w : C.Meaning) → C.own c.now w → IncludesEach w (C.means x.now) →
        Includes (C.alike c.now) (C.algebra c.now) w (C.means v)) }
    ensures own { IfOk result (λ v. C.own c.now (C.means v)) }
    ensures fits { IfOk result (λ v. C.fits c.now (C.means v)) }
    ensures exact { let union = union_of_powers (C.algebra c.now) (C.means x.now) in
        IsOkWhere C.wants_memory result
        (C.fits c.now (C.algebra c.now).one × ((j : ℕ) → j ≤ 60 → C.fits c.now (union (2 ^ j)))) }
{
    // The unions to 1, 2, 4 and so on to 2^60 are the chain of 2^60. It is seldom walked to its end: where a union adds nothing to
    // the one before, no further one does. Only what is new is composed on, since the whole union squared makes each walk again
    // for each place where it can be cut in two.
    let grown = united_from_one(c, x, ENOUGH)?;
    Ok(grown.all)
}
