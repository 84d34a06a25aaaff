//! Unions of powers twice as far, by what is new in them.
ghost use Rattle.std.specs.Prelude.{◌≡◌, ◌+◌, ℕ, Some, IfOk, IfSome};
ghost use Rattle.repeat_engine.specs.Powers.{union_of_powers};
ghost use Rattle.repeat_engine.specs.Composed.{IsOkWhere};
ghost use Rattle.repeat_engine.specs.GrownUnions.{OfEach, IsFormer, IsFresh, IsFreshSound, IsNewest, IsSound, Grows, GrowsOn};

use crate::Composed;
use crate::calls::{compose, compose_onto, union};
use crate::costs::is_much;
use crate::grown_union::{Fresh, Grown, alone, grown_to, newest_of};
use crate::single_steps::walked;

// So much is composed with itself, however little more the union has.
const FEW: u64 = 64;

// So little that is new isn't tried to be made less.
const LITTLE: u64 = 8;

/// Twice as far, or where no further power adds anything.
pub(crate) fn doubled<C: Composed>(
    c: &C,
    x: &C::Value,
    half: &Grown<C::Value>,
    k: u64,
) -> Result<Grown<C::Value>, C::Fault>
    requires own_x { C.own c.now (C.means x.now) }
    requires fits_x { C.fits c.now (C.means x.now) }
    requires sound { IsSound (C.own c.now) (C.fits c.now) C.means half.now }
    requires grows { GrowsOn (C.alike c.now) (C.algebra c.now) (C.means x.now) C.means k half.now }
    ensures sound { IfOk result (IsSound (C.own c.now) (C.fits c.now) C.means) }
    ensures grows { let At = Grows (C.alike c.now) (C.algebra c.now) (C.means x.now) C.means in
        IfOk result (At (k + k)) }
    ensures exact { let union = union_of_powers (C.algebra c.now) (C.means x.now) in
        IsOkWhere C.wants_memory result (C.fits c.now (union (k + k))) }
{
    match walked(c, x, half, k) {
        Some(double) => Ok(double),
        None => squared(c, half),
    }
}

// Twice as far: what is new composed with the union, where that is much less than the union squared.
fn squared<C: Composed>(c: &C, half: &Grown<C::Value>) -> Result<Grown<C::Value>, C::Fault>
    requires sound { IsSound (C.own c.now) (C.fits c.now) C.means half.now }
    ensures sound { IfOk result (IsSound (C.own c.now) (C.fits c.now) C.means) }
    ensures grows { let Each = OfEach (C.alike c.now) (C.own c.now) (C.algebra c.now) C.means half.now in
        Each (λ x k. IfOk result (Grows (C.alike c.now) (C.algebra c.now) x C.means (k + k))) }
    ensures exact { let Each = OfEach (C.alike c.now) (C.own c.now) (C.algebra c.now) C.means half.now in
        Each (λ x k. IsOkWhere C.wants_memory result (C.fits c.now (union_of_powers (C.algebra c.now) x (k + k)))) }
{
    if is_much(c.size(newest_of(half)), c.size(&half.all)) {
        return squared_whole(c, half);
    }
    match compose(c, newest_of(half), &half.all) {
        Ok(made) => {
            let all = union(c, &half.all, &made)?;
            let newest = newest_squared(c, half, made);
            Ok(grown_to(c, half, all, Some(newest)))
        }
        Err(_) => squared_onto(c, half),
    }
}

// Twice as far, where what is new composed with the union doesn't fit alone: made onto the union, or else the union squared.
fn squared_onto<C: Composed>(c: &C, half: &Grown<C::Value>) -> Result<Grown<C::Value>, C::Fault>
    requires sound { IsSound (C.own c.now) (C.fits c.now) C.means half.now }
    ensures sound { IfOk result (IsSound (C.own c.now) (C.fits c.now) C.means) }
    ensures grows { let Each = OfEach (C.alike c.now) (C.own c.now) (C.algebra c.now) C.means half.now in
        Each (λ x k. IfOk result (Grows (C.alike c.now) (C.algebra c.now) x C.means (k + k))) }
    ensures exact { let Each = OfEach (C.alike c.now) (C.own c.now) (C.algebra c.now) C.means half.now in
        Each (λ x k. IsOkWhere C.wants_memory result (C.fits c.now (union_of_powers (C.algebra c.now) x (k + k)))) }
{
    match compose_onto(c, &half.all, newest_of(half), &half.all) {
        Ok(Some(all)) => {
            let newest = short_squared(c, half);
            Ok(grown_to(c, half, all, newest))
        }
        Ok(None) => squared_whole(c, half),
        Err(fault) => Err(fault),
    }
}

// Twice as far: the union squared.
fn squared_whole<C: Composed>(c: &C, half: &Grown<C::Value>) -> Result<Grown<C::Value>, C::Fault>
    requires sound { IsSound (C.own c.now) (C.fits c.now) C.means half.now }
    ensures sound { IfOk result (IsSound (C.own c.now) (C.fits c.now) C.means) }
    ensures grows { let Each = OfEach (C.alike c.now) (C.own c.now) (C.algebra c.now) C.means half.now in
        Each (λ x k. IfOk result (Grows (C.alike c.now) (C.algebra c.now) x C.means (k + k))) }
    ensures exact { let Each = OfEach (C.alike c.now) (C.own c.now) (C.algebra c.now) C.means half.now in
        Each (λ x k. IsOkWhere C.wants_memory result (C.fits c.now (union_of_powers (C.algebra c.now) x (k + k)))) }
{
    let all = compose(c, &half.all, &half.all)?;
    let newest = short_squared(c, half);
    Ok(grown_to(c, half, all, newest))
}

// What is new twice as far, where what is new isn't most of the union and its square fits.
fn short_squared<C: Composed>(c: &C, half: &Grown<C::Value>) -> Option<Fresh<C::Value>>
    requires sound { IsSound (C.own c.now) (C.fits c.now) C.means half.now }
    ensures sound { IfSome result (IsFreshSound (C.own c.now) (C.fits c.now) C.means) }
    ensures new { let Each = OfEach (C.alike c.now) (C.own c.now) (C.algebra c.now) C.means half.now in
        Each (λ x k. IfSome result (IsFresh (C.alike c.now) (C.algebra c.now) x C.means (k + k))) }
{
    match &half.newest {
        Some(newest) => {
            if is_most(c.size(newest), c.size(&half.all)) {
                return None;
            }
            newest_twice(c, half, newest)
        }
        None => None,
    }
}

// Whether what is new is too much of the union to be worth its square.
fn is_most(newest: u64, all: u64) -> bool {
    newest > FEW && newest > all / 2
}

// What is new twice as far: what is new composed with itself, where that fits and isn't longer than what was made.
fn newest_squared<C: Composed>(c: &C, half: &Grown<C::Value>, made: C::Value) -> Fresh<C::Value>
    requires sound { IsSound (C.own c.now) (C.fits c.now) C.means half.now }
    requires own_made { C.own c.now (C.means made) }
    requires fits_made { C.fits c.now (C.means made) }
    ensures sound { IsFreshSound (C.own c.now) (C.fits c.now) C.means result }
    ensures new { let Each = OfEach (C.alike c.now) (C.own c.now) (C.algebra c.now) C.means half.now in
        Each (λ x k. IsNewest (C.alike c.now) (C.algebra c.now) x (k + k) (C.means made) →
        IsFresh (C.alike c.now) (C.algebra c.now) x C.means (k + k) result) }
{
    match &half.newest {
        Some(newest) => match newest_twice(c, half, newest) {
            Some(square) => {
                if c.size(&square.newest) <= c.size(&made) {
                    square
                } else {
                    alone(made)
                }
            }
            None => alone(made),
        },
        None => alone(made),
    }
}

// What is new composed with itself, where that fits. Where that is longer than what is new, and it is shorter without what the
// nearer union has, only the rest of it: a path that leads to and fro leads back to much that is there.
fn newest_twice<C: Composed>(
    c: &C,
    half: &Grown<C::Value>,
    newest: &C::Value,
) -> Option<Fresh<C::Value>>
    requires sound { IsSound (C.own c.now) (C.fits c.now) C.means half.now }
    requires newest { half.now.newest ≡ Some newest.now }
    ensures sound { IfSome result (IsFreshSound (C.own c.now) (C.fits c.now) C.means) }
    ensures new { let Each = OfEach (C.alike c.now) (C.own c.now) (C.algebra c.now) C.means half.now in
        Each (λ x k. IfSome result (IsFresh (C.alike c.now) (C.algebra c.now) x C.means (k + k))) }
{
    let Ok(square) = compose(c, newest, newest) else {
        return None;
    };
    if c.size(&square) <= c.size(newest) {
        return Some(alone(square));
    }
    let Ok(rest) = c.beyond(&square, &half.all) else {
        return Some(alone(square));
    };
    if c.size(&rest) >= c.size(&square) {
        return Some(alone(square));
    }
    if has_grown(c.size(newest), c.size(&rest)) {
        Some(without_former(c, half, newest, rest))
    } else {
        Some(alone(rest))
    }
}

// Whether so much that is new twice as far is worth being made less.
fn has_grown(newest: u64, twice: u64) -> bool {
    twice > LITTLE && twice > newest
}

// What is new twice as far, without what a union of fewer powers has: to and fro, most of the power 2k is in the union of some fewer.
fn without_former<C: Composed>(
    c: &C,
    half: &Grown<C::Value>,
    newest: &C::Value,
    rest: C::Value,
) -> Fresh<C::Value>
    requires sound { IsSound (C.own c.now) (C.fits c.now) C.means half.now }
    requires newest { half.now.newest ≡ Some newest.now }
    requires own_rest { C.own c.now (C.means rest) }
    requires fits_rest { C.fits c.now (C.means rest) }
    ensures sound { IsFreshSound (C.own c.now) (C.fits c.now) C.means result }
    ensures new { let Each = OfEach (C.alike c.now) (C.own c.now) (C.algebra c.now) C.means half.now in
        Each (λ x k. IsNewest (C.alike c.now) (C.algebra c.now) x (k + k) (C.means rest) →
        IsFresh (C.alike c.now) (C.algebra c.now) x C.means (k + k) result) }
{
    let Some(former) = former_twice(c, half, newest) else {
        return alone(rest);
    };
    match c.beyond(&rest, &former) {
        Ok(less) => Fresh {
            newest: less,
            former: Some(former),
        },
        Err(_) => alone(rest),
    }
}

// Something of a union of fewer powers, twice as far: the union, with what is new composed with what is known of fewer.
fn former_twice<C: Composed>(c: &C, half: &Grown<C::Value>, newest: &C::Value) -> Option<C::Value>
    requires sound { IsSound (C.own c.now) (C.fits c.now) C.means half.now }
    requires newest { half.now.newest ≡ Some newest.now }
    ensures own { IfSome result (λ w. C.own c.now (C.means w)) }
    ensures fits { IfSome result (λ w. C.fits c.now (C.means w)) }
    ensures former { let Each = OfEach (C.alike c.now) (C.own c.now) (C.algebra c.now) C.means half.now in
        Each (λ x k. IfSome result (λ w. IsFormer (C.alike c.now) (C.algebra c.now) x (k + k) (C.means w))) }
{
    match &half.former {
        Some(former) => {
            let Ok(made) = compose(c, newest, former) else {
                return None;
            };
            union(c, &half.all, &made).ok()
        }
        // No call copies a value, but the union of a value with itself is that value.
        None => union(c, &half.all, &half.all).ok(),
    }
}
