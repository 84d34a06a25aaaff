//! The calls of `Composed` with what follows of their results, which are c's own and fit.
ghost use Rattle.std.specs.Prelude.{ℕ, IfOk, IfErr, IfSome};
ghost use Rattle.repeat_engine.specs.Powers.{union_of_powers};
ghost use Rattle.repeat_engine.specs.Composed.{IsOkWhere, IsSomeWhere};

use crate::Composed;

/// x, and then y.
pub(crate) fn compose<C: Composed>(c: &C, x: &C::Value, y: &C::Value) -> Result<C::Value, C::Fault>
    requires own_x { C.own c.now (C.means x.now) }
    requires own_y { C.own c.now (C.means y.now) }
    requires fits_x { C.fits c.now (C.means x.now) }
    requires fits_y { C.fits c.now (C.means y.now) }
    ensures value { let both = (C.algebra c.now).compose (C.means x.now) (C.means y.now) in
        IfOk result (λ v. C.alike c.now (C.means v) both) }
    ensures own { IfOk result (λ v. C.own c.now (C.means v)) }
    ensures fits { IfOk result (λ v. C.fits c.now (C.means v)) }
    ensures exact { let both = (C.algebra c.now).compose (C.means x.now) (C.means y.now) in
        IsOkWhere C.wants_memory result (C.fits c.now both) }
{
    c.compose(x, y)
}

/// x together with y.
pub(crate) fn union<C: Composed>(c: &C, x: &C::Value, y: &C::Value) -> Result<C::Value, C::Fault>
    requires own_x { C.own c.now (C.means x.now) }
    requires own_y { C.own c.now (C.means y.now) }
    requires fits_x { C.fits c.now (C.means x.now) }
    requires fits_y { C.fits c.now (C.means y.now) }
    ensures value { let both = (C.algebra c.now).unite (C.means x.now) (C.means y.now) in
        IfOk result (λ v. C.alike c.now (C.means v) both) }
    ensures own { IfOk result (λ v. C.own c.now (C.means v)) }
    ensures fits { IfOk result (λ v. C.fits c.now (C.means v)) }
    ensures exact { let both = (C.algebra c.now).unite (C.means x.now) (C.means y.now) in
        IsOkWhere C.wants_memory result (C.fits c.now both) }
{
    c.union(x, y)
}

/// The base together with x and then y, if that is found.
pub(crate) fn compose_onto<C: Composed>(
    c: &C,
    base: &C::Value,
    x: &C::Value,
    y: &C::Value,
) -> Result<Option<C::Value>, C::Fault>
    requires own_base { C.own c.now (C.means base.now) }
    requires own_x { C.own c.now (C.means x.now) }
    requires own_y { C.own c.now (C.means y.now) }
    requires fits_base { C.fits c.now (C.means base.now) }
    requires fits_x { C.fits c.now (C.means x.now) }
    requires fits_y { C.fits c.now (C.means y.now) }
    ensures value { let a = C.algebra c.now in let all = a.unite (C.means base.now) (a.compose (C.means x.now) (C.means y.now)) in
        IfOk result (λ made. IfSome made (λ v. C.alike c.now (C.means v) all)) }
    ensures own { IfOk result (λ made. IfSome made (λ v. C.own c.now (C.means v))) }
    ensures fits { IfOk result (λ made. IfSome made (λ v. C.fits c.now (C.means v))) }
    ensures exact { let a = C.algebra c.now in let all = a.unite (C.means base.now) (a.compose (C.means x.now) (C.means y.now)) in
        IsSomeWhere C.wants_memory result (C.fits c.now all) }
{
    c.compose_onto(base, x, y)
}

/// The union of the powers 0 to n of x, if it is known at once.
pub(crate) fn at_once<C: Composed>(
    c: &C,
    one: &C::Value,
    x: &C::Value,
    n: u64,
) -> Result<Option<C::Value>, C::Fault>
    requires neutral { C.alike c.now (C.means one.now) (C.algebra c.now).one }
    requires own_one { C.own c.now (C.means one.now) }
    requires own_x { C.own c.now (C.means x.now) }
    requires fits_one { C.fits c.now (C.means one.now) }
    requires fits_x { C.fits c.now (C.means x.now) }
    ensures value { let union = union_of_powers (C.algebra c.now) (C.means x.now) in
        IfOk result (λ made. IfSome made (λ v. C.alike c.now (C.means v) (union n))) }
    ensures own { IfOk result (λ made. IfSome made (λ v. C.own c.now (C.means v))) }
    ensures fits { IfOk result (λ made. IfSome made (λ v. C.fits c.now (C.means v))) }
    ensures each_fits { let union = union_of_powers (C.algebra c.now) (C.means x.now) in
        IfOk result (λ made. IfSome made (λ v. (k : ℕ) → C.fits c.now (union k))) }
    ensures memory { IfErr result (λ fault. C.wants_memory fault) }
{
    c.at_once(one, x, n)
}
