//! The union of some powers, kept with what is new in it.
ghost use Rattle.std.specs.Prelude.{◌≡◌, ◌<◌, ℕ, None, IfSome};
ghost use Rattle.repeat_engine.specs.declared.grown_union.Grown.{Grown as PlainGrown};
ghost use Rattle.repeat_engine.specs.Powers.{union_of_powers};
ghost use Rattle.repeat_engine.specs.GrownUnions.{newest_part, OfEach, IsFresh, IsFreshSound, IsSound, Grows};

use crate::Composed;

/// The union of the powers 0 to k, for some k from 1 on.
#[derive(Drop)]
pub(crate) struct Grown<V> {
    pub(crate) all: V,
    /// What is in the union of the powers 0 to k and in none of some fewer, and perhaps more of it. None stands for all of it.
    pub(crate) newest: Option<V>,
    /// Something of the union of the powers 0 to some fewer than k, which what is new needn't hold. None stands for nothing.
    pub(crate) former: Option<V>,
    /// How much more it is than the union of fewer powers from which it was made: nothing where it isn't, or where there was none. No
    /// result depends on it.
    pub(crate) growth: u64,
    /// No further power adds anything.
    pub(crate) done: bool,
}

/// What is new in a union, and something of one of fewer powers, which that needn't hold.
#[derive(Drop)]
pub(crate) struct Fresh<V> {
    pub(crate) newest: V,
    pub(crate) former: Option<V>,
}

/// What is new, where nothing is known of unions of fewer powers.
pub(crate) fn alone<V: Drop>(newest: V) -> Fresh<V>
    ensures newest { result.newest ≡ newest }
    ensures former { result.former ≡ None }
{
    Fresh {
        newest,
        former: None,
    }
}

pub(crate) fn newest_of<V: Drop>(grown: &Grown<V>) -> &V
    ensures { result.now ≡ newest_part grown.now }
{
    match &grown.newest {
        Some(newest) => newest,
        None => &grown.all,
    }
}

/// A further union, with what is new in it; None stands for all of it.
pub(crate) fn grown_to<C: Composed>(
    c: &C,
    half: &Grown<C::Value>,
    all: C::Value,
    fresh: Option<Fresh<C::Value>>,
) -> Grown<C::Value>
    requires sound { IsSound (C.own c.now) (C.fits c.now) C.means half.now }
    requires own_all { C.own c.now (C.means all) }
    requires fits_all { C.fits c.now (C.means all) }
    requires sound_fresh { IfSome fresh (IsFreshSound (C.own c.now) (C.fits c.now) C.means) }
    ensures sound { IsSound (C.own c.now) (C.fits c.now) C.means result }
    ensures grows { let Each = OfEach (C.alike c.now) (C.own c.now) (C.algebra c.now) C.means half.now in
        Each (λ x k. (n : ℕ) → k < n → C.alike c.now (C.means all) (union_of_powers (C.algebra c.now) x n) →
        IfSome fresh (IsFresh (C.alike c.now) (C.algebra c.now) x C.means n) →
        Grows (C.alike c.now) (C.algebra c.now) x C.means n result) }
{
    let growth = c.size(&all).saturating_sub(c.size(&half.all));
    let done = c.same(&all, &half.all);
    match fresh {
        Some(fresh) => Grown {
            all,
            newest: Some(fresh.newest),
            former: fresh.former,
            growth,
            done,
        },
        None => Grown {
            all,
            newest: None,
            former: None,
            growth,
            done,
        },
    }
}
