//! Whether a union far along the chain is seen not to fit, before any is made.
ghost use Rattle.std.specs.Prelude.{◌≤◌, All};
ghost use Rattle.itpg_base.specs.Chains.{chain};
ghost use Rattle.repeat_engine.specs.Powers.{union_of_powers};
ghost use Rattle.repeat_engine.specs.Composed.{FailsOnlyWithout};

use crate::Composed;

/// A fault where it is seen that some union along the chain of n doesn't fit. What is looked at is the first along its halves that unites
/// more than `many` powers.
pub(crate) fn foreseen<C: Composed>(c: &C, x: &C::Value, n: u64) -> Result<(), C::Fault>
    requires some { 1 ≤ n }
    requires own_x { C.own c.now (C.means x.now) }
    requires fits_x { C.fits c.now (C.means x.now) }
    ensures { let union = union_of_powers (C.algebra c.now) (C.means x.now) in
        FailsOnlyWithout C.wants_memory result (All (λ k. C.fits c.now (union k)) (chain n)) }
{
    let many = c.many();
    let mut member = n;
    while member / 2 > many {
        member /= 2;
    }
    c.check_union(x, member)
}
