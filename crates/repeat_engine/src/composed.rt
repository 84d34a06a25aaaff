//! What powers are taken of.
#![tactic(auto)]

ghost use Rattle.std.specs.Prelude.{◌↔◌, ℕ, IsTrue, IfOk, IfErr, IfSome};
ghost use Rattle.repeat_engine.specs.Powers.{Algebra, union_of_powers};
ghost use Rattle.repeat_engine.specs.Composed.{IsOkWhere, IsSomeWhere, FailsOnlyWithout, IsLawful};

/// Values that can be composed and united, of which some are c's own and some of these fit.
///
/// | | `one` | `compose` x and y | `union` of x and y |
/// |---|---|---|---|
/// | relations between points | each point to itself | x, and then y | the pairs of either |
/// | lengths up to a longest one | 0 | the sum, or the longest | the longer |
///
/// Contracts speak of what values mean, up to likeness: `same` answers whether two meanings are alike, and nothing here
/// tells alike meanings apart. So meanings may be expressions, and alike where they describe the same pairs.
///
/// The laws are those of `IsLawful`, over c's own meanings: composition is associative, with `one` neutral, and
/// distributes over union; union is associative, commutative and idempotent; and the union of the powers 0 to 2^60
/// includes every further power.
///
/// The calls use the allocator that the value itself keeps. Each may run out of memory.
pub trait Composed {
    /// What is composed and united.
    type Value: Drop;

    /// Why a value wasn't made: it doesn't fit, or memory ran out.
    type Fault: Drop;

    ghost Meaning: { Type 0 };

    /// What a value means.
    ghost means: { Self.Value → Meaning };

    /// Two meanings are the same to c.
    ghost alike: { Self → Meaning → Meaning → Type 0 };

    /// A value of this meaning is c's own.
    ghost own: { Self → Meaning → Type 0 };

    /// A value of this meaning fits.
    ghost fits: { Self → Meaning → Type 0 };

    /// The fault is that memory ran out.
    ghost wants_memory: { Self.Fault → Type 0 };

    /// How meanings are composed and united, and which is neutral.
    ghost algebra: { Self → Algebra Meaning };

    /// The value that is neutral for composition. It answers a fault other than running out of memory exactly if that
    /// doesn't fit.
    fn one(&self) -> Result<Self::Value, Self::Fault>
        ensures value { IfOk result (λ v. alike self.now (means v) (algebra self.now).one) }
        ensures exact { IsOkWhere wants_memory result (fits self.now (algebra self.now).one) };

    /// x, and then y. It answers a fault other than running out of memory exactly if the result doesn't fit.
    fn compose(&self, x: &Self::Value, y: &Self::Value) -> Result<Self::Value, Self::Fault>
        requires own_x { own self.now (means x.now) }
        requires own_y { own self.now (means y.now) }
        requires fits_x { fits self.now (means x.now) }
        requires fits_y { fits self.now (means y.now) }
        ensures value { let both = (algebra self.now).compose (means x.now) (means y.now) in
            IfOk result (λ v. alike self.now (means v) both) }
        ensures exact { let both = (algebra self.now).compose (means x.now) (means y.now) in
            IsOkWhere wants_memory result (fits self.now both) };

    /// x together with y. It answers a fault other than running out of memory exactly if the result doesn't fit.
    fn union(&self, x: &Self::Value, y: &Self::Value) -> Result<Self::Value, Self::Fault>
        requires own_x { own self.now (means x.now) }
        requires own_y { own self.now (means y.now) }
        requires fits_x { fits self.now (means x.now) }
        requires fits_y { fits self.now (means y.now) }
        ensures value { let both = (algebra self.now).unite (means x.now) (means y.now) in
            IfOk result (λ v. alike self.now (means v) both) }
        ensures exact { let both = (algebra self.now).unite (means x.now) (means y.now) in
            IsOkWhere wants_memory result (fits self.now both) };

    /// The base together with x and then y, or None if it is better worked out in another way, which may come at any time. It
    /// answers a fault other than running out of memory only if the result doesn't fit.
    ///
    /// It is wanted where x and then y alone doesn't fit.
    fn compose_onto(
        &self,
        base: &Self::Value,
        x: &Self::Value,
        y: &Self::Value,
    ) -> Result<Option<Self::Value>, Self::Fault>
        requires own_base { own self.now (means base.now) }
        requires own_x { own self.now (means x.now) }
        requires own_y { own self.now (means y.now) }
        requires fits_base { fits self.now (means base.now) }
        requires fits_x { fits self.now (means x.now) }
        requires fits_y { fits self.now (means y.now) }
        ensures value { let c = algebra self.now in let all = c.unite (means base.now) (c.compose (means x.now) (means y.now)) in
            IfOk result (λ made. IfSome made (λ v. alike self.now (means v) all)) }
        ensures exact { let c = algebra self.now in let all = c.unite (means base.now) (c.compose (means x.now) (means y.now)) in
            IsSomeWhere wants_memory result (fits self.now all) };

    /// What x has beyond y: together with y it means as much as x together with y. It may hold more, up to all of x.
    ///
    /// It is wanted for speed alone, so any fault may come at any time.
    fn beyond(&self, x: &Self::Value, y: &Self::Value) -> Result<Self::Value, Self::Fault>
        requires own_x { own self.now (means x.now) }
        requires own_y { own self.now (means y.now) }
        requires fits_x { fits self.now (means x.now) }
        requires fits_y { fits self.now (means y.now) }
        ensures value { let c = algebra self.now in
            IfOk result (λ v. alike self.now (c.unite (means y.now) (means v)) (c.unite (means y.now) (means x.now))) }
        ensures own { IfOk result (λ v. own self.now (means v)) }
        ensures fits { IfOk result (λ v. fits self.now (means v)) };

    /// Where it is seen that the union of the powers 0 to n of x doesn't fit, a fault. It needn't be seen, and memory may run out.
    ///
    /// It is asked before any union is made, for an n of more than `many` if the chain has one: where what is new in so many unions
    /// is never much, it would take long until one of them doesn't fit.
    fn check_union(&self, x: &Self::Value, n: u64) -> Result<(), Self::Fault>
        requires own_x { own self.now (means x.now) }
        requires fits_x { fits self.now (means x.now) }
        ensures { FailsOnlyWithout wants_memory result (fits self.now (union_of_powers (algebra self.now) (means x.now) n)) };

    /// The union of the powers 0 to n of x, where it is known at once, and then the union of any number of powers fits. None
    /// otherwise, which may come at any time. `one` is the neutral value.
    fn at_once(
        &self,
        one: &Self::Value,
        x: &Self::Value,
        n: u64,
    ) -> Result<Option<Self::Value>, Self::Fault>
        requires neutral { alike self.now (means one.now) (algebra self.now).one }
        requires own_one { own self.now (means one.now) }
        requires own_x { own self.now (means x.now) }
        requires fits_one { fits self.now (means one.now) }
        requires fits_x { fits self.now (means x.now) }
        ensures value { let union = union_of_powers (algebra self.now) (means x.now) in
            IfOk result (λ made. IfSome made (λ v. alike self.now (means v) (union n))) }
        ensures each_fits { let union = union_of_powers (algebra self.now) (means x.now) in
            IfOk result (λ made. IfSome made (λ v. (k : ℕ) → fits self.now (union k))) }
        ensures memory { IfErr result (λ fault. wants_memory fault) };

    /// So many powers may be united with each adding a little, and still fit. No result depends on it, so any number is right.
    fn many(&self) -> u64;

    /// How much there is of x, by which it is guessed how long its compositions take. No result depends on it, so any
    /// number is right.
    fn size(&self, x: &Self::Value) -> u64;

    /// Whether x and y mean the same.
    fn same(&self, x: &Self::Value, y: &Self::Value) -> bool
        ensures { IsTrue result ↔ alike self.now (means x.now) (means y.now) };

    ghost lawful: { (c : Self) → IsLawful (alike c) (own c) (fits c) (algebra c) };
}
