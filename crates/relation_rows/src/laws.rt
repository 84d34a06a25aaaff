//! A relation of points has one normal list of rows, and no second; and so have objects at moments
//! one list of one-time rows. Each law is the contract of a function that does nothing.

ghost use Rattle.std.specs.Prelude.{◌≡◌, ◌⊎◌, ℕ, ℤ, Bool, IsTrue, List};
ghost use Rattle.itpg_base.specs.declared.object_number.ObjNo.{ObjNo};
ghost use Rattle.itpg_base.specs.Decided.{Decided};
ghost use Rattle.itpg_base.specs.Points.{Point};
ghost use Rattle.itpg_base.specs.Spans.{Span};
ghost use Rattle.relation_rows.specs.declared.rows.Row.{Row};
ghost use Rattle.relation_rows.specs.declared.times.OneRow.{OneRow};
ghost use Rattle.relation_rows.specs.Rows.{NormalRows, HasRows, HasMoreRows, Fits, IsWide, IsFinite, of_test};
ghost use Rattle.relation_rows.specs.Relations.{Item, ItemsHold, IsItself, EitherHolds, HasMiddlePoint, IsBetween, OnlyFirstHolds};
ghost use Rattle.relation_rows.specs.Times.{AreTimes, OnlyFirstHas, AreFewTimes};

/// A relation of points.
pub trait Pairs {
    ghost holds: { Self → Point → Point → Type 0 };
}

/// At most one list of rows is normal for a relation.
pub fn law_of_uniqueness<P: Pairs>(pairs: &P)
    ensures { (xs : List Row) → (ys : List Row) → NormalRows (P.holds pairs.now) xs → NormalRows (P.holds pairs.now) ys → xs ≡ ys }
{}

/// A relation that a test gives, over finitely many points, has a normal list of rows.
pub fn law_of_existence()
    ensures { (objects : ℕ) (low high : ℤ) (test : Point → Point → Bool) → IsFinite objects low high (of_test test) → HasRows (of_test test) }
{}

/// A relation over finitely many points, of which it is decided which pairs it has, has a normal list of rows.
pub fn law_of_decided_rows<P: Pairs>(pairs: &P)
    ensures { (objects : ℕ) (low high : ℤ) → IsFinite objects low high (P.holds pairs.now) → ((x : Point) → (y : Point) → Decided (P.holds pairs.now x y)) → HasRows (P.holds pairs.now) }
{}

/// What each call works out has a normal list of rows. So where a call answers `Wide`, such a list is there, and is longer than the limit.
pub fn law_of_normal_rows()
    ensures identity { (objects : List ObjNo) → (horizon : Span) → HasRows (IsItself objects horizon) }
    ensures from_zones { (items : List Item) → HasRows (ItemsHold items) }
    ensures union { (first : List Row) → (second : List Row) → HasRows (EitherHolds first second) }
    ensures compose { (first : List Row) → (second : List Row) → HasRows (HasMiddlePoint first second) }
    ensures restrict { (rows : List Row) → (sources : List ObjNo) → (targets : List ObjNo) → HasRows (IsBetween rows sources targets) }
    ensures minus { (first : List Row) → (second : List Row) → HasRows (OnlyFirstHolds first second) }
    ensures times { (first : List OneRow) → (second : List OneRow) → (rows : List OneRow) × AreTimes (OnlyFirstHas first second) rows }
{}

/// The normal list of a relation that a test gives, over finitely many points, has at most so many
/// rows, or it has more. No relation has both. And where it has more, such a list is there.
pub fn law_of_width<P: Pairs>(pairs: &P)
    ensures either { (objects : ℕ) (low high : ℤ) (test : Point → Point → Bool) (limit : ℕ) → let pairs = of_test test in
        IsFinite objects low high pairs → Fits pairs limit ⊎ IsWide pairs limit }
    ensures there { (objects : ℕ) (low high : ℤ) (test : Point → Point → Bool) (limit : ℕ) → let pairs = of_test test in
        IsFinite objects low high pairs → IsWide pairs limit → HasMoreRows pairs limit }
    ensures apart { (limit : ℕ) → Fits (P.holds pairs.now) limit → IsWide (P.holds pairs.now) limit → ⊥ }
{}

/// Objects at moments.
pub trait Moments {
    ghost has: { Self → ℕ → ℤ → Type 0 };
}

/// At most one list is the one-time rows of some objects at moments.
pub fn law_of_unique_times<M: Moments>(moments: &M)
    ensures { (xs : List OneRow) → (ys : List OneRow) → AreTimes (M.has moments.now) xs → AreTimes (M.has moments.now) ys → xs ≡ ys }
{}

/// Objects at moments that a test gives, finitely many, have a list of one-time rows.
pub fn law_of_existing_times()
    ensures { (objects : ℕ) (low high : ℤ) (test : ℕ → ℤ → Bool) → AreFewTimes objects low high test → (rows : List OneRow) × AreTimes (λ o t. IsTrue (test o t)) rows }
{}
