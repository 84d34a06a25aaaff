//! What is kept of a relation has one normal list of rows; of each departure between two objects it has one pair, and
//! so to each arrival. Objects at moments have at most one list of counts. Each law is the contract of a function that does nothing.

ghost use Rattle.std.specs.Prelude.{◌≡◌, ◌⊎◌, ℕ, ℤ, Bool, IsTrue, List};
ghost use Rattle.itpg_base.specs.Points.{Point};
ghost use Rattle.relation_rows.specs.Rows.{HasRows, Fits, IsWide, IsFinite, of_test};
ghost use Rattle.relation_rows.specs.declared.times.OneRow.{OneRow};
ghost use Rattle.relation_rows.specs.Times.{TimesHold, IsOneTime};
ghost use Rattle.arrivals.specs.declared.counts.CountRow.{CountRow};
ghost use Rattle.arrivals.specs.Firsts.{Least, Latest};
ghost use Rattle.arrivals.specs.Counting.{AreCounts};

/// Of a relation that a test gives, over finitely many points, the first arrivals and the last departures have a normal
/// list of rows; it has at most so many, or it has more.
pub fn law_of_existence()
    ensures first { (objects : ℕ) (low high : ℤ) (test : Point → Point → Bool) → IsFinite objects low high (of_test test) → HasRows (Least (of_test test)) }
    ensures last { (objects : ℕ) (low high : ℤ) (test : Point → Point → Bool) → IsFinite objects low high (of_test test) → HasRows (Latest (of_test test)) }
    ensures first_width { (objects : ℕ) (low high : ℤ) (test : Point → Point → Bool) (limit : ℕ) → let least = Least (of_test test) in
        IsFinite objects low high (of_test test) → Fits least limit ⊎ IsWide least limit }
    ensures last_width { (objects : ℕ) (low high : ℤ) (test : Point → Point → Bool) (limit : ℕ) → let latest = Latest (of_test test) in
        IsFinite objects low high (of_test test) → Fits latest limit ⊎ IsWide latest limit }
{}

/// Where a relation that a test gives leads from a point to an object, its first arrival there is one moment and no second.
/// And so is the last departure from an object to a point to which it leads from there.
pub fn law_of_one()
    ensures first { (objects : ℕ) (low high : ℤ) (test : Point → Point → Bool) (x y : Point) → IsFinite objects low high (of_test test) →
        of_test test x y → (u : ℤ) × Least (of_test test) x (record { object = y.object; moment = u }) }
    ensures last { (objects : ℕ) (low high : ℤ) (test : Point → Point → Bool) (x y : Point) → IsFinite objects low high (of_test test) →
        of_test test x y → (t : ℤ) × Latest (of_test test) (record { object = x.object; moment = t }) y }
    ensures no_second { (test : Point → Point → Bool) (x y z : Point) → Least (of_test test) x y → Least (of_test test) x z → y.object ≡ z.object → y.moment ≡ z.moment }
    ensures none_other { (test : Point → Point → Bool) (x z y : Point) → Latest (of_test test) x y → Latest (of_test test) z y → x.object ≡ z.object → x.moment ≡ z.moment }
{}

/// Objects at moments.
pub trait Moments {
    ghost has: { Self → ℕ → ℤ → Type 0 };
}

/// At most one list is the counts of some objects at moments.
pub fn law_of_unique_counts<M: Moments>(moments: &M)
    ensures { (xs : List CountRow) → (ys : List CountRow) → AreCounts (M.has moments.now) xs → AreCounts (M.has moments.now) ys → xs ≡ ys }
{}

/// One-time rows have a list of counts.
pub fn law_of_existing_counts()
    ensures { (times : List OneRow) → IsOneTime times → (rows : List CountRow) × AreCounts (TimesHold times) rows }
{}
