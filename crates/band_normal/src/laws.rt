//! A relation of two moments has one normal list, and no second.

ghost use Rattle.std.specs.Prelude.{◌≡◌, ℤ, Bool, IsTrue, List};
ghost use Rattle.band_normal.specs.declared.band.Band.{Band};
ghost use Rattle.band_normal.specs.Normal.{Normal, LiesWithin};

/// A relation of departures and arrivals, of one source and one target.
pub trait Pairs {
    ghost holds: { Self → ℤ → ℤ → Type 0 };
}

/// At most one list is normal for a relation.
///
/// Runs at one departure are never adjacent. So at most one run continues a run, a run continues at
/// most one, and where each row begins and ends is settled from the left.
pub fn law_of_uniqueness<P: Pairs>(pairs: &P)
    ensures { (xs : List Band) → (ys : List Band) → Normal (P.holds pairs.now) xs → Normal (P.holds pairs.now) ys → xs ≡ ys }
{}

/// A relation that a test gives, and that lies from one moment to another, has a normal list.
pub fn law_of_existence()
    ensures { (test : ℤ → ℤ → Bool) (low high : ℤ) → LiesWithin low high (λ t u. IsTrue (test t u)) → (rows : List Band) × Normal (λ t u. IsTrue (test t u)) rows }
{}
