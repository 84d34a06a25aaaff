//! Powers, unions of powers and closure of spans of lengths, of which what is made on the way need not fit.
#![tactic(auto)]

use repeat_engine::{Composed, closure, power, up_to};

/// No length gets longer.
const LONGEST: u64 = 1_024;

/// Spans of lengths, each with its least and its most: composed their ends add up, united they are the span over both.
///
/// Those fit whose ends, written in binary, have at most `ones` ones between them. So of (0, 6), (0, 7) and (0, 8) the second needs
/// more than the others.
#[derive(Drop)]
struct Lengths {
    ones: u32,
}

#[derive(Debug, PartialEq, Eq, Drop)]
struct TooMany;

impl Lengths {
    ghost use Rattle.std.specs.Prelude.{◌≡◌, ◌+◌, ◌≤◌, IfOk, count_ones};
    ghost use Rattle.repeat_engine.specs.Composed.{IsOkWhere};

    fn fitting(&self, least: u64, most: u64) -> Result<(u64, u64), TooMany>
        ensures value { IfOk result (λ v. (v.0 ≡ least) × (v.1 ≡ most)) }
        ensures exact { IsOkWhere (λ e. ⊥) result (count_ones least + count_ones most ≤ self.now.ones) }
    {
        if least.count_ones() + most.count_ones() <= self.ones {
            Ok((least, most))
        } else {
            Err(TooMany)
        }
    }
}

impl Composed for Lengths {
    ghost use Rattle.std.specs.Prelude.{ℕ};
    ghost use Rattle.std.proofs.Common.{lit≤};
    ghost use Rattle.query_tests.specs.declared.of_repeat_engine.TheConstants.{LONGEST};
    ghost use Rattle.query_tests.specs.LengthSpans.{Alike, Own, Fits, spans, spans_lawful};

    type Value = (u64, u64);

    type Fault = TooMany;

    ghost Meaning = { ℕ × ℕ };

    ghost means = { λ v. (v.0, v.1) };

    ghost alike = { λ c x y. Alike x y };

    ghost own = { λ c x. Own LONGEST x };

    ghost fits = { λ c x. Fits c.ones x };

    ghost wants_memory = { λ e. ⊥ };

    ghost algebra = { λ c. spans LONGEST };

    fn one(&self) -> Result<(u64, u64), TooMany> {
        self.fitting(0, 0)
    }

    fn compose(&self, x: &(u64, u64), y: &(u64, u64)) -> Result<(u64, u64), TooMany> {
        self.fitting((x.0 + y.0).min(LONGEST), (x.1 + y.1).min(LONGEST))
    }

    fn union(&self, x: &(u64, u64), y: &(u64, u64)) -> Result<(u64, u64), TooMany> {
        self.fitting(x.0.min(y.0), x.1.max(y.1))
    }

    fn compose_onto(
        &self,
        _base: &(u64, u64),
        _x: &(u64, u64),
        _y: &(u64, u64),
    ) -> Result<Option<(u64, u64)>, TooMany> {
        Ok(None)
    }

    fn beyond(&self, x: &(u64, u64), _y: &(u64, u64)) -> Result<(u64, u64), TooMany> {
        Ok(*x)
    }

    fn check_union(&self, _x: &(u64, u64), _n: u64) -> Result<(), TooMany> {
        Ok(())
    }

    fn at_once(
        &self,
        _one: &(u64, u64),
        _x: &(u64, u64),
        _n: u64,
    ) -> Result<Option<(u64, u64)>, TooMany> {
        Ok(None)
    }

    fn many(&self) -> u64 {
        3
    }

    fn size(&self, x: &(u64, u64)) -> u64 {
        x.1.saturating_sub(x.0)
    }

    fn same(&self, x: &(u64, u64), y: &(u64, u64)) -> bool {
        x.0 == y.0 && x.1 == y.1
    }

    ghost lawful = { λ c. spans_lawful LONGEST c.ones (lit≤ tt) };
}

#[test]
fn what_is_made_on_the_way_need_not_fit(rt: HostRuntime) {
    let lengths = Lengths { ones: 2 };
    // The power 8 is (8, 8). One step more is (9, 9), which doesn't fit; nor does the power 3 in the chain of 12.
    assert_eq!(rt; power(&lengths, &(1, 1), 0), Ok((0, 0)));
    assert_eq!(rt; power(&lengths, &(1, 1), 8), Ok((8, 8)));
    assert_eq!(rt; power(&lengths, &(1, 1), 12), Err(TooMany));
    // The powers 3 and 9 don't fit, but the unions to 3, 6, 12 and 24 do. That to 7 doesn't.
    assert_eq!(rt; up_to(&lengths, &(1, 1), 0), Ok((0, 0)));
    assert_eq!(rt; up_to(&lengths, &(1, 1), 24), Ok((0, 24)));
    assert_eq!(rt; up_to(&lengths, &(1, 1), 28), Err(TooMany));
    assert_eq!(rt; up_to(&lengths, &(1, 8), 16), Ok((0, 128)));
    assert_eq!(rt; closure(&lengths, &(1, 1)), Ok((0, 1_024)));
    assert_eq!(rt; closure(&Lengths { ones: 1 }, &(0, 0)), Ok((0, 0)));
}
