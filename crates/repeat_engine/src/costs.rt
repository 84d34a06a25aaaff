//! What a step further and a union twice as far are guessed to take. No result depends on it, so that no function here has a clause.

use crate::Composed;
use crate::grown_union::{Grown, newest_of};

// So many steps are few.
const FEW: u64 = 16;

// A step that takes less than twice as far at once by this factor takes far less.
const FAR: u64 = 16;

// So many steps at most are looked ahead where what is new becomes less.
const AHEAD: u64 = 4;

/// Whether what is new is so much of the union that this is squared.
pub(crate) fn is_much(newest: u64, all: u64) -> bool {
    newest > all / 4
}

/// Whether some of what is new took the place of what was there: the union grew by less. Then a step takes longer than its
/// composition, since each value that is there is made anew.
pub(crate) fn has_replaced<C: Composed>(c: &C, half: &Grown<C::Value>) -> bool {
    let newest = c.size(newest_of(half));
    newest.saturating_sub(half.growth) > newest / 8
}

/// Whether the steps are so few, and each so much less than twice as far at once, that they pay also where they replace what was there.
pub(crate) fn are_far_less(steps: u64, step: u64, doubling: u64) -> bool {
    steps <= FEW && step.saturating_mul(FAR) <= doubling
}

/// How many of the steps that are left are looked ahead: a few where what is new has become less, since it may soon be nothing, and all of
/// them where it hasn't, as on a ring.
pub(crate) fn steps_ahead(former: u64, newest: u64, left: u64) -> u64 {
    if newest < former {
        left.min(AHEAD)
    } else {
        left
    }
}

/// A step further: what is new with x, and then the union.
pub(crate) fn step_cost<C: Composed>(c: &C, x: &C::Value, half: &Grown<C::Value>) -> u64 {
    let made = c.size(newest_of(half)).saturating_mul(c.size(x));
    made.saturating_add(c.size(&half.all))
}

/// Twice as far without steps: what is new with the union, or the union with itself.
pub(crate) fn doubling_cost<C: Composed>(c: &C, half: &Grown<C::Value>) -> u64 {
    let newest = c.size(newest_of(half));
    let all = c.size(&half.all);
    if is_much(newest, all) {
        all.saturating_mul(all)
    } else {
        newest.saturating_mul(all)
    }
}
