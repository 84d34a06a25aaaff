//! The base and the kept answer of a watch: one or the other set, or both at once, as a tick leaves them.
ghost use Rattle.std.specs.Prelude.{◌≡◌, ◌<◌, length, slice_get, Some, None, IfSome, IsSomeAnd};
ghost use Rattle.relation_rows.specs.Answered.{answered};
ghost use Rattle.standing_queries.specs.Watches.{IsOfKind, rebased, answered_now, settled_at};

use crate::watches::Watches;
use relation_rows::Answer;

impl Watches {
    /// Puts another base, one of the query's kind, in place of that of the watch at a place.
    pub fn set_base(&mut self, i: usize, base: Answer)
        requires there { i < length self.old }
        requires kind { IsSomeAnd (slice_get self.old i) (λ w. IsOfKind w.query (answered base)) }
        ensures { self.new ≡ rebased i (answered base) self.old }
    {
        let kept = &mut self.items[i];
        kept.base = base;
        kept.settled = false;
    }

    /// Keeps the answer of the watch at a place in place of what is kept. It is of the query's kind.
    pub fn set_now(&mut self, i: usize, now: Answer)
        requires there { i < length self.old }
        requires kind { IsSomeAnd (slice_get self.old i) (λ w. IsOfKind w.query (answered now)) }
        ensures { self.new ≡ answered_now i (Some (answered now)) self.old }
    {
        let kept = &mut self.items[i];
        kept.now = Some(now);
        kept.settled = false;
    }

    /// Keeps no answer of the watch at a place.
    pub fn drop_now(&mut self, i: usize)
        requires { i < length self.old }
        ensures { self.new ≡ answered_now i None self.old }
    {
        let kept = &mut self.items[i];
        kept.now = None;
        kept.settled = false;
    }

    /// The base of the watch at a place, if it's known to be its kept answer too: `settle` set both, and neither has changed since.
    pub fn settled(&self, i: usize) -> Option<&Answer>
        requires { i < length self.now }
        ensures { IfSome result (λ a. IsSomeAnd (slice_get self.now i) (λ w. (w.base ≡ answered a.now) × (w.now ≡ Some (answered a.now)))) }
    {
        let kept = &self.items[i];
        if kept.settled { Some(&kept.base) } else { None }
    }

    /// Makes one answer, which is of the query's kind, the base of the watch at a place, and its copy the kept answer.
    pub fn settle(&mut self, i: usize, one: Answer, copy: Answer)
        requires there { i < length self.old }
        requires kind { IsSomeAnd (slice_get self.old i) (λ w. IsOfKind w.query (answered one)) }
        requires same { answered copy ≡ answered one }
        ensures { self.new ≡ settled_at i (answered one) self.old }
    {
        let kept = &mut self.items[i];
        kept.base = one;
        kept.now = Some(copy);
        kept.settled = true;
    }
}
