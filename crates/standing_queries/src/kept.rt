//! What is kept of a watch beside its query.
ghost use Rattle.std.specs.Prelude.{◌≡◌, None, IfOk, IsTrue};
ghost use Rattle.path_ast.specs.Terms.{query_term};
ghost use Rattle.label_scope.specs.Touching.{Meets};
ghost use Rattle.relation_rows.specs.Answered.{answered};
ghost use Rattle.standing_queries.specs.Watches.{no_rows as rows_of_none};

use itpg_base::{Name, Touch};
use label_scope::{Footprint, meets};
use path_ast::Query;
use plan_cache::PlanNo;
use relation_rows::{Answer, Relation};
use std::alloc::{AllocError, Global};
use std::rc::Rc;

/// A watch without its query.
#[derive(Drop)]
pub(crate) struct Kept {
    pub(crate) name: Name,
    pub(crate) plan: PlanNo,
    pub(crate) foot: Footprint,
    pub(crate) base: Answer,
    pub(crate) now: Option<Answer>,
    /// Whether it's known that the base is the kept answer.
    pub(crate) settled: bool,
}

impl Kept {
    /// Lets the kept answer go if the footprint meets the touch.
    pub(crate) fn touch(&mut self, touch: &Touch)
        ensures same { self.new ≡ record self.old { now = self.new.now; settled = self.new.settled } }
        ensures gone { Meets self.old.foot touch.now → self.new.now ≡ None }
        ensures stays { (¬ Meets self.old.foot touch.now) → self.new.now ≡ self.old.now }
        ensures settled { IsTrue self.new.settled → IsTrue self.old.settled × (self.new.now ≡ self.old.now) }
    {
        if meets(&self.foot, touch) {
            self.now = None;
            self.settled = false;
        }
    }
}

/// The answer of the query's kind that has no row.
pub(crate) fn no_rows(alloc: Global, query: &Query) -> Result<Answer, AllocError>
    ensures { IfOk result (λ answer. answered answer ≡ rows_of_none (query_term query.now)) }
{
    let none = Relation::empty(alloc);
    if query.first && query.last {
        Ok(Answer::Pairs(Rc::new(alloc, none)?))
    } else {
        Ok(Answer::Times(none.sources()?))
    }
}
