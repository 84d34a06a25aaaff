//! What changed between two answers.
ghost use Rattle.std.specs.Prelude.{IfOk};
ghost use Rattle.relation_rows.specs.Answered.{answered};
ghost use Rattle.standing_queries.specs.Changes.{AreOfOneKind, IsRest};

use relation_rows::{Answer, OneTime, Relation};
use std::alloc::{AllocError, Global};
use std::rc::Rc;

/// What was gained and what was lost.
#[derive(Drop)]
pub struct GainLoss {
    /// What the later answer has and the earlier hasn't.
    pub gained: Answer,
    /// What the earlier answer has and the later hasn't.
    pub lost: Answer,
}

/// What `now` has and `base` hasn't, and the other way round. Both are rows of two times, or both of one.
///
/// ```text
///     base     a 0 9                     now      a 5 12
///     gained   a 10 12                   lost     a 0 4
/// ```
///
/// # Errors
///
/// If memory runs out.
pub fn changes(alloc: Global, base: &Answer, now: &Answer) -> Result<GainLoss, AllocError>
    requires { AreOfOneKind (answered base.now) (answered now.now) }
    ensures gained { IfOk result (λ c. IsRest (answered now.now) (answered base.now) (answered c.gained)) }
    ensures lost { IfOk result (λ c. IsRest (answered base.now) (answered now.now) (answered c.lost)) }
{
    if base.same(now) {
        return no_changes(alloc, now);
    }
    Ok(GainLoss {
        gained: rest(alloc, now, base)?,
        lost: rest(alloc, base, now)?,
    })
}

/// What changed between an answer and itself: nothing.
///
/// # Errors
///
/// If memory runs out.
pub fn no_changes(alloc: Global, answer: &Answer) -> Result<GainLoss, AllocError>
    ensures gained { IfOk result (λ c. IsRest (answered answer.now) (answered answer.now) (answered c.gained)) }
    ensures lost { IfOk result (λ c. IsRest (answered answer.now) (answered answer.now) (answered c.lost)) }
{
    Ok(GainLoss {
        gained: no_rows_like(alloc, answer)?,
        lost: no_rows_like(alloc, answer)?,
    })
}

// What an answer has and itself hasn't.
fn no_rows_like(alloc: Global, answer: &Answer) -> Result<Answer, AllocError>
    ensures { IfOk result (λ none. IsRest (answered answer.now) (answered answer.now) (answered none)) }
{
    match answer {
        Answer::Pairs(_) => Ok(Answer::Pairs(Rc::new(alloc, Relation::empty(alloc))?)),
        Answer::Times(_) => Ok(Answer::Times(OneTime::from_rows(Vec::new(alloc)))),
    }
}

// What the first answer has and the second hasn't.
fn rest(alloc: Global, first: &Answer, second: &Answer) -> Result<Answer, AllocError>
    requires { AreOfOneKind (answered first.now) (answered second.now) }
    ensures { IfOk result (λ rest. IsRest (answered first.now) (answered second.now) (answered rest)) }
{
    match (first, second) {
        (Answer::Pairs(first), Answer::Pairs(second)) => {
            Ok(Answer::Pairs(Rc::new(alloc, first.minus(second)?)?))
        }
        (Answer::Times(first), Answer::Times(second)) => Ok(Answer::Times(first.minus(second)?)),
        _ => unreachable!(),
    }
}
