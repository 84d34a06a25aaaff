//! What a query is answered by.
ghost use Rattle.std.specs.Prelude.{◌≤◌, ◌||◌, ◌&&◌, length, IsTrue, IfOk, IsOk};
ghost use Rattle.relation_rows.specs.Answered.{answered, row_number};
ghost use Rattle.path_eval.specs.Answering.{IsAnswerFrom};

use relation_rows::{Answer, Relation};
use std::alloc::AllocError;
use std::rc::Rc;

/// The answer of a relation: where both ends are asked for its rows themselves, which takes no memory, where one is the
/// objects at the moments at which it departs, or arrives. One of the ends is asked for.
pub fn answer(rel: Rc<Relation>, first: bool, last: bool) -> Result<Answer, AllocError>
    requires { IsTrue (first || last) }
    ensures answer { IfOk result (λ answer. IsAnswerFrom first last rel.value (answered answer)) }
    ensures few { IfOk result (λ answer. row_number (answered answer) ≤ length rel.value) }
    ensures sure { IsTrue (first && last) → IsOk result }
{
    match (first, last) {
        (true, true) => Ok(Answer::Pairs(rel)),
        (true, false) => Ok(Answer::Times(rel.sources()?)),
        (false, _) => Ok(Answer::Times(rel.targets()?)),
    }
}
