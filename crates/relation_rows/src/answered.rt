//! What a query is answered by.

ghost use Rattle.std.specs.Prelude.{◌≡◌, ◌↔◌, IfOk, IsTrue};
ghost use Rattle.relation_rows.specs.Answered.{answered, row_number};

use crate::relations::Relation;
use crate::times::OneTime;
use std::alloc::AllocError;
use std::rc::Rc;

/// The rows of an answer: of two times where both ends of the query have a name, else of one.
#[derive(Drop)]
pub enum Answer {
    /// The pairs of points.
    Pairs(Rc<Relation>),
    /// The objects at moments.
    Times(OneTime),
}

impl Answer {
    /// The number of rows.
    pub fn rows(&self) -> u64
        ensures { result ≡ row_number (answered self.now) }
    {
        match self {
            Answer::Pairs(relation) => relation.rows().len() as u64,
            Answer::Times(times) => times.rows().len() as u64,
        }
    }

    /// Whether the two are of one kind and have the same rows.
    pub fn same(&self, other: &Answer) -> bool
        ensures { IsTrue result ↔ (answered self.now ≡ answered other.now) }
    {
        match (self, other) {
            (Answer::Pairs(rows), Answer::Pairs(others)) => rows.same(others),
            (Answer::Times(rows), Answer::Times(others)) => rows.same(others),
            _ => false,
        }
    }

    /// An answer with the same rows. It takes no memory for those of a relation, nor for times that a relation gave.
    pub fn copy(&self) -> Result<Answer, AllocError>
        ensures { IfOk result (λ copy. answered copy ≡ answered self.now) }
    {
        match self {
            Answer::Pairs(relation) => Ok(Answer::Pairs(relation.clone()?)),
            Answer::Times(times) => Ok(Answer::Times(times.copy()?)),
        }
    }
}
