//! The relations of plan nodes, as far as they are worked out.
ghost use Rattle.std.specs.Prelude.{◌≡◌, ◌∷◌, [], ◌++◌, Some, slice_get, option_map, OnOk};
ghost use Rattle.path_eval.specs.Made.{IsThere};

use plan_cache::{PlanNo, Plans};
use relation_rows::Relation;
use std::alloc::{AllocError, Global};
use std::marker::Model;
use std::rc::Rc;

/// The relations of the nodes below some number, as far as they are worked out. A contract sees the rows of each.
#[derive(Drop)]
pub(crate) struct WorkedOut {
    // By number; `None` of a node that isn't needed.
    relations: Vec<Option<Rc<Relation>>>,
}

impl Model for WorkedOut {
    ghost use Rattle.std.specs.Prelude.{List, map, option_map};
    ghost use Rattle.path_eval.specs.Made.{MaybeRows};

    ghost Value = { List MaybeRows };

    ghost view = { λ w. map (option_map (λ r. r.value)) w.relations.items };
}

impl WorkedOut {
    /// Nothing of any node. It takes no memory.
    pub(crate) fn new(alloc: Global) -> WorkedOut
        ensures { result ≡ [] }
    {
        WorkedOut {
            relations: Vec::new(alloc),
        }
    }

    /// Adds what there is of the next node.
    pub(crate) fn add(&mut self, relation: Option<Rc<Relation>>) -> Result<(), AllocError>
        ensures { OnOk result (self.new ≡ self.old ++ option_map (λ r. r.value) relation ∷ []) }
    {
        self.relations.push(relation)?;
        Ok(())
    }

    /// The relation of the node, which is worked out.
    pub(crate) fn relation_of(&self, no: PlanNo) -> &Relation
        requires { IsThere self.now no.0 }
        ensures { slice_get self.now no.0 ≡ Some (Some result.now) }
    {
        match &self.relations[no.0 as usize] {
            Some(relation) => relation.as_ref(),
            None => unreachable!(),
        }
    }
}

/// The plan nodes, and the relations of those below some number, as far as they are worked out.
#[derive(Drop)]
pub(crate) struct Made<'a> {
    pub(crate) plans: &'a Plans,
    pub(crate) relations: &'a WorkedOut,
}
