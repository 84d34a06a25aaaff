//! Where a relation starts.

ghost use Rattle.std.specs.Prelude.{IsSome, IfOk};
ghost use Rattle.relation_rows.specs.Relations.{Rise};
ghost use Rattle.condition_eval.specs.Marking.{AreMarks};
ghost use Rattle.condition_eval.specs.Tested.{StartsAt, Stand};

use crate::both::both;
use crate::marks::Marks;
use crate::whole::all_over;
use itpg_base::ObjNo;
use itpg_graph::Part;
use relation_rows::Relation;
use std::alloc::{AllocError, Global};

/// The points of the objects at which some pair of the relation starts. Where a pair starts outside the horizon, nothing is
/// marked.
///
/// The graph is begun; the objects rise and stand.
pub fn starts_of(
    alloc: Global,
    graph: &Part<'_>,
    objects: &[ObjNo],
    rel: &Relation,
) -> Result<Marks, AllocError>
    requires begun { IsSome graph.now.begun }
    requires rise { Rise objects.now }
    requires stand { Stand graph.now objects.now }
    ensures { IfOk result (λ marks. AreMarks objects.now (StartsAt rel.now graph.now) marks) }
{
    let all = all_over(alloc, objects, graph.horizon().unwrap())?;
    let times = rel.sources()?;
    let rows = both(alloc, times.rows(), &all)?;
    Ok(Marks::of(alloc, rows))
}
