//! The rows of a path from one object, worked out on its neighbourhood.
ghost use Rattle.std.specs.Prelude.{◌≤◌, IfOk, IsErrOf, IsSome};
ghost use Rattle.itpg_base.specs.Graphs.{Good, Stands};
ghost use Rattle.itpg_graph.specs.Edges.{AreNumbers};
ghost use Rattle.path_ast.specs.Terms.{path_term};
ghost use Rattle.path_ast.specs.Sizes.{path_size, IsPathInRange};
ghost use Rattle.path_ast.specs.declared.counts.TheConstants.{MAX_TERMS};
ghost use Rattle.label_scope.specs.declared.scope.Scope.TheVariants.{All};
ghost use Rattle.label_scope.specs.Narrowing.{Cut};
ghost use Rattle.label_scope.specs.Members.{worked};
ghost use Rattle.relation_rows.specs.Rows.{NormalRows};
ghost use Rattle.plan_cache.specs.RightRows.{AllFit};
ghost use Rattle.source_rows.specs.Steps.{path_steps};
ghost use Rattle.source_rows.specs.Reach.{Reach};
ghost use Rattle.path_eval.specs.Evaluated.{SomeIsWide};
ghost use Rattle.path_eval.specs.Nearby.{AreRowsFrom, IsTooWideNear};

use crate::evaluation::{relation_on, shared};
use itpg_base::ObjNo;
use itpg_graph::{Graph, Part};
use path_ast::Query;
use plan_cache::Plans;
use relation_rows::{RelFault, Relation};
use source_rows::{near_objects, steps};
use std::alloc::Global;
use std::rc::Rc;

/// The rows of a path from one object, and all objects that they can depend on.
#[derive(Drop)]
pub struct NearRows {
    /// What is reached from the object in at most as many steps as the path can take, by rising number.
    pub objects: Vec<ObjNo>,
    /// The path's rows from the object.
    pub rows: Rc<Relation>,
}

/// The rows of the query's path from a standing object, and the objects that are reached from it in the path's steps. No other
/// object is looked at.
///
/// ```text
///     a --m--> b --n--> c      F from a     objects: a, m, b     rows: a to m
/// ```
///
/// The graph is begun, and the path is in range and has at most `MAX_TERMS` terms.
///
/// # Errors
///
/// `Wide` exactly if on the neighbourhood of the object, which has these objects alone, some worked member of the path has more
/// than `max_rows` normal rows. `Memory` if memory runs out.
pub fn near_rows(
    alloc: Global,
    graph: &Graph,
    object: ObjNo,
    query: &Query,
    max_rows: u32,
) -> Result<NearRows, RelFault>
    requires begun { IsSome graph.now.begun }
    requires stands { Stands graph.now object.0 }
    requires in_range { IsPathInRange (path_term query.now.path) }
    requires terms { path_size (path_term query.now.path) ≤ MAX_TERMS }
    ensures objects { IfOk result (λ near. AreNumbers (Reach graph.now object.0 (path_steps (path_term query.now.path))) near.objects.items) }
    ensures rows { IfOk result (λ near. AreRowsFrom graph.now (path_term query.now.path) object.0 near.rows.value) }
    ensures fits { IfOk result (λ _. ¬ IsTooWideNear graph.now max_rows (path_term query.now.path) object.0) }
    ensures wide { IsErrOf result RelFault.Wide → IsTooWideNear graph.now max_rows (path_term query.now.path) object.0 }
{
    let objects = near_objects(alloc, graph, object, steps(&query.path))?;
    let all = path_rows(alloc, &Part::new(graph, &objects), query, max_rows)?;
    let rows = shared(alloc, all.restrict(&[object], &objects)?)?;
    Ok(NearRows { objects, rows })
}

// The rows of the query's path on a part of a graph.
fn path_rows(
    alloc: Global,
    part: &Part<'_>,
    query: &Query,
    max_rows: u32,
) -> Result<Rc<Relation>, RelFault>
    requires begun { IsSome part.now.begun }
    requires in_range { IsPathInRange (path_term query.now.path) }
    requires terms { path_size (path_term query.now.path) ≤ MAX_TERMS }
    ensures rows { IfOk result (λ rows. NormalRows (Cut part.now (path_term query.now.path) All All) rows.value) }
    ensures fits { IfOk result (λ _. AllFit part.now max_rows (worked (path_term query.now.path) All All)) }
    ensures wide { IsErrOf result RelFault.Wide → SomeIsWide part.now max_rows (worked (path_term query.now.path) All All) }
{
    let mut plans = Plans::new(alloc);
    let no = plans.intern(query)?;
    relation_on(alloc, part, &mut plans, no, max_rows)
}
