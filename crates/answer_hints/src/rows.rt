//! How many rows a question has.
ghost use Rattle.std.specs.Prelude.{◌≤◌, ◌+◌, ◌↔◌, length, option_map, IfOk, IsSome, IsTrue};
ghost use Rattle.path_ast.specs.Terms.{path_term};
ghost use Rattle.path_ast.specs.Sizes.{path_size, IsPathInRange};
ghost use Rattle.path_ast.specs.declared.counts.TheConstants.{MAX_TERMS};
ghost use Rattle.plan_cache.specs.RightRows.{IsTableRight};
ghost use Rattle.plan_cache.specs.declared.nodes.TheConstants.{MAX_NODES};
ghost use Rattle.answer_hints.specs.RuledOut.{IsRowNumber, FitsWithin, IsAnswer};

use itpg_graph::Part;
use path_ast::Query;
use path_eval::{EvalFault, relation_on};
use plan_cache::Plans;
use relation_rows::Relation;
use std::alloc::{AllocError, Global};
use std::rc::Rc;

/// Whether no relation that is worked out for the query has more than `max_rows` normal rows: then the question isn't wide.
///
/// The graph is begun, and the path is in range and has at most `MAX_TERMS` terms.
///
/// # Errors
///
/// If memory runs out.
pub fn fits_within(
    alloc: Global,
    graph: &Part<'_>,
    query: &Query,
    max_rows: u32,
) -> Result<bool, AllocError>
    requires begun { IsSome graph.now.begun }
    requires in_range { IsPathInRange (path_term query.now.path) }
    requires terms { path_size (path_term query.now.path) ≤ MAX_TERMS }
    ensures { IfOk result (λ fits. IsTrue fits ↔ FitsWithin graph.now max_rows (path_term query.now.path)) }
{
    let rows = rows_of(alloc, graph, query, max_rows)?;
    Ok(rows.is_some())
}

/// How many normal rows the relation of the query's path has; `None` exactly if it is too wide.
pub(crate) fn rows_of(
    alloc: Global,
    graph: &Part<'_>,
    query: &Query,
    max_rows: u32,
) -> Result<Option<u64>, AllocError>
    requires begun { IsSome graph.now.begun }
    requires in_range { IsPathInRange (path_term query.now.path) }
    requires terms { path_size (path_term query.now.path) ≤ MAX_TERMS }
    ensures { IfOk result (λ rows. IsRowNumber graph.now max_rows (path_term query.now.path) rows) }
{
    let mut plans = Plans::new(alloc);
    match relation_in(alloc, graph, &mut plans, query, max_rows)? {
        Some(relation) => Ok(Some(relation.row_count())),
        None => Ok(None),
    }
}

/// The relation of the query's path, as its normal rows; `None` exactly if it is too wide.
///
/// Relations are kept among the plans, which are right for the graph and have room for the path.
pub(crate) fn relation_in(
    alloc: Global,
    graph: &Part<'_>,
    plans: &mut Plans,
    query: &Query,
    max_rows: u32,
) -> Result<Option<Rc<Relation>>, AllocError>
    requires begun { IsSome graph.now.begun }
    requires in_range { IsPathInRange (path_term query.now.path) }
    requires room { length plans.old.nodes + path_size (path_term query.now.path) ≤ MAX_NODES }
    requires right { IsTableRight graph.now max_rows plans.old }
    ensures rows { IfOk result (λ r. IsAnswer graph.now max_rows (path_term query.now.path) (option_map (λ x. x.value) r)) }
    ensures right { IfOk result (λ _. IsTableRight graph.now max_rows plans.new) }
    ensures few { IfOk result (λ _. length plans.new.nodes ≤ length plans.old.nodes + path_size (path_term query.now.path)) }
{
    let no = plans.intern(query)?;
    match relation_on(alloc, graph, plans, no, max_rows) {
        Ok(relation) => Ok(Some(relation)),
        Err(EvalFault::Wide) => Ok(None),
        Err(EvalFault::Memory) => Err(AllocError),
    }
}
