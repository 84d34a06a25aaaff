//! A question that has no rows only since its steps ask that what they come to exists.
ghost use Rattle.std.specs.Prelude.{◌≡◌, ◌<◌, ◌≤◌, ◌↔◌, Some, IfOk, IsSome, IsSomeAnd, IsTrue};
ghost use Rattle.path_ast.specs.Terms.{path_term};
ghost use Rattle.path_ast.specs.Sizes.{path_size, IsPathInRange};
ghost use Rattle.path_ast.specs.declared.counts.TheConstants.{MAX_TERMS};
ghost use Rattle.answer_hints.specs.Relaxed.{relaxed};
ghost use Rattle.answer_hints.specs.RuledOut.{ExistenceRulesOut, FitsWithin};

use crate::relaxed::without_existence;
use crate::rows::rows_of;
use itpg_graph::Part;
use path_ast::Query;
use std::alloc::{AllocError, Global};

/// Whether the query's path leads nowhere on the graph, but leads somewhere once `F` is written for `FWD` and `B` for `BWD`.
///
/// ```text
///     edge m meets a b, live m 2 4
///     MATCH (x {time = 7})-/FWD/:meets/FWD/-(y)      yes: F/:meets/F leads from a to b at 7
/// ```
///
/// So it is if the answer is yes. If it is so, the answer is yes unless one of the two questions is wide. The second is worked out only
/// if the first has no rows. The graph is begun, and the path is in range and has at most `MAX_TERMS` terms.
///
/// # Errors
///
/// If memory runs out.
pub fn existence_rules_out(
    alloc: Global,
    graph: &Part<'_>,
    query: &Query,
    max_rows: u32,
) -> Result<bool, AllocError>
    requires begun { IsSome graph.now.begun }
    requires in_range { IsPathInRange (path_term query.now.path) }
    requires terms { path_size (path_term query.now.path) ≤ MAX_TERMS }
    ensures certain { IfOk result (λ told. IsTrue told → ExistenceRulesOut graph.now (path_term query.now.path)) }
    ensures given { let p = path_term query.now.path in
        FitsWithin graph.now max_rows p → FitsWithin graph.now max_rows (relaxed p) → ExistenceRulesOut graph.now p → IfOk result (λ told. IsTrue told) }
{
    let rows = rows_of(alloc, graph, query, max_rows)?;
    if !tells_none(rows) {
        return Ok(false);
    }
    let free = without_existence(alloc, query)?;
    let rows = rows_of(alloc, graph, &free, max_rows)?;
    Ok(tells_some(rows))
}

// Whether it is told that there is no row.
fn tells_none(rows: Option<u64>) -> bool
    ensures { IsTrue result ↔ (rows ≡ Some 0) }
{
    rows == Some(0)
}

// Whether it is told that there is a row.
fn tells_some(rows: Option<u64>) -> bool
    ensures { IsTrue result ↔ IsSomeAnd rows (λ n. 0 < n) }
{
    rows.is_some_and(|many| many > 0)
}
