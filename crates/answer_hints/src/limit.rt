//! A limit of rows with which a question isn't wide.
ghost use Rattle.std.specs.Prelude.{◌≡◌, ◌≤◌, ◌<◌, ◌^◌, Some, IfOk, IfSome, IsSome};
ghost use Rattle.path_ast.specs.Terms.{path_term};
ghost use Rattle.path_ast.specs.Sizes.{path_size, IsPathInRange};
ghost use Rattle.path_ast.specs.declared.counts.TheConstants.{MAX_TERMS};
ghost use Rattle.answer_hints.specs.RuledOut.{FitsWithin};

use crate::rows::fits_within;
use itpg_graph::Part;
use path_ast::Query;
use std::alloc::{AllocError, Global};

/// This number of rows, if with that limit the question isn't wide.
///
/// It is meant for the rows of the widest member. Where the path has repetitions, a relation on the way to one can have more rows than
/// each member: then no limit is told. The graph is begun, and the path is in range and has at most `MAX_TERMS` terms.
///
/// # Errors
///
/// If memory runs out.
pub fn limit_that_does(
    alloc: Global,
    graph: &Part<'_>,
    query: &Query,
    rows: u64,
) -> Result<Option<u32>, AllocError>
    requires begun { IsSome graph.now.begun }
    requires in_range { IsPathInRange (path_term query.now.path) }
    requires terms { path_size (path_term query.now.path) ≤ MAX_TERMS }
    ensures rows { IfOk result (λ told. IfSome told (λ n. n ≡ rows)) }
    ensures does { IfOk result (λ told. IfSome told (λ n. FitsWithin graph.now n (path_term query.now.path))) }
    ensures given { rows < 2 ^ 32 → FitsWithin graph.now rows (path_term query.now.path) → IfOk result (λ told. told ≡ Some rows) }
{
    let Ok(max_rows) = u32::try_from(rows) else {
        return Ok(None);
    };
    let fits = fits_within(alloc, graph, query, max_rows)?;
    Ok(fits.then_some(max_rows))
}
