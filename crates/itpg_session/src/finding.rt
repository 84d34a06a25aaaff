//! What is found for a query: its answer, or that it is too wide.
ghost use Rattle.std.specs.Prelude.{◌||◌, ◌≤◌, IfOk, IsErrOf, IsSome, IsTrue};
ghost use Rattle.path_ast.specs.Terms.{query_term, path_term};
ghost use Rattle.label_scope.specs.declared.scope.Scope.TheVariants.{All};
ghost use Rattle.plan_cache.specs.Nodes.{IsNodeOf, narrowed_member};
ghost use Rattle.relation_rows.specs.Answered.{answered, row_number};
ghost use Rattle.path_eval.specs.Keeping.{KeepsOnlyReached};
ghost use Rattle.itpg_session.specs.Questions.{IsTooWide, HasAnswer};
ghost use Rattle.plan_cache.specs.RightRows.{IsTableRight};
ghost use Rattle.itpg_session.specs.Keeping.{IsWorked, KeepsPath};

use itpg_graph::Graph;
use path_ast::Query;
use path_eval::{EvalFault, answer, relation};
use plan_cache::{PlanNo, Plans};
use relation_rows::Answer;
use std::alloc::{AllocError, Global};

/// The answer of the query on the graph, which is begun, with a limit of rows. The node is that of the query's path. What is kept
/// in the table is taken, and what is worked out is kept there.
pub(crate) fn find(
    alloc: Global,
    graph: &Graph,
    plans: &mut Plans,
    no: PlanNo,
    max_rows: u32,
    query: &Query,
) -> Result<Answer, EvalFault>
    requires begun { IsSome graph.now.begun }
    requires planned { IsNodeOf plans.old.nodes no.0 (narrowed_member (path_term query.now.path) All All) }
    requires right { IsTableRight graph.now max_rows plans.old }
    requires ends { IsTrue (query.now.first || query.now.last) }
    ensures answer { IfOk result (λ answer. HasAnswer graph.now max_rows (query_term query.now) (answered answer)) }
    ensures few { IfOk result (λ answer. row_number (answered answer) ≤ max_rows) }
    ensures wide { IsErrOf result EvalFault.Wide → IsTooWide graph.now max_rows (query_term query.now) }
    ensures still_right { IsTableRight graph.now max_rows plans.new }
    ensures worked { IsWorked plans.old plans.new }
    ensures only { KeepsOnlyReached plans.old no.0 plans.new.kept }
    ensures keeps { IfOk result (λ _. KeepsPath graph.now (path_term query.now.path) plans.new) }
{
    let relation = relation(alloc, graph, plans, no, max_rows)?;
    match answer(relation, query.first, query.last) {
        Ok(answer) => Ok(answer),
        Err(AllocError) => Err(EvalFault::Memory),
    }
}
