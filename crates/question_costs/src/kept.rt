//! Which members of a question have a relation in another table of plans.
ghost use Rattle.std.specs.Prelude.{◌↔◌, option_map, Some, IfOk, IsTrue};
ghost use Rattle.question_costs.specs.Kept.{AreAllKept, AreKeptOnly, HasRelation};

use plan_cache::{PlanNo, Plans, law_of_shared_nodes};
use std::alloc::{AllocError, Global};

/// Of each node of a question's table, whether a relation is kept at the node of the same path between the same scopes in another
/// table, if there is one.
///
/// It looks for each of them once, by hash, however many nodes the other table has.
///
/// # Errors
///
/// If memory runs out.
pub(crate) fn are_kept(
    alloc: Global,
    nodes: &Plans,
    other: Option<&Plans>,
) -> Result<Vec<bool>, AllocError>
    ensures only { IfOk result (λ kept. AreKeptOnly nodes.now.nodes (option_map (λ r. r.now) other.entry) kept.items) }
    ensures each { IfOk result (λ kept. AreAllKept nodes.now.nodes (option_map (λ r. r.now) other.entry) kept.items) }
{
    match other {
        Some(other) => kept_in(alloc, nodes, other),
        None => Ok(Vec::new(alloc)),
    }
}

// The same for another table.
fn kept_in(alloc: Global, nodes: &Plans, other: &Plans) -> Result<Vec<bool>, AllocError>
    ensures only { IfOk result (λ kept. AreKeptOnly nodes.now.nodes (Some other.now) kept.items) }
    ensures each { IfOk result (λ kept. AreAllKept nodes.now.nodes (Some other.now) kept.items) }
{
    law_of_shared_nodes(other);
    let numbers = nodes.numbers_in(other)?;
    let mut kept = Vec::new(alloc);
    for place in 0..numbers.len() {
        kept.push(has_relation(other, numbers[place]))?;
    }
    Ok(kept)
}

// Whether the number is a node's, and a relation is kept there.
fn has_relation(plans: &Plans, no: PlanNo) -> bool
    ensures { IsTrue result ↔ HasRelation plans.now.kept no.0 }
{
    no.0 < plans.len() && plans.kept(no).is_some()
}
