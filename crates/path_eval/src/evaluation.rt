//! The relation of a plan node, which is kept from then on.
//!
//! Where a relation is kept at the node, that is the answer. Else the nodes that it needs are worked out in the order of their
//! numbers, each once: children have lower numbers, so their relations are there. Below a node at which a relation is kept
//! nothing is needed. How deep a path is doesn't matter, nor in how many places one part of it stands.
ghost use Rattle.std.specs.Prelude.{◌≡◌, ◌<◌, ◌⊎◌, length, slice_get, option_map, Some, None, false, IfOk, IsErrOf, IsSome, IsTrue, IsSomeAnd};
ghost use Rattle.itpg_base.specs.Graphs.{Good};
ghost use Rattle.plan_cache.specs.Nodes.{AreShared};
ghost use Rattle.plan_cache.specs.KeptRows.{AllKept, Stays};
ghost use Rattle.plan_cache.specs.RightRows.{IsRight};
ghost use Rattle.path_eval.specs.Evaluated.{NeedsWide};
ghost use Rattle.path_eval.specs.Keeping.{KeepsOnlyReached, KeepsReached};
ghost use Rattle.path_eval.specs.Filled.{IsRightAt, IsWideAt, HasPartsAt, KeepsRight, KeepsAt, KeepsRows, KeepsWell, IsFilling};

use crate::basis::Ground;
use crate::made::{Made, WorkedOut};
use crate::reaching::reached;
use crate::step::step;
use itpg_graph::{Graph, Part};
use plan_cache::{PlanNo, Plans};
use relation_rows::{RelFault, Relation};
use std::alloc::{AllocError, Global};
use std::rc::Rc;

/// The relation of the node: that of its path between its two scopes, as its normal rows.
///
/// The graph is begun, the node is one of the plans, and each kept relation is right for the graph and the limit. Where one is
/// kept at the node, that is the answer, and nothing changes. Else the nodes that are needed are worked out, and the relation of
/// each is kept, if there is room for it.
///
/// # Errors
///
/// `Wide` exactly if some worked member of the node has more than `max_rows` normal rows, by the graph, the member and the
/// limit alone; so never where a relation is kept at the node. `Memory` if memory runs out. Whatever it answers, the nodes are
/// the same, what was kept stays, and what is kept besides is right.
pub fn relation(
    alloc: Global,
    graph: &Graph,
    plans: &mut Plans,
    no: PlanNo,
    max_rows: u32,
) -> Result<Rc<Relation>, RelFault>
    requires begun { IsSome graph.now.begun }
    requires there { no.0 < length plans.old.nodes }
    requires right { AllKept (IsRight graph.now max_rows) plans.old.nodes plans.old.kept }
    ensures rows { IfOk result (λ r. IsSomeAnd (slice_get plans.old.nodes no.0) (λ n. IsRight graph.now max_rows n.member r.value)) }
    ensures wide { IsErrOf result RelFault.Wide → IsSomeAnd (slice_get plans.old.nodes no.0) (λ n. NeedsWide graph.now max_rows n.member) }
    ensures nodes { plans.new.nodes ≡ plans.old.nodes }
    ensures still_right { AllKept (IsRight graph.now max_rows) plans.new.nodes plans.new.kept }
    ensures stays { Stays plans.old.kept plans.new.kept }
    ensures only { KeepsOnlyReached plans.old no.0 plans.new.kept }
    ensures keeps { IfOk result (λ _. KeepsReached graph.now plans.old no.0 plans.new) }
    ensures warm { (slice_get plans.old.kept no.0 ≡ Some None) ⊎ (plans.new ≡ plans.old) }
    ensures good { Good graph.now }
{
    relation_on(alloc, &Part::whole(graph), plans, no, max_rows)
}

/// The same on a part of a graph: the relation of the node there, as if all else had been dropped. The errors are those of `relation`.
pub fn relation_on(
    alloc: Global,
    graph: &Part<'_>,
    plans: &mut Plans,
    no: PlanNo,
    max_rows: u32,
) -> Result<Rc<Relation>, RelFault>
    requires begun { IsSome graph.now.begun }
    requires there { no.0 < length plans.old.nodes }
    requires right { AllKept (IsRight graph.now max_rows) plans.old.nodes plans.old.kept }
    ensures rows { IfOk result (λ r. IsSomeAnd (slice_get plans.old.nodes no.0) (λ n. IsRight graph.now max_rows n.member r.value)) }
    ensures wide { IsErrOf result RelFault.Wide → IsSomeAnd (slice_get plans.old.nodes no.0) (λ n. NeedsWide graph.now max_rows n.member) }
    ensures nodes { plans.new.nodes ≡ plans.old.nodes }
    ensures still_right { AllKept (IsRight graph.now max_rows) plans.new.nodes plans.new.kept }
    ensures stays { Stays plans.old.kept plans.new.kept }
    ensures only { KeepsOnlyReached plans.old no.0 plans.new.kept }
    ensures keeps { IfOk result (λ _. KeepsReached graph.now plans.old no.0 plans.new) }
    ensures warm { (slice_get plans.old.kept no.0 ≡ Some None) ⊎ (plans.new ≡ plans.old) }
    ensures good { Good graph.now }
{
    let horizon = graph.horizon().unwrap();
    if let Some(kept) = plans.kept(no) {
        return Ok(kept.clone()?);
    }
    let ground = Ground {
        alloc,
        graph,
        horizon,
        max_rows,
    };
    worked_out(&ground, plans, no)
}

// The relation of a node, once those of all nodes that it needs are worked out.
fn worked_out(ground: &Ground<'_>, plans: &mut Plans, no: PlanNo) -> Result<Rc<Relation>, RelFault>
    requires good { Good ground.now.graph.now }
    requires there { no.0 < length plans.old.nodes }
    requires right { KeepsRight ground.now plans.old }
    ensures rows { IfOk result (λ r. IsRightAt ground.now plans.old.nodes no.0 r.value) }
    ensures wide { IsErrOf result RelFault.Wide → IsWideAt ground.now plans.old.nodes no.0 }
    ensures well { KeepsWell ground.now plans.old no.0 plans.new }
    ensures keeps { IfOk result (λ _. KeepsReached ground.now.graph.now plans.old no.0 plans.new) }
{
    let made = below(ground, plans, no)?;
    one(ground, plans, &made, no)
}

// The relations of the nodes below this one that it needs.
fn below(ground: &Ground<'_>, plans: &mut Plans, no: PlanNo) -> Result<WorkedOut, RelFault>
    requires good { Good ground.now.graph.now }
    requires there { no.0 < length plans.old.nodes }
    requires right { KeepsRight ground.now plans.old }
    ensures filled { IfOk result (λ made. IsFilling ground.now plans.old no.0 no.0 plans.new made) }
    ensures wide { IsErrOf result RelFault.Wide → IsWideAt ground.now plans.old.nodes no.0 }
    ensures well { KeepsWell ground.now plans.old no.0 plans.new }
    ensures shared { AreShared plans.old.nodes }
{
    let needed = reached(ground.alloc, plans, no)?;
    let mut made = WorkedOut::new(ground.alloc);
    for k in 0..no.0 {
        let relation = next(ground, plans, &made, PlanNo(k), needed[k as usize])?;
        made.add(relation)?;
    }
    Ok(made)
}

// The relation of a node, if it is needed.
fn next(
    ground: &Ground<'_>,
    plans: &mut Plans,
    made: &WorkedOut,
    no: PlanNo,
    is_needed: bool,
) -> Result<Option<Rc<Relation>>, RelFault>
    requires good { Good ground.now.graph.now }
    requires there { no.0 < length plans.old.nodes }
    requires right { KeepsRight ground.now plans.old }
    requires parts { IsTrue is_needed → slice_get plans.old.kept no.0 ≡ Some None → HasPartsAt ground.now plans.old.nodes made.now no.0 }
    ensures rows { IfOk result (λ r. IsTrue is_needed → IsSomeAnd (option_map (λ x. x.value) r) (λ rows. IsRightAt ground.now plans.old.nodes no.0 rows)) }
    ensures wide { IsErrOf result RelFault.Wide → IsTrue is_needed × IsWideAt ground.now plans.old.nodes no.0 }
    ensures nodes { plans.new.nodes ≡ plans.old.nodes }
    ensures keeps { KeepsAt ground.now plans.old no.0 plans.new.kept }
    ensures not { is_needed ≡ false → plans.new.kept ≡ plans.old.kept }
    ensures room { IfOk result (λ r. IsTrue is_needed → IsSomeAnd (option_map (λ x. x.value) r) (λ rows. KeepsRows plans.new.kept no.0 rows)) }
{
    if !is_needed {
        return Ok(None);
    }
    let relation = one(ground, plans, made, no)?;
    Ok(Some(relation))
}

// The relation of a node. It is kept from then on, if there is room.
fn one(
    ground: &Ground<'_>,
    plans: &mut Plans,
    made: &WorkedOut,
    no: PlanNo,
) -> Result<Rc<Relation>, RelFault>
    requires good { Good ground.now.graph.now }
    requires there { no.0 < length plans.old.nodes }
    requires right { KeepsRight ground.now plans.old }
    requires parts { slice_get plans.old.kept no.0 ≡ Some None → HasPartsAt ground.now plans.old.nodes made.now no.0 }
    ensures rows { IfOk result (λ r. IsRightAt ground.now plans.old.nodes no.0 r.value) }
    ensures wide { IsErrOf result RelFault.Wide → IsWideAt ground.now plans.old.nodes no.0 }
    ensures nodes { plans.new.nodes ≡ plans.old.nodes }
    ensures keeps { KeepsAt ground.now plans.old no.0 plans.new.kept }
    ensures room { IfOk result (λ r. KeepsRows plans.new.kept no.0 r.value) }
{
    if let Some(kept) = plans.kept(no) {
        return Ok(kept.clone()?);
    }
    let relation = from_parts(ground, plans, made, no)?;
    let own = relation.clone()?;
    let _refused = plans.keep(no, own);
    Ok(relation)
}

// The relation of a node, from those of its parts.
fn from_parts(
    ground: &Ground<'_>,
    plans: &Plans,
    relations: &WorkedOut,
    no: PlanNo,
) -> Result<Rc<Relation>, RelFault>
    requires good { Good ground.now.graph.now }
    requires there { no.0 < length plans.now.nodes }
    requires parts { HasPartsAt ground.now plans.now.nodes relations.now no.0 }
    ensures rows { IfOk result (λ r. IsRightAt ground.now plans.now.nodes no.0 r.value) }
    ensures wide { IsErrOf result RelFault.Wide → IsWideAt ground.now plans.now.nodes no.0 }
{
    let made = Made { plans, relations };
    let relation = step(ground, &made, no)?;
    Ok(shared(ground.alloc, relation)?)
}

/// The relation on the heap, to be shared.
pub(crate) fn shared(alloc: Global, relation: Relation) -> Result<Rc<Relation>, AllocError>
    ensures { IfOk result (λ r. r.value ≡ relation) }
{
    Ok(Rc::new(alloc, relation)?)
}
