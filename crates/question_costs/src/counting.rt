//! The members of a query, each worked out after its parts.
ghost use Rattle.std.specs.Prelude.{◌≡◌, ◌<◌, ◌≤◌, ◌↔◌, [], ◌∷◌, Some, length, slice_get, IfOk, IfSome, IsNone, IsSome, IsSomeAnd};
ghost use Rattle.itpg_base.specs.Lists.{Among};
ghost use Rattle.path_ast.specs.Terms.{path_term};
ghost use Rattle.path_ast.specs.Sizes.{path_size, IsPathInRange};
ghost use Rattle.path_ast.specs.declared.counts.TheConstants.{MAX_TERMS};
ghost use Rattle.label_scope.specs.declared.scope.Scope.TheVariants.{All};
ghost use Rattle.label_scope.specs.Members.{worked};
ghost use Rattle.plan_cache.specs.Nodes.{IsNodeOf, narrowed_member};
ghost use Rattle.plan_cache.specs.Growing.{AddsUnder};
ghost use Rattle.plan_cache.specs.Refilled.{numbers_of};
ghost use Rattle.plan_cache.specs.RightRows.{IsTableRight};
ghost use Rattle.path_eval.specs.Evaluated.{SomeIsWide};
ghost use Rattle.question_costs.specs.declared.count.Count.TheVariants.{Over};
ghost use Rattle.question_costs.specs.Counts.{IsToldOf, AreTold, HaveChildren, NoneOverBefore, all_have_rows, has_rows_at, told_rows, counts_of};

use crate::children::children;
use crate::clock::Clock;
use crate::count::{Count, MemberCount};
use itpg_graph::Part;
use path_ast::Query;
use path_eval::{EvalFault, relation_on};
use plan_cache::{PlanNo, Plans, law_of_shared_nodes};
use std::alloc::{AllocError, Global};

/// The members of a query: the nodes of its path and of this path's parts, each after its own parts, and what is told of each.
#[derive(Drop)]
pub struct Counted {
    /// The nodes. At some of them relations are kept.
    pub plans: Plans,
    /// The node of the query's path between all objects.
    pub root: PlanNo,
    /// What is told of each node, in order of their numbers.
    pub members: Vec<MemberCount>,
}

impl Counted {
    /// The place of the first member that is over; `None` exactly if none is.
    pub fn first_over(&self) -> Option<usize>
        ensures some { IfSome result (λ place. slice_get (counts_of self.now.members.items) place ≡ Some Over) }
        ensures first { IfSome result (λ place. NoneOverBefore (counts_of self.now.members.items) place) }
        ensures none { IsNone result → ¬ Among (counts_of self.now.members.items) Over }
    {
        self.members
            .iter()
            .position(|member| matches!(member.count, Count::Over))
    }

    /// How many rows the query's own member has, if rows are told of it.
    pub fn rows(&self) -> Option<u64>
        ensures { result ≡ told_rows (slice_get (counts_of self.now.members.items) self.now.root.0) }
    {
        match self.members.get(self.root.0 as usize) {
            Some(member) => rows_of(member.count),
            None => None,
        }
    }
}

/// How many rows each member of the query has on the graph, or on a part of one, with a limit of rows.
///
/// ```text
///     MATCH (x)-/F*/-(y)       number   path        told
///                              0        Node ..     Rows(3)
///                              1        F           Rows(2)
///                              2        F[0,_]      Over
///                              3        0 then 2    Unknown
///                              ..
/// ```
///
/// The graph is begun, and the path is in range and has at most `MAX_TERMS` terms. A member is worked out once those of its parts
/// are, so what `members` tells is of its own step; where too many rows are kept at the others, their parts are worked out anew.
///
/// # Errors
///
/// If memory runs out.
pub fn count_members<C: Clock>(
    alloc: Global,
    graph: &Part<'_>,
    query: &Query,
    max_rows: u32,
    clock: &mut C,
) -> Result<Counted, AllocError>
    requires begun { IsSome graph.now.begun }
    requires in_range { IsPathInRange (path_term query.now.path) }
    requires terms { path_size (path_term query.now.path) ≤ MAX_TERMS }
    ensures root { IfOk result (λ counted. IsNodeOf counted.plans.nodes counted.root.0 (narrowed_member (path_term query.now.path) All All)) }
    ensures only { IfOk result (λ counted. AddsUnder [] counted.plans.nodes (counted.root.0 ∷ [])) }
    ensures each { IfOk result (λ counted. length counted.members.items ≡ length counted.plans.nodes) }
    ensures children { IfOk result (λ counted. HaveChildren counted.plans.nodes counted.members.items) }
    ensures told { IfOk result (λ counted. AreTold graph.now max_rows counted.plans.nodes (counts_of counted.members.items)) }
    ensures wide { IfOk result (λ counted. Among (counts_of counted.members.items) Over ↔ SomeIsWide graph.now max_rows (worked (path_term query.now.path) All All)) }
{
    let mut plans = Plans::new(alloc);
    let root = plans.intern(query)?;
    law_of_shared_nodes(&plans);
    let asking = Asking {
        alloc,
        graph,
        max_rows,
    };
    let members = asking.count_all(&mut plans, clock)?;
    Ok(Counted {
        plans,
        root,
        members,
    })
}

// A begun graph, and the limit of rows.
#[derive(Drop)]
struct Asking<'a> {
    alloc: Global,
    graph: &'a Part<'a>,
    max_rows: u32,
    ghost begun: { IsSome graph.now.begun },
}

impl Asking<'_> {
    // What is told of each node, in order.
    fn count_all<C: Clock>(
        &self,
        plans: &mut Plans,
        clock: &mut C,
    ) -> Result<Vec<MemberCount>, AllocError>
        requires right { IsTableRight self.now.graph.now self.now.max_rows plans.old }
        ensures nodes { plans.new.nodes ≡ plans.old.nodes }
        ensures each { IfOk result (λ members. length members.items ≡ length plans.new.nodes) }
        ensures children { IfOk result (λ members. HaveChildren plans.new.nodes members.items) }
        ensures told { IfOk result (λ members. AreTold self.now.graph.now self.now.max_rows plans.new.nodes (counts_of members.items)) }
    {
        let mut members = Vec::new(self.alloc);
        for number in 0..plans.len() {
            let member = self.count_next(plans, &members, PlanNo(number), clock)?;
            members.push(member)?;
        }
        Ok(members)
    }

    // What is told of a node, where it is told of all before it.
    fn count_next<C: Clock>(
        &self,
        plans: &mut Plans,
        members: &[MemberCount],
        no: PlanNo,
        clock: &mut C,
    ) -> Result<MemberCount, AllocError>
        requires there { no.0 < length plans.old.nodes }
        requires many { length members.now ≡ no.0 }
        requires told { AreTold self.now.graph.now self.now.max_rows plans.old.nodes (counts_of members.now) }
        requires right { IsTableRight self.now.graph.now self.now.max_rows plans.old }
        ensures nodes { plans.new.nodes ≡ plans.old.nodes }
        ensures right { IsTableRight self.now.graph.now self.now.max_rows plans.new }
        ensures children { IfOk result (λ member. IsSomeAnd (slice_get plans.old.nodes no.0) (λ n. numbers_of member.children.items ≡ n.children)) }
        ensures told { IfOk result (λ member. IsSomeAnd (slice_get plans.old.nodes no.0) (λ n. IsToldOf self.now.graph.now self.now.max_rows n.member member.count)) }
    {
        let start = clock.micros();
        let children = children(self.alloc, plans.op(no))?;
        let count = self.count_of(plans, members, &children, no)?;
        let micros = clock.micros().saturating_sub(start);
        Ok(MemberCount {
            children,
            count,
            micros,
        })
    }
    // What is told of a node with these children.
    fn count_of(
        &self,
        plans: &mut Plans,
        members: &[MemberCount],
        children: &[PlanNo],
        no: PlanNo,
    ) -> Result<Count, AllocError>
        requires there { no.0 < length plans.old.nodes }
        requires many { length members.now ≡ no.0 }
        requires told { AreTold self.now.graph.now self.now.max_rows plans.old.nodes (counts_of members.now) }
        requires right { IsTableRight self.now.graph.now self.now.max_rows plans.old }
        requires children { IsSomeAnd (slice_get plans.old.nodes no.0) (λ n. numbers_of children.now ≡ n.children) }
        ensures nodes { plans.new.nodes ≡ plans.old.nodes }
        ensures right { IsTableRight self.now.graph.now self.now.max_rows plans.new }
        ensures told { IfOk result (λ count. IsSomeAnd (slice_get plans.old.nodes no.0) (λ n. IsToldOf self.now.graph.now self.now.max_rows n.member count)) }
    {
        law_of_shared_nodes(plans);
        if !have_rows(members, children) {
            return Ok(Count::Unknown);
        }
        match relation_on(self.alloc, self.graph, plans, no, self.max_rows) {
            Ok(relation) => Ok(Count::Rows(relation.row_count())),
            Err(EvalFault::Wide) => Ok(Count::Over),
            Err(EvalFault::Memory) => Err(AllocError),
        }
    }
}

// Whether rows are told of each of the nodes.
fn have_rows(members: &[MemberCount], nodes: &[PlanNo]) -> bool
    ensures { result ≡ all_have_rows (counts_of members.now) (numbers_of nodes.now) }
{
    nodes.iter().all(|no| has_rows(members, *no))
}

// Whether rows are told of the node.
fn has_rows(members: &[MemberCount], no: PlanNo) -> bool
    ensures { result ≡ has_rows_at (counts_of members.now) no.0 }
{
    match members.get(no.0 as usize) {
        Some(member) => matches!(member.count, Count::Rows(_)),
        None => false,
    }
}

// How many rows are told, if any are.
fn rows_of(count: Count) -> Option<u64>
    ensures { result ≡ told_rows (Some count) }
{
    match count {
        Count::Rows(rows) => Some(rows),
        Count::Over | Count::Unknown => None,
    }
}
