//! A table that is filled anew with the nodes of some queries, and keeps what was kept at nodes of the same paths.
ghost use Rattle.std.specs.Prelude.{◌≡◌, ◌+◌, ◌<◌, ◌≤◌, ℕ, [], Some, None, length, map, option_map, slice_get, slice_set, IfOk, OnOk, OnErr, IsSomeAnd};
ghost use Rattle.itpg_base.specs.Lists.{Among};
ghost use Rattle.path_ast.specs.Terms.{QueryTerm, query_term};
ghost use Rattle.path_ast.specs.Sizes.{IsPathInRange};
ghost use Rattle.plan_cache.specs.Nodes.{AreNodesOf, AreShared};
ghost use Rattle.plan_cache.specs.Growing.{AddsUnder};
ghost use Rattle.plan_cache.specs.KeptRows.{rows_kept, AddsFree};
ghost use Rattle.plan_cache.specs.Refilled.{terms_of, members_asked, numbers_of, KeepsShared};
ghost use Rattle.plan_cache.specs.Former.{number_at, kept_at, IsFormerOf, AreFormer, AreFormerApart, IsFormerKey};
ghost use Rattle.plan_cache.specs.declared.nodes.TheConstants.{MAX_NODES as most_nodes};
ghost use Rattle.plan_cache.specs.declared.shelf.TheConstants.{MAX_KEPT_ROWS};

use crate::feet::add_places;
use crate::key::PlanKey;
use crate::nodes::{MAX_NODES, Nodes};
use crate::operations::PlanNo;
use crate::plans::Plans;
use crate::renumbering::renumbered;
use crate::shelf::Shelf;
use label_scope::Scope;
use path_ast::Query;
use std::alloc::{AllocError, Global};

impl Plans {
    /// Fills the table anew with the nodes of these queries' paths between all objects, in order of first sight, and with no others.
    /// The result has the number of each query's node, in order.
    ///
    /// Where a path between two scopes had a node before and has one now, what was kept there is kept still, at the new number.
    /// Nothing else is kept. The paths are in range, and have together at most `MAX_NODES` terms.
    ///
    /// ```text
    ///     before            refilled for x:Person and x:Room
    ///     0   x:Person      1 row is kept       0   x:Person     1 row is kept
    ///     1   x:Room        nothing             1   x:Room       nothing
    ///     2   x:Edge        7 rows
    /// ```
    ///
    /// # Errors
    ///
    /// If memory runs out. Then the table is as it was.
    pub fn refill(&mut self, queries: &[Query]) -> Result<Vec<PlanNo>, AllocError>
        requires in_range { (q : QueryTerm) → Among (map query_term queries.now) q → IsPathInRange q.path }
        requires room { terms_of (map query_term queries.now) ≤ most_nodes }
        ensures numbers { IfOk result (λ numbers. AreNodesOf self.new.nodes (numbers_of numbers.items) (members_asked (map query_term queries.now))) }
        ensures only { IfOk result (λ numbers. AddsUnder [] self.new.nodes (numbers_of numbers.items)) }
        ensures few { OnOk result (length self.new.nodes ≤ terms_of (map query_term queries.now)) }
        ensures kept { OnOk result (KeepsShared self.old self.new) }
        ensures same { OnErr result (self.new ≡ self.old) }
    {
        let mut nodes = Nodes::new(self.nodes.alloc());
        let numbers = intern_all(&mut nodes, queries)?;
        self.replace(nodes)?;
        Ok(numbers)
    }

    /// For each node the number of the node that is of the same path between the same scopes in another table, and `MAX_NODES` if it has
    /// none there. It looks for each once, by hash.
    ///
    /// ```text
    ///     this table        another table       the numbers
    ///     0   x:Person      0   x:Room          2
    ///     1   x:Room        1   x:Edge          0
    ///     2   x:Car         2   x:Person        65536
    /// ```
    ///
    /// # Errors
    ///
    /// If memory runs out.
    pub fn numbers_in(&self, other: &Plans) -> Result<Vec<PlanNo>, AllocError>
        ensures each { IfOk result (λ numbers. length numbers.items ≡ length self.now.nodes) }
        ensures there { IfOk result (λ numbers. AreFormer other.now.nodes self.now.nodes numbers.items) }
    {
        former_numbers(&other.nodes, &self.nodes)
    }

    // Takes other nodes in place of its own, and with them what is kept at nodes of the same paths.
    fn replace(&mut self, nodes: Nodes) -> Result<(), AllocError>
        ensures nodes { OnOk result (self.new.nodes ≡ nodes) }
        ensures kept { OnOk result (KeepsShared self.old self.new) }
        ensures same { OnErr result (self.new ≡ self.old) }
    {
        let former = former_numbers(&self.nodes, &nodes)?;
        let mut shelf = Shelf::new(nodes.alloc());
        add_places(&nodes, &mut shelf)?;
        self.shelf.law_of_room();
        move_all(&mut self.shelf, &mut shelf, &former);
        self.nodes = nodes;
        self.shelf = shelf;
        Ok(())
    }
}

// The nodes of the queries' paths between all objects, in a table that has no other.
fn intern_all(nodes: &mut Nodes, queries: &[Query]) -> Result<Vec<PlanNo>, AllocError>
    requires none { nodes.old ≡ [] }
    requires in_range { (q : QueryTerm) → Among (map query_term queries.now) q → IsPathInRange q.path }
    requires room { terms_of (map query_term queries.now) ≤ most_nodes }
    ensures numbers { IfOk result (λ numbers. AreNodesOf nodes.new (numbers_of numbers.items) (members_asked (map query_term queries.now))) }
    ensures only { IfOk result (λ numbers. AddsUnder [] nodes.new (numbers_of numbers.items)) }
    ensures few { OnOk result (length nodes.new ≤ terms_of (map query_term queries.now)) }
{
    let mut numbers = Vec::new(nodes.alloc());
    for place in 0..queries.len() {
        let no = nodes.intern(&queries[place].path)?;
        numbers.push(no)?;
    }
    Ok(numbers)
}

// For each node the number of the node that is of the same path between the same scopes in the old table; if it has none there,
// a number that no node has.
fn former_numbers(standing: &Nodes, nodes: &Nodes) -> Result<Vec<PlanNo>, AllocError>
    ensures each { IfOk result (λ former. length former.items ≡ length nodes.now) }
    ensures former { IfOk result (λ former. AreFormer standing.now nodes.now former.items) }
    ensures apart { IfOk result (λ former. AreFormerApart (length standing.now) former.items) }
{
    let _known = standing.len();
    let mut former = Vec::new(nodes.alloc());
    for number in 0..nodes.len() {
        let was = former_number(standing, nodes, &former, PlanNo(number))?;
        former.push(was)?;
    }
    Ok(former)
}

// The same of one node, where those of all lower numbers are known.
fn former_number(
    standing: &Nodes,
    nodes: &Nodes,
    former: &[PlanNo],
    no: PlanNo,
) -> Result<PlanNo, AllocError>
    requires there { no.0 < length nodes.now }
    requires lower { no.0 ≤ length former.now }
    requires few { length standing.now ≤ most_nodes }
    requires shared { AreShared standing.now }
    requires also { AreShared nodes.now }
    requires former { AreFormer standing.now nodes.now former.now }
    ensures { IfOk result (λ was. IsSomeAnd (slice_get nodes.now no.0) (λ n. IsFormerOf standing.now n.member was.0)) }
{
    let key = former_key(nodes, former, no)?;
    match standing.find(&key) {
        Some(was) => Ok(was),
        None => Ok(PlanNo(MAX_NODES)),
    }
}

/// The key of the node, over the numbers that its children had.
///
/// # Errors
///
/// If memory runs out.
pub(crate) fn former_key(
    nodes: &Nodes,
    former: &[PlanNo],
    no: PlanNo,
) -> Result<PlanKey, AllocError>
    requires { no.0 < length nodes.now }
    ensures { IfOk result (λ key. IsSomeAnd (slice_get nodes.now no.0) (λ n. IsFormerKey nodes.now former.now n key)) }
{
    let alloc = nodes.alloc();
    let op = renumbered(alloc, nodes.op(no), former)?;
    let (sources, targets) = nodes.scopes(no);
    let sources = sources.copy(alloc)?;
    let targets = targets.copy(alloc)?;
    let walk = copied(alloc, nodes.walk_scope(no))?;
    Ok(PlanKey {
        op,
        sources,
        targets,
        walk,
    })
}

fn copied(alloc: Global, scope: Option<&Scope>) -> Result<Option<Scope>, AllocError>
    ensures { IfOk result (λ copy. copy ≡ option_map (λ r. r.now) scope.entry) }
{
    match scope {
        Some(scope) => Ok(Some(scope.copy(alloc)?)),
        None => Ok(None),
    }
}

// Moves what is kept at the former numbers of the nodes to their places, at which nothing is kept as yet.
fn move_all(from: &mut Shelf, to: &mut Shelf, former: &[PlanNo])
    requires places { length former.now ≡ length to.old.kept }
    requires free { AddsFree [] to.old.kept }
    requires apart { AreFormerApart (length from.old.kept) former.now }
    requires room { rows_kept from.old.kept ≤ MAX_KEPT_ROWS }
    ensures feet { to.new.feet ≡ to.old.feet }
    ensures each { length to.new.kept ≡ length to.old.kept }
    ensures moved { (k : ℕ) → k < length former.now → slice_get to.new.kept k ≡ Some (kept_at from.old.kept (number_at former.now k)) }
{
    for place in 0..former.len() {
        move_kept(from, to, former[place], place);
    }
}

// Moves what is kept at a number, if the old shelf has it, to a place at which nothing is kept. There is room for it.
fn move_kept(from: &mut Shelf, to: &mut Shelf, was: PlanNo, place: usize)
    requires free { slice_get to.old.kept place ≡ Some None }
    requires room { rows_kept from.old.kept + rows_kept to.old.kept ≤ MAX_KEPT_ROWS }
    ensures taken { from.new.kept ≡ slice_set from.old.kept was.0 None }
    ensures feet { to.new.feet ≡ to.old.feet }
    ensures kept { to.new.kept ≡ slice_set to.old.kept place (kept_at from.old.kept was.0) }
{
    if was.0 as usize >= from.len() {
        return;
    }
    let Some(relation) = from.take_out(was.0 as usize) else {
        return;
    };
    let _room = to.keep(place, relation);
}
