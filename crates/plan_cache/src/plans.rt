//! The table of plan nodes.
ghost use Rattle.std.specs.Prelude.{◌≡◌, ◌+◌, ◌<◌, ◌≤◌, ◌↔◌, ◌∷◌, [], Some, None, length, option_map, slice_get, slice_set, IsOk, IfOk, IfErr, OnOk, OnErr, IsSomeAnd};
ghost use Rattle.path_ast.specs.Terms.{path_term};
ghost use Rattle.path_ast.specs.Sizes.{path_size, IsPathInRange};
ghost use Rattle.label_scope.specs.declared.scope.Scope.TheVariants.{All};
ghost use Rattle.plan_cache.specs.Operations.{op_term};
ghost use Rattle.plan_cache.specs.Nodes.{IsNodeOf, IsOperation, IsWalkScope, AreShared, narrowed_member};
ghost use Rattle.plan_cache.specs.Footprints.{footprint_of, footprints_of};
ghost use Rattle.plan_cache.specs.KeptRows.{rows_kept, AddsFree, Forgets};
ghost use Rattle.plan_cache.specs.Growing.{Grows, AddsUnder};
ghost use Rattle.plan_cache.specs.declared.nodes.TheConstants.{MAX_NODES};

use crate::feet::add_places;
use crate::nodes::Nodes;
use crate::operations::{PlanNo, PlanOp};
use crate::shelf::{MAX_KEPT_ROWS, Shelf};
use itpg_base::Touch;
use label_scope::{Footprint, Scope};
use path_ast::Query;
use relation_rows::Relation;
use std::alloc::{AllocError, Global};
use std::marker::Model;
use std::rc::Rc;

/// The plan nodes of all queries so far: paths between two scopes, each once, and the numbers of their parts' nodes.
///
/// ```text
///     (x:Person)-/FWD/-(y)       number   path                              sources    targets   children
///                                0        Node and Exists and :Person       {Person}   {Person}
///                                1        F                                 {Person}   All
///                                2        Exists                            All        All
///                                3        F and then Exists                 {Person}   All       1, 2
///                                ..       ..
/// ```
///
/// There are at most `MAX_NODES`. At each a relation may be kept, with `MAX_KEPT_ROWS` rows at all nodes together. A contract sees the
/// list of the nodes, and for each the rows that are kept.
#[derive(Drop)]
pub struct Plans {
    pub(crate) nodes: Nodes,
    pub(crate) shelf: Shelf,
}

impl Model for Plans {
    ghost use Rattle.std.specs.Coded.{codes};
    ghost use Rattle.path_ast.specs.Codes.{coded_path};
    ghost use Rattle.plan_cache.specs.Nodes.{Table};

    ghost Value = { Table };

    ghost coded = { Prim.hlevel (codes, coded_path) };

    ghost use Rattle.plan_cache.specs.Shelves.{AreShelved};

    ghost view = { λ p. record { nodes = p.nodes; kept = p.shelf.kept } };

    ghost invariant = { λ p. AreShelved p.nodes p.shelf };
}

impl Plans {
    /// The table with no nodes. It takes no memory.
    pub fn new(alloc: Global) -> Plans
        ensures nodes { result.nodes ≡ [] }
        ensures kept { result.kept ≡ [] }
    {
        Plans {
            nodes: Nodes::new(alloc),
            shelf: Shelf::new(alloc),
        }
    }

    /// How many nodes there are: at most `MAX_NODES`.
    ///
    /// The children of each node have lower numbers, and no two nodes are of one path between the same scopes.
    pub fn len(&self) -> u32
        ensures count { result ≡ length self.now.nodes }
        ensures few { result ≤ MAX_NODES }
        ensures each { length self.now.kept ≡ length self.now.nodes }
        ensures shared { AreShared self.now.nodes }
    {
        self.nodes.len()
    }

    /// What the node does. The number is below `len`.
    pub fn op(&self, no: PlanNo) -> &PlanOp
        requires { no.0 < length self.now.nodes }
        ensures { IsSomeAnd (slice_get self.now.nodes no.0) (λ n. IsOperation self.now.nodes n (op_term result.now)) }
    {
        self.nodes.op(no)
    }

    /// The scopes of the node's sources and targets, narrowed by its path's labels. The number is below `len`.
    pub fn scopes(&self, no: PlanNo) -> (&Scope, &Scope)
        requires { no.0 < length self.now.nodes }
        ensures { IsSomeAnd (slice_get self.now.nodes no.0) (λ n. (n.member.sources ≡ result.0.now) × (n.member.targets ≡ result.1.now)) }
    {
        self.nodes.scopes(no)
    }

    /// Of a repetition the scope of all objects that it passes; `None` exactly if the node does something else.
    ///
    /// The number is below `len`.
    pub fn walk_scope(&self, no: PlanNo) -> Option<&Scope>
        requires { no.0 < length self.now.nodes }
        ensures { IsSomeAnd (slice_get self.now.nodes no.0) (λ n. IsWalkScope n.member (option_map (λ r. r.now) result)) }
    {
        self.nodes.walk_scope(no)
    }

    /// The footprint of the node's path between its scopes. The number is below `len`.
    pub fn foot_of(&self, no: PlanNo) -> &Footprint
        requires { no.0 < length self.now.nodes }
        ensures { IsSomeAnd (slice_get self.now.nodes no.0) (λ n. result.now ≡ footprint_of n.member) }
    {
        &self.shelf.feet()[no.0 as usize]
    }

    /// The node of the query's path between all objects and all objects.
    ///
    /// What is missing of it is added behind the other nodes: at most as many nodes as the path has terms, and none but the
    /// answer, its children, their children and so on. The path is in range, and there is room for as many nodes as it has
    /// terms. Nothing is kept at a new node, and at the others what was.
    ///
    /// # Errors
    ///
    /// If memory runs out. Then the table is as it was.
    pub fn intern(&mut self, query: &Query) -> Result<PlanNo, AllocError>
        requires in_range { IsPathInRange (path_term query.now.path) }
        requires room { length self.old.nodes + path_size (path_term query.now.path) ≤ MAX_NODES }
        ensures node { IfOk result (λ no. IsNodeOf self.new.nodes no.0 (narrowed_member (path_term query.now.path) All All)) }
        ensures only { IfOk result (λ no. AddsUnder self.old.nodes self.new.nodes (no.0 ∷ [])) }
        ensures grows { Grows (path_size (path_term query.now.path)) self.old.nodes self.new.nodes }
        ensures kept { AddsFree self.old.kept self.new.kept }
        ensures same { OnErr result (self.new ≡ self.old) }
    {
        let standing = self.nodes.len();
        let no = self.nodes.intern(&query.path)?;
        match add_places(&self.nodes, &mut self.shelf) {
            Ok(()) => Ok(no),
            Err(AllocError) => {
                self.nodes.cut_back(standing);
                self.shelf.cut_back(standing as usize);
                Err(AllocError)
            }
        }
    }

    /// What is kept at the node; `None` exactly if nothing is. The number is below `len`.
    pub fn kept(&self, no: PlanNo) -> Option<&Rc<Relation>>
        requires { no.0 < length self.now.nodes }
        ensures { Some (option_map (λ r. r.now.value) result) ≡ slice_get self.now.kept no.0 }
    {
        self.shelf.kept(no.0 as usize)
    }

    /// How many rows are kept at all nodes: at most `MAX_KEPT_ROWS`.
    pub fn kept_rows(&self) -> u64
        ensures rows { result ≡ rows_kept self.now.kept }
        ensures few { result ≤ MAX_KEPT_ROWS }
    {
        self.shelf.kept_rows()
    }

    /// Keeps a relation at a node at which nothing is kept. It takes no memory.
    ///
    /// # Errors
    ///
    /// The relation, handed back, exactly if the kept rows with it would be more than `MAX_KEPT_ROWS`. Then the table is as it
    /// was.
    pub fn keep(&mut self, no: PlanNo, relation: Rc<Relation>) -> Result<(), Rc<Relation>>
        requires { slice_get self.old.kept no.0 ≡ Some None }
        ensures ok { IsOk result ↔ (rows_kept self.old.kept + length relation.value ≤ MAX_KEPT_ROWS) }
        ensures nodes { self.new.nodes ≡ self.old.nodes }
        ensures kept { OnOk result (self.new.kept ≡ slice_set self.old.kept no.0 (Some relation.value)) }
        ensures same { OnErr result (self.new ≡ self.old) }
        ensures back { IfErr result (λ back. back ≡ relation) }
    {
        self.shelf.keep(no.0 as usize, relation)
    }

    /// Forgets the relations whose node's footprint the touch meets, and keeps every other one. It takes no memory.
    ///
    /// ```text
    ///     touch           F between {Person} and {meets}     Exists on {meets}
    ///     live meets      stays                              is forgotten
    ///     shape Person    is forgotten                       stays
    /// ```
    pub fn forget(&mut self, touch: &Touch)
        ensures nodes { self.new.nodes ≡ self.old.nodes }
        ensures kept { Forgets touch.now (footprints_of self.old.nodes) self.old.kept self.new.kept }
    {
        self.shelf.forget(touch)
    }
}
