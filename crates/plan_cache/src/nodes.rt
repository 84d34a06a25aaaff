//! The nodes, each once, in order of first sight.
ghost use Rattle.std.specs.Prelude.{◌≡◌, ◌<◌, ◌≤◌, ℕ, [], Some, length, option_map, take, slice_get, IfOk, IfSome, IsNone, OnErr, IsSomeAnd};
ghost use Rattle.plan_cache.specs.Operations.{op_term};
ghost use Rattle.plan_cache.specs.Nodes.{PlanNode, IsOperation, IsWalkScope, AreShared};
ghost use Rattle.plan_cache.specs.Stored.{node_of, MayFollow};
ghost use Rattle.plan_cache.specs.Growing.{Grows};
ghost use Rattle.plan_cache.specs.Former.{IsMadeBy};

use crate::key::PlanKey;
use crate::operations::{PlanNo, PlanOp};
use indexmap::IndexSet;
use label_scope::Scope;
use std::alloc::{AllocError, Global};
use std::marker::Model;

/// How many plan nodes there may be.
pub const MAX_NODES: u32 = 65_536;

/// The nodes of a table. No two are of one path between the same scopes.
#[derive(Drop)]
pub(crate) struct Nodes {
    keys: IndexSet<PlanKey>,
}

impl Model for Nodes {
    ghost use Rattle.std.specs.Prelude.{List, []};
    ghost use Rattle.std.specs.Coded.{codes};
    ghost use Rattle.path_ast.specs.Codes.{coded_path};
    ghost use Rattle.plan_cache.specs.Nodes.{PlanNode};

    ghost Value = { List PlanNode };

    ghost coded = { Prim.hlevel (codes, coded_path) };

    ghost use Rattle.plan_cache.specs.Stored.{nodes_from, AreStored};

    ghost view = { λ n. nodes_from [] n.keys.keys };

    ghost invariant = { λ n. AreStored n.keys.keys };
}

impl Nodes {
    /// No nodes. It takes no memory.
    pub(crate) fn new(alloc: Global) -> Nodes
        ensures { result ≡ [] }
    {
        Nodes {
            keys: IndexSet::new(alloc),
        }
    }

    /// How many nodes there are.
    pub(crate) fn len(&self) -> u32
        ensures count { result ≡ length self.now }
        ensures few { result ≤ MAX_NODES }
        ensures shared { AreShared self.now }
    {
        self.keys.len() as u32
    }

    /// What the node does.
    pub(crate) fn op(&self, no: PlanNo) -> &PlanOp
        requires { no.0 < length self.now }
        ensures { IsSomeAnd (slice_get self.now no.0) (λ n. IsOperation self.now n (op_term result.now)) }
    {
        &self.keys[no.0 as usize].op
    }

    /// The scopes of the node's sources and targets.
    pub(crate) fn scopes(&self, no: PlanNo) -> (&Scope, &Scope)
        requires { no.0 < length self.now }
        ensures { IsSomeAnd (slice_get self.now no.0) (λ n. (n.member.sources ≡ result.0.now) × (n.member.targets ≡ result.1.now)) }
    {
        let key = &self.keys[no.0 as usize];
        (&key.sources, &key.targets)
    }

    /// Of a repetition the scope of all objects that it passes; `None` for every other operation.
    pub(crate) fn walk_scope(&self, no: PlanNo) -> Option<&Scope>
        requires { no.0 < length self.now }
        ensures { IsSomeAnd (slice_get self.now no.0) (λ n. IsWalkScope n.member (option_map (λ r. r.now) result)) }
    {
        self.keys[no.0 as usize].walk.as_ref()
    }

    /// The node of this key; `None` exactly if there is none.
    pub(crate) fn find(&self, key: &PlanKey) -> Option<PlanNo>
        ensures some { IfSome result (λ no. IsSomeAnd (slice_get self.now no.0) (λ n. IsMadeBy self.now n key.now)) }
        ensures none { IsNone result → (k : ℕ) (n : PlanNode) → slice_get self.now k ≡ Some n → ¬ IsMadeBy self.now n key.now }
    {
        match self.keys.get_index_of(key) {
            Some(index) => Some(PlanNo(index as u32)),
            None => None,
        }
    }

    pub(crate) fn alloc(&self) -> Global {
        *self.keys.allocator()
    }

    // The node of this key, which is added if there is none.
    pub(crate) fn place(&mut self, key: PlanKey) -> Result<PlanNo, AllocError>
        requires room { length self.old < MAX_NODES }
        requires follows { MayFollow self.old key }
        ensures placed { IfOk result (λ no. slice_get self.new no.0 ≡ Some (node_of self.old key)) }
        ensures added { IfOk result (λ no. (k : ℕ) → length self.old ≤ k → k < length self.new → k ≡ no.0) }
        ensures grows { Grows 1 self.old self.new }
        ensures same { OnErr result (self.new ≡ self.old) }
    {
        let (index, _) = self.keys.insert_full(key)?;
        Ok(PlanNo(index as u32))
    }

    // Takes the nodes away from this number on.
    pub(crate) fn cut_back(&mut self, len: u32)
        requires { len ≤ length self.old }
        ensures { self.new ≡ take len self.old }
    {
        self.keys.truncate(len as usize);
    }
}
