//! A path as a node, with nodes for all its parts.
ghost use Rattle.std.specs.Prelude.{◌≡◌, ◌+◌, ◌-◌, ◌≤◌, ◌++◌, ◌∷◌, [], length, IfOk, OnErr};
ghost use Rattle.path_ast.specs.Terms.{path_term, test_term, Sequence, Choice, Repetition};
ghost use Rattle.path_ast.specs.Sizes.{path_size, test_size, IsPathInRange, IsTestInRange};
ghost use Rattle.label_scope.specs.declared.scope.Scope.TheVariants.{All};
ghost use Rattle.plan_cache.specs.Operations.{op_term, part_term, op_children, part_children};
ghost use Rattle.plan_cache.specs.Nodes.{IsNodeOf, IsWalkScope, narrowed_member};
ghost use Rattle.plan_cache.specs.Growing.{Grows, AddsUnder, DoesPath, DoesTest};
ghost use Rattle.plan_cache.specs.declared.nodes.TheConstants.{MAX_NODES};

use crate::key::PlanKey;
use crate::nodes::Nodes;
use crate::operations::{PlanNo, PlanOp, PlanTest};
use label_scope::{Scope, middle, narrow, passed};
use path_ast::{Path, Test};
use std::alloc::{AllocError, Global};

impl Nodes {
    /// The node of the path between all objects and all objects. What is missing of it is added.
    ///
    /// # Errors
    ///
    /// If memory runs out. Then the nodes are as they were.
    pub(crate) fn intern(&mut self, path: &Path) -> Result<PlanNo, AllocError>
        requires in_range { IsPathInRange (path_term path.now) }
        requires room { length self.old + path_size (path_term path.now) ≤ MAX_NODES }
        ensures node { IfOk result (λ no. IsNodeOf self.new no.0 (narrowed_member (path_term path.now) All All)) }
        ensures only { IfOk result (λ no. AddsUnder self.old self.new (no.0 ∷ [])) }
        ensures grows { Grows (path_size (path_term path.now)) self.old self.new }
        ensures few { length self.new ≤ length self.old + (path_size (path_term path.now)) }
        ensures same { OnErr result (self.new ≡ self.old) }
    {
        let standing = self.len();
        match self.node_of(path, &Scope::All, &Scope::All) {
            Ok(no) => Ok(no),
            Err(AllocError) => {
                self.cut_back(standing);
                Err(AllocError)
            }
        }
    }

    // The node of the path between two scopes.
    #[cycle(interning)]
    fn node_of(&mut self, path: &Path, a: &Scope, b: &Scope) -> Result<PlanNo, AllocError>
        requires in_range { IsPathInRange (path_term path.now) }
        requires room { length self.old + path_size (path_term path.now) ≤ MAX_NODES }
        ensures node { IfOk result (λ no. IsNodeOf self.new no.0 (narrowed_member (path_term path.now) a.now b.now)) }
        ensures only { IfOk result (λ no. AddsUnder self.old self.new (no.0 ∷ [])) }
        ensures grows { Grows (path_size (path_term path.now)) self.old self.new }
        ensures few { length self.new ≤ length self.old + (path_size (path_term path.now)) }
    {
        let (sources, targets) = narrow(self.alloc(), path, a, b)?;
        let walk = walk_of(self.alloc(), path, &sources, &targets)?;
        let op = self.operation_of(path, &sources, &targets)?;
        self.place(PlanKey {
            op,
            sources,
            targets,
            walk,
        })
    }

    // What the node of a path between two narrowed scopes does.
    #[cycle(interning)]
    fn operation_of(&mut self, path: &Path, a: &Scope, b: &Scope) -> Result<PlanOp, AllocError>
        requires in_range { IsPathInRange (path_term path.now) }
        requires room { length self.old + path_size (path_term path.now) ≤ MAX_NODES }
        ensures does { IfOk result (λ op. DoesPath self.new (op_term op) (path_term path.now) a.now b.now) }
        ensures only { IfOk result (λ op. AddsUnder self.old self.new (op_children (op_term op))) }
        ensures grows { Grows (path_size (path_term path.now) - 1) self.old self.new }
        ensures few { length self.new ≤ length self.old + (path_size (path_term path.now) - 1) }
    {
        match path {
            Path::Test(test) => Ok(PlanOp::Test(self.test_of(test, a)?)),
            Path::F => Ok(PlanOp::F),
            Path::B => Ok(PlanOp::B),
            Path::N => Ok(PlanOp::N),
            Path::P => Ok(PlanOp::P),
            Path::Seq(first, second) => self.sequence_of(first, second, a, b),
            Path::Alt(one, other) => self.choice_of(one, other, a, b),
            Path::Repeat { body, least, most } => self.repetition_of(body, *least, *most, a, b),
        }
    }

    #[cycle(interning)]
    fn sequence_of(
        &mut self,
        first: &Path,
        second: &Path,
        a: &Scope,
        b: &Scope,
    ) -> Result<PlanOp, AllocError>
        requires first { IsPathInRange (path_term first.now) }
        requires second { IsPathInRange (path_term second.now) }
        requires room { length self.old + path_size (path_term first.now) + path_size (path_term second.now) ≤ MAX_NODES }
        ensures does { IfOk result (λ op. DoesPath self.new (op_term op) (Sequence (path_term first.now) (path_term second.now)) a.now b.now) }
        ensures only { IfOk result (λ op. AddsUnder self.old self.new (op_children (op_term op))) }
        ensures grows { Grows (path_size (path_term first.now) + path_size (path_term second.now)) self.old self.new }
        ensures few { length self.new ≤ length self.old + (path_size (path_term first.now) + path_size (path_term second.now)) }
    {
        let meeting = middle(self.alloc(), first, second, a, b)?;
        let before = self.node_of(first, a, &meeting)?;
        let after = self.node_of(second, &meeting, b)?;
        Ok(PlanOp::Seq(before, after))
    }

    #[cycle(interning)]
    fn choice_of(
        &mut self,
        one: &Path,
        other: &Path,
        a: &Scope,
        b: &Scope,
    ) -> Result<PlanOp, AllocError>
        requires first { IsPathInRange (path_term one.now) }
        requires second { IsPathInRange (path_term other.now) }
        requires room { length self.old + path_size (path_term one.now) + path_size (path_term other.now) ≤ MAX_NODES }
        ensures does { IfOk result (λ op. DoesPath self.new (op_term op) (Choice (path_term one.now) (path_term other.now)) a.now b.now) }
        ensures only { IfOk result (λ op. AddsUnder self.old self.new (op_children (op_term op))) }
        ensures grows { Grows (path_size (path_term one.now) + path_size (path_term other.now)) self.old self.new }
        ensures few { length self.new ≤ length self.old + (path_size (path_term one.now) + path_size (path_term other.now)) }
    {
        let by_one = self.node_of(one, a, b)?;
        let by_other = self.node_of(other, a, b)?;
        Ok(PlanOp::Alt(by_one, by_other))
    }

    #[cycle(interning)]
    fn repetition_of(
        &mut self,
        body: &Path,
        least: u64,
        most: Option<u64>,
        a: &Scope,
        b: &Scope,
    ) -> Result<PlanOp, AllocError>
        requires in_range { IsPathInRange (path_term body.now) }
        requires room { length self.old + path_size (path_term body.now) ≤ MAX_NODES }
        ensures does { IfOk result (λ op. DoesPath self.new (op_term op) (Repetition (path_term body.now) least most) a.now b.now) }
        ensures only { IfOk result (λ op. AddsUnder self.old self.new (op_children (op_term op))) }
        ensures grows { Grows (path_size (path_term body.now)) self.old self.new }
        ensures few { length self.new ≤ length self.old + (path_size (path_term body.now)) }
    {
        let within = passed(self.alloc(), body, a, b)?;
        let body = self.node_of(body, &within, &within)?;
        Ok(PlanOp::Repeat { body, least, most })
    }

    // The test, with a node for each condition of it on the objects of the scope.
    #[cycle(interning)]
    fn test_of(&mut self, test: &Test, a: &Scope) -> Result<PlanTest, AllocError>
        requires in_range { IsTestInRange (test_term test.now) }
        requires room { length self.old + test_size (test_term test.now) ≤ MAX_NODES }
        ensures does { IfOk result (λ part. DoesTest self.new (part_term part) (test_term test.now) a.now) }
        ensures only { IfOk result (λ part. AddsUnder self.old self.new (part_children (part_term part))) }
        ensures grows { Grows (test_size (test_term test.now) - 1) self.old self.new }
        ensures few { length self.new ≤ length self.old + (test_size (test_term test.now) - 1) }
    {
        match test {
            Test::Leaf(leaf) => Ok(PlanTest::Leaf(*leaf)),
            Test::Cond(path) => Ok(PlanTest::Cond(self.node_of(path, a, &Scope::All)?)),
            Test::And(one, other) => {
                let (one, other) = self.both_of(one, other, a)?;
                Ok(PlanTest::And(one, other))
            }
            Test::Or(one, other) => {
                let (one, other) = self.both_of(one, other, a)?;
                Ok(PlanTest::Or(one, other))
            }
            Test::Not(negated) => {
                let negated = self.test_of(negated, a)?;
                Ok(PlanTest::Not(Box::new(self.alloc(), negated)?))
            }
        }
    }

    #[cycle(interning)]
    fn both_of(
        &mut self,
        one: &Test,
        other: &Test,
        a: &Scope,
    ) -> Result<(Box<PlanTest>, Box<PlanTest>), AllocError>
        requires one { IsTestInRange (test_term one.now) }
        requires other { IsTestInRange (test_term other.now) }
        requires room { length self.old + test_size (test_term one.now) + test_size (test_term other.now) ≤ MAX_NODES }
        ensures one { IfOk result (λ both. DoesTest self.new (part_term both.0.value) (test_term one.now) a.now) }
        ensures other { IfOk result (λ both. DoesTest self.new (part_term both.1.value) (test_term other.now) a.now) }
        ensures only { IfOk result (λ both. AddsUnder self.old self.new (part_children (part_term both.0.value) ++ part_children (part_term both.1.value))) }
        ensures grows { Grows (test_size (test_term one.now) + test_size (test_term other.now)) self.old self.new }
        ensures few { length self.new ≤ length self.old + (test_size (test_term one.now) + test_size (test_term other.now)) }
    {
        let one = self.test_of(one, a)?;
        let other = self.test_of(other, a)?;
        let one = Box::new(self.alloc(), one)?;
        Ok((one, Box::new(self.alloc(), other)?))
    }
}

// Of a repetition the scope of all objects that it passes; `None` for another path.
fn walk_of(
    alloc: Global,
    path: &Path,
    sources: &Scope,
    targets: &Scope,
) -> Result<Option<Scope>, AllocError>
    ensures { IfOk result (λ walk. IsWalkScope (record { path = path_term path.now; sources = sources.now; targets = targets.now }) walk) }
{
    match path {
        Path::Repeat { body, .. } => Ok(Some(passed(alloc, body, sources, targets)?)),
        _ => Ok(None),
    }
}
