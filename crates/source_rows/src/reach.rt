//! What is reached from an object.

ghost use Rattle.std.specs.Prelude.{◌≡◌, ◌⊎◌, ◌↔◌, ℕ, Some, [], IsTrue, IsFalse, IfOk, OnOk, option_map};
ghost use Rattle.itpg_base.specs.Graphs.{Good, Stands, HasEnd};
ghost use Rattle.itpg_graph.specs.Edges.{AreNumbers, HasNumber};
ghost use Rattle.itpg_graph.specs.GraphParts.{ArePart};
ghost use Rattle.source_rows.specs.Reach.{IsStep, Reach};
ghost use Rattle.source_rows.specs.Found.{IsSeen, Gains, IsNext, IsEndOf, IsFound};

use itpg_base::ObjNo;
use itpg_graph::Graph;
use std::alloc::{AllocError, Global};
use std::collections::BTreeSet;
use std::marker::Model;
use std::mem;

/// What was found on the way from an object, and of it what was found last.
#[derive(Drop)]
struct Found {
    seen: BTreeSet<u32>,
    fresh: Vec<ObjNo>,
}

impl Model for Found {
    ghost use Rattle.source_rows.specs.Found.{Found as Seen};

    ghost Value = { Seen };

    ghost view = { λ f. record { seen = f.seen; fresh = f.fresh.items } };
}

impl Found {
    /// Nothing. It takes no memory.
    fn new(alloc: Global) -> Found
        ensures seen { (a : ℕ) → IsSeen result a → ⊥ }
        ensures fresh { result.fresh ≡ [] }
    {
        Found {
            seen: BTreeSet::new(alloc),
            fresh: Vec::new(alloc),
        }
    }

    /// Finds the object.
    fn add(&mut self, object: ObjNo) -> Result<(), AllocError>
        ensures { OnOk result (Gains (λ a. a ≡ object.0) self.old self.new) }
    {
        if self.seen.insert(object.0)? {
            self.fresh.push(object)?;
        }
        Ok(())
    }

    /// Finds the objects of the list.
    fn add_all(&mut self, objects: &[ObjNo]) -> Result<(), AllocError>
        ensures { OnOk result (Gains (λ a. HasNumber objects.now a) self.old self.new) }
    {
        for object in objects {
            self.add(*object)?;
        }
        Ok(())
    }

    /// Finds all that one step leads to from the object.
    fn step_from(&mut self, graph: &Graph, object: ObjNo) -> Result<(), AllocError>
        requires good { Good graph.now }
        requires stands { Stands graph.now object.0 }
        ensures { OnOk result (Gains (λ a. IsStep graph.now object.0 a) self.old self.new) }
    {
        match graph.ends(object) {
            Some((source, target)) => {
                self.add(source)?;
                self.add(target)
            }
            None => {
                self.add_all(graph.out_edges(object))?;
                self.add_all(graph.in_edges(object))
            }
        }
    }
}

impl Found {
    /// Goes one step on: finds all that one step leads to from what was found last.
    fn widen(&mut self, alloc: Global, graph: &Graph) -> Result<(), AllocError>
        requires good { Good graph.now }
        requires stand { (a : ℕ) → HasNumber self.old.fresh a → Stands graph.now a }
        ensures { OnOk result (Gains (IsNext graph.now self.old.fresh) (record self.old { fresh = [] }) self.new) }
    {
        let last = mem::replace(&mut self.fresh, Vec::new(alloc));
        for object in &last {
            self.step_from(graph, *object)?;
        }
        Ok(())
    }

    /// Finds the ends of the edges that were found last.
    fn add_ends(&mut self, alloc: Global, graph: &Graph) -> Result<(), AllocError>
        requires stand { (a : ℕ) → HasNumber self.old.fresh a → Stands graph.now a }
        ensures { OnOk result ((a : ℕ) → IsSeen self.new a ↔ (IsSeen self.old a ⊎ IsEndOf graph.now self.old.fresh a)) }
    {
        let last = mem::replace(&mut self.fresh, Vec::new(alloc));
        for object in &last {
            if let Some((source, target)) = graph.ends(*object) {
                self.add(source)?;
                self.add(target)?;
            }
        }
        Ok(())
    }

    /// What was found, rising.
    fn listed(&self, alloc: Global) -> Result<Vec<ObjNo>, AllocError>
        ensures { IfOk result (λ objects. AreNumbers (IsSeen self.now) objects.items) }
    {
        let mut objects = Vec::new(alloc);
        for number in self.seen.iter() {
            objects.push(ObjNo(*number))?;
        }
        Ok(objects)
    }
}

/// What was found in at most so many steps from a standing object.
fn found_within(
    alloc: Global,
    graph: &Graph,
    object: ObjNo,
    steps: u64,
) -> Result<Found, AllocError>
    requires good { Good graph.now }
    requires stands { Stands graph.now object.0 }
    ensures { IfOk result (λ found. IsFound graph.now object.0 steps found) }
{
    let mut found = Found::new(alloc);
    found.add(object)?;
    for turn in 0..steps {
        if found.fresh.is_empty() {
            return Ok(found);
        }
        found.widen(alloc, graph)?;
    }
    Ok(found)
}

/// The objects that are reached from a standing object in at most so many steps, and the ends of the edges among them, rising.
/// `None` takes no bound.
///
/// ```text
///     a --m--> b --n--> c      from a, 0 steps: a        1 step: a, m and its end b
///                              2 steps: a, m, b          3 steps: a, m, b, n and its end c
/// ```
pub fn near_objects(
    alloc: Global,
    graph: &Graph,
    object: ObjNo,
    steps: Option<u64>,
) -> Result<Vec<ObjNo>, AllocError>
    requires { Stands graph.now object.0 }
    ensures reach { IfOk result (λ objects. AreNumbers (Reach graph.now object.0 steps) objects.items) }
    ensures part { IfOk result (λ objects. ArePart graph.now objects.items) }
{
    let declared = graph.declared();
    let mut found = found_within(alloc, graph, object, steps.unwrap_or(declared as u64))?;
    found.add_ends(alloc, graph)?;
    found.listed(alloc)
}
