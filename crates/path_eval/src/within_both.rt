//! The objects within two scopes, at which a path that keeps its object starts and ends.
ghost use Rattle.std.specs.Prelude.{◌↔◌, Contains, IsTrue, IfOk};
ghost use Rattle.itpg_base.specs.Graphs.{Good, Stands};
ghost use Rattle.itpg_base.specs.Words.{Word};
ghost use Rattle.relation_rows.specs.Relations.{Rise};
ghost use Rattle.label_scope.specs.Scopes.{IsWithin};
ghost use Rattle.condition_eval.specs.Tested.{Stand};
ghost use Rattle.path_eval.specs.WithinBoth.{AreWithinBoth, AreThoseWithin, IsWider};

use crate::basis::Ground;
use condition_eval::objects_within;
use itpg_base::ObjNo;
use itpg_graph::Part;
use label_scope::{Labels, Scope};
use std::alloc::AllocError;

/// The objects of the graph that stand and are within both scopes, rising. A scope that has all labels of the other is not
/// tested.
pub(crate) fn objects_within_both(
    ground: &Ground<'_>,
    a: &Scope,
    b: &Scope,
) -> Result<Vec<ObjNo>, AllocError>
    ensures within { IfOk result (λ objects. AreWithinBoth a.now b.now ground.now.graph.now objects.items) }
    ensures good { Good ground.now.graph.now }
{
    if covers(b, a) {
        let of_a = objects_within(ground.alloc, ground.graph, a)?;
        return Ok(of_a);
    }
    if covers(a, b) {
        let of_b = objects_within(ground.alloc, ground.graph, b)?;
        return Ok(of_b);
    }
    let sources = objects_within(ground.alloc, ground.graph, a)?;
    let both = those_within(ground, &sources, b)?;
    Ok(both)
}

// Whether the scopes alone tell that each object within the second is within the first.
fn covers(a: &Scope, b: &Scope) -> bool
    ensures { IsTrue result → IsWider a.now b.now }
{
    match (a, b) {
        (Scope::All, _) => true,
        (Scope::These(names), Scope::These(others)) => has_each(names, others),
        _ => false,
    }
}

// Whether the first list has each label of the second.
fn has_each(names: &Labels, others: &Labels) -> bool
    ensures { IsTrue result → (label : Word) → Contains others.now label → Contains names.now label }
{
    for name in others.names() {
        if !names.has(name) {
            return false;
        }
    }
    true
}

// Those of the objects that are within the scope.
fn those_within(
    ground: &Ground<'_>,
    objects: &[ObjNo],
    scope: &Scope,
) -> Result<Vec<ObjNo>, AllocError>
    requires rise { Rise objects.now }
    requires stand { Stand ground.now.graph.now objects.now }
    ensures { IfOk result (λ kept. AreThoseWithin scope.now ground.now.graph.now objects.now kept.items) }
{
    let mut kept = Vec::new(ground.alloc);
    for object in objects {
        if is_within(ground.graph, scope, *object) {
            kept.push(*object)?;
        }
    }
    Ok(kept)
}

/// Whether an object that stands is within the scope.
pub(crate) fn is_within(graph: &Part<'_>, scope: &Scope, object: ObjNo) -> bool
    requires { Stands graph.now object.0 }
    ensures { IsTrue result ↔ IsWithin scope.now graph.now object.0 }
{
    scope.has(graph.labels(object))
}
