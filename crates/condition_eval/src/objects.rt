//! Objects by their labels.

ghost use Rattle.std.specs.Prelude.{◌≡◌, ◌↔◌, ◌∷◌, [], IsTrue, IfOk, IfSome};
ghost use Rattle.itpg_base.specs.Graphs.{Good, Stands};
ghost use Rattle.label_scope.specs.Scopes.{IsWithin, one_label};
ghost use Rattle.condition_eval.specs.Within.{AreWithin};

use itpg_base::{Name, ObjNo};
use itpg_graph::Part;
use label_scope::{Labels, Scope};
use std::alloc::{AllocError, Global};

/// The objects of the graph that stand and have a label in the scope, rising. Of a part no object beside it is looked at.
///
/// For a scope of one label only the objects with that label are looked at, which the graph lists.
pub fn objects_within(
    alloc: Global,
    graph: &Part<'_>,
    scope: &Scope,
) -> Result<Vec<ObjNo>, AllocError>
    ensures within { IfOk result (λ objects. AreWithin scope.now graph.now objects.items) }
    ensures good { Good graph.now }
{
    match only_label(scope) {
        Some(label) => {
            let listed = graph.objects_of(alloc, label)?;
            Ok(listed)
        }
        None => each_within(alloc, graph, scope),
    }
}

// The label of a scope that has one.
fn only_label(scope: &Scope) -> Option<&Name>
    ensures { IfSome result (λ label. scope.now ≡ one_label label.now) }
{
    match scope {
        Scope::All => None,
        Scope::These(labels) => only_one(labels),
    }
}

// The label of a list that has one.
fn only_one(labels: &Labels) -> Option<&Name>
    ensures { IfSome result (λ label. labels.now ≡ label.now ∷ []) }
{
    let names = labels.names();
    if names.len() == 1 {
        names.first()
    } else {
        None
    }
}

// The objects within the scope, found by going through all that stand.
fn each_within(alloc: Global, graph: &Part<'_>, scope: &Scope) -> Result<Vec<ObjNo>, AllocError>
    ensures within { IfOk result (λ objects. AreWithin scope.now graph.now objects.items) }
    ensures good { Good graph.now }
{
    let mut objects = Vec::new(alloc);
    let mut from = 0;
    while let Some(object) = graph.next_standing(from) {
        if is_within(graph, scope, object) {
            objects.push(object)?;
        }
        from = object.0 as usize + 1;
    }
    Ok(objects)
}

// Whether an object that stands has a label in the scope.
fn is_within(graph: &Part<'_>, scope: &Scope, object: ObjNo) -> bool
    requires { Stands graph.now object.0 }
    ensures { IsTrue result ↔ IsWithin scope.now graph.now object.0 }
{
    scope.has(graph.labels(object))
}
