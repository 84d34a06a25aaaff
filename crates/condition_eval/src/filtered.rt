//! Objects of which a test holds at each moment.

ghost use Rattle.std.specs.Prelude.{ℤ, ◌↔◌, IsTrue, IfOk, IfSome};
ghost use Rattle.itpg_base.specs.Graphs.{Stands};
ghost use Rattle.relation_rows.specs.Relations.{Rise};
ghost use Rattle.path_ast.specs.Terms.{leaf_term};
ghost use Rattle.path_ast.specs.Meaning.{Sat};
ghost use Rattle.condition_eval.specs.Tested.{Stand};
ghost use Rattle.condition_eval.specs.Filtered.{AreThoseWith};

use itpg_base::ObjNo;
use itpg_graph::{Kind, Part};
use path_ast::Leaf;
use std::alloc::{AllocError, Global};

/// For `Node`, `Edge` and `Label`, which ask for the object alone: those of the objects of which the test holds. For each other test
/// `None`, unless there is no object.
///
/// The objects rise and stand.
pub fn objects_with(
    alloc: Global,
    graph: &Part<'_>,
    objects: &[ObjNo],
    leaf: &Leaf,
) -> Result<Option<Vec<ObjNo>>, AllocError>
    requires rise { Rise objects.now }
    requires stand { Stand graph.now objects.now }
    ensures { IfOk result (λ kept. IfSome kept (λ those. AreThoseWith (leaf_term leaf.now) graph.now objects.now those.items)) }
{
    let mut kept = Vec::new(alloc);
    for object in objects {
        let Some(holds) = holds_of(graph, *object, leaf) else {
            return Ok(None);
        };
        if holds {
            kept.push(*object)?;
        }
    }
    Ok(Some(kept))
}

// Whether a test that asks for the object alone holds of it.
fn holds_of(graph: &Part<'_>, object: ObjNo, leaf: &Leaf) -> Option<bool>
    requires { Stands graph.now object.0 }
    ensures { IfSome result (λ holds. (t : ℤ) → IsTrue holds ↔ Sat (leaf_term leaf.now) graph.now (record { object = object.0; moment = t })) }
{
    match leaf {
        Leaf::Node => Some(graph.kind(object) == Kind::Node),
        Leaf::Edge => Some(graph.kind(object) == Kind::Edge),
        Leaf::Label(label) => Some(graph.labels(object).has(label)),
        Leaf::Value { .. } | Leaf::Before(_) | Leaf::Exists => None,
    }
}
