//! What the objects of a graph have.
ghost use Rattle.std.specs.Prelude.{◌≡◌, ◌↔◌, ℤ, IsTrue};
ghost use Rattle.itpg_base.specs.Graphs.{Good, Val};
ghost use Rattle.itpg_graph.specs.Families.{HasProperty};
ghost use Rattle.itpg_graph.specs.WithLabel.{StandsWith};
ghost use Rattle.path_ast.specs.Meaning.{IsNodeOf};
ghost use Rattle.question_hints.specs.Certain.{Has, NoneHas, NoneHasLabel};

use itpg_base::{Name, ObjNo};
use itpg_graph::{Graph, Kind};

/// What an object may have.
#[derive(Clone, Copy, Drop)]
pub(crate) enum Trait {
    /// A value of the property at some moment.
    Property(Name),
    /// This value of the property at some moment.
    Value { prop: Name, value: Name },
    /// The label, if it is a node.
    NodeWith(Name),
}

/// Whether no standing object has the label.
pub(crate) fn none_has_label(graph: &Graph, label: &Name) -> bool
    ensures { IsTrue result ↔ NoneHasLabel graph.now label.now }
{
    graph.labelled(label).is_empty()
}

/// Whether no object has what is wanted.
#[tactic(auto, unfolding(crate::specs::Certain::NoneHas))]
pub(crate) fn none_has(graph: &Graph, wanted: &Trait) -> bool
    ensures { IsTrue result ↔ NoneHas graph.now wanted.now }
{
    for number in 0..graph.declared() {
        if has(graph, ObjNo(number), wanted) {
            return false;
        }
    }
    true
}

fn has(graph: &Graph, o: ObjNo, wanted: &Trait) -> bool
    requires { Good graph.now }
    ensures { IsTrue result ↔ Has graph.now wanted.now o.0 }
{
    match wanted {
        Trait::Property(prop) => has_property(graph, o, prop),
        Trait::Value { prop, value } => has_value(graph, o, prop, value),
        Trait::NodeWith(label) => is_node_with(graph, o, label),
    }
}

fn has_property(graph: &Graph, o: ObjNo, prop: &Name) -> bool
    requires { Good graph.now }
    ensures { IsTrue result ↔ HasProperty graph.now o.0 prop.now }
{
    if !graph.standing(o) {
        return false;
    }
    graph.value(o, prop).is_some()
}

fn has_value(graph: &Graph, o: ObjNo, prop: &Name, value: &Name) -> bool
    requires { Good graph.now }
    ensures { IsTrue result ↔ ((t : ℤ) × Val graph.now o.0 prop.now t value.now) }
{
    if !graph.standing(o) {
        return false;
    }
    match graph.value(o, prop) {
        None => false,
        Some(values) => values.has(value),
    }
}

fn is_node_with(graph: &Graph, o: ObjNo, label: &Name) -> bool
    ensures { IsTrue result ↔ (StandsWith graph.now label.now o.0 × IsNodeOf graph.now o.0) }
{
    if !graph.standing(o) {
        return false;
    }
    graph.labels(o).has(label) && graph.kind(o) == Kind::Node
}
