//! Which hints are certain from a graph.
ghost use Rattle.std.specs.Prelude.{◌≡◌, ◌↔◌, IsTrue, IfOk};
ghost use Rattle.path_ast.specs.Terms.{path_term};
ghost use Rattle.question_hints.specs.Certain.{NoneHas, NoneHasLabel, IsCertain, AreCertain};
ghost use Rattle.question_hints.specs.Whole.{AreHints};

use crate::forms::possible;
use crate::having::{Trait, none_has, none_has_label};
use crate::hint::Hint;
use itpg_base::Name;
use itpg_graph::Graph;
use path_ast::Query;
use std::alloc::{AllocError, Global};

/// What is certainly a mistake about the question on the graph, in the order in which its path is read, each once.
///
/// A hint comes exactly if the path asks for what it names and it is certain: the graph lacks it.
/// `Err` comes only if memory runs out.
#[tactic(auto, using(crate::proofs::Whole::hints_whole))]
pub fn hints_of(alloc: Global, graph: &Graph, query: &Query) -> Result<Vec<Hint>, AllocError>
    ensures { IfOk result (λ hints. AreHints graph.now (path_term query.now.path) hints.items) }
{
    let hints = possible(alloc, &query.path)?;
    certain_of(alloc, graph, &hints)
}

// Those of the hints that are certain, in their order.
fn certain_of(alloc: Global, graph: &Graph, asked: &[Hint]) -> Result<Vec<Hint>, AllocError>
    ensures { IfOk result (λ hints. AreCertain graph.now asked.now hints.items) }
{
    let mut hints = Vec::new(alloc);
    for hint in asked {
        if is_certain(graph, hint) {
            hints.push(*hint)?;
        }
    }
    Ok(hints)
}

// Whether the hint is certain.
fn is_certain(graph: &Graph, hint: &Hint) -> bool
    ensures { IsTrue result ↔ IsCertain graph.now hint.now }
{
    match hint {
        Hint::NoLabel(label) => none_has_label(graph, label),
        Hint::NoProperty(prop) => none_has(graph, &Trait::Property(*prop)),
        Hint::NoValue { prop, value } => has_others(graph, *prop, *value),
        Hint::EdgeInRound(label) => is_of_edges(graph, label),
        Hint::EndsOnEdge | Hint::SelectiveEndLast => true,
    }
}

// Whether the property has values, but never this one.
fn has_others(graph: &Graph, prop: Name, value: Name) -> bool
    ensures { IsTrue result ↔ ((¬ NoneHas graph.now (Trait.Property prop)) × NoneHas graph.now (Trait.Value prop value)) }
{
    !none_has(graph, &Trait::Property(prop)) && none_has(graph, &Trait::Value { prop, value })
}

// Whether some objects have the label, and all of them are edges.
fn is_of_edges(graph: &Graph, label: &Name) -> bool
    ensures { IsTrue result ↔ ((¬ NoneHasLabel graph.now label.now) × NoneHas graph.now (Trait.NodeWith label.now)) }
{
    !none_has_label(graph, label) && none_has(graph, &Trait::NodeWith(*label))
}
