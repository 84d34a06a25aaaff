//! What an edit asks for, once it is read against the graph.
ghost use Rattle.std.specs.Prelude.{◌≡◌};
ghost use Rattle.itpg_edit.specs.Changes.{IsFound, Touches};

use interval_set::Span;
use itpg_base::{LabelSet, Name, ObjNo, Touch};
use itpg_graph::Graph;

/// An object and the span that an edit changes something of it over.
#[derive(Clone, Copy)]
pub(crate) struct Site {
    pub(crate) object: ObjNo,
    pub(crate) span: Span,
}

impl Site {
    /// The same span of another object.
    pub(crate) fn of(&self, object: ObjNo) -> Site
        ensures object { result.object ≡ object }
        ensures span { result.span ≡ self.now.span }
    {
        Site {
            object,
            span: self.span,
        }
    }
}

/// One change of a graph: an edit with objects in place of names, and spans in place of moments. The names that it still has and sets of
/// labels, which are large, stay in the edit.
#[derive(Clone, Copy)]
pub(crate) enum Change<'a> {
    /// Begins the graph.
    Begin {
        name: &'a Name,
        horizon: Span,
    },
    /// Widens the horizon to this one.
    Widen(Span),
    /// Declares a node.
    AddNode {
        id: &'a Name,
        labels: &'a LabelSet,
    },
    /// Declares an edge.
    AddEdge {
        id: &'a Name,
        labels: &'a LabelSet,
        source: ObjNo,
        target: ObjNo,
    },
    /// Lets the object exist in the span.
    Live(Site),
    /// Ends the object's life in the span.
    Gone(Site),
    /// Gives the property the value in the span.
    Put {
        site: Site,
        prop: &'a Name,
        value: &'a Name,
    },
    /// Takes the property's values in the span away.
    Clear {
        site: Site,
        prop: &'a Name,
    },
    /// Drops the object.
    Remove(ObjNo),
}

impl<'a> Change<'a> {
    /// What the change touches, on the graph before it.
    pub(crate) fn touch(&self, graph: &Graph) -> Touch
        requires { IsFound graph.now self.now }
        ensures { Touches graph.now self.now result }
    {
        match *self {
            Change::Begin { .. } | Change::Widen(_) => Touch::All,
            Change::AddNode { labels, .. } => Touch::Shape(*labels),
            Change::AddEdge { labels, .. } => Touch::Shape(*labels),
            Change::Live(site) => Touch::Live(graph.labels(site.object)),
            Change::Gone(site) => Touch::Gone(graph.labels(site.object)),
            Change::Put { site, prop, .. } | Change::Clear { site, prop } => Touch::Value {
                labels: graph.labels(site.object),
                prop: *prop,
            },
            Change::Remove(object) => Touch::Shape(graph.labels(object)),
        }
    }
}
