//! An edit, as a line says it.
use itpg_base::{LabelSet, Name};

/// One change of a graph, as a line of a script asks for it.
///
/// Moments are whole numbers from -`MAX_MOMENT` to `MAX_MOMENT` of `itpg_base`, and a span has both its ends. Whether the graph allows the change is no
/// part of the value: the first moment may be after the second, and the name may be no object's.
///
/// ```text
///     node a Person      AddNode { id: a, labels: {Person} }
///     live a 0 20        Live { id: a, from: 0, to: 20 }
/// ```
#[derive(Clone, Copy)]
pub enum Edit {
    /// Begins the graph with this name and the horizon from `lo` to `hi`.
    Begin {
        name: Name,
        lo: i64,
        hi: i64,
    },
    /// Gives the graph the horizon from `lo` to `hi`, which has each moment of the old one.
    Extend {
        lo: i64,
        hi: i64,
    },
    /// Declares a node.
    AddNode {
        id: Name,
        labels: LabelSet,
    },
    /// Declares an edge from the node `source` to the node `target`.
    AddEdge {
        id: Name,
        labels: LabelSet,
        source: Name,
        target: Name,
    },
    /// Lets the object exist at each moment of the span.
    Live {
        id: Name,
        from: i64,
        to: i64,
    },
    /// Lets the object exist at no moment of the span, and takes its values there away.
    Gone {
        id: Name,
        from: i64,
        to: i64,
    },
    /// Gives the property this value at each moment of the span.
    Put {
        id: Name,
        prop: Name,
        value: Name,
        from: i64,
        to: i64,
    },
    /// Takes the values of the property in the span away.
    Clear {
        id: Name,
        prop: Name,
        from: i64,
        to: i64,
    },
    /// Drops the object: it no longer stands, and its name may be declared anew.
    Remove {
        id: Name,
    },
}
