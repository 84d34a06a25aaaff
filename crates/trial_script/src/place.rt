//! Where a script is continued.
use crate::line::{DrawnEdge, Question};

/// The line that comes next.
#[derive(Clone, Copy)]
pub(crate) enum Place {
    Graph,
    Node(u64),
    NodeLife(u64),
    Edge(u64),
    EdgeLife(DrawnEdge),
    /// The line of this person or of the first one behind that has a line.
    Person(u64),
    Ask(Question),
    /// No line is left.
    End,
}
