//! Paths, tests and queries as they are kept.

use itpg_base::Name;

/// A path: it leads from points to points, where a point is a standing object at a moment of the horizon.
///
/// ```text
///  b             o--N-->o       Of the nodes a and b and the edge e from a to b,
///                ^              the path N/F/F/N leads from a at 3 to b at 5.
///                F
///                |
///  e             o
///                ^
///                F
///                |
///  a      o--N-->o
///         3      4      5
/// ```
///
/// No axis asks that an object exists: the sequence of an axis and the test `Exists` does.
/// What each path means is `Rel` of `specs/Meaning.antt`, over the plain term `path_term` of the value.
#[cycle(path)]
#[derive(Debug, Drop)]
pub enum Path {
    /// From a point to itself, where the test holds there.
    Test(Box<Test>),
    /// From a node to an edge that it is the source of, and from an edge to its target, at the same moment.
    F,
    /// The reverse of `F`: from a node to an edge that it is the target of, and from an edge to its source.
    B,
    /// From a moment to the next, on the same object.
    N,
    /// From a moment to the one before, on the same object.
    P,
    /// The first path and then the second.
    Seq(Box<Path>, Box<Path>),
    /// One path or the other.
    Alt(Box<Path>, Box<Path>),
    /// The body so many times: at least `least` and, if there is a `most`, at most that.
    ///
    /// It is in range where `least` is at most 10^12 and `most` is from `least` to 10^12.
    Repeat {
        body: Box<Path>,
        least: u64,
        most: Option<u64>,
    },
}

/// A test of a point, that is, of an object at a moment.
///
/// What each test means is `Sat` of `specs/Meaning.antt`, over the plain term `test_term` of the value.
#[cycle(path)]
#[derive(Debug, Drop)]
pub enum Test {
    /// The test asks for the one object at the one moment.
    Leaf(Leaf),
    /// The path leads from the point to some point.
    Cond(Box<Path>),
    /// Both tests hold.
    And(Box<Test>, Box<Test>),
    /// One of the tests holds, or both do.
    Or(Box<Test>, Box<Test>),
    /// The test doesn't hold, whether the object exists at the moment or not.
    Not(Box<Test>),
}

/// A test that asks only for one object at one moment.
#[derive(Clone, Copy, PartialEq, Eq, Hash, Debug, Drop)]
pub enum Leaf {
    /// The object is a node.
    Node,
    /// The object is an edge.
    Edge,
    /// The object has this label.
    Label(Name),
    /// The object has this value of the property at the moment.
    Value { prop: Name, value: Name },
    /// The moment is below this one. It is in range from -10^12 to 10^12 + 1.
    Before(i64),
    /// The object exists at the moment.
    Exists,
}

/// A query: a path, whether its first and its last point are asked for, and the name of the graph if the text says one.
#[derive(Debug, Drop)]
pub struct Query {
    /// Whether the path's first point is named.
    pub first: bool,
    /// Whether the path's last point is named.
    pub last: bool,
    /// The path that the whole text is translated to.
    pub path: Path,
    /// The name of the graph that the query is meant for.
    pub graph_name: Option<Name>,
}
