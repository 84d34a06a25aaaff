//! What plan nodes do, over the numbers of other nodes.
use path_ast::Leaf;

/// The number of a plan node: its place in the order of first sight, from 0.
#[derive(Clone, Copy, PartialEq, Eq, Hash, Debug)]
pub struct PlanNo(pub u32);

/// What a plan node does with the relations of its children: a path of one step, whose parts are nodes.
///
/// What each operation means is the path that it reads back as (`read_back` of `specs/Nodes.antt`).
#[derive(PartialEq, Eq, Hash, Debug, Drop)]
pub enum PlanOp {
    /// From a point to itself, where the test holds there.
    Test(PlanTest),
    /// Along an edge: from its source to the edge, and from the edge to its target.
    F,
    /// The reverse of `F`.
    B,
    /// To the next moment.
    N,
    /// To the moment before.
    P,
    /// The first node's path and then the second's.
    Seq(PlanNo, PlanNo),
    /// The one node's path or the other's.
    Alt(PlanNo, PlanNo),
    /// The body's path so many times: at least `least` and, if there is a `most`, at most that.
    Repeat {
        body: PlanNo,
        least: u64,
        most: Option<u64>,
    },
}

/// A test of a point. Its conditions are nodes.
#[derive(PartialEq, Eq, Hash, Debug, Drop)]
pub enum PlanTest {
    /// The test asks for the one object at the one moment.
    Leaf(Leaf),
    /// The node's path leads from the point to some point.
    Cond(PlanNo),
    /// Both tests hold.
    And(Box<PlanTest>, Box<PlanTest>),
    /// One of the tests holds, or both do.
    Or(Box<PlanTest>, Box<PlanTest>),
    /// The test doesn't hold.
    Not(Box<PlanTest>),
}
