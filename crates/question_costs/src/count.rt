//! What is told of a member.

use plan_cache::PlanNo;

/// How many rows a member has.
#[derive(Clone, Copy, Debug, PartialEq, Eq, Drop)]
pub enum Count {
    /// It has so many normal rows, at most the limit.
    Rows(u64),
    /// Some relation that is worked out for it has more normal rows than the limit, and none that is worked out for its parts. So it is
    /// its own relation, or of a repetition that of so many times its body.
    Over,
    /// Of some part of it the same is told, or that it is over: so it wasn't worked out.
    Unknown,
}

/// What is told of a member.
#[derive(Debug, Drop)]
pub struct MemberCount {
    /// The nodes of its parts, from left to right.
    pub children: Vec<PlanNo>,
    /// How many rows it has.
    pub count: Count,
    /// The microseconds that its own step took.
    pub micros: u64,
}
