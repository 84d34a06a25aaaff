//! The relation of a plan node, from those of its children.
ghost use Rattle.std.specs.Prelude.{◌≡◌, ◌<◌, ◌∷◌, length, slice_get, List, Some, IfOk, IfSome, IsSomeAnd};
ghost use Rattle.itpg_base.specs.Graphs.{Good};
ghost use Rattle.path_ast.specs.Terms.{OfTest, Repetition};
ghost use Rattle.path_ast.specs.Sizes.{AreInRange};
ghost use Rattle.label_scope.specs.Members.{worked_conditions, test_members, repeated_members, passed};
ghost use Rattle.condition_eval.specs.Marking.{AreMarks};
ghost use Rattle.relation_rows.specs.Relations.{Rise};
ghost use Rattle.condition_eval.specs.Filtered.{AreThoseWith};
ghost use Rattle.condition_eval.specs.Tested.{HoldsAt, Stand};
ghost use Rattle.plan_cache.specs.Operations.{part_term, part_children};
ghost use Rattle.plan_cache.specs.Nodes.{PlanNode, conditions, narrowed_member, path_at, test_read_back};
ghost use Rattle.path_eval.specs.Made.{HasParts, AreMade, IsMade};
ghost use Rattle.path_eval.specs.WithinBoth.{RiseWithin};
ghost use Rattle.path_eval.specs.Working.{WorksOut, WorksOutMember};

use crate::axes::{Direction, along_edges, in_time};
use crate::basis::Ground;
use crate::made::Made;
use crate::powers::Powers;
use crate::within_both::objects_within_both;
use condition_eval::{Marks, leaf_marks, objects_with, starts_of};
use itpg_base::ObjNo;
use label_scope::Scope;
use plan_cache::{PlanNo, PlanOp, PlanTest};
use relation_rows::{RelFault, Relation};
use std::alloc::AllocError;

// How often a path is repeated: at least `least` times and, if there is a `most`, at most that.
#[derive(Clone, Copy)]
struct Times {
    least: u64,
    most: Option<u64>,
}

/// The relation of a node's path between its scopes. Those of its children are made.
///
/// # Errors
///
/// `Wide` only if some worked member of the path between the scopes is; `Memory` if memory runs out.
pub(crate) fn step(ground: &Ground<'_>, made: &Made<'_>, no: PlanNo) -> Result<Relation, RelFault>
    requires good { Good ground.now.graph.now }
    requires there { no.0 < length made.now.plans.now.nodes }
    requires parts { IsSomeAnd (slice_get made.now.plans.now.nodes no.0) (HasParts ground.now.graph.now ground.now.max_rows made.now.relations.now) }
    ensures { IsSomeAnd (slice_get made.now.plans.now.nodes no.0) (λ n. WorksOutMember ground.now result n.member) }
{
    let (a, b) = made.plans.scopes(no);
    match made.plans.op(no) {
        PlanOp::Test(test) => test_relation(ground, made, test, a, b),
        PlanOp::F => along_edges(ground, Direction::Forward, a, b),
        PlanOp::B => along_edges(ground, Direction::Backward, a, b),
        PlanOp::N => in_time(ground, 1, a, b),
        PlanOp::P => in_time(ground, -1, a, b),
        PlanOp::Seq(first, second) => {
            let before = made.relations.relation_of(*first);
            let after = made.relations.relation_of(*second);
            before.compose(after, ground.max_rows)
        }
        PlanOp::Alt(one, other) => {
            let by_one = made.relations.relation_of(*one);
            let by_other = made.relations.relation_of(*other);
            by_one.union(by_other, ground.max_rows)
        }
        PlanOp::Repeat { body, least, most } => {
            let times = Times {
                least: *least,
                most: *most,
            };
            let within = made.plans.walk_scope(no).unwrap();
            repeated(ground, made, *body, &times, within, a, b)
        }
    }
}

// The relation of a body from a least to a most number of times, from its own within the scope of all that it passes.
fn repeated<'g, 'a>(
    ground: &'a Ground<'g>,
    made: &Made<'a>,
    body: PlanNo,
    times: &Times,
    within: &'a Scope,
    a: &Scope,
    b: &Scope,
) -> Result<Relation, RelFault>
    requires good { Good ground.now.graph.now }
    requires times { AreInRange times.now.least times.now.most }
    requires within { within.now ≡ passed (path_at made.now.plans.now.nodes body.0) (record { sources = a.now; targets = b.now }) }
    requires once { IsMade ground.now.graph.now ground.now.max_rows made.now.relations.now body.0 (narrowed_member (path_at made.now.plans.now.nodes body.0) within.now within.now) }
    ensures { let r = path_at made.now.plans.now.nodes body.0 in let n = times.now.least in let m = times.now.most in
        WorksOut ground.now result (Repetition r n m) a.now b.now (repeated_members r n m a.now b.now) }
{
    let powers = Powers {
        ground,
        plans: made.plans,
        body,
        relation: made.relations.relation_of(body),
        passed: within,
    };
    powers.between(a, b, times.least, times.most)
}

// The relation of a test: each point of both scopes at which it holds leads to itself.
fn test_relation(
    ground: &Ground<'_>,
    made: &Made<'_>,
    test: &PlanTest,
    a: &Scope,
    b: &Scope,
) -> Result<Relation, RelFault>
    requires good { Good ground.now.graph.now }
    requires parts { let c = test_read_back made.now.plans.now.nodes (part_term test.now) in
        AreMade ground.now.graph.now ground.now.max_rows made.now.relations.now (part_children (part_term test.now)) (conditions c a.now) }
    ensures { let c = test_read_back made.now.plans.now.nodes (part_term test.now) in
        WorksOut ground.now result (OfTest c) a.now b.now (test_members c a.now b.now) }
{
    let objects = objects_within_both(ground, a, b)?;
    let marks = marks_of(ground, made, test, a, &objects)?;
    marks.as_relation(ground.max_rows)
}

// The points of the objects, which are within the scope, at which the test holds.
fn marks_of(
    ground: &Ground<'_>,
    made: &Made<'_>,
    test: &PlanTest,
    scope: &Scope,
    objects: &[ObjNo],
) -> Result<Marks, AllocError>
    requires good { Good ground.now.graph.now }
    requires parts { let c = test_read_back made.now.plans.now.nodes (part_term test.now) in
        AreMade ground.now.graph.now ground.now.max_rows made.now.relations.now (part_children (part_term test.now)) (conditions c scope.now) }
    requires within { RiseWithin scope.now ground.now.graph.now objects.now }
    ensures { let c = test_read_back made.now.plans.now.nodes (part_term test.now) in
        IfOk result (λ marks. AreMarks objects.now (HoldsAt c ground.now.graph.now) marks) }
{
    match test {
        PlanTest::Leaf(leaf) => leaf_marks(ground.alloc, ground.graph, objects, leaf),
        PlanTest::Cond(no) => {
            let leading = made.relations.relation_of(*no);
            starts_of(ground.alloc, ground.graph, objects, leading)
        }
        PlanTest::And(one, other) => {
            if let Some(kept) = kept_by(ground, one, objects)? {
                return marks_of(ground, made, other, scope, &kept);
            }
            let own = marks_of(ground, made, one, scope, objects)?;
            let also = marks_of(ground, made, other, scope, objects)?;
            own.and(&also)
        }
        PlanTest::Or(one, other) => {
            let own = marks_of(ground, made, one, scope, objects)?;
            let also = marks_of(ground, made, other, scope, objects)?;
            own.or(&also)
        }
        PlanTest::Not(negated) => {
            let own = marks_of(ground, made, negated, scope, objects)?;
            own.not(objects, ground.horizon)
        }
    }
}

// Those of the objects of which the test holds at each moment, where it asks for the object alone.
fn kept_by(
    ground: &Ground<'_>,
    test: &PlanTest,
    objects: &[ObjNo],
) -> Result<Option<Vec<ObjNo>>, AllocError>
    requires rise { Rise objects.now }
    requires stand { Stand ground.now.graph.now objects.now }
    ensures { IfOk result (λ kept. IfSome kept (λ those. (nodes : List PlanNode) → AreThoseWith (test_read_back nodes (part_term test.now)) ground.now.graph.now objects.now those.items)) }
{
    match test {
        PlanTest::Leaf(leaf) => objects_with(ground.alloc, ground.graph, objects, leaf),
        _ => Ok(None),
    }
}
