//! The footprint of each node, from those of its children.
ghost use Rattle.std.specs.Prelude.{◌≡◌, ◌<◌, ◌≤◌, Some, length, take, slice_get, IfOk, OnOk, OnErr, IsSomeAnd};
ghost use Rattle.plan_cache.specs.Operations.{part_term, part_children};
ghost use Rattle.plan_cache.specs.Nodes.{conditions, parts_of, test_read_back};
ghost use Rattle.plan_cache.specs.Footprints.{footprint_of, footprints_of, AreFootprintsOf};
ghost use Rattle.plan_cache.specs.KeptRows.{AddsFree};
ghost use Rattle.label_scope.specs.declared.footprint.Footprint.{Footprint};
ghost use Rattle.label_scope.specs.Footprints.{asked_of, of_either};

use crate::nodes::Nodes;
use crate::operations::{PlanNo, PlanOp, PlanTest};
use crate::shelf::Shelf;
use label_scope::{Footprint, Scope};
use std::alloc::AllocError;

/// Adds a place with its footprint for each node that has none yet. Nothing is kept there.
///
/// # Errors
///
/// If memory runs out. Then some nodes have their places, and the places before stay.
pub(crate) fn add_places(nodes: &Nodes, shelf: &mut Shelf) -> Result<(), AllocError>
    requires few { length shelf.old.feet ≤ length nodes.now }
    requires feet { shelf.old.feet ≡ footprints_of (take (length shelf.old.feet) nodes.now) }
    ensures all { OnOk result (shelf.new.feet ≡ footprints_of nodes.now) }
    ensures each { length shelf.new.kept ≡ length shelf.new.feet }
    ensures first { OnErr result (take (length shelf.old.feet) shelf.new.feet ≡ shelf.old.feet) }
    ensures free { AddsFree shelf.old.kept shelf.new.kept }
{
    let count = nodes.len();
    for number in shelf.len() as u32..count {
        let foot = foot_of(nodes, shelf.feet(), PlanNo(number))?;
        shelf.push(foot)?;
    }
    Ok(())
}

// The footprint of a node whose children have theirs.
fn foot_of(nodes: &Nodes, feet: &[Footprint], no: PlanNo) -> Result<Footprint, AllocError>
    requires there { no.0 < length nodes.now }
    requires children { IsSomeAnd (slice_get nodes.now no.0) (λ n. AreFootprintsOf feet.now n.children (parts_of n.member)) }
    ensures { IfOk result (λ foot. IsSomeAnd (slice_get nodes.now no.0) (λ n. foot ≡ footprint_of n.member)) }
{
    let alloc = nodes.alloc();
    let (a, b) = nodes.scopes(no);
    match nodes.op(no) {
        PlanOp::Test(test) => asked_by(nodes, feet, test, a)?.and_shape(alloc, a),
        PlanOp::F | PlanOp::B => Ok(Footprint::of_shape(alloc, a.join(alloc, b)?)),
        PlanOp::N | PlanOp::P => Ok(Footprint::of_shape(alloc, a.copy(alloc)?)),
        PlanOp::Seq(one, other) | PlanOp::Alt(one, other) => of_both(nodes, feet, *one, *other),
        PlanOp::Repeat { body, .. } => {
            let foot = feet[body.0 as usize].copy(alloc)?;
            foot.and_shape(alloc, nodes.walk_scope(no).unwrap())
        }
    }
}

// The footprint of a node that is made of both.
fn of_both(
    nodes: &Nodes,
    feet: &[Footprint],
    one: PlanNo,
    other: PlanNo,
) -> Result<Footprint, AllocError>
    requires one { one.0 < length feet.now }
    requires other { other.0 < length feet.now }
    ensures { IfOk result (λ both. (f g : Footprint) → slice_get feet.now one.0 ≡ Some f → slice_get feet.now other.0 ≡ Some g → both ≡ of_either f g) }
{
    let alloc = nodes.alloc();
    let first = feet[one.0 as usize].copy(alloc)?;
    first.or(alloc, &feet[other.0 as usize])
}

// What the test asks of the objects of the scope beyond their shape.
#[cycle(asking)]
fn asked_by(
    nodes: &Nodes,
    feet: &[Footprint],
    test: &PlanTest,
    scope: &Scope,
) -> Result<Footprint, AllocError>
    requires { let part = part_term test.now in AreFootprintsOf feet.now (part_children part) (conditions (test_read_back nodes.now part) scope.now) }
    ensures { IfOk result (λ asked. asked ≡ asked_of (test_read_back nodes.now (part_term test.now)) scope.now) }
{
    let alloc = nodes.alloc();
    match test {
        PlanTest::Leaf(leaf) => Footprint::of_leaf(alloc, leaf, scope),
        PlanTest::Cond(no) => feet[no.0 as usize].copy(alloc),
        PlanTest::And(one, other) | PlanTest::Or(one, other) => {
            asked_by_both(nodes, feet, one, other, scope)
        }
        PlanTest::Not(negated) => asked_by(nodes, feet, negated, scope),
    }
}

// What either test asks.
#[cycle(asking)]
fn asked_by_both(
    nodes: &Nodes,
    feet: &[Footprint],
    one: &PlanTest,
    other: &PlanTest,
    scope: &Scope,
) -> Result<Footprint, AllocError>
    requires one { let part = part_term one.now in AreFootprintsOf feet.now (part_children part) (conditions (test_read_back nodes.now part) scope.now) }
    requires other { let part = part_term other.now in AreFootprintsOf feet.now (part_children part) (conditions (test_read_back nodes.now part) scope.now) }
    ensures { let c = test_read_back nodes.now (part_term one.now) in let d = test_read_back nodes.now (part_term other.now) in
        IfOk result (λ asked. asked ≡ of_either (asked_of c scope.now) (asked_of d scope.now)) }
{
    let by_one = asked_by(nodes, feet, one, scope)?;
    let by_other = asked_by(nodes, feet, other, scope)?;
    by_one.or(nodes.alloc(), &by_other)
}
