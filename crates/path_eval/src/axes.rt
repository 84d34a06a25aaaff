//! The relations of the axes, between the objects of two scopes.
ghost use Rattle.std.specs.Prelude.{◌≡◌, ◌⊎◌, ◌↔◌, IfOk, OnOk};
ghost use Rattle.itpg_base.specs.Graphs.{Good, Stands};
ghost use Rattle.itpg_base.specs.Points.{Point};
ghost use Rattle.itpg_graph.specs.GraphParts.{StandingAreNumbers};
ghost use Rattle.zone_compose.specs.Compose.{IsOneStep};
ghost use Rattle.relation_rows.specs.Answers.{Gives};
ghost use Rattle.relation_rows.specs.Relations.{ItemsHold};
ghost use Rattle.label_scope.specs.Narrowing.{Cut};
ghost use Rattle.condition_eval.specs.Tested.{Stand};
ghost use Rattle.path_eval.specs.Axes.{axis_of, axis_in_time, far_end as far_end_of, LeadsToEdge, OnEach, StepTo, StepToOne, StepsFrom, StepsFromAny};

use crate::basis::Ground;
use crate::within_both::{is_within, objects_within_both};
use condition_eval::objects_within;
use itpg_base::ObjNo;
use itpg_graph::Part;
use label_scope::Scope;
use relation_rows::{RelFault, Relation};
use std::alloc::{AllocError, Global};
use zone_compose::{diagonal, shift};
use zone_core::Zone;

// A zone of moments from a source to a target.
type Item = (ObjNo, ObjNo, Zone);

/// Which way an edge is gone along.
#[derive(Clone, Copy)]
pub(crate) enum Direction {
    /// From its source to it, and from it to its target.
    Forward,
    /// From its target to it, and from it to its source.
    Backward,
}

/// The axis along edges in a direction: at each moment of the horizon, from the objects of the one scope to those of the other.
pub(crate) fn along_edges(
    ground: &Ground<'_>,
    direction: Direction,
    sources: &Scope,
    targets: &Scope,
) -> Result<Relation, RelFault>
    ensures { Gives result (Cut ground.now.graph.now (axis_of direction) sources.now targets.now) ground.now.max_rows }
{
    let objects = objects_within(ground.alloc, ground.graph, sources)?;
    let zone = diagonal(ground.horizon.from(), ground.horizon.to()).unwrap();
    let items = steps_of(ground, direction, &objects, targets, zone)?;
    Relation::from_zones(ground.alloc, items, ground.max_rows)
}

/// The axis to the next moment, or to the one before, on each object of both scopes.
pub(crate) fn in_time(
    ground: &Ground<'_>,
    step: i64,
    sources: &Scope,
    targets: &Scope,
) -> Result<Relation, RelFault>
    requires { IsOneStep step }
    ensures { Gives result (Cut ground.now.graph.now (axis_in_time step) sources.now targets.now) ground.now.max_rows }
{
    let (alloc, max_rows) = (ground.alloc, ground.max_rows);
    let objects = objects_within_both(ground, sources, targets)?;
    match shift(step, ground.horizon.from(), ground.horizon.to()) {
        Some(zone) => Relation::from_zones(alloc, on_each(alloc, &objects, zone)?, max_rows),
        None => Ok(Relation::empty(alloc)),
    }
}

// The zone from each of the objects to itself.
fn on_each(alloc: Global, objects: &[ObjNo], zone: Zone) -> Result<Vec<Item>, AllocError>
    ensures { IfOk result (λ items. (x : Point) → (y : Point) → ItemsHold items.items x y ↔ OnEach zone objects.now x y) }
{
    let mut items = Vec::new(alloc);
    for object in objects {
        items.push((*object, *object, zone))?;
    }
    Ok(items)
}

// A zone from each of the objects to each object within the scope that the direction leads to.
fn steps_of(
    ground: &Ground<'_>,
    direction: Direction,
    objects: &[ObjNo],
    targets: &Scope,
    zone: Zone,
) -> Result<Vec<Item>, AllocError>
    requires good { Good ground.now.graph.now }
    requires stand { Stand ground.now.graph.now objects.now }
    ensures { let Steps = StepsFromAny direction targets.now ground.now.graph.now zone objects.now in
        IfOk result (λ items. (x : Point) → (y : Point) → ItemsHold items.items x y ↔ Steps x y) }
{
    let mut items = Vec::new(ground.alloc);
    for object in objects {
        push_steps(&mut items, ground.graph, direction, *object, targets, zone)?;
    }
    Ok(items)
}

// Adds a zone from the object to each object within the scope that the direction leads to.
fn push_steps(
    items: &mut Vec<Item>,
    graph: &Part<'_>,
    direction: Direction,
    object: ObjNo,
    targets: &Scope,
    zone: Zone,
) -> Result<(), AllocError>
    requires good { Good graph.now }
    requires stands { Stands graph.now object.0 }
    ensures { let Steps = StepsFrom direction targets.now graph.now zone object in
        OnOk result ((x : Point) → (y : Point) → ItemsHold items.new.items x y ↔ (ItemsHold items.old.items x y ⊎ Steps x y)) }
{
    match graph.ends(object) {
        Some(ends) => {
            let end = far_end(direction, ends);
            push_step(items, graph, object, end, targets, zone)
        }
        None => {
            let edges = edges_at(graph, direction, object);
            push_each(items, graph, object, edges, targets, zone)
        }
    }
}

// The end of an edge that the direction leads to; its source is the first of the two.
fn far_end(direction: Direction, ends: (ObjNo, ObjNo)) -> ObjNo
    ensures { result ≡ far_end_of direction ends }
{
    match direction {
        Direction::Forward => ends.1,
        Direction::Backward => ends.0,
    }
}

// The edges that the direction leads to from a node, and of a part perhaps others that don't stand in it.
fn edges_at<'a>(graph: &'a Part<'_>, direction: Direction, node: ObjNo) -> &'a [ObjNo]
    requires { Stands graph.now node.0 }
    ensures { StandingAreNumbers graph.now (LeadsToEdge direction graph.now node.0) result.now }
{
    match direction {
        Direction::Forward => graph.out_edges(node),
        Direction::Backward => graph.in_edges(node),
    }
}

// Adds a zone from the object to each of the others that stands and is within the scope.
fn push_each(
    items: &mut Vec<Item>,
    graph: &Part<'_>,
    object: ObjNo,
    others: &[ObjNo],
    targets: &Scope,
    zone: Zone,
) -> Result<(), AllocError>
    ensures { OnOk result ((x : Point) → (y : Point) → ItemsHold items.new.items x y ↔ (ItemsHold items.old.items x y ⊎ StepToOne targets.now graph.now zone object others.now x y)) }
{
    for other in others {
        push_step(items, graph, object, *other, targets, zone)?;
    }
    Ok(())
}

// Adds a zone from the object to the other, if that stands and is within the scope.
fn push_step(
    items: &mut Vec<Item>,
    graph: &Part<'_>,
    object: ObjNo,
    other: ObjNo,
    targets: &Scope,
    zone: Zone,
) -> Result<(), AllocError>
    ensures { OnOk result ((x : Point) → (y : Point) → ItemsHold items.new.items x y ↔ (ItemsHold items.old.items x y ⊎ StepTo targets.now graph.now zone object other x y)) }
{
    if graph.standing(other) && is_within(graph, targets, other) {
        items.push((object, other, zone))?;
    }
    Ok(())
}
