//! Tests that ask for one object at one moment. What each means is `Sat` of `path_ast`, after the tests of Arenas,
//! Bahamondes, Aghasadeghi, Stoyanovich, *Temporal Regular Path Queries*, ICDE 2022.

ghost use Rattle.std.specs.Prelude.{◌≡◌, ◌<ℤ◌, ◌-ℤ◌, pos, IsSome, IsTrue, IfOk, OnOk};
ghost use Rattle.itpg_base.specs.Graphs.{Good, Stands, Val, RunsHave};
ghost use Rattle.itpg_base.specs.Spans.{Within, Covers, IsCoalesced};
ghost use Rattle.relation_rows.specs.Relations.{Rise};
ghost use Rattle.path_ast.specs.Terms.{leaf_term};
ghost use Rattle.condition_eval.specs.Marking.{AreMarks};
ghost use Rattle.condition_eval.specs.Tested.{HoldsAt, Stand, HasHorizon};
ghost use Rattle.condition_eval.specs.Walking.{HasRuns};

use crate::marks::Marks;
use interval_set::{Span, ValuedSet};
use itpg_base::{Name, ObjNo};
use itpg_graph::{Kind, Part};
use path_ast::Leaf;
use relation_rows::OneRow;
use std::alloc::{AllocError, Global};

/// The points of the objects at which the test holds, which asks only for one object at one moment.
///
/// ```text
///     Node, Edge, Label     all moments of the horizon of each object that is of the kind, or has the label
///     Value                 the moments at which the property has the value
///     Before                the moments of the horizon below the number, which may lie beyond them all
///     Exists                the moments at which the object exists
/// ```
///
/// The graph is begun; the objects rise and stand.
pub fn leaf_marks(
    alloc: Global,
    graph: &Part<'_>,
    objects: &[ObjNo],
    leaf: &Leaf,
) -> Result<Marks, AllocError>
    requires begun { IsSome graph.now.begun }
    requires rise { Rise objects.now }
    requires stand { Stand graph.now objects.now }
    ensures { IfOk result (λ marks. AreMarks objects.now (HoldsAt (leaf_term leaf.now) graph.now) marks) }
{
    let horizon = graph.horizon().unwrap();
    let mut rows = Vec::with_capacity(alloc, objects.len())?;
    for object in objects {
        push_leaf(&mut rows, graph, horizon, *object, leaf)?;
    }
    Ok(Marks::of(alloc, rows))
}

// Adds the object over the moments of the horizon at which the test holds of it.
fn push_leaf(
    rows: &mut Vec<OneRow>,
    graph: &Part<'_>,
    horizon: Span,
    object: ObjNo,
    leaf: &Leaf,
) -> Result<(), AllocError>
    requires good { Good graph.now }
    requires horizon { HasHorizon graph.now horizon }
    requires stands { Stands graph.now object.0 }
    ensures { OnOk result (HasRuns object (λ t. HoldsAt (leaf_term leaf.now) graph.now (record { object = object.0; moment = t })) rows.old.items rows.new.items) }
{
    match leaf {
        Leaf::Node => push_if(rows, object, horizon, graph.kind(object) == Kind::Node),
        Leaf::Edge => push_if(rows, object, horizon, graph.kind(object) == Kind::Edge),
        Leaf::Label(label) => push_if(rows, object, horizon, graph.labels(object).has(label)),
        Leaf::Value { prop, value } => push_valued(rows, graph, object, prop, value),
        Leaf::Before(k) => push_below(rows, object, horizon, *k),
        Leaf::Exists => push_spans(rows, object, graph.live(object).spans()),
    }
}

// Adds the object over the span if the fact holds.
fn push_if(rows: &mut Vec<OneRow>, object: ObjNo, span: Span, holds: bool) -> Result<(), AllocError>
    ensures { OnOk result (HasRuns object (λ t. Within t span × IsTrue holds) rows.old.items rows.new.items) }
{
    if !holds {
        return Ok(());
    }
    rows.push(OneRow { object, span })?;
    Ok(())
}

// Adds the object over the moments of the span that are below k.
fn push_below(rows: &mut Vec<OneRow>, object: ObjNo, span: Span, k: i64) -> Result<(), AllocError>
    ensures { OnOk result (HasRuns object (λ t. Within t span × (t <ℤ k)) rows.old.items rows.new.items) }
{
    if k <= span.from() {
        return Ok(());
    }
    let last = span.to().min(last_below(k, span.from()));
    let early = Span::new(span.from(), last).unwrap();
    rows.push(OneRow {
        object,
        span: early,
    })?;
    Ok(())
}

// The last moment below k, where the first one is below it.
fn last_below(k: i64, first: i64) -> i64
    requires { first <ℤ k }
    ensures { result ≡ k -ℤ pos 1 }
{
    k - 1
}

// Adds the object over the moments at which its property has the value.
fn push_valued(
    rows: &mut Vec<OneRow>,
    graph: &Part<'_>,
    object: ObjNo,
    prop: &Name,
    value: &Name,
) -> Result<(), AllocError>
    requires { Stands graph.now object.0 }
    ensures { OnOk result (HasRuns object (λ t. Val graph.now object.0 prop.now t value.now) rows.old.items rows.new.items) }
{
    let Some(values) = graph.value(object, prop) else {
        return Ok(());
    };
    push_runs(rows, object, values, value)
}

// Adds the object over those of the runs that have the value.
fn push_runs(
    rows: &mut Vec<OneRow>,
    object: ObjNo,
    values: &ValuedSet,
    value: &Name,
) -> Result<(), AllocError>
    ensures { OnOk result (HasRuns object (λ t. RunsHave values.now t value.now) rows.old.items rows.new.items) }
{
    for place in 0..values.count() {
        if let Some(span) = values.span_with(place, value) {
            rows.push(OneRow { object, span })?;
        }
    }
    Ok(())
}

// Adds the object over each of the spans.
fn push_spans(rows: &mut Vec<OneRow>, object: ObjNo, spans: &[Span]) -> Result<(), AllocError>
    requires { IsCoalesced spans.now }
    ensures { OnOk result (HasRuns object (Covers spans.now) rows.old.items rows.new.items) }
{
    for span in spans {
        rows.push(OneRow {
            object,
            span: *span,
        })?;
    }
    Ok(())
}
