//! What the rules ask of a graph.
ghost use Rattle.std.specs.Prelude.{◌≡◌, ◌⊎◌, ◌<◌, ◌≤◌, ℕ, ℤ, List, length, true, false, IsSome};
ghost use Rattle.itpg_base.specs.Words.{Word};
ghost use Rattle.itpg_base.specs.Spans.{IsSpan, Within};
ghost use Rattle.itpg_base.specs.Graphs.{Stands, Exists, HasEnd, ObjectIs};
ghost use Rattle.itpg_graph.specs.Edges.{HasNumber};
ghost use Rattle.itpg_graph.specs.Kinds.{IsNode};
ghost use Rattle.itpg_graph.specs.Changes.{FitFamily};
ghost use Rattle.itpg_graph.specs.Families.{ExistsOutside, ValOutside, ValPut, FitCut, FitPut, FitClear, HasPlace};
ghost use Rattle.itpg_edit.specs.Sites.{AllStand, EndsExist, IsFree, IsThere};
ghost use Rattle.itpg_edit.specs.Facts.{AreManySpans, AreManyRuns, AreManyCut, HasNoPlace};

use crate::change::Site;
use interval_set::Span;
use itpg_base::{MAX_PROPERTIES, MAX_SPANS, Name, ObjNo};
use itpg_graph::{Graph, Kind};

/// Whether some moment of the span is outside the horizon, or of one horizon outside another.
pub(crate) fn leaves(span: Span, horizon: Span) -> bool
    ensures inside { result ≡ false → (t : ℤ) → Within t span → Within t horizon }
    ensures outside { result ≡ true → (t : ℤ) × Within t span × (¬ Within t horizon) }
{
    span.from() < horizon.from() || horizon.to() < span.to()
}

/// Whether one of the two objects is an edge.
pub(crate) fn joins_edge(graph: &Graph, source: ObjNo, target: ObjNo) -> bool
    requires source { Stands graph.now source.0 }
    requires target { Stands graph.now target.0 }
    ensures nodes { result ≡ false → IsNode graph.now source.0 × IsNode graph.now target.0 }
    ensures edge { result ≡ true → ObjectIs graph.now source.0 (λ x. IsSome x.ends) ⊎ ObjectIs graph.now target.0 (λ x. IsSome x.ends) }
{
    graph.kind(source) == Kind::Edge || graph.kind(target) == Kind::Edge
}

/// Whether the object is missing at some moment of the span.
pub(crate) fn is_absent(graph: &Graph, site: &Site) -> bool
    requires { Stands graph.now site.now.object.0 }
    ensures there { result ≡ false → IsThere graph.now site.now.object.0 site.now.span }
    ensures missing { result ≡ true → (t : ℤ) × Within t site.now.span × (¬ Exists graph.now site.now.object.0 t) }
{
    !graph.exists_throughout(site.object, site.span)
}

/// Whether an end of the object is missing at some moment of the span. A node has no ends.
pub(crate) fn lacks_end(graph: &Graph, site: &Site) -> bool
    requires { Stands graph.now site.now.object.0 }
    ensures there { result ≡ false → EndsExist graph.now site.now.object.0 site.now.span }
    ensures missing { result ≡ true → (a : ℕ) × HasEnd graph.now site.now.object.0 a × ((t : ℤ) × Within t site.now.span × (¬ Exists graph.now a t)) }
{
    match graph.ends(site.object) {
        Some((source, target)) => {
            is_absent(graph, &site.of(source)) || is_absent(graph, &site.of(target))
        }
        None => false,
    }
}

/// Whether an edge at the node exists at some moment of the span.
pub(crate) fn is_held(graph: &Graph, site: &Site) -> bool
    requires { Stands graph.now site.now.object.0 }
    ensures free { result ≡ false → IsFree graph.now site.now.object.0 site.now.span }
    ensures held { result ≡ true → (e : ℕ) × HasEnd graph.now e site.now.object.0 × ((t : ℤ) × Within t site.now.span × Exists graph.now e t) }
{
    some_exists(graph, graph.out_edges(site.object), site.span)
        || some_exists(graph, graph.in_edges(site.object), site.span)
}

// Whether one of the objects exists at some moment of the span.
fn some_exists(graph: &Graph, objects: &[ObjNo], span: Span) -> bool
    requires { AllStand graph.now objects.now }
    ensures none { result ≡ false → (e : ℕ) (t : ℤ) → HasNumber objects.now e → Within t span → Exists graph.now e t → ⊥ }
    ensures some { result ≡ true → (e : ℕ) × HasNumber objects.now e × ((t : ℤ) × Within t span × Exists graph.now e t) }
{
    for object in objects {
        if graph.live(*object).touches(span) {
            return true;
        }
    }
    false
}

/// Whether the node is an end of a standing edge.
pub(crate) fn is_incident(graph: &Graph, node: ObjNo) -> bool
    requires { Stands graph.now node.0 }
    ensures free { result ≡ false → (e : ℕ) → HasEnd graph.now e node.0 → ⊥ }
    ensures end { result ≡ true → (e : ℕ) × HasEnd graph.now e node.0 }
{
    !graph.out_edges(node).is_empty() || !graph.in_edges(node).is_empty()
}

/// Whether the object would exist in too many spans, if it existed in this one too.
pub(crate) fn joins_too_many(graph: &Graph, site: &Site) -> bool
    requires { Stands graph.now site.now.object.0 }
    ensures few { result ≡ false → FitFamily graph.now site.now.object.0 site.now.span }
    ensures many { result ≡ true → AreManySpans (λ t. Exists graph.now site.now.object.0 t ⊎ Within t site.now.span) }
{
    graph.live(site.object).joins_beyond(site.span, MAX_SPANS)
}

/// Whether some family of the object would have too many spans, if its life in this one ended.
pub(crate) fn cuts_too_many(graph: &Graph, site: &Site) -> bool
    requires { Stands graph.now site.now.object.0 }
    ensures few { result ≡ false → FitCut graph.now site.now.object.0 site.now.span }
    ensures many { result ≡ true → AreManyCut graph.now site.now.object.0 site.now.span }
{
    graph.widest_cut(site.object, site.span) > MAX_SPANS
}

/// Whether the property would have too many runs, if it had the value in the span, or the object too many properties.
pub(crate) fn puts_too_many(graph: &Graph, site: &Site, prop: &Name, value: &Name) -> bool
    requires stands { Stands graph.now site.now.object.0 }
    requires span { IsSpan site.now.span }
    ensures few { result ≡ false → FitPut graph.now site.now.object.0 prop.now value.now site.now.span × HasPlace graph.now site.now.object.0 prop.now }
    ensures many { result ≡ true → AreManyRuns (ValPut graph.now site.now.object.0 site.now.span value.now prop.now) ⊎ HasNoPlace graph.now site.now.object.0 prop.now }
{
    match graph.value(site.object, prop) {
        Some(values) => values.puts_beyond(site.span, value, MAX_SPANS),
        None => graph.prop_count(site.object) >= MAX_PROPERTIES,
    }
}

/// Whether the property would have too many runs, if it had no value in the span.
pub(crate) fn clears_too_many(graph: &Graph, site: &Site, prop: &Name) -> bool
    requires { Stands graph.now site.now.object.0 }
    ensures few { result ≡ false → FitClear graph.now site.now.object.0 prop.now site.now.span }
    ensures many { result ≡ true → AreManyRuns (ValOutside graph.now site.now.object.0 site.now.span prop.now) }
{
    match graph.value(site.object, prop) {
        Some(values) => values.count_clear(site.span) > MAX_SPANS,
        None => false,
    }
}
