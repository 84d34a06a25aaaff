//! The rules that a query, the name of a watch, of a pin or of a follow, or a tick breaks, before anything is worked out.
ghost use Rattle.std.specs.Prelude.{◌≡◌, slice_get, IfSome, IsNone, IfOk, OnOk, IfErr, IsSomeAnd};
ghost use Rattle.itpg_edit.specs.Rules.{FirstOf, NoneOf};
ghost use Rattle.path_ast.specs.Terms.{query_term};
ghost use Rattle.itpg_base.specs.Graphs.{Named};
ghost use Rattle.itpg_pins.specs.Pins.{IsOnlyPlace};
ghost use Rattle.source_rows.specs.Follows.{IsOnlyPlace as IsOnlyFollow};
ghost use Rattle.itpg_session.specs.PlainWatches.{all_plain};
ghost use Rattle.itpg_session.specs.PlainPins.{plain_pins};
ghost use Rattle.itpg_session.specs.PlainFollows.{plain_follows};
ghost use Rattle.itpg_session.specs.Rules.{QueryBreaks, WatchBreaks, NameBreaks, TickBreaks, PinBreaks, NearBreaks, ask_rules, watch_rules, name_rules, tick_rules};

use itpg_base::{Name, ObjNo, RuleCode};
use itpg_graph::Graph;
use itpg_pins::Pins;
use path_ast::Query;
use source_rows::Follows;
use standing_queries::{MAX_WATCHES, Watches};

/// The first rule that asking the query breaks on the graph: none is begun, or the query is meant for one of another name.
pub(crate) fn broken_by_ask(graph: &Graph, query: &Query) -> Option<RuleCode>
    ensures some { IfSome result (λ rule. FirstOf (QueryBreaks graph.now (query_term query.now)) ask_rules rule) }
    ensures none { IsNone result → NoneOf (QueryBreaks graph.now (query_term query.now)) ask_rules }
{
    let Some(name) = graph.name() else {
        return Some(RuleCode::NoGraph);
    };
    match &query.graph_name {
        Some(meant) if *meant != name => Some(RuleCode::GraphName),
        _ => None,
    }
}

/// The first rule that watching the query under the name breaks: one that asking it breaks, the name has a watch, or as many
/// watches stand as may.
pub(crate) fn broken_by_watch(
    graph: &Graph,
    watches: &Watches,
    name: &Name,
    query: &Query,
) -> Option<RuleCode>
    ensures some { IfSome result (λ rule. FirstOf (WatchBreaks graph.now (all_plain watches.now) name.now (query_term query.now)) watch_rules rule) }
    ensures none { IsNone result → NoneOf (WatchBreaks graph.now (all_plain watches.now) name.now (query_term query.now)) watch_rules }
{
    if let Some(rule) = broken_by_ask(graph, query) {
        return Some(rule);
    }
    if watches.find(name).is_some() {
        return Some(RuleCode::Taken);
    }
    if watches.len() >= MAX_WATCHES {
        return Some(RuleCode::Full);
    }
    None
}

/// Whether a tick breaks its one rule: no graph is begun.
pub(crate) fn broken_by_tick(graph: &Graph) -> Option<RuleCode>
    ensures some { IfSome result (λ rule. FirstOf (TickBreaks graph.now) tick_rules rule) }
    ensures none { IsNone result → NoneOf (TickBreaks graph.now) tick_rules }
{
    match graph.name() {
        None => Some(RuleCode::NoGraph),
        Some(_) => None,
    }
}

/// The place of the watch of this name, or the first rule that the name breaks: no graph is begun, or no watch has it.
pub(crate) fn place_of(graph: &Graph, watches: &Watches, name: &Name) -> Result<usize, RuleCode>
    ensures place { IfOk result (λ place. IsSomeAnd (slice_get (all_plain watches.now) place) (λ w. w.name ≡ name.now)) }
    ensures unbroken { OnOk result (NoneOf (NameBreaks graph.now (all_plain watches.now) name.now) name_rules) }
    ensures broken { IfErr result (λ rule. FirstOf (NameBreaks graph.now (all_plain watches.now) name.now) name_rules rule) }
{
    if let Some(rule) = broken_by_tick(graph) {
        return Err(rule);
    }
    let Some(place) = watches.find(name) else {
        return Err(RuleCode::Unknown);
    };
    Ok(place)
}

/// The place of the pin of this name, or the first rule that the name breaks: no graph is begun, or no pin has it.
pub(crate) fn place_of_pin(graph: &Graph, pins: &Pins, name: &Name) -> Result<usize, RuleCode>
    ensures place { IfOk result (λ place. IsSomeAnd (slice_get pins.now.pins place) (λ p. p.name ≡ name.now)) }
    ensures only { IfOk result (λ place. IsOnlyPlace pins.now.pins name.now place) }
    ensures unbroken { OnOk result (NoneOf (PinBreaks graph.now (plain_pins pins.now.pins) name.now) name_rules) }
    ensures broken { IfErr result (λ rule. FirstOf (PinBreaks graph.now (plain_pins pins.now.pins) name.now) name_rules rule) }
{
    if let Some(rule) = broken_by_tick(graph) {
        return Err(rule);
    }
    let Some(place) = pins.find(name) else {
        return Err(RuleCode::Unknown);
    };
    Ok(place)
}

/// The place of the follow of the one name and the standing object of the other, or the first rule that the names break: no graph is
/// begun, or no follow or no object has its name.
pub(crate) fn place_near(
    graph: &Graph,
    follows: &Follows,
    name: &Name,
    id: &Name,
) -> Result<(usize, ObjNo), RuleCode>
    ensures place { IfOk result (λ found. IsSomeAnd (slice_get follows.now found.0) (λ f. f.name ≡ name.now)) }
    ensures only { IfOk result (λ found. IsOnlyFollow follows.now name.now found.0) }
    ensures object { IfOk result (λ found. Named graph.now found.1.0 id.now) }
    ensures unbroken { OnOk result (NoneOf (NearBreaks graph.now (plain_follows follows.now) name.now id.now) name_rules) }
    ensures broken { IfErr result (λ rule. FirstOf (NearBreaks graph.now (plain_follows follows.now) name.now id.now) name_rules rule) }
{
    if let Some(rule) = broken_by_tick(graph) {
        return Err(rule);
    }
    let Some(place) = follows.find(name) else {
        return Err(RuleCode::Unknown);
    };
    let Some(object) = graph.find(id) else {
        return Err(RuleCode::Unknown);
    };
    Ok((place, object))
}
