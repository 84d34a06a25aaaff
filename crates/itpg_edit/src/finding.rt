//! What an edit names in the graph.
ghost use Rattle.std.specs.Prelude.{◌≡◌, ◌∷◌, [], IfOk, IfErr};
ghost use Rattle.itpg_base.specs.declared.rule_code.RuleCode.TheVariants as rules;
ghost use Rattle.itpg_edit.specs.Facts.{span_of};
ghost use Rattle.itpg_edit.specs.Rules.{FirstOf, Broken, NewBreaks, NameBreaks, PlaceBreaks};
ghost use Rattle.itpg_edit.specs.declared.edit.Edit.TheVariants as edits;
ghost use Rattle.itpg_edit.specs.Changes.{IsWider, IsNew, IsNamed, IsSite, IsAsked};

use crate::change::{Change, Site};
use crate::edit::Edit;
use crate::facts::leaves;
use interval_set::Span;
use itpg_base::{Name, ObjNo, RuleCode};
use itpg_graph::Graph;

/// The change that the edit asks for, where all that it names is there; else the first rule that it breaks.
pub(crate) fn find<'a>(graph: &Graph, edit: &'a Edit) -> Result<Change<'a>, RuleCode>
    ensures asked { IfOk result (λ change. IsAsked graph.now edit.now change) }
    ensures broken { IfErr result (λ rule. Broken graph.now edit.now rule) }
{
    match edit {
        Edit::Begin { name, lo, hi } => {
            if graph.horizon().is_some() {
                return Err(RuleCode::Again);
            }
            let horizon = Span::new(*lo, *hi).ok_or(RuleCode::Backwards)?;
            Ok(Change::Begin { name, horizon })
        }
        Edit::Extend { lo, hi } => Ok(Change::Widen(wider(graph, *lo, *hi)?)),
        Edit::AddNode { id, labels } => {
            check_new(graph, id)?;
            Ok(Change::AddNode { id, labels })
        }
        Edit::AddEdge {
            id,
            labels,
            source,
            target,
        } => {
            check_new(graph, id)?;
            let source = named(graph, source)?;
            let target = named(graph, target)?;
            Ok(Change::AddEdge {
                id,
                labels,
                source,
                target,
            })
        }
        Edit::Live { id, from, to } => Ok(Change::Live(site_of(graph, id, *from, *to)?)),
        Edit::Gone { id, from, to } => Ok(Change::Gone(site_of(graph, id, *from, *to)?)),
        Edit::Put {
            id,
            prop,
            value,
            from,
            to,
        } => {
            let site = site_of(graph, id, *from, *to)?;
            Ok(Change::Put { site, prop, value })
        }
        Edit::Clear { id, prop, from, to } => {
            let site = site_of(graph, id, *from, *to)?;
            Ok(Change::Clear { site, prop })
        }
        Edit::Remove { id } => Ok(Change::Remove(named(graph, id)?)),
    }
}

// The span from the one moment to the other, which has each moment of the horizon.
fn wider(graph: &Graph, lo: i64, hi: i64) -> Result<Span, RuleCode>
    ensures wider { IfOk result (λ span. IsWider graph.now span) }
    ensures span { IfOk result (λ span. span ≡ span_of lo hi) }
    ensures broken { IfErr result (λ rule. Broken graph.now (edits.Extend lo hi) rule) }
{
    let Some(horizon) = graph.horizon() else {
        return Err(RuleCode::NoGraph);
    };
    let span = Span::new(lo, hi).ok_or(RuleCode::Backwards)?;
    if leaves(horizon, span) {
        Err(RuleCode::Narrow)
    } else {
        Ok(span)
    }
}

// Whether the name may be declared.
fn check_new(graph: &Graph, id: &Name) -> Result<(), RuleCode>
    ensures new { IfOk result (λ _. IsNew graph.now id.now) }
    ensures broken { IfErr result (λ rule. FirstOf (NewBreaks graph.now id.now) (rules.NoGraph ∷ rules.Taken ∷ []) rule) }
{
    if graph.horizon().is_none() {
        Err(RuleCode::NoGraph)
    } else if graph.find(id).is_some() {
        Err(RuleCode::Taken)
    } else {
        Ok(())
    }
}

// The standing object of this name.
fn named(graph: &Graph, id: &Name) -> Result<ObjNo, RuleCode>
    ensures named { IfOk result (λ object. IsNamed graph.now id.now object) }
    ensures broken { IfErr result (λ rule. FirstOf (NameBreaks graph.now id.now) (rules.NoGraph ∷ rules.Unknown ∷ []) rule) }
{
    if graph.horizon().is_none() {
        return Err(RuleCode::NoGraph);
    }
    graph.find(id).ok_or(RuleCode::Unknown)
}

// The standing object of this name, and the span from the one moment to the other.
fn site_of(graph: &Graph, id: &Name, from: i64, to: i64) -> Result<Site, RuleCode>
    ensures site { IfOk result (λ site. IsSite graph.now id.now site) }
    ensures span { IfOk result (λ site. site.span ≡ span_of from to) }
    ensures broken { IfErr result (λ rule. FirstOf (PlaceBreaks graph.now id.now from to) (rules.NoGraph ∷ rules.Unknown ∷ rules.Backwards ∷ rules.Horizon ∷ []) rule) }
{
    let Some(horizon) = graph.horizon() else {
        return Err(RuleCode::NoGraph);
    };
    let Some(object) = graph.find(id) else {
        return Err(RuleCode::Unknown);
    };
    let Some(span) = Span::new(from, to) else {
        return Err(RuleCode::Backwards);
    };
    if leaves(span, horizon) {
        Err(RuleCode::Horizon)
    } else {
        Ok(Site { object, span })
    }
}
