//! The first rule that an edit breaks.
ghost use Rattle.std.specs.Prelude.{◌≡◌, ◌<◌, ◌≤◌, length, true, false, IfOk, IfErr, MatchOption};
ghost use Rattle.itpg_base.specs.declared.rule_code.RuleCode.TheVariants as rules;
ghost use Rattle.itpg_edit.specs.Rules.{Broken, Unbroken};
ghost use Rattle.itpg_edit.specs.Changes.{IsAsked, IsFound, Fits};
ghost use Rattle.itpg_edit.specs.declared.edit.Edit.{Edit as AnyEdit};

use crate::change::Change;
use crate::edit::Edit;
use crate::facts::{
    clears_too_many, cuts_too_many, is_absent, is_held, is_incident, joins_edge, joins_too_many,
    lacks_end, puts_too_many,
};
use crate::finding::find;
use itpg_base::{MAX_OBJECTS, RuleCode};
use itpg_graph::Graph;

/// The first rule, in the order in which they are tried, that the edit breaks on this graph; `None` exactly if it breaks
/// none. It takes no memory.
///
/// ```text
///     graph g 0 100, node a Person, live a 0 20
///
///     live a 9 5       backwards
///     live a 90 101    horizon
///     set a risk 'low' 15 25    absent: a doesn't exist from 21 on
///     gone a 5 6       None
/// ```
pub fn broken(graph: &Graph, edit: &Edit) -> Option<RuleCode>
    ensures { MatchOption result (Unbroken graph.now edit.now) (λ rule. Broken graph.now edit.now rule) }
{
    match resolve(graph, edit) {
        Ok(_) => None,
        Err(rule) => Some(rule),
    }
}

/// The change that the edit asks for, if it breaks no rule; else the first that it breaks.
pub(crate) fn resolve<'a>(graph: &Graph, edit: &'a Edit) -> Result<Change<'a>, RuleCode>
    ensures asked { IfOk result (λ change. IsAsked graph.now edit.now change) }
    ensures fits { IfOk result (λ change. Fits graph.now change) }
    ensures unbroken { IfOk result (λ _. Unbroken graph.now edit.now) }
    ensures broken { IfErr result (λ rule. Broken graph.now edit.now rule) }
{
    let change = match find(graph, edit) {
        Ok(change) => change,
        Err(rule) => return Err(rule),
    };
    check(graph, &change)?;
    Ok(change)
}

// Whether the change fits the graph, and else the first rule that an edit breaks which asks for it.
fn check(graph: &Graph, change: &Change<'_>) -> Result<(), RuleCode>
    requires { IsFound graph.now change.now }
    ensures fits { IfOk result (λ _. Fits graph.now change.now) }
    ensures broken { IfErr result (λ rule. (edit : AnyEdit) → IsAsked graph.now edit change.now → Broken graph.now edit rule) }
{
    match change {
        Change::Begin { .. } | Change::Widen(_) => Ok(()),
        Change::AddNode { .. } => check_room(graph),
        Change::AddEdge { source, target, .. } => {
            refuse_if(joins_edge(graph, *source, *target), RuleCode::Kind)?;
            check_room(graph)
        }
        Change::Live(site) => {
            refuse_if(lacks_end(graph, site), RuleCode::Ends)?;
            refuse_if(joins_too_many(graph, site), RuleCode::Full)
        }
        Change::Gone(site) => {
            refuse_if(is_held(graph, site), RuleCode::Held)?;
            refuse_if(cuts_too_many(graph, site), RuleCode::Full)
        }
        Change::Put { site, prop, value } => {
            refuse_if(is_absent(graph, site), RuleCode::Absent)?;
            refuse_if(puts_too_many(graph, site, prop, value), RuleCode::Full)
        }
        Change::Clear { site, prop } => {
            refuse_if(clears_too_many(graph, site, prop), RuleCode::Full)
        }
        Change::Remove(object) => refuse_if(is_incident(graph, *object), RuleCode::Incident),
    }
}

// Whether one more object may be declared.
fn check_room(graph: &Graph) -> Result<(), RuleCode>
    ensures room { IfOk result (λ _. length graph.now.objects < MAX_OBJECTS) }
    ensures full { IfErr result (λ rule. (rule ≡ rules.Full) × (MAX_OBJECTS ≤ length graph.now.objects)) }
{
    refuse_if(graph.declared() as usize >= MAX_OBJECTS, RuleCode::Full)
}

// The rule, if it is broken.
fn refuse_if(broken: bool, rule: RuleCode) -> Result<(), RuleCode>
    ensures kept { IfOk result (λ _. broken ≡ false) }
    ensures broken { IfErr result (λ first. (first ≡ rule) × (broken ≡ true)) }
{
    if broken { Err(rule) } else { Ok(()) }
}
