//! Making an edit.
ghost use Rattle.std.specs.Prelude.{◌≡◌, ◌↔◌, Err, IfOk, IfErr, OnOk, OnErr};
ghost use Rattle.itpg_base.specs.declared.rule_code.RuleCode.{RuleCode as Code};
ghost use Rattle.itpg_edit.specs.Rules.{Broken, Unbroken};
ghost use Rattle.itpg_edit.specs.Next.{Makes, Next, Excuses};
ghost use Rattle.itpg_edit.specs.Sites.{HasMoments};
ghost use Rattle.itpg_edit.specs.Changes.{IsFound, Fits, BeginsInMoments, Leaves, NeedsMemory};
ghost use Rattle.itpg_edit.specs.declared.fault.EditFault.TheVariants.{Rule as ByRule};

use crate::change::Change;
use crate::checks::resolve;
use crate::edit::Edit;
use crate::fault::EditFault;
use itpg_base::Touch;
use itpg_graph::Graph;
use std::alloc::AllocError;

/// Makes the edit, and says what it touches.
///
/// The numbers of the edit are moments.
///
/// # Errors
///
/// `Rule(c)` exactly if c is the first rule that the edit breaks, and `Memory` if it breaks none and memory ran out.
/// Then the graph is as it was. No memory is asked for if a rule is broken, nor for `Begin`, `Extend` and `Remove`.
pub fn apply(graph: &mut Graph, edit: &Edit) -> Result<Touch, EditFault>
    requires { HasMoments edit.now }
    ensures makes { IfOk result (λ touch. Makes graph.old edit.now graph.new touch) }
    ensures rule { (rule : Code) → (result ≡ Err (ByRule rule)) ↔ Broken graph.old edit.now rule }
    ensures excuse { IfErr result (λ fault. Excuses graph.old edit.now fault) }
    ensures same { OnErr result (graph.new ≡ graph.old) }
{
    let change = match resolve(graph, edit) {
        Ok(change) => change,
        Err(rule) => return Err(EditFault::Rule(rule)),
    };
    let touch = change.touch(graph);
    make(graph, &change)?;
    Ok(touch)
}

/// Makes the edit, as `apply` does, where nobody asks what it touches.
///
/// The numbers of the edit are moments.
///
/// # Errors
///
/// As those of `apply`.
pub fn make_edit(graph: &mut Graph, edit: &Edit) -> Result<(), EditFault>
    requires { HasMoments edit.now }
    ensures unbroken { OnOk result (Unbroken graph.old edit.now) }
    ensures next { OnOk result (Next graph.old edit.now graph.new) }
    ensures rule { (rule : Code) → (result ≡ Err (ByRule rule)) ↔ Broken graph.old edit.now rule }
    ensures excuse { IfErr result (λ fault. Excuses graph.old edit.now fault) }
    ensures same { OnErr result (graph.new ≡ graph.old) }
{
    match resolve(graph, edit) {
        Ok(change) => {
            make(graph, &change)?;
            Ok(())
        }
        Err(rule) => Err(EditFault::Rule(rule)),
    }
}

// Makes the change. Without memory the graph stays as it was.
fn make(graph: &mut Graph, change: &Change<'_>) -> Result<(), AllocError>
    requires found { IsFound graph.old change.now }
    requires fits { Fits graph.old change.now }
    requires moments { BeginsInMoments change.now }
    ensures ok { OnOk result (Leaves graph.old change.now graph.new) }
    ensures memory { OnErr result (NeedsMemory change.now) }
    ensures same { OnErr result (graph.new ≡ graph.old) }
{
    match *change {
        Change::Begin { name, horizon } => {
            graph.begin(*name, horizon);
            Ok(())
        }
        Change::Widen(horizon) => {
            graph.widen(horizon);
            Ok(())
        }
        Change::AddNode { id, labels } => {
            graph.add_node(*id, *labels)?;
            Ok(())
        }
        Change::AddEdge {
            id,
            labels,
            source,
            target,
        } => {
            graph.add_edge(*id, *labels, source, target)?;
            Ok(())
        }
        Change::Live(site) => graph.join_live(site.object, site.span),
        Change::Gone(site) => graph.cut_live(site.object, site.span),
        Change::Put { site, prop, value } => {
            graph.put_value(site.object, *prop, *value, site.span)
        }
        Change::Clear { site, prop } => graph.clear_value(site.object, *prop, site.span),
        Change::Remove(object) => {
            graph.remove(object);
            Ok(())
        }
    }
}
