//! The laws of the plain machine, and of edits that an answer can't depend on. Each is the contract of a function that does nothing of use when it runs.
ghost use Rattle.itpg_base.specs.Graphs.{Graph as PlainGraph, Good};
ghost use Rattle.itpg_base.specs.declared.touch.Touch.{Touch};
ghost use Rattle.itpg_edit.specs.declared.edit.Edit.{Edit};
ghost use Rattle.itpg_edit.specs.Next.{Makes};
ghost use Rattle.path_ast.specs.Terms.{PathTerm};
ghost use Rattle.label_scope.specs.declared.scope.Scope.{Scope};
ghost use Rattle.label_scope.specs.Footprints.{footprint, footprint_between};
ghost use Rattle.label_scope.specs.Touching.{Meets};
ghost use Rattle.label_scope.specs.Agreeing.{Agree};
ghost use Rattle.itpg_session.specs.MachineLaws.{OneAsked, SomeAsked, DeclaredAsked, OneReply, SomeReply, GoodReply, GoodOpening, FrontReplies};

use edit_reader::{law_of_labels, law_of_lines, law_of_long_lines, law_of_moments, law_of_names};
use itpg_edit::{law_of_next, law_of_rules};
use itpg_graph::Graph;
use json_port::{law_of_json_lines, law_of_long_json_lines};
use match_parser::law_of_queries;
use path_eval::law_of_near_rows;
use standing_queries::law_of_changes;

/// On each graph a query text has exactly one reply, and each object of its rows was declared.
pub fn law_of_asked()
    ensures one { OneAsked }
    ensures some { SomeAsked }
    ensures declared { DeclaredAsked }
{
    law_of_queries();
}

/// From a good machine a line of either form has exactly one turn, which leaves a good machine; and the machine is good at first.
pub fn law_of_replies()
    ensures one { OneReply }
    ensures some { SomeReply }
    ensures good { GoodReply }
    ensures opening { GoodOpening }
{
    law_of_lines();
    law_of_moments();
    law_of_labels();
    law_of_names();
    law_of_json_lines();
    law_of_rules();
    law_of_next();
    law_of_queries();
    law_of_near_rows();
    law_of_changes();
}

/// A line has the turns of its first 65,538 bytes: of a longer line no more need be kept.
pub fn law_of_fronts()
    ensures { FrontReplies }
{
    law_of_long_lines();
    law_of_long_json_lines();
}

/// A graph in memory is a good one: its type keeps that.
pub(crate) fn law_of_graphs(graph: &Graph)
    ensures { Good graph.now }
{
    let _horizon = graph.horizon();
}

/// If an edit of a good graph breaks no rule and the footprint of a path between two scopes doesn't meet what it touches, then the
/// graph and the next one agree on the footprint. The same holds between scopes that are narrowed.
pub fn law_of_untouched()
    ensures path { (g new : PlainGraph) (edit : Edit) (touch : Touch) (p : PathTerm) (a b : Scope) → Good g → Makes g edit new touch →
        (Meets (footprint p a b) touch → ⊥) → Agree g new (footprint p a b) }
    ensures between { (g new : PlainGraph) (edit : Edit) (touch : Touch) (p : PathTerm) (a b : Scope) → Good g → Makes g edit new touch →
        (Meets (footprint_between p a b) touch → ⊥) → Agree g new (footprint_between p a b) }
{}
