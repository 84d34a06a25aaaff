//! The plan nodes of queries, and a table of plans that is made anew where there may be no room for one more.
ghost use Rattle.std.specs.Prelude.{◌≡◌, ◌+◌, ◌≤◌, ℕ, [], length, IfOk, OnOk, OnErr};
ghost use Rattle.path_ast.specs.Terms.{path_term};
ghost use Rattle.path_ast.specs.Sizes.{path_size, IsPathInRange};
ghost use Rattle.path_ast.specs.declared.counts.TheConstants.{MAX_TERMS};
ghost use Rattle.label_scope.specs.declared.scope.Scope.TheVariants.{All};
ghost use Rattle.plan_cache.specs.Nodes.{IsNodeOf, narrowed_member};
ghost use Rattle.itpg_base.specs.Graphs.{Graph};
ghost use Rattle.plan_cache.specs.KeptRows.{AddsFree};
ghost use Rattle.plan_cache.specs.RightRows.{IsTableRight};
ghost use Rattle.plan_cache.specs.Refilled.{KeepsShared};
ghost use Rattle.plan_cache.specs.declared.nodes.TheConstants.{MAX_NODES as most_nodes};
ghost use Rattle.itpg_session.specs.Steps.{IsAlike};
ghost use Rattle.itpg_session.specs.Keeping.{AddsPath, AddsOrRenews, AreOfWatches};
ghost use Rattle.itpg_session.specs.Planning.{with_plans, HasWatches};

use crate::session::Session;
use path_ast::{Query, terms};
use plan_cache::{MAX_NODES, PlanNo, Plans, law_of_shared_nodes};
use standing_queries::Watches;
use std::alloc::{AllocError, Global};

impl Session {
    /// The node of the query's path between all objects. If there may be no room for it, the table of plans is made anew.
    pub(crate) fn planned(&mut self, query: &Query) -> Result<PlanNo, AllocError>
        requires in_range { IsPathInRange (path_term query.now.path) }
        requires terms { path_size (path_term query.now.path) ≤ MAX_TERMS }
        ensures node { IfOk result (λ no. IsNodeOf self.new.table.nodes no.0 (narrowed_member (path_term query.now.path) All All)) }
        ensures alike { IsAlike self.old self.new }
        ensures adds { AddsOrRenews (path_term query.now.path) self.old.machine.watches self.old.table self.new.table }
        ensures pins { self.new.pins ≡ self.old.pins }
        ensures follows { self.new.follows ≡ self.old.follows }
    {
        if terms(&query.path) > (MAX_NODES - self.plans.len()) as usize {
            self.renew()?;
        }
        self.intern(query)
    }

    // The same where there is room.
    fn intern(&mut self, query: &Query) -> Result<PlanNo, AllocError>
        requires in_range { IsPathInRange (path_term query.now.path) }
        requires room { length self.old.table.nodes + path_size (path_term query.now.path) ≤ most_nodes }
        ensures node { IfOk result (λ no. IsNodeOf self.new.table.nodes no.0 (narrowed_member (path_term query.now.path) All All)) }
        ensures alike { IsAlike self.old self.new }
        ensures adds { AddsPath (path_term query.now.path) self.old.table self.new.table }
        ensures free { AddsFree self.old.table.kept self.new.table.kept }
        ensures pins { self.new.pins ≡ self.old.pins }
        ensures follows { self.new.follows ≡ self.old.follows }
    {
        self.plans.intern(query)
    }

    // Makes the table of plans anew, of the watches' queries alone. What is kept of their paths and of their parts stays.
    fn renew(&mut self) -> Result<(), AllocError>
        ensures room { OnOk result (length self.new.table.nodes + MAX_TERMS ≤ most_nodes) }
        ensures anew { OnOk result (AreOfWatches self.old.machine.watches self.new.table.nodes) }
        ensures each { OnOk result (length self.new.table.kept ≡ length self.new.table.nodes) }
        ensures has { OnOk result (HasWatches self.new.table.nodes self.old.machine.watches) }
        ensures kept { OnOk result (KeepsShared self.old.table self.new.table) }
        ensures same { OnErr result (self.new.table ≡ self.old.table) }
        ensures alike { IsAlike self.old self.new }
        ensures pins { self.new.pins ≡ self.old.pins }
        ensures follows { self.new.follows ≡ self.old.follows }
    {
        // There are few enough of them.
        let _few = self.watches.len();
        let numbers = self.plans.refill(self.watches.queries())?;
        law_of_shared_nodes(&self.plans);
        replan(&mut self.watches, &numbers);
        Ok(())
    }
}

/// The node of the query's path between all objects in a table beside which nothing is watched. If there may be no room for it, the
/// table is emptied first.
pub(crate) fn planned_alone(
    alloc: Global,
    plans: &mut Plans,
    query: &Query,
) -> Result<PlanNo, AllocError>
    requires in_range { IsPathInRange (path_term query.now.path) }
    requires terms { path_size (path_term query.now.path) ≤ MAX_TERMS }
    ensures node { IfOk result (λ no. IsNodeOf plans.new.nodes no.0 (narrowed_member (path_term query.now.path) All All)) }
    ensures adds { AddsOrRenews (path_term query.now.path) [] plans.old plans.new }
    ensures right { (g : Graph) (limit : ℕ) → IsTableRight g limit plans.old → IsTableRight g limit plans.new }
{
    if terms(&query.path) > (MAX_NODES - plans.len()) as usize {
        *plans = Plans::new(alloc);
    }
    plans.intern(query)
}

// Has each watch stand for the node at its place in the list.
fn replan(watches: &mut Watches, numbers: &[PlanNo])
    requires { length numbers.now ≡ length watches.old }
    ensures { watches.new ≡ with_plans numbers.now watches.old }
{
    for place in 0..watches.len() {
        watches.set_plan(place, numbers[place]);
    }
}
