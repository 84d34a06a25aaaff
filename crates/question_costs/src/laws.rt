//! Laws of counts. Each is the contract of a function that does nothing.
ghost use Rattle.std.specs.Prelude.{◌<◌, ℕ, List};
ghost use Rattle.itpg_base.specs.Graphs.{Graph};
ghost use Rattle.path_ast.specs.Terms.{PathTerm};
ghost use Rattle.label_scope.specs.declared.scope.Scope.TheVariants.{All};
ghost use Rattle.label_scope.specs.Members.{worked};
ghost use Rattle.plan_cache.specs.Nodes.{PlanNode};
ghost use Rattle.path_eval.specs.Evaluated.{SomeIsWide};
ghost use Rattle.question_costs.specs.declared.count.Count.{Count};
ghost use Rattle.question_costs.specs.Needed.{AreCountsOf, NeedsRows};

/// Below the rows that a question needs by what is told of its members, with whatever limit they were counted, it is too wide.
pub fn law_of_needed_rows()
    ensures { (g : Graph) (limit usual n less : ℕ) (p : PathTerm) (nodes : List PlanNode) (root : ℕ) (counts : List Count) →
        AreCountsOf g limit p nodes root counts → NeedsRows usual counts n → less < n → SomeIsWide g less (worked p All All) }
{}
