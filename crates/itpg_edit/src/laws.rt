//! The laws of edits. Each is the contract of a function that does nothing.
ghost use Rattle.std.specs.Prelude.{◌≡◌, ◌⊎◌};
ghost use Rattle.itpg_base.specs.Graphs.{Graph, Good};
ghost use Rattle.itpg_base.specs.declared.rule_code.RuleCode.{RuleCode};
ghost use Rattle.itpg_edit.specs.declared.edit.Edit.{Edit};
ghost use Rattle.itpg_edit.specs.Rules.{Broken, Unbroken};
ghost use Rattle.itpg_edit.specs.Next.{Next};
ghost use Rattle.itpg_edit.specs.Sites.{HasMoments, HasLabels};

/// On a good graph an edit breaks no rule, or exactly one is the first that it breaks.
pub fn law_of_rules()
    ensures some { (g : Graph) (edit : Edit) → Good g → ((rule : RuleCode) × Broken g edit rule) ⊎ Unbroken g edit }
    ensures one { (g : Graph) (edit : Edit) (r q : RuleCode) → Broken g edit r → Broken g edit q → r ≡ q }
    ensures apart { (g : Graph) (edit : Edit) (r : RuleCode) → Broken g edit r → Unbroken g edit → ⊥ }
{}

/// An edit that breaks no rule leads from a good graph to exactly one, which is good.
pub fn law_of_next()
    ensures some { (g : Graph) (edit : Edit) → Good g → Unbroken g edit → (new : Graph) × Next g edit new }
    ensures good { (g new : Graph) (edit : Edit) → Good g → HasMoments edit → HasLabels edit → Unbroken g edit → Next g edit new → Good new }
    ensures one { (g x y : Graph) (edit : Edit) → Good g → Next g edit x → Next g edit y → x ≡ y }
{}
