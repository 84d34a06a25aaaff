//! Laws of hints. Each is the contract of a function that does nothing.
ghost use Rattle.std.specs.Prelude.{IsTrue};
ghost use Rattle.itpg_base.specs.Graphs.{Graph, Good};
ghost use Rattle.itpg_base.specs.Points.{Point};
ghost use Rattle.path_ast.specs.Terms.{PathTerm};
ghost use Rattle.path_ast.specs.Meaning.{Rel};
ghost use Rattle.question_hints.specs.Examples.{ArePassing, ArePossible};
ghost use Rattle.question_hints.specs.Kinds.{is_nowhere, leads_of};

/// A path that by its form leads from no kind of object to any leads nowhere on any graph.
pub fn law_of_kinds()
    ensures { (p : PathTerm) (g : Graph) (x y : Point) → Good g → IsTrue (is_nowhere (leads_of p)) → ¬ Rel p g x y }
{}

/// Six paths with the hints that they can give. They are written by hand.
pub fn hints_of_short_paths()
    ensures { ArePossible }
{}

/// Which of some paths pass time freely. They are written by hand.
pub fn times_passed_by_short_paths()
    ensures { ArePassing }
{}
