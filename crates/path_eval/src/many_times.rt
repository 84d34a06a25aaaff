//! The law of unbounded repetitions. It is the contract of a function that does nothing.
ghost use Rattle.std.specs.Prelude.{◌↔◌, ℕ, ◌^◌, ◌≤◌, Some, None};
ghost use Rattle.itpg_base.specs.Graphs.{Graph, Good};
ghost use Rattle.itpg_base.specs.Points.{Point};
ghost use Rattle.path_ast.specs.Terms.{PathTerm, Repetition};
ghost use Rattle.path_ast.specs.Meaning.{Rel};

/// On a good graph a path that is repeated any number of times, or up to a number of 2^60 or more, leads between the same points
/// as up to 2^60 times: there are fewer points, so a longer walk comes to some point twice.
pub fn law_of_many_times()
    ensures any { (p : PathTerm) (g : Graph) (x y : Point) → Good g → Rel (Repetition p 0 None) g x y ↔ Rel (Repetition p 0 (Some (2 ^ 60))) g x y }
    ensures many { (p : PathTerm) (g : Graph) (n : ℕ) (x y : Point) → Good g → 2 ^ 60 ≤ n →
        Rel (Repetition p 0 (Some n)) g x y ↔ Rel (Repetition p 0 (Some (2 ^ 60))) g x y }
{}
