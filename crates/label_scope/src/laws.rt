//! The laws of scopes. Each is the contract of a function that does nothing.
ghost use Rattle.std.specs.Prelude.{◌≡◌, ◌↔◌, ◌⊎◌, ◌∷◌, ℕ, List, IsTrue, Contains};
ghost use Rattle.itpg_base.specs.Decided.{Decided};
ghost use Rattle.itpg_base.specs.Words.{Word, IsRising};
ghost use Rattle.itpg_base.specs.Graphs.{Graph, Good};
ghost use Rattle.itpg_base.specs.Points.{Point, IsAt};
ghost use Rattle.itpg_base.specs.Walks.{IsWalk};
ghost use Rattle.path_ast.specs.Terms.{PathTerm, TestTerm};
ghost use Rattle.path_ast.specs.Meaning.{Rel, Sat, keeps_object};
ghost use Rattle.label_scope.specs.declared.scope.Scope.{Scope};
ghost use Rattle.label_scope.specs.declared.scope.Scope.TheVariants.{All};
ghost use Rattle.label_scope.specs.Labels.{labels_of_either};
ghost use Rattle.label_scope.specs.Scopes.{IsWithin, met, joined, source_scope, target_scope, test_scope};
ghost use Rattle.label_scope.specs.Narrowing.{Cut, narrowed};
ghost use Rattle.label_scope.specs.Members.{passed};
ghost use Rattle.label_scope.specs.Passing.{AllWithin};

/// Of two lists of labels, the labels of either are those that stand in the one or in the other. Where the first list rises, so
/// do these.
pub fn law_of_labels()
    ensures either { (these others : List Word) (label : Word) → Contains (labels_of_either these others) label ↔ (Contains these label ⊎ Contains others label) }
    ensures rising { (these others : List Word) → IsRising these → IsRising (labels_of_either these others) }
{}

/// On a good graph a path leads from an object within its source scope to one within its target scope, and a test holds
/// at points of objects within its scope alone. A path that keeps its object leads to the same object.
pub fn law_of_scopes()
    ensures sources { (p : PathTerm) (g : Graph) (x y : Point) → Good g → Rel p g x y → IsWithin (source_scope p) g x.object }
    ensures targets { (p : PathTerm) (g : Graph) (x y : Point) → Good g → Rel p g x y → IsWithin (target_scope p) g y.object }
    ensures tests { (c : TestTerm) (g : Graph) (x : Point) → Good g → IsAt g x → Sat c g x → IsWithin (test_scope c) g x.object }
    ensures kept { (p : PathTerm) (g : Graph) (x y : Point) → IsTrue (keeps_object p) → Rel p g x y → x.object ≡ y.object }
{}

/// An object within two scopes is within what they are met in, and an object within that is within the first of them. What they
/// are joined in has exactly the objects of either.
pub fn law_of_met_and_joined_scopes()
    ensures met { (a b : Scope) (g : Graph) (o : ℕ) → IsWithin a g o → IsWithin b g o → IsWithin (met a b) g o }
    ensures first { (a b : Scope) (g : Graph) (o : ℕ) → IsWithin (met a b) g o → IsWithin a g o }
    ensures joined { (a b : Scope) (g : Graph) (o : ℕ) → IsWithin (joined a b) g o ↔ (IsWithin a g o ⊎ IsWithin b g o) }
{}

/// On a good graph a path leads between the same points before and after its scopes are narrowed.
pub fn law_of_narrowing()
    ensures { (p : PathTerm) (a b : Scope) (g : Graph) (x y : Point) → Good g →
        Cut g p a b x y ↔ Cut g p (narrowed p a b).sources (narrowed p a b).targets x y }
{}

/// On a good graph each walk along a path, from an object within the one scope to an object within the other, passes only
/// objects within the scope of all that a repetition of the path passes between the two.
pub fn law_of_passing()
    ensures { (r : PathTerm) (a b : Scope) (g : Graph) (x y : Point) (points : List Point) → Good g → IsWithin a g x.object → IsWithin b g y.object →
        IsWalk (Rel r g) x points y → AllWithin (passed r (record { sources = a; targets = b })) g (x ∷ points) }
{}

/// Between `All` and `All` nothing is cut off.
pub fn law_of_cut()
    ensures { (p : PathTerm) (g : Graph) (x y : Point) → Cut g p All All x y ↔ Rel p g x y }
{}

/// On every graph it is decided whether an object is within a scope.
pub fn law_of_decided_scopes()
    ensures { (scope : Scope) (g : Graph) (o : ℕ) → Decided (IsWithin scope g o) }
{}
