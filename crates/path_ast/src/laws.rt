//! Laws of the meaning of paths and tests. Each is the contract of a function that does nothing.

ghost use Rattle.std.specs.Prelude.{◌≡◌, ◌↔◌, ◌⊎◌, ◌+◌, ◌+ℤ◌, ℕ, ℤ, pos, Option, Some, None, IsTrue};
ghost use Rattle.itpg_base.specs.Decided.{Decided};
ghost use Rattle.itpg_base.specs.Graphs.{Graph, Good, Stands, InHorizon, IsPoint};
ghost use Rattle.itpg_base.specs.Points.{Point, IsAt};
ghost use Rattle.path_ast.specs.Terms.{PathTerm, TestTerm, Forward, Backward, Next, Previous, Sequence, Repetition, Negation};
ghost use Rattle.path_ast.specs.Walks.{IsFromTo, Power};
ghost use Rattle.path_ast.specs.Meaning.{Rel, Sat, IsNodeOf, IsEdgeOf, HasSource, HasTarget, keeps_object};

/// F and B are each other's reverse, and so are N and P.
pub fn law_of_reverse_axes()
    ensures edges { (g : Graph) (x y : Point) → Rel Forward g x y ↔ Rel Backward g y x }
    ensures moments { (g : Graph) (x y : Point) → Rel Next g x y ↔ Rel Previous g y x }
{}

/// In a good graph F leads, at each moment of the horizon, from the source of a standing edge to the edge and from the
/// edge to its target; and N leads from each point to the next of its object. Nothing has to exist there.
pub fn law_of_steps()
    ensures from_source { (g : Graph) (e a : ℕ) (t : ℤ) → Good g → Stands g e → HasSource g e a → InHorizon g t →
        Rel Forward g (record { object = a; moment = t }) (record { object = e; moment = t }) }
    ensures to_target { (g : Graph) (e b : ℕ) (t : ℤ) → Good g → Stands g e → HasTarget g e b → InHorizon g t →
        Rel Forward g (record { object = e; moment = t }) (record { object = b; moment = t }) }
    ensures to_next { (g : Graph) (o : ℕ) (t : ℤ) → IsPoint g o t → IsPoint g o (t +ℤ pos 1) →
        Rel Next g (record { object = o; moment = t }) (record { object = o; moment = t +ℤ pos 1 }) }
{}

/// In a good graph F and B lead from a node to an edge or from an edge to a node, and nowhere else.
pub fn law_of_axes_and_kinds()
    ensures forward { (g : Graph) (x y : Point) → Good g → Rel Forward g x y →
        (IsNodeOf g x.object × IsEdgeOf g y.object) ⊎ (IsEdgeOf g x.object × IsNodeOf g y.object) }
    ensures backward { (g : Graph) (x y : Point) → Good g → Rel Backward g x y →
        (IsNodeOf g x.object × IsEdgeOf g y.object) ⊎ (IsEdgeOf g x.object × IsNodeOf g y.object) }
{}

/// Each path leads between points of the graph: standing objects at moments of the horizon.
pub fn law_of_points()
    ensures first { (p : PathTerm) (g : Graph) (x y : Point) → Rel p g x y → IsAt g x }
    ensures last { (p : PathTerm) (g : Graph) (x y : Point) → Rel p g x y → IsAt g y }
{}

/// A path that keeps its object leads from a point to points of the same object alone.
pub fn law_of_kept_objects()
    ensures { (p : PathTerm) (g : Graph) (x y : Point) → IsTrue (keeps_object p) → Rel p g x y → x.object ≡ y.object }
{}

/// `path[n,m]` is the union of the path's powers from the n-th to the m-th, and `path[n,_]` of all from the n-th on. So
/// `path[n,n]` is the n-th power alone, and `path[0,_]` the union of all.
///
/// The zeroth power is the identity on all points, the first is the path itself, and each next one is a step and then
/// the power before.
pub fn law_of_powers()
    ensures union { (p : PathTerm) (n : ℕ) (m : Option ℕ) (g : Graph) (x y : Point) →
        Rel (Repetition p n m) g x y ↔ ((k : ℕ) × IsFromTo n m k × Power g (Rel p g) k x y) }
    ensures alone { (p : PathTerm) (n : ℕ) (g : Graph) (x y : Point) →
        Rel (Repetition p n (Some n)) g x y ↔ Power g (Rel p g) n x y }
    ensures all { (p : PathTerm) (g : Graph) (x y : Point) →
        Rel (Repetition p 0 None) g x y ↔ ((k : ℕ) × Power g (Rel p g) k x y) }
    ensures zeroth { (p : PathTerm) (g : Graph) (x y : Point) → Power g (Rel p g) 0 x y ↔ (IsAt g x × (x ≡ y)) }
    ensures first { (p : PathTerm) (g : Graph) (x y : Point) → Power g (Rel p g) 1 x y ↔ Rel p g x y }
    ensures next { (p : PathTerm) (k : ℕ) (g : Graph) (x y : Point) →
        Power g (Rel p g) (k + 1) x y ↔ ((z : Point) × Rel p g x z × Power g (Rel p g) k z y) }
{}

/// Three paths in sequence mean the same whichever two are joined first.
pub fn law_of_associativity()
    ensures { (p q r : PathTerm) (g : Graph) (x y : Point) →
        Rel (Sequence (Sequence p q) r) g x y ↔ Rel (Sequence p (Sequence q r)) g x y }
{}

/// On every graph it is decided, for each path, whether it leads from a point to another.
pub fn law_of_decided_paths()
    ensures { (p : PathTerm) (g : Graph) (x y : Point) → Decided (Rel p g x y) }
{}

/// On every graph it is decided, for each test, whether it holds at a point: either the test or its negation does, whether
/// the object exists there or not, and never both do.
pub fn law_of_decided_tests()
    ensures decided { (c : TestTerm) (g : Graph) (x : Point) → Decided (Sat c g x) }
    ensures either { (c : TestTerm) (g : Graph) (x : Point) → Sat c g x ⊎ Sat (Negation c) g x }
    ensures apart { (c : TestTerm) (g : Graph) (x : Point) → Sat c g x → Sat (Negation c) g x → ⊥ }
{}
