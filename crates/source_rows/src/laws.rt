//! Laws of neighbourhoods. Each is the contract of a function that does nothing.

ghost use Rattle.std.specs.Prelude.{◌≡◌, ◌⊎◌, ◌↔◌, ℕ, suc, List, Option, Some, None};
ghost use Rattle.itpg_base.specs.Graphs.{Graph, Good, Stands};
ghost use Rattle.itpg_base.specs.Points.{Point};
ghost use Rattle.itpg_base.specs.declared.object_number.ObjNo.{ObjNo};
ghost use Rattle.itpg_graph.specs.Edges.{HasNumber, AreNumbers};
ghost use Rattle.itpg_graph.specs.GraphParts.{IsOnly, ArePart, only_of};
ghost use Rattle.itpg_edit.specs.declared.edit.Edit.{Edit};
ghost use Rattle.itpg_edit.specs.Next.{Next};
ghost use Rattle.path_ast.specs.Terms.{PathTerm};
ghost use Rattle.path_ast.specs.Meaning.{Rel};
ghost use Rattle.label_scope.specs.declared.scope.Scope.{Scope};
ghost use Rattle.label_scope.specs.Narrowing.{Cut};
ghost use Rattle.source_rows.specs.Steps.{path_steps};
ghost use Rattle.source_rows.specs.Reach.{IsStep, IsReached, Reach};
ghost use Rattle.source_rows.specs.Near.{IsNear, Agree};
ghost use Rattle.source_rows.specs.Touched.{AreTouched, Meets, IsUntouched};
ghost use Rattle.source_rows.specs.declared.touched.Touched.{Touched};

/// On the neighbourhood of an object a path leads from it as on the whole graph, and it ends in what is reached.
pub fn law_of_neighbourhoods()
    ensures same { (p : PathTerm) (g near : Graph) (x y : Point) → IsNear g x.object (path_steps p) near → Rel p g x y ↔ Rel p near x y }
    ensures within { (p : PathTerm) (g : Graph) (x y : Point) → Rel p g x y → Reach g x.object (path_steps p) y.object }
{}

/// Graphs that agree in the horizon and in all standing objects have the same relations, also between two scopes.
pub fn law_of_agreement()
    ensures whole { (p : PathTerm) (g h : Graph) (x y : Point) → Agree g h → Rel p g x y ↔ Rel p h x y }
    ensures cut { (p : PathTerm) (a b : Scope) (g h : Graph) (x y : Point) → Agree g h → Cut g p a b x y ↔ Cut h p a b x y }
{}

/// An edit that touches nothing near a standing object leaves what is reached from it, and the neighbourhood, and where a path
/// leads from it.
pub fn law_of_untouched_neighbourhoods()
    ensures reach { (g new : Graph) (edit : Edit) (o : ℕ) (bound : Option ℕ) → Good g → Stands g o → Next g edit new →
        IsUntouched g edit o bound → (a : ℕ) → Reach g o bound a ↔ Reach new o bound a }
    ensures near { (g new : Graph) (edit : Edit) (o : ℕ) (bound : Option ℕ) → Good g → Stands g o → Next g edit new →
        IsUntouched g edit o bound → (was now : Graph) → IsNear g o bound was → IsNear new o bound now → Agree was now }
    ensures rows { (g new : Graph) (edit : Edit) (p : PathTerm) (x y : Point) → Good g → Stands g x.object → Next g edit new →
        IsUntouched g edit x.object (path_steps p) → Rel p g x y ↔ Rel p new x y }
{}

/// Where an edit touches no object of the list of what is reached from a standing object, this is the list after the edit too, and
/// the object still stands.
pub fn law_of_unmet_lists()
    ensures apart { (g : Graph) (edit : Edit) (touched : Touched) (o : ℕ) (bound : Option ℕ) (objects : List ObjNo) → AreTouched g edit touched →
        AreNumbers (Reach g o bound) objects → ¬ Meets touched objects → IsUntouched g edit o bound }
    ensures list { (g new : Graph) (edit : Edit) (o : ℕ) (bound : Option ℕ) (objects : List ObjNo) → Good g → Stands g o → Next g edit new →
        IsUntouched g edit o bound → AreNumbers (Reach g o bound) objects → AreNumbers (Reach new o bound) objects }
    ensures stands { (g new : Graph) (edit : Edit) (o : ℕ) (bound : Option ℕ) → Good g → Stands g o → Next g edit new →
        IsUntouched g edit o bound → Stands new o }
{}

/// In no step an object itself is reached, in one more what a step leads to from what was reached before, and without a bound all
/// that is reached in some number of steps.
pub fn law_of_reach()
    ensures none { (g : Graph) (o a : ℕ) → IsReached g o (Some 0) a ↔ (o ≡ a) }
    ensures more { (g : Graph) (o n a : ℕ) → IsReached g o (Some (suc n)) a ↔ (IsReached g o (Some n) a ⊎ ((b : ℕ) × IsReached g o (Some n) b × IsStep g b a)) }
    ensures all { (g : Graph) (o a : ℕ) → IsReached g o None a ↔ ((n : ℕ) × IsReached g o (Some n) a) }
{}

/// In a good graph what is reached from an object is a part, and the graph of this part is the neighbourhood.
pub fn law_of_parts()
    ensures only { (g : Graph) (objects : List ObjNo) → IsOnly g (HasNumber objects) (only_of g objects) }
    ensures part { (g : Graph) (o : ℕ) (bound : Option ℕ) (objects : List ObjNo) → Good g → AreNumbers (Reach g o bound) objects → ArePart g objects }
    ensures near { (g : Graph) (o : ℕ) (bound : Option ℕ) (objects : List ObjNo) → AreNumbers (Reach g o bound) objects → IsNear g o bound (only_of g objects) }
{}

/// What is reached from a standing object of a good graph has a list, and an object has one neighbourhood.
pub fn law_of_existing_neighbourhoods()
    ensures list { (g : Graph) (o : ℕ) (bound : Option ℕ) → Good g → Stands g o → (objects : List ObjNo) × AreNumbers (Reach g o bound) objects }
    ensures one { (g : Graph) (o : ℕ) (bound : Option ℕ) (a b : Graph) → IsNear g o bound a → IsNear g o bound b → a ≡ b }
{}
