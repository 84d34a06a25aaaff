//! The laws by which each question has one answer. Each is the contract of a function that does nothing.
ghost use Rattle.std.specs.Prelude.{◌≡◌, ◌⊎◌, ℕ, Bool, List};
ghost use Rattle.itpg_base.specs.Graphs.{Graph, Good, Stands};
ghost use Rattle.itpg_edit.specs.declared.edit.Edit.{Edit};
ghost use Rattle.itpg_edit.specs.Next.{Next};
ghost use Rattle.relation_rows.specs.declared.rows.Row.{Row};
ghost use Rattle.relation_rows.specs.declared.times.OneRow.{OneRow};
ghost use Rattle.relation_rows.specs.Rows.{NormalRows};
ghost use Rattle.relation_rows.specs.Times.{AreTimes};
ghost use Rattle.path_ast.specs.Terms.{PathTerm};
ghost use Rattle.path_ast.specs.Meaning.{Rel};
ghost use Rattle.label_scope.specs.declared.scope.Scope.{Scope};
ghost use Rattle.label_scope.specs.Narrowing.{Cut};
ghost use Rattle.label_scope.specs.Members.{Member};
ghost use Rattle.plan_cache.specs.RightRows.{AllFit};
ghost use Rattle.path_eval.specs.Evaluated.{SomeIsWide, CutToPicked};
ghost use Rattle.source_rows.specs.Steps.{path_steps};
ghost use Rattle.source_rows.specs.Touched.{IsUntouched};
ghost use Rattle.path_eval.specs.Answering.{DepartsAt, ArrivesAt};
ghost use Rattle.path_eval.specs.Nearby.{AreRowsFrom, IsTooWideNear};

/// On every graph the relation of a path, repetitions among them, between two scopes has exactly one normal list of rows.
pub fn law_of_cuts()
    ensures some { (g : Graph) (p : PathTerm) (a b : Scope) → (rows : List Row) × NormalRows (Cut g p a b) rows }
    ensures one { (g : Graph) (p : PathTerm) (a b : Scope) (xs ys : List Row) → NormalRows (Cut g p a b) xs → NormalRows (Cut g p a b) ys → xs ≡ ys }
{}

/// On every graph the relation of a path, repetitions among them, has exactly one normal list of rows where it is cut to any
/// objects, whatever they have in common.
pub fn law_of_picked_objects()
    ensures some { (g : Graph) (p : PathTerm) (sources targets : ℕ → Bool) → (rows : List Row) × NormalRows (CutToPicked g p sources targets) rows }
    ensures one { (g : Graph) (p : PathTerm) (sources targets : ℕ → Bool) (xs ys : List Row) →
        NormalRows (CutToPicked g p sources targets) xs → NormalRows (CutToPicked g p sources targets) ys → xs ≡ ys }
{}

/// Of members of a path each has at most so many normal rows, or some has more, and never both.
pub fn law_of_members()
    ensures either { (g : Graph) (limit : ℕ) (members : List Member) → AllFit g limit members ⊎ SomeIsWide g limit members }
    ensures apart { (g : Graph) (limit : ℕ) (members : List Member) → AllFit g limit members → SomeIsWide g limit members → ⊥ }
{}

/// On every graph the departures of a path have exactly one list of one-time rows, and so have its arrivals.
pub fn law_of_times()
    ensures departures { (g : Graph) (p : PathTerm) → (rows : List OneRow) × AreTimes (DepartsAt (Rel p g)) rows }
    ensures arrivals { (g : Graph) (p : PathTerm) → (rows : List OneRow) × AreTimes (ArrivesAt (Rel p g)) rows }
    ensures one_departing { (g : Graph) (p : PathTerm) (xs ys : List OneRow) → AreTimes (DepartsAt (Rel p g)) xs → AreTimes (DepartsAt (Rel p g)) ys → xs ≡ ys }
    ensures one_arriving { (g : Graph) (p : PathTerm) (xs ys : List OneRow) → AreTimes (ArrivesAt (Rel p g)) xs → AreTimes (ArrivesAt (Rel p g)) ys → xs ≡ ys }
{}

/// Near a standing object of a good graph a path is too wide, or it has exactly one list of rows from the object. An edit that
/// touches nothing there leaves these rows, and doesn't make it too wide.
pub fn law_of_near_rows()
    ensures exists { (g : Graph) (limit : ℕ) (p : PathTerm) (o : ℕ) → Good g → Stands g o →
        IsTooWideNear g limit p o ⊎ ((¬ IsTooWideNear g limit p o) × ((rows : List Row) × AreRowsFrom g p o rows)) }
    ensures one { (g : Graph) (p : PathTerm) (o : ℕ) (a b : List Row) → AreRowsFrom g p o a → AreRowsFrom g p o b → a ≡ b }
    ensures rows { (g new : Graph) (edit : Edit) (p : PathTerm) (o : ℕ) (rows : List Row) → Good g → Stands g o → Next g edit new →
        IsUntouched g edit o (path_steps p) → AreRowsFrom g p o rows → AreRowsFrom new p o rows }
    ensures fits { (g new : Graph) (edit : Edit) (limit : ℕ) (p : PathTerm) (o : ℕ) → Good g → Stands g o → Next g edit new →
        IsUntouched g edit o (path_steps p) → IsTooWideNear new limit p o → IsTooWideNear g limit p o }
{}
