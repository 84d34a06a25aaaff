//! What marks of tests say of the tests that are worked out from them. Each law is the contract of a function that does
//! nothing.

ghost use Rattle.std.specs.Prelude.{◌≡◌, ◌↔◌, List};
ghost use Rattle.itpg_base.specs.declared.object_number.ObjNo.{ObjNo};
ghost use Rattle.itpg_base.specs.Spans.{Span};
ghost use Rattle.itpg_base.specs.Graphs.{Graph};
ghost use Rattle.itpg_base.specs.Points.{Point};
ghost use Rattle.relation_rows.specs.declared.rows.Row.{Row};
ghost use Rattle.relation_rows.specs.declared.times.OneRow.{OneRow};
ghost use Rattle.relation_rows.specs.Rows.{NormalRows};
ghost use Rattle.path_ast.specs.Terms.{PathTerm, TestTerm, OfTest, Condition, Conjunction, Disjunction, Negation};
ghost use Rattle.label_scope.specs.declared.scope.Scope.{Scope};
ghost use Rattle.label_scope.specs.declared.scope.Scope.TheVariants.{All};
ghost use Rattle.label_scope.specs.Narrowing.{Cut};
ghost use Rattle.condition_eval.specs.Marking.{ArePoints, AreMarks};
ghost use Rattle.condition_eval.specs.Tested.{HoldsAt, StartsAt, Stand, HasHorizon};
ghost use Rattle.condition_eval.specs.Combined.{BothMark, EitherMarks, IsUnmarked, MarkedToItself};
ghost use Rattle.condition_eval.specs.Within.{AreWithin};

/// Marks of a test that are turned round in the graph's horizon are marks of its negation.
pub fn law_of_negation()
    ensures { (g : Graph) (objects : List ObjNo) (c : TestTerm) (horizon : Span) (own marks : List OneRow) →
        HasHorizon g horizon → Stand g objects → AreMarks objects (HoldsAt c g) own → AreMarks objects (IsUnmarked horizon own) marks →
        AreMarks objects (HoldsAt (Negation c) g) marks }
{}

/// Marks of two tests that are joined are marks of their conjunction, and of their disjunction.
pub fn law_of_connectives()
    ensures both { (g : Graph) (objects : List ObjNo) (c d : TestTerm) (own other marks : List OneRow) →
        AreMarks objects (HoldsAt c g) own → AreMarks objects (HoldsAt d g) other → ArePoints (BothMark own other) marks →
        AreMarks objects (HoldsAt (Conjunction c d) g) marks }
    ensures either { (g : Graph) (objects : List ObjNo) (c d : TestTerm) (own other marks : List OneRow) →
        AreMarks objects (HoldsAt c g) own → AreMarks objects (HoldsAt d g) other → ArePoints (EitherMarks own other) marks →
        AreMarks objects (HoldsAt (Disjunction c d) g) marks }
{}

/// On the objects within a scope, the marks of where the rows of a path start, cut to sources in the scope, are marks of the
/// path's condition.
pub fn law_of_conditions()
    ensures { (g : Graph) (scope : Scope) (objects : List ObjNo) (p : PathTerm) (rows : List Row) (marks : List OneRow) →
        AreWithin scope g objects → NormalRows (Cut g p scope All) rows → AreMarks objects (StartsAt rows g) marks →
        AreMarks objects (HoldsAt (Condition p) g) marks }
{}

/// On the objects within a scope, the relation of a test's marks is the test, as a path, cut to the scope.
pub fn law_of_tests_as_paths()
    ensures { (g : Graph) (scope : Scope) (objects : List ObjNo) (c : TestTerm) (marks : List OneRow) →
        AreWithin scope g objects → AreMarks objects (HoldsAt c g) marks →
        (x y : Point) → MarkedToItself marks x y ↔ Cut g (OfTest c) scope scope x y }
{}

/// A test has one list of marks on some objects.
pub fn law_of_unique_marks()
    ensures { (g : Graph) (objects : List ObjNo) (c : TestTerm) (own other : List OneRow) →
        AreMarks objects (HoldsAt c g) own → AreMarks objects (HoldsAt c g) other → own ≡ other }
{}

/// Whatever the marks, the relation in which each marked point leads to itself has exactly one normal list of rows.
pub fn law_of_marked_rows()
    ensures some { (marks : List OneRow) → (rows : List Row) × NormalRows (MarkedToItself marks) rows }
    ensures one { (marks : List OneRow) (xs ys : List Row) → NormalRows (MarkedToItself marks) xs → NormalRows (MarkedToItself marks) ys → xs ≡ ys }
{}
