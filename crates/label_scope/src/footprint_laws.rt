//! The laws of footprints. Each is the contract of a function that does nothing.
ghost use Rattle.std.specs.Prelude.{◌≡◌, ◌↔◌, List, Contains, IsTrue};
ghost use Rattle.itpg_base.specs.Words.{Word};
ghost use Rattle.itpg_base.specs.Graphs.{Graph, Good};
ghost use Rattle.itpg_base.specs.Points.{Point};
ghost use Rattle.path_ast.specs.Terms.{PathTerm};
ghost use Rattle.path_ast.specs.Meaning.{keeps_object};
ghost use Rattle.label_scope.specs.declared.scope.Scope.{Scope};
ghost use Rattle.label_scope.specs.declared.scope.Scope.TheVariants.{All};
ghost use Rattle.label_scope.specs.Scopes.{Has};
ghost use Rattle.label_scope.specs.PropertyScopes.{ScopeHas};
ghost use Rattle.label_scope.specs.Narrowing.{Cut, narrowed};
ghost use Rattle.label_scope.specs.Members.{Member, worked, members_between};
ghost use Rattle.label_scope.specs.Footprints.{footprint, footprint_between};
ghost use Rattle.label_scope.specs.Agreeing.{Agree, IsSameOn};

/// If two good graphs agree on the footprint of a path between two scopes, then the path leads between the same points of both
/// within the scopes, and so does each of its worked members. The same holds between scopes that are narrowed.
pub fn law_of_footprints()
    ensures path { (p : PathTerm) (a b : Scope) (g h : Graph) (x y : Point) → Good g → Good h → Agree g h (footprint p a b) → Cut g p a b x y ↔ Cut h p a b x y }
    ensures members { (p : PathTerm) (a b : Scope) (m : Member) (g h : Graph) → Good g → Good h →
        Agree g h (footprint p a b) → Contains (worked p a b) m → IsSameOn g h m }
    ensures between { (p : PathTerm) (a b : Scope) (m : Member) (g h : Graph) → Good g → Good h →
        Agree g h (footprint_between p a b) → Contains (members_between p a b) m → IsSameOn g h m }
{}

/// A footprint asks the existence and the values of objects of its shape alone.
pub fn law_of_shapes()
    ensures live { (p : PathTerm) (a b : Scope) (labels : List Word) → Has (footprint p a b).live labels → Has (footprint p a b).shape labels }
    ensures values { (p : PathTerm) (a b : Scope) (prop : Word) (labels : List Word) →
        ScopeHas (footprint p a b).values prop labels → Has (footprint p a b).shape labels }
{}

/// To narrow scopes again changes nothing, so a path has one footprint and one list of members before and after. Where the path
/// keeps its object, both narrowed scopes are `All` or neither is.
pub fn law_of_narrowed_scopes()
    ensures scopes { (p : PathTerm) (a b : Scope) → narrowed p (narrowed p a b).sources (narrowed p a b).targets ≡ narrowed p a b }
    ensures footprints { (p : PathTerm) (a b : Scope) → footprint p (narrowed p a b).sources (narrowed p a b).targets ≡ footprint p a b }
    ensures members { (p : PathTerm) (a b : Scope) → worked p (narrowed p a b).sources (narrowed p a b).targets ≡ worked p a b }
    ensures between { (p : PathTerm) (a b : Scope) → worked p a b ≡ members_between p (narrowed p a b).sources (narrowed p a b).targets }
    ensures kept { (p : PathTerm) (a b : Scope) → IsTrue (keeps_object p) → ((narrowed p a b).sources ≡ All) ↔ ((narrowed p a b).targets ≡ All) }
{}
