//! What an edit touches.
ghost use Rattle.std.specs.Prelude.{◌≡◌, ◌⊎◌, ◌↔◌, ℕ, IsTrue, IsSomeAnd};
ghost use Rattle.itpg_base.specs.Graphs.{Stands, Named, HasEnd};
ghost use Rattle.itpg_graph.specs.Edges.{HasNumber, AreRising};
ghost use Rattle.itpg_edit.specs.Facts.{IsUnknown};
ghost use Rattle.itpg_edit.specs.Rules.{Unbroken};
ghost use Rattle.source_rows.specs.Touched.{Has, Meets, AreTouched};

use itpg_base::{Name, ObjNo};
use itpg_edit::Edit;
use itpg_graph::Graph;

/// The objects that an edit touches.
///
/// ```text
///     graph g 0 9      Everything
///     live a 0 9       These { first: a, second: None, third: None }
///     edge m e a b     These { first: the number that m gets, second: a, third: b }
/// ```
#[derive(Clone, Copy, Debug, PartialEq, Eq, Drop)]
pub enum Touched {
    /// Every object.
    Everything,
    /// The object that the edit names or declares, and the source and the target of a new or dropped edge.
    These {
        first: ObjNo,
        second: Option<ObjNo>,
        third: Option<ObjNo>,
    },
}

impl Touched {
    /// Whether it has one of the objects, which rise. It looks for each of its own in the list and takes no memory.
    pub fn meets(&self, objects: &[ObjNo]) -> bool
        requires { AreRising objects.now }
        ensures { IsTrue result ↔ Meets self.now objects.now }
    {
        match self {
            Touched::Everything => !objects.is_empty(),
            Touched::These {
                first,
                second,
                third,
            } => has(objects, *first) || has_some(objects, *second) || has_some(objects, *third),
        }
    }
}

/// The objects that an edit which breaks no rule touches. It looks at the graph before the edit.
pub fn touched_by(graph: &Graph, edit: &Edit) -> Touched
    requires { Unbroken graph.now edit.now }
    ensures { AreTouched graph.now edit.now result }
{
    match edit {
        Edit::Begin { .. } | Edit::Extend { .. } => Touched::Everything,
        Edit::AddNode { .. } => one(ObjNo(graph.declared())),
        Edit::AddEdge { source, target, .. } => Touched::These {
            first: ObjNo(graph.declared()),
            second: Some(named(graph, source)),
            third: Some(named(graph, target)),
        },
        Edit::Live { id, .. } | Edit::Gone { id, .. } => one(named(graph, id)),
        Edit::Put { id, .. } | Edit::Clear { id, .. } => one(named(graph, id)),
        Edit::Remove { id } => with_ends(graph, named(graph, id)),
    }
}

// This object alone.
fn one(object: ObjNo) -> Touched
    ensures { (o : ℕ) → Has result o ↔ (o ≡ object.0) }
{
    Touched::These {
        first: object,
        second: None,
        third: None,
    }
}

// A standing object, and of an edge its two ends.
fn with_ends(graph: &Graph, object: ObjNo) -> Touched
    requires { Stands graph.now object.0 }
    ensures { (o : ℕ) → Has result o ↔ ((o ≡ object.0) ⊎ HasEnd graph.now object.0 o) }
{
    match graph.ends(object) {
        Some((source, target)) => Touched::These {
            first: object,
            second: Some(source),
            third: Some(target),
        },
        None => one(object),
    }
}

// The one object of a name that some object has.
fn named(graph: &Graph, name: &Name) -> ObjNo
    requires { ¬ IsUnknown graph.now name.now }
    ensures { (o : ℕ) → Named graph.now o name.now ↔ (o ≡ result.0) }
{
    graph.find(name).unwrap()
}

// Whether there is an object, and the list has it. The numbers rise.
fn has_some(objects: &[ObjNo], o: Option<ObjNo>) -> bool
    requires { AreRising objects.now }
    ensures { IsTrue result ↔ IsSomeAnd o (λ end. HasNumber objects.now end.0) }
{
    match o {
        Some(end) => has(objects, end),
        None => false,
    }
}

// Whether the list has the number. The numbers rise.
fn has(objects: &[ObjNo], o: ObjNo) -> bool
    requires { AreRising objects.now }
    ensures { IsTrue result ↔ HasNumber objects.now o.0 }
{
    objects.binary_search_by_key(&o.0, |other| other.0).is_ok()
}
