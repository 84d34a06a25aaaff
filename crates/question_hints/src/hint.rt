//! Hints.
ghost use Rattle.std.specs.Prelude.{◌≡◌, OnOk};
ghost use Rattle.question_hints.specs.Same.{same_hint, has_hint, with_hint};

use itpg_base::Name;
use std::alloc::AllocError;

/// What is certainly a mistake about a question on a graph.
#[derive(Clone, Copy, PartialEq, Eq, Debug, Drop)]
pub enum Hint {
    /// A test asks for this label, and no standing object has it.
    NoLabel(Name),
    /// A test asks for this property, and no object has a value of it at any moment.
    NoProperty(Name),
    /// A test asks for this value of the property, and the property has values, but never this one.
    NoValue { prop: Name, value: Name },
    /// A node is asked for together with this label, and some objects have it, but all are edges.
    EdgeInRound(Name),
    /// By the kinds of its steps alone, node or edge, the path leads nowhere: as where it ends on an edge and a node is asked for.
    EndsOnEdge,
    /// The path can start at every object, but its end is one of some labels.
    SelectiveEndLast,
}

impl Hint {
    // Whether the two are equal.
    fn is_same(&self, other: &Hint) -> bool
        ensures { result ≡ same_hint self.now other.now }
    {
        self == other
    }
}

/// Puts the hint behind the others, if it isn't there.
pub(crate) fn add_hint(hints: &mut Vec<Hint>, hint: Hint) -> Result<(), AllocError>
    ensures { OnOk result (hints.new.items ≡ with_hint hint hints.old.items) }
{
    if !is_there(hints, &hint) {
        hints.push(hint)?;
    }
    Ok(())
}

// Whether the hint is among these.
fn is_there(hints: &[Hint], hint: &Hint) -> bool
    ensures { result ≡ has_hint hint.now hints.now }
{
    hints.iter().any(|other| other.is_same(hint))
}
