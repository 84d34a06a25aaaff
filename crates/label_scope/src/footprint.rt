//! Footprints: what an answer can depend on.
ghost use Rattle.std.specs.Prelude.{◌≡◌, ◌↔◌, IsTrue, IfOk};
ghost use Rattle.path_ast.specs.Terms.{leaf_term};
ghost use Rattle.label_scope.specs.Footprints.{nothing_asked, shape_of, live_of, values_of, of_either, with_shape, asked_of};
ghost use Rattle.label_scope.specs.Touching.{Meets};

use crate::prop_scopes::{PropScope, PropScopes};
use crate::scope::Scope;
use itpg_base::{Name, Touch};
use path_ast::Leaf;
use std::alloc::{AllocError, Global};

/// What the relation of a path between two scopes can depend on, beyond the horizon: three questions to the graph, each of the
/// objects within a scope.
///
/// ```text
///     (x:Person)                   shape {Person}, live {Person}, no values
///     (x:Person {risk = 'high'})   shape {Person}, live {Person}, values risk {Person}
///     :Person/F                    shape All: an edge of any label may begin at a person; nothing else
/// ```
///
/// The footprint of a path asks the existence and the values of objects of its shape alone.
#[derive(Drop)]
pub struct Footprint {
    /// Which of these objects stand, with which labels and ends.
    pub shape: Scope,
    /// When these objects exist.
    pub live: Scope,
    /// For each property, which values of it the objects of its scope have.
    pub values: PropScopes,
}

impl Footprint {
    /// The footprint that asks nothing. It takes no memory.
    pub fn nothing(alloc: Global) -> Footprint
        ensures { result ≡ nothing_asked }
    {
        Footprint::of_shape(alloc, Scope::none(alloc))
    }

    /// The footprint that asks the shape of the objects of the scope alone. It takes no memory.
    pub fn of_shape(alloc: Global, scope: Scope) -> Footprint
        ensures { result ≡ shape_of scope }
    {
        Footprint {
            shape: scope,
            live: Scope::none(alloc),
            values: PropScopes::new(alloc),
        }
    }

    // The footprint that asks when the objects of the scope exist.
    fn of_live(alloc: Global, scope: Scope) -> Footprint
        ensures { result ≡ live_of scope }
    {
        Footprint {
            shape: Scope::none(alloc),
            live: scope,
            values: PropScopes::new(alloc),
        }
    }

    // The footprint that asks which values of the property the objects of the scope have.
    fn of_values(alloc: Global, prop: Name, scope: Scope) -> Result<Footprint, AllocError>
        ensures { IfOk result (λ foot. foot ≡ values_of prop scope) }
    {
        Ok(Footprint {
            shape: Scope::none(alloc),
            live: Scope::none(alloc),
            values: PropScopes::one(alloc, PropScope { prop, scope })?,
        })
    }

    /// What the test of one object at one moment asks of the objects of the scope beyond their shape: when they exist, their
    /// values of one property, or nothing.
    pub fn of_leaf(alloc: Global, leaf: &Leaf, scope: &Scope) -> Result<Footprint, AllocError>
        ensures { IfOk result (λ asked. asked ≡ asked_of (leaf_term leaf.now) scope.now) }
    {
        match leaf {
            Leaf::Exists => Ok(Footprint::of_live(alloc, scope.copy(alloc)?)),
            Leaf::Value { prop, .. } => Footprint::of_values(alloc, *prop, scope.copy(alloc)?),
            Leaf::Node | Leaf::Edge | Leaf::Label(_) | Leaf::Before(_) => {
                Ok(Footprint::nothing(alloc))
            }
        }
    }

    /// An equal footprint of its own.
    pub fn copy(&self, alloc: Global) -> Result<Footprint, AllocError>
        ensures { IfOk result (λ copy. copy ≡ self.now) }
    {
        Ok(Footprint {
            shape: self.shape.copy(alloc)?,
            live: self.live.copy(alloc)?,
            values: self.values.copy(alloc)?,
        })
    }

    /// All that either footprint asks: each of the three scopes joined, and those of one property too.
    pub fn or(self, alloc: Global, other: &Footprint) -> Result<Footprint, AllocError>
        ensures { IfOk result (λ either. either ≡ of_either self other.now) }
    {
        Ok(Footprint {
            shape: self.shape.join(alloc, &other.shape)?,
            live: self.live.join(alloc, &other.live)?,
            values: self.values.or(alloc, &other.values)?,
        })
    }

    /// The same, and the shape of the objects of the scope.
    pub fn and_shape(self, alloc: Global, scope: &Scope) -> Result<Footprint, AllocError>
        ensures { IfOk result (λ more. more ≡ with_shape scope.now self) }
    {
        Ok(Footprint {
            shape: scope.join(alloc, &self.shape)?,
            live: self.live,
            values: self.values,
        })
    }
}

/// Whether what the touch changes is something that the footprint asks.
///
/// ```text
///     (x:Person)    meets that a person lives longer, or is declared
///                   doesn't meet that an edge with the label meets lives longer, or that a person's risk is set
/// ```
pub fn meets(foot: &Footprint, touch: &Touch) -> bool
    ensures { IsTrue result ↔ Meets foot.now touch.now }
{
    match touch {
        Touch::All => true,
        Touch::Shape(labels) => foot.shape.has(labels),
        Touch::Live(labels) => foot.live.has(labels),
        Touch::Gone(labels) => foot.live.has(labels) || foot.values.some_has(labels),
        Touch::Value { labels, prop } => foot.values.has(prop, labels),
    }
}
