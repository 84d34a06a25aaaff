//! Scopes: sets of objects by their labels.
ghost use Rattle.std.specs.Prelude.{◌≡◌, ◌↔◌, IsTrue, IfOk};
ghost use Rattle.label_scope.specs.Scopes.{Has, met, joined, one_label};
ghost use Rattle.label_scope.specs.Footprints.{nowhere};

use crate::labels::Labels;
use itpg_base::{LabelSet, Name};
use std::alloc::{AllocError, Global};

/// A set of objects by their labels: all objects, or those that have one of the labels.
#[derive(PartialEq, Eq, Hash, Drop)]
pub enum Scope {
    /// Every object.
    All,
    /// The objects with one of these labels. With no label there is no object.
    These(Labels),
}

impl Scope {
    /// No object. It takes no memory.
    pub(crate) fn none(alloc: Global) -> Scope
        ensures { result ≡ nowhere }
    {
        Scope::These(Labels::none(alloc))
    }

    /// The objects with this label.
    pub fn one(alloc: Global, label: Name) -> Result<Scope, AllocError>
        ensures { IfOk result (λ scope. scope ≡ one_label label) }
    {
        Ok(Scope::These(Labels::one(alloc, label)))
    }

    /// Whether the scope has the set of labels: it is `All`, or has some label of the set.
    pub fn has(&self, labels: &LabelSet) -> bool
        ensures { IsTrue result ↔ Has self.now labels.now }
    {
        match self {
            Scope::All => true,
            Scope::These(names) => has_some(names, labels),
        }
    }

    /// A scope that has every object of both scopes, and no object that the first hasn't: of two lists the first, and `All` leaves
    /// the other scope as it is.
    ///
    /// ```text
    ///     {Person, Room} met with {Room, Tag}     {Person, Room}: a person may be a tag too
    ///     All met with {Room, Tag}                {Room, Tag}
    /// ```
    pub fn meet(&self, alloc: Global, other: &Scope) -> Result<Scope, AllocError>
        ensures { IfOk result (λ scope. scope ≡ met self.now other.now) }
    {
        match self {
            Scope::All => other.copy(alloc),
            Scope::These(names) => Ok(Scope::These(names.copy(alloc)?)),
        }
    }

    /// The objects of either scope: the labels of either list, and `All` where one of the scopes is.
    ///
    /// ```text
    ///     {Person, Room} joined with {Room, Tag}     {Person, Room, Tag}
    ///     {Person, Room} joined with All             All
    /// ```
    pub fn join(&self, alloc: Global, other: &Scope) -> Result<Scope, AllocError>
        ensures { IfOk result (λ scope. scope ≡ joined self.now other.now) }
    {
        match (self, other) {
            (Scope::These(names), Scope::These(others)) => {
                Ok(Scope::These(names.of_either(alloc, others)?))
            }
            _ => Ok(Scope::All),
        }
    }

    /// An equal scope of its own.
    pub fn copy(&self, alloc: Global) -> Result<Scope, AllocError>
        ensures { IfOk result (λ copy. copy ≡ self.now) }
    {
        match self {
            Scope::All => Ok(Scope::All),
            Scope::These(names) => Ok(Scope::These(names.copy(alloc)?)),
        }
    }
}

// Whether the list has some label of the set.
fn has_some(names: &Labels, labels: &LabelSet) -> bool
    ensures { IsTrue result ↔ Has (Scope.These names.now) labels.now }
{
    for name in names.names() {
        if labels.has(name) {
            return true;
        }
    }
    false
}
