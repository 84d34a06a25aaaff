//! A name that is kept with an object, in as little room as it needs.
ghost use Rattle.std.specs.Prelude.{◌≡◌, ◌↔◌, IsTrue, IfOk};
ghost use Rattle.std.specs.Cmp.Lexicographic.{slice_cmp};
ghost use Rattle.std.specs.Ordering.{nat_cmp};

use itpg_base::{Name, ShortName};
use std::alloc::{AllocError, Global};
use std::cmp::Ordering;
use std::marker::Model;
use std::rc::Rc;

/// Where a name stands: a short one here, a longer one in a place that equal names share.
#[derive(Drop)]
pub(crate) enum Place {
    Here(ShortName),
    There(Rc<Name>),
}

/// A name, which takes memory only if it isn't short.
///
/// A contract sees it as the list of its bytes.
#[derive(Drop)]
pub(crate) struct KeptName {
    place: Place,
}

impl Model for KeptName {
    ghost use Rattle.std.specs.Prelude.{List, ℕ};
    ghost use Rattle.itpg_graph.specs.KeptNames.{word_at};

    ghost Value = { List ℕ };

    ghost view = { λ k. word_at k.place };
}

impl KeptName {
    /// The same name.
    pub(crate) fn new(alloc: Global, name: &Name) -> Result<KeptName, AllocError>
        ensures { IfOk result (λ kept. kept ≡ name.now) }
    {
        let place = match ShortName::of(name) {
            Some(short) => Place::Here(short),
            None => Place::There(Rc::new(alloc, *name)?),
        };
        Ok(KeptName { place })
    }

    /// The same name once more. It takes no memory.
    pub(crate) fn share(&self) -> Result<KeptName, AllocError>
        ensures { IfOk result (λ kept. kept ≡ self.now) }
    {
        let place = match &self.place {
            Place::Here(short) => Place::Here(*short),
            Place::There(name) => Place::There(name.clone()?),
        };
        Ok(KeptName { place })
    }

    /// The name.
    pub(crate) fn name(&self) -> Name
        ensures { result ≡ self.now }
    {
        match &self.place {
            Place::Here(short) => short.name(),
            Place::There(name) => **name,
        }
    }

    /// Whether it is the same name.
    pub(crate) fn is(&self, other: &Name) -> bool
        ensures { IsTrue result ↔ (self.now ≡ other.now) }
    {
        match &self.place {
            Place::Here(short) => short.is(other),
            Place::There(name) => **name == *other,
        }
    }

    /// Where the name stands beside the other, byte by byte.
    pub(crate) fn order(&self, other: &Name) -> Ordering
        ensures { result ≡ slice_cmp nat_cmp self.now other.now }
    {
        match &self.place {
            Place::Here(short) => short.bytes().cmp(&other.bytes()),
            Place::There(name) => (**name).cmp(other),
        }
    }
}
