//! Sets of labels, each kept once.
ghost use Rattle.std.specs.Prelude.{◌≡◌, ◌↔◌, IsTrue, IfOk};

use indexmap::IndexMap;
use itpg_base::LabelSet;
use std::alloc::{AllocError, Global};
use std::hash::{FoldHasher, Hash, Hasher};
use std::marker::Model;
use std::rc::Rc;

/// A set of labels in a place that it may share with equal ones.
///
/// A contract sees it as the rising list of its names.
#[derive(Drop)]
pub(crate) struct SharedLabels {
    set: Rc<LabelSet>,
}

impl Model for SharedLabels {
    ghost use Rattle.std.specs.Prelude.{List};
    ghost use Rattle.itpg_base.specs.Words.{Word};

    ghost Value = { List Word };

    ghost view = { λ s. s.set.value };
}

impl SharedLabels {
    /// The set, where it lies.
    pub(crate) fn set(&self) -> &LabelSet
        ensures { result.now ≡ self.now }
    {
        &self.set
    }

    /// The same place once more.
    pub(crate) fn share(&self) -> Result<SharedLabels, AllocError>
        ensures { IfOk result (λ shared. shared ≡ self.now) }
    {
        let set = self.set.clone()?;
        Ok(SharedLabels { set })
    }
}

/// The sets of labels that objects were declared with, each by a number worked out of its names. It serves to find a set
/// that is there already, and what it gives is compared: of two sets with one number the later alone is found.
#[derive(Drop)]
pub(crate) struct LabelSets {
    sets: IndexMap<u64, SharedLabels>,
}

impl LabelSets {
    /// No set. It takes no memory.
    pub(crate) fn new(alloc: Global) -> LabelSets {
        LabelSets {
            sets: IndexMap::new(alloc),
        }
    }

    /// The set of these labels, in the place where it lies already, or else in a new one.
    pub(crate) fn shared(
        &mut self,
        alloc: Global,
        labels: &LabelSet,
    ) -> Result<SharedLabels, AllocError>
        ensures { IfOk result (λ shared. shared ≡ labels.now) }
    {
        let number = number_of(labels);
        if let Some(shared) = self.sets.get(&number)
            && are_same(shared.set(), labels)
        {
            return shared.share();
        }
        let set = Rc::new(alloc, *labels)?;
        let made = SharedLabels { set };
        let shared = made.share()?;
        self.sets.insert(number, made)?;
        Ok(shared)
    }
}

// A number worked out of the names of the set.
fn number_of(labels: &LabelSet) -> u64 {
    let mut hasher = FoldHasher::default();
    for place in 0..labels.len() {
        labels.get(place).hash(&mut hasher);
    }
    hasher.finish()
}

// Whether the two are one set.
fn are_same(one: &LabelSet, other: &LabelSet) -> bool
    ensures { IsTrue result ↔ (one.now ≡ other.now) }
{
    if one.len() != other.len() {
        return false;
    }
    for place in 0..one.len() {
        if one.get(place) != other.get(place) {
            return false;
        }
    }
    true
}
