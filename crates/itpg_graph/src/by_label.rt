//! The objects with each label.
ghost use Rattle.std.specs.Prelude.{◌≡◌, ◌≢◌, ◌∷◌, ◌++◌, [], Contains, IfOk, OnOk};
ghost use Rattle.itpg_base.specs.Words.{Word};
ghost use Rattle.itpg_graph.specs.LabelLists.{held, kept_for, HasNone, HasRoomWith, HasRoomFor};
ghost use Rattle.itpg_graph.specs.Links.{LosesIfRising};

use crate::links::take_out;
use indexmap::IndexMap;
use itpg_base::{LabelSet, Name, ObjNo};
use std::alloc::{AllocError, Global};

/// For each label, the rising numbers of the standing objects that have it. A label that no object was declared with has no
/// list.
#[derive(Drop)]
pub(crate) struct ByLabel {
    pub(crate) lists: IndexMap<Name, Vec<ObjNo>>,
}

impl ByLabel {
    /// The table of no object. It takes no memory.
    pub(crate) fn new(alloc: Global) -> ByLabel
        ensures { (label : Word) → held result label ≡ [] }
    {
        ByLabel {
            lists: IndexMap::new(alloc),
        }
    }

    /// An equal table of its own.
    pub(crate) fn copy(&self) -> Result<ByLabel, AllocError>
        ensures { IfOk result (λ copy. (label : Word) → held copy label ≡ held self.now label) }
    {
        let lists = self.lists.clone()?;
        Ok(ByLabel { lists })
    }

    /// The objects with a label.
    pub(crate) fn at(&self, label: &Name) -> &[ObjNo]
        ensures { result.now ≡ held self.now label.now }
    {
        match self.lists.get(label) {
            Some(list) => list.as_slice(),
            None => &[],
        }
    }

    /// Makes room for one more object with these labels.
    pub(crate) fn reserve(&mut self, alloc: Global, labels: &LabelSet) -> Result<(), AllocError>
        ensures same { (label : Word) → held self.new label ≡ held self.old label }
        ensures room { OnOk result (HasRoomFor self.new labels.now) }
    {
        for place in 0..labels.len() {
            self.reserve_with(alloc, &labels.get(place).unwrap())?;
        }
        Ok(())
    }

    // Makes room for one more object with the label.
    fn reserve_with(&mut self, alloc: Global, label: &Name) -> Result<(), AllocError>
        ensures same { (other : Word) → held self.new other ≡ held self.old other }
        ensures others { (other : Word) → other ≢ label.now → kept_for self.new other ≡ kept_for self.old other }
        ensures room { OnOk result (HasRoomWith self.new label.now) }
    {
        if let Some(list) = self.lists.get_mut(label) {
            return list.reserve(1);
        }
        self.add(alloc, *label)
    }

    // Adds the list of a label, with room for one object.
    fn add(&mut self, alloc: Global, label: Name) -> Result<(), AllocError>
        requires { HasNone self.old label }
        ensures same { (other : Word) → held self.new other ≡ held self.old other }
        ensures others { (other : Word) → other ≢ label → kept_for self.new other ≡ kept_for self.old other }
        ensures room { OnOk result (HasRoomWith self.new label) }
    {
        let mut list = Vec::new(alloc);
        list.reserve(1)?;
        self.lists.insert(label, list)?;
        Ok(())
    }

    /// Adds an object with these labels, whose number is the greatest.
    pub(crate) fn push(&mut self, labels: &LabelSet, number: ObjNo)
        requires { HasRoomFor self.old labels.now }
        ensures own { (label : Word) → Contains labels.now label → held self.new label ≡ held self.old label ++ number ∷ [] }
        ensures others { (label : Word) → (Contains labels.now label → ⊥) → held self.new label ≡ held self.old label }
    {
        for place in 0..labels.len() {
            self.push_with(&labels.get(place).unwrap(), number);
        }
    }

    // Adds an object with the label.
    fn push_with(&mut self, label: &Name, number: ObjNo)
        requires { HasRoomWith self.old label.now }
        ensures own { held self.new label.now ≡ held self.old label.now ++ number ∷ [] }
        ensures others { (other : Word) → other ≢ label.now → kept_for self.new other ≡ kept_for self.old other }
    {
        if let Some(list) = self.lists.get_mut(label) {
            list.push_reserved(number);
        }
    }

    /// Takes an object with these labels away. It takes no memory.
    pub(crate) fn remove(&mut self, labels: &LabelSet, number: ObjNo)
        ensures own { (label : Word) → Contains labels.now label → LosesIfRising (held self.old label) number.0 (held self.new label) }
        ensures others { (label : Word) → (Contains labels.now label → ⊥) → held self.new label ≡ held self.old label }
    {
        for place in 0..labels.len() {
            self.remove_with(&labels.get(place).unwrap(), number);
        }
    }

    // Takes an object with the label away.
    fn remove_with(&mut self, label: &Name, number: ObjNo)
        ensures own { LosesIfRising (held self.old label.now) number.0 (held self.new label.now) }
        ensures others { (other : Word) → other ≢ label.now → held self.new other ≡ held self.old other }
    {
        if let Some(list) = self.lists.get_mut(label) {
            take_out(list, number);
        }
    }
}
