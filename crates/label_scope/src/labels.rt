//! Short rising lists of labels.
ghost use Rattle.std.specs.Prelude.{◌≡◌, ◌↔◌, ◌∷◌, [], ◌≤◌, length, Contains, IsTrue, IfOk, IfSome, IsNone, OnOk, OnErr, insert};
ghost use Rattle.std.specs.Prelude.{nat_eq};
ghost use Rattle.std.specs.Cmp.{partial_equiv_from_equiv};
ghost use Rattle.std.specs.Cmp.Lexicographic.{nat_list_eq_equiv, lists_equiv, pointwise, bytes_decides};
ghost use Rattle.std.specs.Hash.{items_Alike, same_Alike};
ghost use Rattle.std.specs.Hash as fed;
ghost use Rattle.itpg_base.specs.Words.{IsRising};
ghost use Rattle.label_scope.specs.Labels.{with_label, labels_of_either};

use itpg_base::Name;
use smallvec::SmallVec;
use std::alloc::{AllocError, Global};
use std::cmp::Ordering;
use std::hash::{Hash, Hasher};
use std::marker::Model;

/// A list of different labels that rises, byte by byte.
///
/// A contract sees it as the list of its names. Up to two labels take no memory.
#[derive(Drop)]
pub struct Labels {
    names: SmallVec<Name, 2>,
}

impl Model for Labels {
    ghost use Rattle.std.specs.Prelude.{List};
    ghost use Rattle.itpg_base.specs.Words.{Word, IsRising};

    ghost Value = { List Word };

    ghost view = { λ l. l.names.items };

    ghost invariant = { λ l. IsRising l.names.items };
}

impl Labels {
    /// The list without a label. It takes no memory.
    pub(crate) fn none(alloc: Global) -> Labels
        ensures { result ≡ [] }
    {
        Labels {
            names: SmallVec::new(alloc),
        }
    }

    /// The list of this one label. It takes no memory.
    pub(crate) fn one(alloc: Global, label: Name) -> Labels
        ensures { result ≡ label ∷ [] }
    {
        let mut names = SmallVec::new(alloc);
        names.push_reserved(label);
        Labels { names }
    }

    /// The labels, rising.
    pub fn names(&self) -> &[Name]
        ensures value { result.now ≡ self.now }
        ensures rising { IsRising self.now }
    {
        self.names.as_slice()
    }

    /// Whether the label is in the list.
    pub fn has(&self, label: &Name) -> bool
        ensures { IsTrue result ↔ Contains self.now label.now }
    {
        self.names.as_slice().contains(label)
    }

    /// An equal list of its own.
    pub(crate) fn copy(&self, alloc: Global) -> Result<Labels, AllocError>
        ensures { IfOk result (λ copy. copy ≡ self.now) }
    {
        let names = SmallVec::from_slice(alloc, self.names.as_slice())?;
        Ok(Labels { names })
    }

    /// The labels of either list.
    pub(crate) fn of_either(&self, alloc: Global, other: &Labels) -> Result<Labels, AllocError>
        ensures { IfOk result (λ either. either ≡ labels_of_either self.now other.now) }
    {
        let mut labels = self.copy(alloc)?;
        for name in other.names.as_slice() {
            labels.put(*name)?;
        }
        Ok(labels)
    }

    // Puts the label at its place. A label that is there stays.
    fn put(&mut self, label: Name) -> Result<(), AllocError>
        ensures ok { OnOk result (self.new ≡ with_label self.old label) }
        ensures err { OnErr result (self.new ≡ self.old) }
    {
        if let Some(place) = free_place(self.names.as_slice(), &label) {
            self.names.insert(place, label)?;
        }
        Ok(())
    }
}

impl PartialEq for Labels {
    ghost eq = { pointwise (pointwise nat_eq) };

    ghost laws = { partial_equiv_from_equiv (lists_equiv nat_list_eq_equiv) };

    fn eq(&self, other: &Labels) -> bool {
        self.names() == other.names()
    }
}

impl Eq for Labels {
    ghost laws = { lists_equiv nat_list_eq_equiv };
}

impl Hash for Labels {
    ghost hash_input = { fed.slice (fed.slice fed.u8) };

    ghost respects_eq = { (items_Alike (same_Alike (fed.slice fed.u8) bytes_decides)).fed };

    fn hash<H: Hasher>(&self, state: &mut H) {
        self.names().hash(state);
    }
}

// The place at which the label is missing in a list that rises; `None` if it is in the list.
fn free_place(names: &[Name], label: &Name) -> Option<usize>
    ensures missing { IfSome result (λ place. with_label names.now label.now ≡ insert names.now place label.now) }
    ensures within { IfSome result (λ place. place ≤ length names.now) }
    ensures there { IsNone result → with_label names.now label.now ≡ names.now }
{
    for (place, name) in names.iter().enumerate() {
        match label.cmp(name) {
            Ordering::Less => return Some(place),
            Ordering::Equal => return None,
            Ordering::Greater => {}
        }
    }
    Some(names.len())
}
