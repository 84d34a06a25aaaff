//! Sets of labels.
ghost use Rattle.std.specs.Prelude.{◌≡◌, ◌∷◌, [], ◌↔◌, List, ℕ, length, slice_get, option_map, Contains, IsTrue, IfSome, IsNone};
ghost use Rattle.itpg_base.specs.Words.{IsLabels, Word};
ghost use Rattle.itpg_base.specs.LabelSets.{SameNames, IsAfter, IsUnder, IsNext};

use crate::name::Name;
use std::alloc::AllocError;
use std::marker::Model;

/// How many labels an object may have.
pub const MAX_LABELS: usize = 8;

/// A set of one to `MAX_LABELS` different labels, which is copied.
///
/// A contract sees it as the rising list of its names.
pub struct LabelSet {
    // The names of the set rise; behind them stand empty names.
    names: [Name; MAX_LABELS],
    count: u8,
}

impl Model for LabelSet {
    ghost use Rattle.std.specs.Prelude.{List};
    ghost use Rattle.itpg_base.specs.Words.{Word};
    ghost use Rattle.itpg_base.specs.LabelSets.{labels_of, IsBlock, block_of, block_again};

    ghost Value = { List Word };

    ghost view = { labels_of };

    ghost invariant = { IsBlock };

    ghost inverse = { block_of };

    ghost inverse_ok = { block_again };
}

impl LabelSet {
    /// The set of exactly these labels, each taken once; `None` exactly if there is none or there are more than
    /// `MAX_LABELS` different ones.
    pub fn new(labels: &[Name]) -> Option<LabelSet>
        ensures some { IfSome result (λ set. SameNames labels.now set) }
        ensures set { IfSome result IsLabels }
        ensures none { IsNone result → (set : List Word) → IsLabels set → SameNames labels.now set → ⊥ }
    {
        let mut names = [Name::default(); MAX_LABELS];
        let mut count = 0;
        let mut place = next_place(labels, labels.len());
        while place < labels.len() {
            if count == MAX_LABELS {
                return None;
            }
            names[count] = labels[place];
            count += 1;
            place = next_place(labels, place);
        }
        if count == 0 {
            return None;
        }
        Some(LabelSet {
            names,
            count: count as u8,
        })
    }

    /// The set of this one label.
    pub fn one(label: Name) -> LabelSet
        ensures { result ≡ label ∷ [] }
    {
        let mut names = [Name::default(); MAX_LABELS];
        names[0] = label;
        LabelSet { names, count: 1 }
    }

    /// Whether the label is in the set.
    pub fn has(&self, label: &Name) -> bool
        ensures { IsTrue result ↔ Contains self.now label.now }
    {
        self.names().iter().any(|name| name == label)
    }

    /// How many labels there are: at least one.
    #[allow(clippy::len_without_is_empty)]
    pub fn len(&self) -> usize
        ensures count { result ≡ length self.now }
        ensures set { IsLabels self.now }
    {
        self.names().len()
    }

    /// The label at a place, from 0, in rising order; `None` exactly past the last.
    pub fn get(&self, i: usize) -> Option<Name>
        ensures { result ≡ slice_get self.now i }
    {
        self.names().get(i).copied()
    }

    // The names, which rise.
    fn names(&self) -> &[Name]
        ensures names { result.now ≡ self.now }
        ensures set { IsLabels self.now }
    {
        &self.names[..usize::from(self.count)]
    }
}

// The place of the least label that comes after the one at the place `last`. A place past the last label stands for none.
fn next_place(labels: &[Name], last: usize) -> usize
    ensures { IsNext labels.now (slice_get labels.now last) (slice_get labels.now result) }
{
    let mut next = labels.len();
    for place in 0..labels.len() {
        let label = &labels[place];
        if is_after(labels.get(last), label) && is_under(label, labels.get(next)) {
            next = place;
        }
    }
    next
}

// Whether the label comes after the one that was taken last.
fn is_after(last: Option<&Name>, label: &Name) -> bool
    ensures { IsTrue result ↔ IsAfter (option_map (λ l. l.now) last.entry) label.now }
{
    last.is_none_or(|last| *last < *label)
}

// Whether the label comes before the least one found.
fn is_under(label: &Name, next: Option<&Name>) -> bool
    ensures { IsTrue result ↔ IsUnder label.now (option_map (λ n. n.now) next.entry) }
{
    next.is_none_or(|next| *label < *next)
}

impl Copy for LabelSet {}

impl Clone for LabelSet {
    ghost is_clone = { λ v w. w ≡ v };

    fn clone(&self) -> Result<Self, AllocError> {
        Ok(*self)
    }
}
