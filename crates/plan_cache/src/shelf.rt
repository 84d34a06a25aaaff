//! What each node's relation depends on, and the relation, if it is kept.
ghost use Rattle.std.specs.Prelude.{◌≡◌, ◌+◌, ◌<◌, ◌≤◌, ◌↔◌, [], ◌∷◌, ◌++◌, Some, None, option_map};
ghost use Rattle.std.specs.Prelude.{length, take, slice_get, slice_set, IfOk, IfErr, OnOk, OnErr, IsOk, IsSomeAnd};
ghost use Rattle.plan_cache.specs.KeptRows.{rows_in, rows_kept, AddsFree, Forgets};
ghost use Rattle.plan_cache.specs.Shelves.{LosesAt, relations_in};

use itpg_base::Touch;
use label_scope::{Footprint, meets};
use relation_rows::Relation;
use std::alloc::{AllocError, Global};
use std::marker::Model;
use std::rc::Rc;

/// How many rows may be kept at all nodes together.
pub const MAX_KEPT_ROWS: u64 = 4_000_000;

/// A place for each node: what its relation can depend on, and the relation, if it is kept.
///
/// ```text
///     place   footprint            kept
///     0       {Person}             12 rows
///     1       {Person, meets}      nothing
/// ```
#[derive(Drop)]
pub(crate) struct Shelf {
    feet: Vec<Footprint>,
    kept: Vec<Option<Rc<Relation>>>,
    rows: u64,
    count: usize,
}

impl Model for Shelf {
    ghost use Rattle.std.specs.Prelude.{map, option_map};
    ghost use Rattle.plan_cache.specs.Shelves.{Shelved, IsShelf};

    ghost Value = { Shelved };

    ghost view = { λ s. record { feet = s.feet.items; kept = map (option_map (λ r. r.value)) s.kept.items } };

    ghost invariant = { λ s. IsShelf s.feet.items (map (option_map (λ r. r.value)) s.kept.items) s.rows s.count };
}

impl Shelf {
    /// No place. It takes no memory.
    pub(crate) fn new(alloc: Global) -> Shelf
        ensures feet { result.feet ≡ [] }
        ensures kept { result.kept ≡ [] }
    {
        Shelf {
            feet: Vec::new(alloc),
            kept: Vec::new(alloc),
            rows: 0,
            count: 0,
        }
    }

    /// Adds a place at which nothing is kept.
    ///
    /// # Errors
    ///
    /// If memory runs out. Then the places are as they were.
    pub(crate) fn push(&mut self, foot: Footprint) -> Result<(), AllocError>
        ensures feet { OnOk result (self.new.feet ≡ self.old.feet ++ foot ∷ []) }
        ensures kept { OnOk result (self.new.kept ≡ self.old.kept ++ None ∷ []) }
        ensures same { OnErr result (self.new ≡ self.old) }
    {
        self.feet.reserve(1)?;
        self.kept.reserve(1)?;
        self.feet.push_reserved(foot);
        self.kept.push_reserved(None);
        Ok(())
    }

    /// How many rows are kept at all places: at most `MAX_KEPT_ROWS`.
    pub(crate) fn kept_rows(&self) -> u64
        ensures rows { result ≡ rows_kept self.now.kept }
        ensures few { result ≤ MAX_KEPT_ROWS }
    {
        self.rows
    }

    /// That no more rows are kept, as the contract of a function that does nothing.
    pub(crate) fn law_of_room(&self)
        ensures { rows_kept self.now.kept ≤ MAX_KEPT_ROWS }
    {
        let _ = &self.rows;
    }

    /// What is kept at a place; `None` exactly if nothing is.
    pub(crate) fn kept(&self, place: usize) -> Option<&Rc<Relation>>
        requires { place < length self.now.kept }
        ensures { Some (option_map (λ r. r.now.value) result) ≡ slice_get self.now.kept place }
    {
        self.kept[place].as_ref()
    }

    /// Keeps a relation at a place where nothing is kept. It takes no memory.
    ///
    /// # Errors
    ///
    /// The relation, handed back, if the kept rows with it would be more than `MAX_KEPT_ROWS`. Then all is as it was.
    pub(crate) fn keep(&mut self, place: usize, relation: Rc<Relation>) -> Result<(), Rc<Relation>>
        requires { slice_get self.old.kept place ≡ Some None }
        ensures ok { IsOk result ↔ (rows_kept self.old.kept + length relation.value ≤ MAX_KEPT_ROWS) }
        ensures feet { self.new.feet ≡ self.old.feet }
        ensures kept { OnOk result (self.new.kept ≡ slice_set self.old.kept place (Some relation.value)) }
        ensures same { OnErr result (self.new ≡ self.old) }
        ensures back { IfErr result (λ back. back ≡ relation) }
    {
        // At a place at most one relation is kept.
        let _places = self.kept.len();
        let rows = relation.row_count();
        if rows > MAX_KEPT_ROWS - self.rows {
            return Err(relation);
        }
        self.kept[place] = Some(relation);
        self.rows += rows;
        self.count += 1;
        Ok(())
    }

    /// Keeps exactly what was kept and whose footprint the touch doesn't meet. It takes no memory.
    pub(crate) fn forget(&mut self, touch: &Touch)
        ensures feet { self.new.feet ≡ self.old.feet }
        ensures kept { Forgets touch.now self.old.feet self.old.kept self.new.kept }
    {
        if self.count == 0 {
            return;
        }
        for place in 0..self.len() {
            if self.loses(place, touch) {
                self.clear(place);
            }
        }
    }

    /// How many places there are.
    pub(crate) fn len(&self) -> usize
        ensures count { result ≡ length self.now.feet }
        ensures each { length self.now.kept ≡ length self.now.feet }
    {
        self.feet.len()
    }

    /// The same places, at which the same relations are kept.
    pub(crate) fn copy(&self) -> Result<Shelf, AllocError>
        ensures { IfOk result (λ copy. copy ≡ self.now) }
    {
        let alloc = *self.feet.allocator();
        let mut feet = Vec::with_capacity(alloc, self.feet.len())?;
        for foot in &self.feet {
            feet.push(foot.copy(alloc)?)?;
        }
        let mut kept = Vec::with_capacity(alloc, self.kept.len())?;
        for relation in &self.kept {
            kept.push(shared(relation)?)?;
        }
        Ok(Shelf {
            feet,
            kept,
            rows: self.rows,
            count: self.count,
        })
    }

    /// The footprints, in order of the places.
    pub(crate) fn feet(&self) -> &[Footprint]
        ensures { result.now ≡ self.now.feet }
    {
        &self.feet
    }

    /// Takes the places away from this one on, at which nothing is kept.
    pub(crate) fn cut_back(&mut self, len: usize)
        requires { AddsFree (take len self.old.kept) self.old.kept }
        ensures feet { self.new.feet ≡ take len self.old.feet }
        ensures kept { self.new.kept ≡ take len self.old.kept }
    {
        self.feet.truncate(len);
        self.kept.truncate(len);
    }

    // Whether something is kept at the place, and the touch meets its footprint.
    fn loses(&self, place: usize, touch: &Touch) -> bool
        requires feet { place < length self.now.feet }
        requires kept { place < length self.now.kept }
        ensures { IsSomeAnd (slice_get self.now.feet place) (λ foot. LosesAt touch.now foot (slice_get self.now.kept place) result) }
    {
        self.kept[place].is_some() && meets(&self.feet[place], touch)
    }

    // Takes away what is kept at the place.
    fn clear(&mut self, place: usize)
        requires { place < length self.old.kept }
        ensures feet { self.new.feet ≡ self.old.feet }
        ensures kept { self.new.kept ≡ slice_set self.old.kept place None }
    {
        let _cleared = self.take_out(place);
    }

    /// Takes away what is kept at the place, and gives it; `None` exactly if nothing is.
    pub(crate) fn take_out(&mut self, place: usize) -> Option<Rc<Relation>>
        requires { place < length self.old.kept }
        ensures taken { Some (option_map (λ r. r.value) result) ≡ slice_get self.old.kept place }
        ensures feet { self.new.feet ≡ self.old.feet }
        ensures kept { self.new.kept ≡ slice_set self.old.kept place None }
    {
        let taken = self.kept[place].take();
        self.rows -= rows_of(&taken);
        self.count -= count_of(&taken);
        taken
    }
}

// The same relation, if one is kept there.
fn shared(kept: &Option<Rc<Relation>>) -> Result<Option<Rc<Relation>>, AllocError>
    ensures { IfOk result (λ copy. option_map (λ r. r.value) copy ≡ option_map (λ r. r.value) kept.now) }
{
    match kept {
        Some(relation) => Ok(Some(relation.clone()?)),
        None => Ok(None),
    }
}

// How many rows are kept there.
fn rows_of(kept: &Option<Rc<Relation>>) -> u64
    ensures { result ≡ rows_in (option_map (λ r. r.value) kept.now) }
{
    match kept {
        Some(relation) => relation.row_count(),
        None => 0,
    }
}

// How many relations are kept there.
fn count_of(kept: &Option<Rc<Relation>>) -> usize
    ensures { result ≡ relations_in (option_map (λ r. r.value) kept.now) }
{
    match kept {
        Some(_) => 1,
        None => 0,
    }
}
