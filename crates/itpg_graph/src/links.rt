//! The edges at each object.
ghost use Rattle.std.specs.Prelude.{◌≡◌, ◌<◌, ◌∷◌, ◌++◌, [], length, slice_get, Some, IfOk, OnOk};
ghost use Rattle.itpg_base.specs.Graphs.{changed_at};
ghost use Rattle.itpg_graph.specs.Links.{links_of, HasRoom, HasRoomAt, LosesNumber, LosesIfRising};

use itpg_base::{MAX_OBJECTS, ObjNo};
use std::alloc::{AllocError, Global};

// So many items are many.
const MANY: usize = 4096;

/// For each object ever declared, by its number, the rising numbers of edges at it.
#[derive(Drop)]
pub(crate) struct Links {
    pub(crate) lists: Vec<Vec<ObjNo>>,
}

impl Links {
    /// The table of no object. It takes no memory.
    pub(crate) fn new(alloc: Global) -> Links
        ensures { links_of result ≡ [] }
    {
        Links {
            lists: Vec::new(alloc),
        }
    }

    /// An equal table of its own.
    pub(crate) fn copy(&self) -> Result<Links, AllocError>
        ensures { IfOk result (λ copy. links_of copy ≡ links_of self.now) }
    {
        let alloc = *self.lists.allocator();
        let mut lists = Vec::with_capacity(alloc, self.lists.len())?;
        for list in &self.lists {
            let copy = Vec::from_slice(alloc, list)?;
            lists.push(copy)?;
        }
        Ok(Links { lists })
    }

    /// The edges at an object.
    pub(crate) fn at(&self, o: ObjNo) -> &[ObjNo]
        requires { o.0 < length (links_of self.now) }
        ensures { slice_get (links_of self.now) o.0 ≡ Some result.now }
    {
        &self.lists[o.0 as usize]
    }

    /// Makes room for one more object.
    pub(crate) fn reserve(&mut self) -> Result<(), AllocError>
        ensures same { links_of self.new ≡ links_of self.old }
        ensures room { OnOk result (HasRoom self.new) }
    {
        self.lists.reserve(more_items(self.lists.len()))
    }

    /// Makes room for one more object, and for one more edge at `o`.
    pub(crate) fn reserve_at(&mut self, o: ObjNo) -> Result<(), AllocError>
        requires { o.0 < length (links_of self.old) }
        ensures same { links_of self.new ≡ links_of self.old }
        ensures room { OnOk result (HasRoom self.new) }
        ensures room_at { OnOk result (HasRoomAt self.new o.0) }
    {
        self.lists.reserve(more_items(self.lists.len()))?;
        self.lists[o.0 as usize].reserve(1)
    }

    /// Adds an object with no edge at it.
    pub(crate) fn push(&mut self)
        requires { HasRoom self.old }
        ensures { links_of self.new ≡ links_of self.old ++ [] ∷ [] }
    {
        let alloc = *self.lists.allocator();
        self.lists.push_reserved(Vec::new(alloc));
    }

    /// Adds an object with no edge at it, and an edge at `o`, whose number is the greatest.
    pub(crate) fn push_at(&mut self, o: ObjNo, edge: ObjNo)
        requires room { HasRoom self.old }
        requires room_at { HasRoomAt self.old o.0 }
        ensures { links_of self.new ≡ changed_at (links_of self.old) o.0 (λ list. list ++ edge ∷ []) ++ [] ∷ [] }
    {
        self.lists[o.0 as usize].push_reserved(edge);
        self.push();
    }

    /// Takes an edge at `o` away.
    pub(crate) fn remove(&mut self, o: ObjNo, edge: ObjNo)
        requires { o.0 < length (links_of self.old) }
        ensures { LosesNumber (links_of self.old) o.0 edge.0 (links_of self.new) }
    {
        take_out(&mut self.lists[o.0 as usize], edge);
    }
}

// How many more items room is made for. Once there are many it is made for all that there may be: a list that grows is copied, and
// memory that isn't touched costs nothing.
pub(crate) fn more_items(count: usize) -> usize
    ensures { 0 < result }
{
    if count == MANY {
        MAX_OBJECTS - count
    } else {
        1
    }
}

// Takes a number out of a list.
pub(crate) fn take_out(list: &mut Vec<ObjNo>, number: ObjNo)
    ensures { LosesIfRising list.old.items number.0 list.new.items }
{
    if let Ok(place) = list.binary_search_by_key(&number.0, |other| other.0) {
        list.remove(place);
    }
}
