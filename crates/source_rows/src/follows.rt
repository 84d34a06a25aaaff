//! The queries that are followed.
ghost use Rattle.std.specs.Prelude.{◌≡◌, ◌↔◌, ◌<◌, ◌≤◌, ◌&&◌, [], ◌∷◌, ◌++◌, length, slice_get, IsTrue};
ghost use Rattle.std.specs.Prelude.{IfSome, IsSome, IsNone, IsSomeAnd, IfOk, OnOk, OnErr, IsErrOf, IsErr};
ghost use Rattle.itpg_graph.specs.Edges.{AreRising};
ghost use Rattle.path_ast.specs.Terms.{query_term, path_term};
ghost use Rattle.path_ast.specs.Sizes.{path_size, IsPathInRange};
ghost use Rattle.path_ast.specs.declared.counts.TheConstants.{MAX_TERMS};
ghost use Rattle.relation_rows.specs.Answered.{answered};
ghost use Rattle.source_rows.specs.Follows.{most_follows, IsFollowed, IsOnlyPlace, new_follow, without, entry, with_entry, Keeps, IsKept, IsPairs};
ghost use Rattle.source_rows.specs.Follows.{IsShort, AreUnmet, IsUnmetAt, kept_rows, kept_objects, most_rows, most_objects};

use crate::followed::Followed;
use crate::touched::Touched;
use itpg_base::{Name, ObjNo};
use path_ast::Query;
use relation_rows::Answer;
use std::alloc::{AllocError, Global};
use std::marker::Model;

/// How many queries may be followed.
pub const MAX_FOLLOWS: usize = 8;

/// How many rows may be kept of all follows together.
const MOST_ROWS: u64 = 1_000_000;

/// How many objects all that is kept may list together.
const MOST_OBJECTS: u64 = 4_000_000;

/// Why a query isn't followed.
#[derive(Clone, Copy, Debug, PartialEq, Eq, Drop)]
pub enum FollowFault {
    /// A follow has this name.
    Taken,
    /// 8 queries are followed.
    Full,
    /// Memory ran out.
    Memory,
}

impl From<AllocError> for FollowFault {
    ghost use Rattle.std.specs.Prelude.{◌≡◌};
    ghost use Rattle.source_rows.specs.declared.follows.FollowFault.TheVariants.{Memory};

    ghost from_gives = { λ _ e. e ≡ Memory };

    fn from(_error: AllocError) -> FollowFault {
        FollowFault::Memory
    }
}

/// No follow has this name.
#[derive(Clone, Copy, Debug, PartialEq, Eq, Drop)]
pub struct NoFollow;

/// The queries that are followed, in order of declaration, each with the rows that are kept of single objects. No two have the
/// same name, and of all together at most 1,000,000 rows are kept, which depend on 4,000,000 objects at most.
///
/// ```text
///     place   name   query                    source   objects it depends on   rows
///     0       near   MATCH (x)-/FWD/-(y)      17       3, 17, 18, 40           (17, 3) .., (17, 40) ..
///                                             18       17, 18                  none
///     1       far    MATCH (x)-/FWD[0,_]/-(y) ..
/// ```
///
/// A contract sees the list of the follows.
#[derive(Drop)]
pub struct Follows {
    items: Vec<Followed>,
}

impl Model for Follows {
    ghost use Rattle.std.specs.Prelude.{List};
    ghost use Rattle.std.specs.Coded.{codes};
    ghost use Rattle.path_ast.specs.Codes.{coded_path};
    ghost use Rattle.source_rows.specs.Follows.{Follow, AreSound};

    ghost Value = { List Follow };

    ghost coded = { Prim.hlevel (codes, coded_path) };

    ghost view = { λ f. f.items.items };

    ghost invariant = { λ f. AreSound f.items.items };
}

impl Follows {
    /// Nothing is followed. It takes no memory.
    pub fn new(alloc: Global) -> Follows
        ensures { result ≡ [] }
    {
        Follows {
            items: Vec::new(alloc),
        }
    }

    /// Follows a query under a name, behind the others. Nothing of it is kept yet.
    ///
    /// # Errors
    ///
    /// `Taken` where a follow has this name, else `Full` where 8 queries are followed, and `Memory` if memory runs out. Then the
    /// follows stay as they are.
    pub fn add(&mut self, name: Name, query: Query) -> Result<(), FollowFault>
        requires in_range { IsPathInRange (path_term query.path) }
        requires terms { path_size (path_term query.path) ≤ MAX_TERMS }
        requires ends { IsTrue (query.first && query.last) }
        ensures added { OnOk result (self.new ≡ self.old ++ new_follow name (query_term query) ∷ []) }
        ensures same { OnErr result (self.new ≡ self.old) }
        ensures taken { IsErrOf result FollowFault.Taken ↔ IsFollowed self.old name }
        ensures full { IsErrOf result FollowFault.Full ↔ ((¬ IsFollowed self.old name) × (most_follows ≤ length self.old)) }
    {
        if self.find(&name).is_some() {
            return Err(FollowFault::Taken);
        }
        if self.items.len() >= MAX_FOLLOWS {
            return Err(FollowFault::Full);
        }
        self.items.reserve(1)?;
        let alloc = *self.items.allocator();
        self.items.push_reserved(Followed::new(alloc, name, query));
        Ok(())
    }

    /// Ends the follow of this name. What was kept of it goes, and the others stay in their order. It takes no memory.
    ///
    /// # Errors
    ///
    /// Where no follow has this name. Then the follows stay as they are.
    pub fn remove(&mut self, name: &Name) -> Result<(), NoFollow>
        ensures removed { OnOk result (self.new ≡ without name.now self.old) }
        ensures same { OnErr result (self.new ≡ self.old) }
        ensures none { IsErr result ↔ (¬ IsFollowed self.old name.now) }
    {
        let Some(place) = self.find(name) else {
            return Err(NoFollow);
        };
        let _removed = self.items.remove(place);
        Ok(())
    }

    /// How many queries are followed: at most 8.
    pub fn len(&self) -> usize
        ensures count { result ≡ length self.now }
        ensures few { result ≤ most_follows }
    {
        self.items.len()
    }

    /// The one place of the follow of this name; `None` exactly if none has it.
    pub fn find(&self, name: &Name) -> Option<usize>
        ensures some { IfSome result (λ i. IsSomeAnd (slice_get self.now i) (λ f. f.name ≡ name.now)) }
        ensures only { IfSome result (λ i. IsOnlyPlace self.now name.now i) }
        ensures none { IsNone result ↔ (¬ IsFollowed self.now name.now) }
    {
        for (place, follow) in self.items.iter().enumerate() {
            if follow.has_name(name) {
                return Some(place);
            }
        }
        None
    }

    /// The query of the follow at a place. It asks for both ends.
    pub fn query(&self, i: usize) -> &Query
        requires { i < length self.now }
        ensures query { IsSomeAnd (slice_get self.now i) (λ f. f.query ≡ query_term result.now) }
        ensures in_range { IsPathInRange (path_term result.now.path) }
        ensures terms { path_size (path_term result.now.path) ≤ MAX_TERMS }
        ensures ends { IsTrue (result.now.first && result.now.last) }
    {
        self.items[i].query()
    }

    /// The rows that the follow at a place keeps of a source; `None` exactly if it keeps none. It takes no memory.
    pub fn rows_of(&self, i: usize, source: ObjNo) -> Option<&Answer>
        requires { i < length self.now }
        ensures some { IfSome result (λ answer. Keeps self.now i source.0 (answered answer.now)) }
        ensures none { IsNone result ↔ (¬ IsKept self.now i source.0) }
        ensures kind { IfSome result (λ answer. IsPairs (answered answer.now)) }
    {
        self.items[i].entries().rows_of(source)
    }

    /// How many rows are kept of all follows together: at most 1,000,000.
    pub fn rows(&self) -> u64
        ensures count { result ≡ kept_rows self.now }
        ensures few { result ≤ most_rows }
    {
        let mut count = 0;
        for follow in &self.items {
            count += follow.entries().rows();
        }
        count
    }

    /// How many objects all that is kept depends on, each counted once for each source: at most 4,000,000.
    pub fn objects(&self) -> u64
        ensures count { result ≡ kept_objects self.now }
        ensures few { result ≤ most_objects }
    {
        let mut count = 0;
        for follow in &self.items {
            count += follow.entries().objects();
        }
        count
    }

    /// Has the follow at a place keep the rows of a source of which it keeps none, and the rising numbers of the objects that these
    /// depend on. It gives the rows back, and keeps nothing more, exactly if all follows then had more than 1,000,000 rows or more
    /// than 4,000,000 objects.
    ///
    /// # Errors
    ///
    /// If memory runs out. Then the follows stay as they are.
    pub fn keep(
        &mut self,
        i: usize,
        source: ObjNo,
        objects: Vec<ObjNo>,
        rows: Answer,
    ) -> Result<Option<Answer>, AllocError>
        requires there { i < length self.old }
        requires pairs { IsPairs (answered rows) }
        requires rising { AreRising objects.items }
        requires absent { ¬ IsKept self.old i source.0 }
        ensures kept { IfOk result (λ back. IsNone back → self.new ≡ with_entry i (entry source.0 objects.items (answered rows)) self.old) }
        ensures back { IfOk result (λ back. IfSome back (λ own. (answered own ≡ answered rows) × (self.new ≡ self.old))) }
        ensures short { IfOk result (λ back. IsSome back ↔ IsShort self.old objects.items (answered rows)) }
        ensures same { OnErr result (self.new ≡ self.old) }
    {
        if self.is_short(&objects, &rows) {
            return Ok(Some(rows));
        }
        self.items[i].add(source, objects, rows)?;
        Ok(None)
    }

    /// Lets exactly those kept rows go that depend on a touched object. It takes no memory.
    pub fn touched(&mut self, touched: &Touched)
        ensures { AreUnmet touched.now self.old self.new }
    {
        for i in 0..self.len() {
            self.touch_at(i, touched);
        }
    }

    // The same of the follow at a place alone.
    fn touch_at(&mut self, i: usize, touched: &Touched)
        requires { i < length self.old }
        ensures { IsUnmetAt i touched.now self.old self.new }
    {
        self.items[i].touched(touched);
    }

    // Whether there is no room for these rows, or for the objects that they depend on.
    fn is_short(&self, objects: &[ObjNo], rows: &Answer) -> bool
        ensures { IsTrue result ↔ IsShort self.now objects.now (answered rows.now) }
    {
        MOST_ROWS - self.rows() < rows.rows()
            || MOST_OBJECTS - self.objects() < objects.len() as u64
    }
}
