//! The watches that stand.
ghost use Rattle.std.specs.Prelude.{◌≡◌, ◌↔◌, ◌<◌, ◌≤◌, ◌||◌, [], ◌∷◌, ◌++◌, length, map, slice_get, Some, None};
ghost use Rattle.std.specs.Prelude.{option_map, IsTrue, IfSome, IsNone, IsSomeAnd, OnOk, OnErr, IsErrOf, IsErr};
ghost use Rattle.path_ast.specs.Terms.{query_term, path_term};
ghost use Rattle.itpg_base.specs.Lists.{Among};
ghost use Rattle.path_ast.specs.Sizes.{path_size, IsPathInRange};
ghost use Rattle.path_ast.specs.declared.counts.TheConstants.{MAX_TERMS};
ghost use Rattle.path_ast.specs.declared.ast.Query.{Query};
ghost use Rattle.relation_rows.specs.Answered.{answered};
ghost use Rattle.standing_queries.specs.Watches.{most_watches, MayBeWatched, IsWatched, IsOnlyPlace, IsOfKind, new_watch, without, replanned, IsFresh, Keeps};
ghost use Rattle.standing_queries.specs.Touched.{AreTouched, IsTouchedAt};

use crate::kept::{Kept, no_rows};
use itpg_base::{Name, Touch};
use label_scope::Footprint;
use path_ast::Query;
use plan_cache::PlanNo;
use relation_rows::Answer;
use std::alloc::{AllocError, Global};
use std::marker::Model;

/// How many watches may stand.
pub const MAX_WATCHES: usize = 32;

/// Why a watch isn't added.
#[derive(Clone, Copy, Debug, PartialEq, Eq, Drop)]
pub enum WatchFault {
    /// A watch of this name stands.
    Taken,
    /// 32 watches stand.
    Full,
    /// Memory ran out.
    Memory,
}

impl From<AllocError> for WatchFault {
    ghost use Rattle.std.specs.Prelude.{◌≡◌};
    ghost use Rattle.standing_queries.specs.declared.watches.WatchFault.TheVariants.{Memory};

    ghost from_gives = { λ _ e. e ≡ Memory };

    fn from(_error: AllocError) -> WatchFault {
        WatchFault::Memory
    }
}

/// No watch of this name stands.
#[derive(Clone, Copy, Debug, PartialEq, Eq, Drop)]
pub struct Unknown;

/// The watches that stand, in order of declaration. No two have the same name.
///
/// ```text
///     place   name     query                  plan   footprint             base          kept answer
///     0       people   MATCH (x:Person)       0      shape, live Person    a 0 9         a 0 12
///     1       moves    MATCH (x)-/N*/-(y)     7      shape, live All       none as yet   none
/// ```
///
/// The plan is the number of the plan's node, the footprint what the answer can depend on. A contract sees the list of the watches.
#[derive(Drop)]
pub struct Watches {
    pub(crate) queries: Vec<Query>,
    pub(crate) items: Vec<Kept>,
}

impl Model for Watches {
    ghost use Rattle.std.specs.Prelude.{List};
    ghost use Rattle.std.specs.Coded.{codes};
    ghost use Rattle.standing_queries.specs.Watches.{Watch};
    ghost use Rattle.path_ast.specs.Codes.{coded_path};

    ghost Value = { List Watch };

    ghost coded = { Prim.hlevel (codes, coded_path) };

    ghost use Rattle.standing_queries.specs.Stores.{watches_of, AreStored};

    ghost view = { λ w. watches_of w.queries.items w.items.items };

    ghost invariant = { λ w. AreStored w.queries.items w.items.items };
}

impl Watches {
    /// No watches. It takes no memory.
    pub fn new(alloc: Global) -> Watches
        ensures { result ≡ [] }
    {
        Watches {
            queries: Vec::new(alloc),
            items: Vec::new(alloc),
        }
    }

    /// Adds a watch behind the others. Its base has no row, and no answer of it is kept.
    ///
    /// # Errors
    ///
    /// `Taken` where a watch of this name stands, else `Full` where 32 watches stand, and `Memory` if memory runs out.
    /// Then the watches stay as they are.
    pub fn add(
        &mut self,
        name: Name,
        query: Query,
        plan: PlanNo,
        foot: Footprint,
    ) -> Result<(), WatchFault>
        requires in_range { IsPathInRange (path_term query.path) }
        requires terms { path_size (path_term query.path) ≤ MAX_TERMS }
        requires ends { IsTrue (query.first || query.last) }
        ensures added { OnOk result (self.new ≡ self.old ++ new_watch name (query_term query) plan.0 foot ∷ []) }
        ensures same { OnErr result (self.new ≡ self.old) }
        ensures taken { IsErrOf result WatchFault.Taken ↔ IsWatched self.old name }
        ensures full { IsErrOf result WatchFault.Full ↔ ((¬ IsWatched self.old name) × (most_watches ≤ length self.old)) }
    {
        if self.find(&name).is_some() {
            return Err(WatchFault::Taken);
        }
        if self.len() >= MAX_WATCHES {
            return Err(WatchFault::Full);
        }
        let base = no_rows(*self.items.allocator(), &query)?;
        self.queries.reserve(1)?;
        self.items.reserve(1)?;
        self.queries.push_reserved(query);
        self.items.push_reserved(Kept {
            name,
            plan,
            foot,
            base,
            now: None,
            settled: false,
        });
        Ok(())
    }

    /// Removes the watch of this name. The others stay in their order.
    ///
    /// # Errors
    ///
    /// Where no watch of this name stands. Then the watches stay as they are.
    pub fn remove(&mut self, name: &Name) -> Result<(), Unknown>
        ensures removed { OnOk result (self.new ≡ without name.now self.old) }
        ensures same { OnErr result (self.new ≡ self.old) }
        ensures unknown { IsErr result ↔ (¬ IsWatched self.old name.now) }
    {
        let Some(place) = self.find(name) else {
            return Err(Unknown);
        };
        let _query = self.queries.remove(place);
        let _kept = self.items.remove(place);
        Ok(())
    }

    /// How many watches stand: at most 32.
    pub fn len(&self) -> usize
        ensures count { result ≡ length self.now }
        ensures few { result ≤ most_watches }
    {
        self.items.len()
    }

    /// The one place of the watch of this name; `None` exactly if none stands.
    pub fn find(&self, name: &Name) -> Option<usize>
        ensures some { IfSome result (λ i. IsSomeAnd (slice_get self.now i) (λ w. w.name ≡ name.now)) }
        ensures only { IfSome result (λ i. IsOnlyPlace self.now name.now i) }
        ensures none { IsNone result ↔ (¬ IsWatched self.now name.now) }
    {
        for (place, kept) in self.items.iter().enumerate() {
            if kept.name == *name {
                return Some(place);
            }
        }
        None
    }

    /// The name of the watch at a place.
    pub fn name(&self, i: usize) -> Name
        requires { i < length self.now }
        ensures { IsSomeAnd (slice_get self.now i) (λ w. w.name ≡ result) }
    {
        self.items[i].name
    }

    /// The query of the watch at a place. It asks for one end at least.
    pub fn query(&self, i: usize) -> &Query
        requires { i < length self.now }
        ensures query { IsSomeAnd (slice_get self.now i) (λ w. w.query ≡ query_term result.now) }
        ensures in_range { IsPathInRange (path_term result.now.path) }
        ensures terms { path_size (path_term result.now.path) ≤ MAX_TERMS }
        ensures ends { IsTrue (result.now.first || result.now.last) }
    {
        &self.queries[i]
    }

    /// The queries of all watches, in order of declaration. Each asks for one end at least.
    pub fn queries(&self) -> &[Query]
        ensures queries { map query_term result.now ≡ map (λ w. w.query) self.now }
        ensures each { (q : Query) → Among result.now q → MayBeWatched (query_term q) }
    {
        &self.queries
    }

    /// The number of the plan's node of the watch at a place.
    pub fn plan(&self, i: usize) -> PlanNo
        requires { i < length self.now }
        ensures { IsSomeAnd (slice_get self.now i) (λ w. w.plan ≡ result.0) }
    {
        self.items[i].plan
    }

    /// The base of the watch at a place: the answer that the next tick compares with. It is of the query's kind.
    pub fn base(&self, i: usize) -> &Answer
        requires { i < length self.now }
        ensures base { IsSomeAnd (slice_get self.now i) (λ w. w.base ≡ answered result.now) }
        ensures kind { IsSomeAnd (slice_get self.now i) (λ w. IsOfKind w.query (answered result.now)) }
    {
        &self.items[i].base
    }

    /// The kept answer of the watch at a place; `None` if none is kept. It is of the query's kind.
    pub fn kept(&self, i: usize) -> Option<&Answer>
        requires { i < length self.now }
        ensures kept { IsSomeAnd (slice_get self.now i) (λ w. w.now ≡ option_map (λ a. answered a.now) result) }
        ensures kind { IfSome result (λ a. IsSomeAnd (slice_get self.now i) (λ w. IsOfKind w.query (answered a.now))) }
    {
        self.items[i].now.as_ref()
    }

    /// Has the watch at a place stand for another node of the plans.
    pub fn set_plan(&mut self, i: usize, plan: PlanNo)
        requires { i < length self.old }
        ensures { self.new ≡ replanned i plan.0 self.old }
    {
        self.items[i].plan = plan;
    }

    /// Whether an answer of the watch of this name is kept.
    pub fn fresh(&self, name: &Name) -> bool
        ensures { IsTrue result ↔ IsFresh self.now name.now }
    {
        self.answer(name).is_some()
    }

    /// The kept answer of the watch of this name; `None` exactly if no watch has the name or nothing is kept. It is of the query's
    /// kind.
    pub fn answer(&self, name: &Name) -> Option<&Answer>
        ensures some { IfSome result (λ answer. Keeps self.now name.now (answered answer.now)) }
        ensures none { IsNone result ↔ (¬ IsFresh self.now name.now) }
    {
        let place = self.find(name)?;
        self.kept(place)
    }

    /// Lets the kept answers go of exactly those watches whose footprint the touch meets. It takes no memory.
    pub fn touched(&mut self, touch: &Touch)
        ensures { AreTouched touch.now self.old self.new }
    {
        for i in 0..self.len() {
            self.touch_at(i, touch);
        }
    }

    // The same of the watch at a place alone.
    fn touch_at(&mut self, i: usize, touch: &Touch)
        requires { i < length self.old }
        ensures { IsTouchedAt i touch.now self.old self.new }
    {
        self.items[i].touch(touch);
    }
}
