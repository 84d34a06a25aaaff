//! The powers of a path's relation within a scope.
ghost use Rattle.std.specs.Prelude.{◌≡◌, ◌≤◌, ◌∷◌, [], ℕ, Some, None, length, IfOk};
ghost use Rattle.itpg_base.specs.Chains.{chain};
ghost use Rattle.relation_rows.specs.Answers.{Gives};
ghost use Rattle.relation_rows.specs.Rows.{RowsHold, NormalRows, Fits};
ghost use Rattle.path_ast.specs.Terms.{Repetition};
ghost use Rattle.label_scope.specs.Narrowing.{Cut};
ghost use Rattle.label_scope.specs.Members.{powers_within, unions_within, doubles};
ghost use Rattle.path_eval.specs.Powers.{SamePoint, SameWithinBoth, HeldBetween, GivesPairs};
ghost use Rattle.path_eval.specs.Ready.{IsReady, body_of};

use crate::basis::Ground;
use crate::within_both::objects_within_both;
use condition_eval::objects_within;
use label_scope::Scope;
use plan_cache::{PlanNo, Plans};
use relation_rows::{RelFault, Relation};
use repeat_engine::{Composed, closure, power, up_to};
use std::alloc::AllocError;
use wide_witness::{along_time, is_seen_wide, source_by_source};

// So many times the limit of rows may be made on the way to a union.
const MORE: u32 = 4;

// Runs are counted from points of so many objects at most.
const OBJECTS: u64 = 32;

/// A path that is repeated, on a graph, and its relation between the objects within the scope of all that a repetition of it
/// passes.
///
/// Relations between these objects are composed and united; those fit that have at most `max_rows` normal rows.
#[derive(Drop)]
pub(crate) struct Powers<'g, 'a> {
    pub(crate) ground: &'a Ground<'g>,
    /// The nodes, of which the body is one.
    pub(crate) plans: &'a Plans,
    /// The node of the path that is repeated.
    pub(crate) body: PlanNo,
    /// The path's relation between the objects within `passed`.
    pub(crate) relation: &'a Relation,
    /// The scope of every object that a repetition passes.
    pub(crate) passed: &'a Scope,
}

impl Composed for Powers<'_, '_> {
    ghost use Rattle.std.specs.Prelude.{◌≡◌};
    ghost use Rattle.relation_rows.specs.declared.rows.RelFault.TheVariants.{Memory};
    ghost use Rattle.repeat_engine.specs.Relations.{Given, relations};
    ghost use Rattle.path_eval.specs.Powers.{Written, LeadAlike, StaysInside, FitsInside};
    ghost use Rattle.path_eval.specs.Powers.Lawful.{powers_lawful};

    type Value = Relation;

    type Fault = RelFault;

    ghost Meaning = { Written };

    ghost means = { λ rows. Given rows };

    ghost alike = { λ c w v. LeadAlike c.ground.now.graph.now c.passed.now w v };

    ghost own = { λ c w. StaysInside c.ground.now.graph.now c.passed.now w };

    ghost fits = { λ c w. FitsInside c.ground.now.graph.now c.passed.now c.ground.now.max_rows w };

    ghost wants_memory = { λ fault. fault ≡ Memory };

    ghost algebra = { λ c. relations };

    fn one(&self) -> Result<Relation, RelFault> {
        self.identity_within(self.passed)
    }

    fn compose(&self, x: &Relation, y: &Relation) -> Result<Relation, RelFault> {
        x.compose(y, self.ground.max_rows)
    }

    fn union(&self, x: &Relation, y: &Relation) -> Result<Relation, RelFault> {
        x.union(y, self.ground.max_rows)
    }

    fn compose_onto(
        &self,
        base: &Relation,
        x: &Relation,
        y: &Relation,
    ) -> Result<Option<Relation>, RelFault> {
        let more = self.ground.max_rows.saturating_mul(MORE);
        let Ok(made) = x.compose(y, more) else {
            return Ok(None);
        };
        match base.union(&made, self.ground.max_rows) {
            Ok(all) => Ok(Some(all)),
            Err(fault) => Err(fault),
        }
    }

    fn beyond(&self, x: &Relation, y: &Relation) -> Result<Relation, RelFault> {
        let rest = x.minus(y)?;
        let count = rest.row_count();
        if count <= self.ground.max_rows as u64 {
            Ok(rest)
        } else {
            Err(RelFault::Wide)
        }
    }

    fn check_union(&self, x: &Relation, n: u64) -> Result<(), RelFault> {
        let limit = self.ground.max_rows;
        let runs = n.saturating_mul(x.row_count().min(OBJECTS));
        if runs > self.many() && is_seen_wide(self.ground.alloc, x, n, limit)? {
            return Err(RelFault::Wide);
        }
        Ok(())
    }

    fn at_once(&self, one: &Relation, x: &Relation, n: u64) -> Result<Option<Relation>, RelFault> {
        let along = along_time(self.ground.alloc, one, x, n, self.ground.max_rows)?;
        if along.is_some() {
            return Ok(along);
        }
        let all = source_by_source(self.ground.alloc, one, x, n, self.ground.max_rows)?;
        Ok(all)
    }

    // With each power, one point most often leads to one run more.
    fn many(&self) -> u64 {
        self.ground.max_rows as u64
    }

    fn size(&self, x: &Relation) -> u64 {
        x.row_count()
    }

    fn same(&self, x: &Relation, y: &Relation) -> bool {
        let own = x.row_count();
        let other = y.row_count();
        own == other && x.same(y)
    }

    ghost lawful = { λ c. powers_lawful c.ground.now.graph.now c.passed.now c.ground.now.max_rows };
}

/// The pairs of a relation from objects within the scope `a` to objects within the scope `b`. There are no more rows.
pub(crate) fn cut(
    ground: &Ground<'_>,
    whole: &Relation,
    a: &Scope,
    b: &Scope,
) -> Result<Relation, AllocError>
    ensures rows { IfOk result (λ rows. NormalRows (HeldBetween ground.now.graph.now whole.now a.now b.now) rows) }
    ensures few { IfOk result (λ rows. (limit : ℕ) → Fits (RowsHold whole.now) limit → length rows ≤ limit) }
{
    let sources = objects_within(ground.alloc, ground.graph, a)?;
    let targets = objects_within(ground.alloc, ground.graph, b)?;
    whole.restrict(&sources, &targets)
}

impl Powers<'_, '_> {
    /// Each point of the graph whose object is within the scope, to itself. `Wide` exactly if its normal rows, one for each
    /// such object, are more than `max_rows`.
    pub(crate) fn identity_within(&self, scope: &Scope) -> Result<Relation, RelFault>
        ensures { Gives result (SamePoint self.now.ground.now.graph.now scope.now) self.now.ground.now.max_rows }
    {
        let ground = self.ground;
        let objects = objects_within(ground.alloc, ground.graph, scope)?;
        Relation::identity(ground.alloc, &objects, ground.horizon, ground.max_rows)
    }

    /// Each point of the graph whose object is within both scopes, to itself. `Wide` exactly if its normal rows are more than
    /// `max_rows`.
    pub(crate) fn identity_within_both(&self, a: &Scope, b: &Scope) -> Result<Relation, RelFault>
        ensures { Gives result (SameWithinBoth self.now.ground.now.graph.now a.now b.now) self.now.ground.now.max_rows }
    {
        let ground = self.ground;
        let objects = objects_within_both(ground, a, b)?;
        Relation::identity(ground.alloc, &objects, ground.horizon, ground.max_rows)
    }

    /// The path n times. n is from 1 to 10^12. `Wide` exactly if some power in the chain of n is.
    pub(crate) fn exactly(&self, n: u64) -> Result<Relation, RelFault>
        requires some { 1 ≤ n }
        requires small { n ≤ 1000000000000 }
        requires ready { IsReady self.now }
        ensures { let on = self.now.ground.now in let r = body_of self.now in let u = self.now.passed.now in
            GivesPairs on.graph.now on.max_rows (Cut on.graph.now (Repetition r n (Some n)) u u) (powers_within r u (chain n)) result }
    {
        power(self, self.relation, n)
    }

    /// The path 0 to n times. n is from 1 to 10^12. `Wide` exactly if for some k in the chain of n the path 0 to k times is.
    pub(crate) fn at_most(&self, n: u64) -> Result<Relation, RelFault>
        requires some { 1 ≤ n }
        requires small { n ≤ 1000000000000 }
        requires ready { IsReady self.now }
        ensures { let on = self.now.ground.now in let r = body_of self.now in let u = self.now.passed.now in
            GivesPairs on.graph.now on.max_rows (Cut on.graph.now (Repetition r 0 (Some n)) u u) (unions_within r u (chain n)) result }
    {
        up_to(self, self.relation, n)
    }

    /// The path any number of times. `Wide` exactly if for some j from 0 to 60 the path 0 to 2^j times is.
    pub(crate) fn any_number(&self) -> Result<Relation, RelFault>
        requires ready { IsReady self.now }
        ensures { let on = self.now.ground.now in let r = body_of self.now in let u = self.now.passed.now in
            GivesPairs on.graph.now on.max_rows (Cut on.graph.now (Repetition r 0 None) u u) (unions_within r u (doubles 60)) result }
    {
        closure(self, self.relation)
    }
}
