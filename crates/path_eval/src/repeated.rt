//! The relation of a repetition.
//!
//! ```text
//!     path[0,0]    the identity, on the objects within both scopes alone
//!     path[n,n]    the n-th power, cut to both scopes
//!     path[0,m]    the powers 0 to m united, cut to both scopes
//!     path[n,m]    the n-th power from the one scope, then the powers 0 to m - n united, to the other
//!     path[n,_]    the same with all powers united
//!     path[1,_]    all powers united, where they lead to another object; the path and then these, where they lead back
//! ```
//!
//! The powers and their unions are those of the body's relation within the scope of all that the repetition passes. Two
//! relations between these objects are no worked members and so are never made: the identity where nothing is united, and the
//! n-th power composed with a union. Either could have too many rows where no member has.
ghost use Rattle.std.specs.Prelude.{◌≡◌, ◌<◌, ◌≤◌, ◌∷◌, Some, None, length, IfOk, IsErrOf};
ghost use Rattle.relation_rows.specs.Rows.{NormalRows};
ghost use Rattle.path_ast.specs.Terms.{Repetition};
ghost use Rattle.path_ast.specs.Sizes.{AreInRange};
ghost use Rattle.label_scope.specs.Narrowing.{Cut};
ghost use Rattle.label_scope.specs.Members.{passed as passed_scope, unions_within, further};
ghost use Rattle.plan_cache.specs.RightRows.{AllFit};
ghost use Rattle.path_eval.specs.Evaluated.{SomeIsWide};
ghost use Rattle.path_eval.specs.Ready.{IsReady, body_of};
ghost use Rattle.path_eval.specs.Powers.{GivesPairs, GivesMember, HoldsFitting, IsRest, left_over, repetition_member, repetition_members};

use crate::powers::{Powers, cut};
use label_scope::Scope;
use relation_rows::{RelFault, Relation, Row};

// So many rows between two objects are looked at one by one.
const FEW: usize = 64;

// Whether there are at most so many rows from any object to any other. No result depends on it. They stand in order.
fn are_few_between(rows: &[Row]) -> bool {
    for (i, row) in rows.iter().enumerate() {
        if i >= FEW
            && rows[i - FEW].source.0 == row.source.0
            && rows[i - FEW].target.0 == row.target.0
        {
            return false;
        }
    }
    true
}

impl Powers<'_, '_> {
    /// The path from `least` to `most` times, or any greater number of times, between two scopes.
    ///
    /// # Errors
    ///
    /// `Wide` exactly if the repetition between the two scopes has more than `max_rows` normal rows, or within `passed` some
    /// power in the chain of `least` has, or some union of powers that goes on from there; `Memory` if memory runs out.
    pub(crate) fn between(
        &self,
        a: &Scope,
        b: &Scope,
        least: u64,
        most: Option<u64>,
    ) -> Result<Relation, RelFault>
        requires ready { IsReady self.now }
        requires in_range { AreInRange least most }
        requires passed { self.now.passed.now ≡ passed_scope (body_of self.now) (record { sources = a.now; targets = b.now }) }
        ensures { let on = self.now.ground.now in let r = body_of self.now in
            GivesMember on.graph.now on.max_rows (repetition_member r least most a.now b.now) (repetition_members r self.now.passed.now least most) result }
    {
        if most == Some(least) {
            self.exactly_between(a, b, least)
        } else {
            let rest = self.rest(least, most)?;
            self.with_rest(a, b, least, most, &rest)
        }
    }

    // The path n times between two scopes.
    fn exactly_between(&self, a: &Scope, b: &Scope, n: u64) -> Result<Relation, RelFault>
        requires ready { IsReady self.now }
        requires small { n ≤ 1000000000000 }
        requires passed { self.now.passed.now ≡ passed_scope (body_of self.now) (record { sources = a.now; targets = b.now }) }
        ensures { let on = self.now.ground.now in let r = body_of self.now in
            GivesMember on.graph.now on.max_rows (repetition_member r n (Some n) a.now b.now) (repetition_members r self.now.passed.now n (Some n)) result }
    {
        if n == 0 {
            return self.identity_within_both(a, b);
        }
        let power = self.exactly(n)?;
        let rows = cut(self.ground, &power, a, b)?;
        Ok(rows)
    }

    // What may follow after `least` times: as many times as are left up to `most`, or any number.
    fn rest(&self, least: u64, most: Option<u64>) -> Result<Relation, RelFault>
        requires ready { IsReady self.now }
        requires in_range { AreInRange least most }
        requires more { IsRest least most }
        ensures { let on = self.now.ground.now in let r = body_of self.now in let u = self.now.passed.now in
            GivesPairs on.graph.now on.max_rows (Cut on.graph.now (Repetition r 0 (left_over least most)) u u) (unions_within r u (further least most)) result }
    {
        match most {
            Some(most) => self.at_most(most - least),
            None => self.any_number(),
        }
    }

    // The path `least` times, and then what may follow, between two scopes.
    fn with_rest(
        &self,
        a: &Scope,
        b: &Scope,
        least: u64,
        most: Option<u64>,
        rest: &Relation,
    ) -> Result<Relation, RelFault>
        requires ready { IsReady self.now }
        requires in_range { AreInRange least most }
        requires passed { self.now.passed.now ≡ passed_scope (body_of self.now) (record { sources = a.now; targets = b.now }) }
        requires rest { let on = self.now.ground.now in let r = body_of self.now in let u = self.now.passed.now in
            HoldsFitting (Cut on.graph.now (Repetition r 0 (left_over least most)) u u) on.max_rows rest.now }
        requires fits { AllFit self.now.ground.now.graph.now self.now.ground.now.max_rows (unions_within (body_of self.now) self.now.passed.now (further least most)) }
        ensures { let on = self.now.ground.now in let r = body_of self.now in
            GivesMember on.graph.now on.max_rows (repetition_member r least most a.now b.now) (repetition_members r self.now.passed.now least most) result }
    {
        if least == 0 {
            let rows = cut(self.ground, rest, a, b)?;
            return Ok(rows);
        }
        if least == 1 && most.is_none() && are_few_between(rest.rows()) {
            return self.once_or_more(a, b, rest);
        }
        let power = self.exactly(least)?;
        let first = cut(self.ground, &power, a, self.passed)?;
        let second = cut(self.ground, rest, self.passed, b)?;
        first.compose(&second, self.ground.max_rows)
    }

    // The path once or any greater number of times, between two scopes. From one object to another it leads just where any number
    // of times does. Only on the way from an object, which is then within both scopes, back to it is a step told from none.
    fn once_or_more(&self, a: &Scope, b: &Scope, rest: &Relation) -> Result<Relation, RelFault>
        requires ready { IsReady self.now }
        requires passed { self.now.passed.now ≡ passed_scope (body_of self.now) (record { sources = a.now; targets = b.now }) }
        requires rest { let on = self.now.ground.now in let r = body_of self.now in let u = self.now.passed.now in
            HoldsFitting (Cut on.graph.now (Repetition r 0 None) u u) on.max_rows rest.now }
        requires fits { AllFit self.now.ground.now.graph.now self.now.ground.now.max_rows (unions_within (body_of self.now) self.now.passed.now (further 1 None)) }
        ensures { let on = self.now.ground.now in let r = body_of self.now in
            GivesMember on.graph.now on.max_rows (repetition_member r 1 None a.now b.now) (repetition_members r self.now.passed.now 1 None) result }
    {
        let power = self.exactly(1)?;
        let first = cut(self.ground, &power, a, self.passed)?;
        let both = cut(self.ground, &first, b, self.passed)?;
        let back = both.compose_back(rest, self.ground.max_rows)?;
        let between = cut(self.ground, rest, a, b)?;
        let on = between.apart();
        on.union(&back, self.ground.max_rows)
    }
}
