//! Follows: a query is followed under a name, its rows from one object are told, and it is given up.
ghost use Rattle.std.specs.Prelude.{◌≡◌, ◌≢◌, ◌<◌, ◌≤◌, ◌⊎◌, ◌||◌, ◌&&◌, length, slice_get, IfOk, OnOk, OnErr, IsSome, IsSomeAnd, IsTrue};
ghost use Rattle.itpg_base.specs.Graphs.{Stands};
ghost use Rattle.edit_reader.specs.Readings.{Follows as FollowsLine, Nears, Unfollows};
ghost use Rattle.path_ast.specs.Terms.{query_term, path_term};
ghost use Rattle.path_ast.specs.Sizes.{path_size, IsPathInRange};
ghost use Rattle.path_ast.specs.declared.counts.TheConstants.{MAX_TERMS};
ghost use Rattle.relation_rows.specs.Answered.{Answered, answered, pairs};
ghost use Rattle.source_rows.specs.Follows.{IsKept, entry};
ghost use Rattle.itpg_session.specs.Replies.{Silent, Rows, line_reply, IsFoundNear};
ghost use Rattle.itpg_session.specs.Machine.{FollowsText, FollowsQuery, UnfollowsName, NearsName, names_both as plain_names_both};
ghost use Rattle.itpg_session.specs.Steps.{IsAlike, IsAtHand, IsDecided, Decides, WantsMemory};
ghost use Rattle.itpg_session.specs.Keeping.{IsEntryRight};
ghost use Rattle.itpg_session.specs.Following.{LeavesFollows, AddsOrKeeps, KeepsIfSaid, KeepsNear, GainsAt, KeepsOrLacks};

use crate::laws::law_of_graphs;
use crate::reply::Reply;
use crate::rules::{broken_by_ask, broken_by_tick, place_near};
use crate::session::Session;
use itpg_base::{Name, ObjNo, RuleCode, TextCode};
use match_parser::{QueryFault, read_query};
use path_ast::Query;
use path_eval::{EvalFault, NearRows, near_rows};
use relation_rows::Answer;
use source_rows::{FollowFault, NoFollow};
use std::alloc::AllocError;

impl Session {
    /// Follows the query of a text from now on, unless a rule forbids it.
    pub(crate) fn follow(&mut self, name: Name, text: &[u8]) -> Result<Reply, AllocError>
        ensures decides { Decides (FollowsText self.old.machine name text.now) (Unit {0}) self.old self.new result }
        ensures table { self.new.table ≡ self.old.table }
        ensures pins { self.new.pins ≡ self.old.pins }
        ensures follows { LeavesFollows (FollowsLine name text.now) self.old self.new }
        ensures holds { KeepsIfSaid self.old self.new result }
    {
        match read_query(self.alloc, text) {
            Ok(query) => self.follow_query(name, query),
            Err(QueryFault::Bad(code)) => Ok(Reply::Bad(code)),
            Err(QueryFault::Memory) => Err(AllocError),
        }
    }

    // The same of a query.
    fn follow_query(&mut self, name: Name, query: Query) -> Result<Reply, AllocError>
        requires in_range { IsPathInRange (path_term query.path) }
        requires terms { path_size (path_term query.path) ≤ MAX_TERMS }
        ensures decides { Decides (FollowsQuery self.old.machine name (query_term query)) (Unit {0}) self.old self.new result }
        ensures table { self.new.table ≡ self.old.table }
        ensures pins { self.new.pins ≡ self.old.pins }
        ensures follows { AddsOrKeeps name (query_term query) self.old.follows self.new.follows }
        ensures holds { KeepsIfSaid self.old self.new result }
    {
        if names_both(&query) {
            return self.follow_named(name, query);
        }
        Ok(Reply::Bad(TextCode::Names))
    }

    // The same of a query that names both ends.
    fn follow_named(&mut self, name: Name, query: Query) -> Result<Reply, AllocError>
        requires in_range { IsPathInRange (path_term query.path) }
        requires terms { path_size (path_term query.path) ≤ MAX_TERMS }
        requires ends { IsTrue (plain_names_both (query_term query)) }
        ensures decides { Decides (FollowsQuery self.old.machine name (query_term query)) (Unit {0}) self.old self.new result }
        ensures table { self.new.table ≡ self.old.table }
        ensures pins { self.new.pins ≡ self.old.pins }
        ensures follows { AddsOrKeeps name (query_term query) self.old.follows self.new.follows }
        ensures holds { KeepsIfSaid self.old self.new result }
    {
        if let Some(rule) = broken_by_ask(&self.graph, &query) {
            return Ok(Reply::Refused(rule));
        }
        match self.follows.add(name, query) {
            Ok(()) => Ok(Reply::Silent),
            Err(FollowFault::Taken) => Ok(Reply::Refused(RuleCode::Taken)),
            Err(FollowFault::Full) => Ok(Reply::Refused(RuleCode::Full)),
            Err(FollowFault::Memory) => Err(AllocError),
        }
    }

    /// Gives up the follow of this name, and what it keeps.
    pub(crate) fn unfollow(&mut self, name: &Name) -> Reply
        ensures decides { IsDecided (UnfollowsName self.old.machine name.now) self.old self.new (line_reply result) }
        ensures table { self.new.table ≡ self.old.table }
        ensures pins { self.new.pins ≡ self.old.pins }
        ensures follows { LeavesFollows (Unfollows name.now) self.old self.new }
        ensures holds { line_reply result ≢ Silent → self.new.follows ≡ self.old.follows }
    {
        if let Some(rule) = broken_by_tick(&self.graph) {
            return Reply::Refused(rule);
        }
        match self.follows.remove(name) {
            Ok(()) => Reply::Silent,
            Err(NoFollow) => Reply::Refused(RuleCode::Unknown),
        }
    }

    /// Tells the rows that the follow of the one name has from the object of the other, of which none are kept, and keeps them if there
    /// is room.
    pub(crate) fn near(&mut self, name: &Name, id: &Name) -> Result<Reply, AllocError>
        requires finds { ¬ IsAtHand self.old (Nears name.now id.now) }
        ensures decides { Decides (NearsName self.old.limit self.old.machine name.now id.now) (WantsMemory self.old.machine (Nears name.now id.now)) self.old self.new result }
        ensures table { self.new.table ≡ self.old.table }
        ensures pins { self.new.pins ≡ self.old.pins }
        ensures follows { LeavesFollows (Nears name.now id.now) self.old self.new }
        ensures near { OnOk result (KeepsNear (Nears name.now id.now) self.old self.new) }
        ensures same { OnErr result (self.new.follows ≡ self.old.follows) }
    {
        law_of_graphs(&self.graph);
        match place_near(&self.graph, &self.follows, name, id) {
            Ok((place, object)) => self.near_at(place, object),
            Err(rule) => Ok(Reply::Refused(rule)),
        }
    }

    // The same of the follow at a place and a standing object.
    fn near_at(&mut self, place: usize, object: ObjNo) -> Result<Reply, AllocError>
        requires begun { IsSome self.old.machine.graph.begun }
        requires there { place < length self.old.follows }
        requires stands { Stands self.old.machine.graph object.0 }
        requires absent { ¬ IsKept self.old.follows place object.0 }
        ensures found { IfOk result (λ reply. IsSomeAnd (slice_get self.old.follows place) (λ f. IsFoundNear self.old.machine.graph self.old.limit f.query object.0 (line_reply reply))) }
        ensures alike { IsAlike self.old self.new }
        ensures table { self.new.table ≡ self.old.table }
        ensures pins { self.new.pins ≡ self.old.pins }
        ensures follows { GainsAt place object.0 self.old.follows self.new.follows ⊎ (self.new.follows ≡ self.old.follows) }
        ensures kept { IfOk result (λ reply. (answer : Answered) → line_reply reply ≡ Rows answer → KeepsOrLacks place object.0 self.old self.new) }
        ensures same { OnErr result (self.new.follows ≡ self.old.follows) }
    {
        match near_rows(
            self.alloc,
            &self.graph,
            object,
            self.follows.query(place),
            self.limits.max_rows(),
        ) {
            Ok(near) => self.keep_near(place, object, near),
            Err(EvalFault::Wide) => Ok(Reply::Wide),
            Err(EvalFault::Memory) => Err(AllocError),
        }
    }

    // Keeps the rows, if there is room, and tells them.
    fn keep_near(
        &mut self,
        place: usize,
        object: ObjNo,
        near: NearRows,
    ) -> Result<Reply, AllocError>
        requires absent { ¬ IsKept self.old.follows place object.0 }
        requires right { IsSomeAnd (slice_get self.old.follows place) (λ f. IsEntryRight self.old.machine.graph self.old.limit f.query (entry object.0 near.objects.items (pairs near.rows.value))) }
        ensures told { IfOk result (λ reply. line_reply reply ≡ Rows (pairs near.rows.value)) }
        ensures alike { IsAlike self.old self.new }
        ensures table { self.new.table ≡ self.old.table }
        ensures pins { self.new.pins ≡ self.old.pins }
        ensures follows { GainsAt place object.0 self.old.follows self.new.follows ⊎ (self.new.follows ≡ self.old.follows) }
        ensures kept { OnOk result (KeepsOrLacks place object.0 self.old self.new) }
        ensures same { OnErr result (self.new.follows ≡ self.old.follows) }
    {
        let own = near.rows.clone()?;
        let _unkept = self
            .follows
            .keep(place, object, near.objects, Answer::Pairs(own))?;
        Ok(Reply::Rows(Answer::Pairs(near.rows)))
    }
}

// Whether the query names both ends of its path.
fn names_both(query: &Query) -> bool
    ensures { result ≡ plain_names_both (query_term query.now) }
{
    query.first && query.last
}
