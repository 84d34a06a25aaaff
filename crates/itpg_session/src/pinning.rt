//! Pins: the graph as it stands is pinned under a name, asked, and given up.
ghost use Rattle.std.specs.Prelude.{◌≡◌, ◌<◌, ◌||◌, ◌≤◌, length, slice_get, IfOk, OnOk, IsTrue, IsSomeAnd};
ghost use Rattle.edit_reader.specs.Readings.{Opens, Closes, AsksIn};
ghost use Rattle.itpg_edit.specs.Rules.{NoneOf};
ghost use Rattle.path_ast.specs.Terms.{query_term, path_term};
ghost use Rattle.path_ast.specs.Sizes.{path_size, IsPathInRange};
ghost use Rattle.path_ast.specs.declared.counts.TheConstants.{MAX_TERMS};
ghost use Rattle.relation_rows.specs.Answered.{Answered};
ghost use Rattle.itpg_session.specs.Rules.{OpenBreaks, open_rules};
ghost use Rattle.itpg_session.specs.Replies.{Rows, line_reply, reply_of, IsReplyTo};
ghost use Rattle.itpg_session.specs.Machine.{OpensName, ClosesName, AsksPinText, AsksPinQuery};
ghost use Rattle.itpg_session.specs.Pinning.{AddsAt, AddsPinPath, KeepsAt};
ghost use Rattle.itpg_session.specs.Steps.{IsAlike, IsDecided, Decides, LeavesPins, KeepsAsked, KeepsAskedPin};

use crate::asking::{Asked, reply_alone};
use crate::reply::Reply;
use crate::rules::{broken_by_tick, place_of_pin};
use crate::session::Session;
use itpg_base::{Name, RuleCode};
use itpg_pins::{NoPin, PinFault};
use match_parser::{QueryFault, law_of_queries, read_query};
use path_ast::Query;
use plan_cache::Plans;
use std::alloc::AllocError;

impl Session {
    /// Pins the graph as it stands under the name, unless a rule forbids it.
    pub(crate) fn open(&mut self, name: Name) -> Result<Reply, AllocError>
        ensures decides { Decides (OpensName self.old.machine name) (NoneOf (OpenBreaks self.old.machine.graph self.old.machine.pins name) open_rules) self.old self.new result }
        ensures table { self.new.table ≡ self.old.table }
        ensures pins { LeavesPins (Opens name) self.old self.new }
        ensures follows { self.new.follows ≡ self.old.follows }
    {
        if let Some(rule) = broken_by_tick(&self.graph) {
            return Ok(Reply::Refused(rule));
        }
        match self.pins.add(name, &self.graph, &self.plans) {
            Ok(()) => Ok(Reply::Silent),
            Err(PinFault::Taken) => Ok(Reply::Refused(RuleCode::Taken)),
            Err(PinFault::Full) => Ok(Reply::Refused(RuleCode::Full)),
            Err(PinFault::Memory) => Err(AllocError),
        }
    }

    /// Gives up the pin of this name.
    pub(crate) fn close(&mut self, name: &Name) -> Reply
        ensures decides { IsDecided (ClosesName self.old.machine name.now) self.old self.new (line_reply result) }
        ensures table { self.new.table ≡ self.old.table }
        ensures pins { LeavesPins (Closes name.now) self.old self.new }
        ensures follows { self.new.follows ≡ self.old.follows }
    {
        if let Some(rule) = broken_by_tick(&self.graph) {
            return Reply::Refused(rule);
        }
        match self.pins.remove(name) {
            Ok(()) => Reply::Silent,
            Err(NoPin) => Reply::Refused(RuleCode::Unknown),
        }
    }

    /// The reply to a query text that is asked of the pin of this name.
    pub(crate) fn ask_in(&mut self, name: &Name, text: &[u8]) -> Result<Reply, AllocError>
        ensures decides { Decides (AsksPinText self.old.limit self.old.machine name.now text.now) (Unit {0}) self.old self.new result }
        ensures table { self.new.table ≡ self.old.table }
        ensures pins { LeavesPins (AsksIn name.now text.now) self.old self.new }
        ensures follows { self.new.follows ≡ self.old.follows }
        ensures asked { OnOk result (KeepsAsked (AsksIn name.now text.now) self.old self.new) }
    {
        law_of_queries();
        match &read_query(self.alloc, text) {
            Ok(query) => self.ask_query_in(name, query),
            Err(QueryFault::Bad(code)) => Ok(Reply::Bad(*code)),
            Err(QueryFault::Memory) => Err(AllocError),
        }
    }

    // The reply to a query that is asked of it.
    fn ask_query_in(&mut self, name: &Name, query: &Query) -> Result<Reply, AllocError>
        requires in_range { IsPathInRange (path_term query.now.path) }
        requires terms { path_size (path_term query.now.path) ≤ MAX_TERMS }
        requires ends { IsTrue (query.now.first || query.now.last) }
        ensures decides { Decides (AsksPinQuery self.old.limit self.old.machine name.now (query_term query.now)) (Unit {0}) self.old self.new result }
        ensures table { self.new.table ≡ self.old.table }
        ensures pins { AddsPinPath name.now (path_term query.now.path) self.old.pins self.new.pins }
        ensures follows { self.new.follows ≡ self.old.follows }
        ensures asked { OnOk result (KeepsAskedPin name.now (query_term query.now) self.old self.new) }
    {
        let place = match place_of_pin(&self.graph, &self.pins, name) {
            Ok(place) => place,
            Err(rule) => return Ok(Reply::Refused(rule)),
        };
        let asked = self.ask_at(place, query)?;
        Ok(asked.of_pin(place))
    }

    // The reply to a query on the graph of the pin at a place. The pin's table is lent to the question.
    fn ask_at(&mut self, place: usize, query: &Query) -> Result<Asked, AllocError>
        requires there { place < length self.old.pins }
        requires in_range { IsPathInRange (path_term query.now.path) }
        requires terms { path_size (path_term query.now.path) ≤ MAX_TERMS }
        requires ends { IsTrue (query.now.first || query.now.last) }
        ensures reply { IfOk result (λ asked. IsSomeAnd (slice_get self.old.machine.pins place) (λ p. IsReplyTo p.graph self.old.limit (query_term query.now) (reply_of asked))) }
        ensures alike { IsAlike self.old self.new }
        ensures table { self.new.table ≡ self.old.table }
        ensures pins { AddsAt (path_term query.now.path) place self.old.pins self.new.pins }
        ensures follows { self.new.follows ≡ self.old.follows }
        ensures keeps { IfOk result (λ asked. (answer : Answered) → reply_of asked ≡ Rows answer → KeepsAt place (path_term query.now.path) self.new.pins) }
    {
        let mut plans = self.pins.swap_plans(place, Plans::new(self.alloc));
        let asked = reply_alone(
            self.alloc,
            self.pins.graph(place),
            &mut plans,
            self.limits.max_rows(),
            query,
        );
        let _lent = self.pins.swap_plans(place, plans);
        asked
    }
}
