//! Deciding the reply to a line. What a line changes and is accepted is made here; nothing is written.
ghost use Rattle.std.specs.Prelude.{◌≡◌, ◌<◌, ◌≤◌, ◌⊎◌, ◌||◌, length, slice_get, option_map, Some, Ok, IfOk, OnOk, OnErr, IsSome, IsSomeAnd, IsTrue};
ghost use Rattle.itpg_edit.specs.declared.edit.Edit.{Edit as PlainEdit};
ghost use Rattle.itpg_edit.specs.Rules.{NoneOf, Unbroken};
ghost use Rattle.itpg_edit.specs.Sites.{HasMoments};
ghost use Rattle.edit_reader.specs.Readings.{reading_of, told as read_as, Changes, Shows};
ghost use Rattle.edit_reader.specs.Moments.{AsksOfMoments};
ghost use Rattle.path_ast.specs.Terms.{query_term, path_term};
ghost use Rattle.path_ast.specs.Sizes.{path_size, IsPathInRange};
ghost use Rattle.path_ast.specs.declared.counts.TheConstants.{MAX_TERMS};
ghost use Rattle.label_scope.specs.declared.scope.Scope.TheVariants.{All};
ghost use Rattle.plan_cache.specs.Nodes.{IsNodeOf, narrowed_member};
ghost use Rattle.relation_rows.specs.Answered.{answered};
ghost use Rattle.itpg_session.specs.Rules.{WatchBreaks, NameBreaks, TickBreaks, watch_rules, name_rules, tick_rules};
ghost use Rattle.itpg_session.specs.Replies.{line_reply, FindsFor};
ghost use Rattle.itpg_session.specs.Machine.{Answers, TurnOf, WatchesText, WatchesQuery, ShowsName, DropsName, TicksOrNot};
ghost use Rattle.itpg_session.specs.Keeping.{AddsOrRenews, AddsText, IsWorkedFor, IsStale, KeepsFound};
ghost use Rattle.itpg_session.specs.Steps.{ForgetsEdit, KeepsReply, KeepsAsked, KeepsAskedSo, LeavesTable, LeavesSo, LeavesPins, LeavesPinsSo, LeavesUnmade};
ghost use Rattle.itpg_session.specs.Following.{DecidesFollows, DecidesFollowsSo};
ghost use Rattle.itpg_session.specs.Steps.{IsAtHand, WantsMemory, WhatWants, Decides, IsAlike, IsDecided, Suits};

use crate::finding::find;
use crate::laws::law_of_graphs;
use crate::reply::Reply;
use crate::rules::{broken_by_tick, broken_by_watch, place_of};
use crate::session::Session;
use crate::ticking::tick_all;
use edit_reader::{Line, Wanted};
use itpg_base::{Name, RuleCode, TextCode};
use itpg_edit::{Edit, EditFault, apply, make_edit};
use match_parser::{QueryFault, read_query};
use path_ast::Query;
use path_eval::EvalFault;
use plan_cache::PlanNo;
use relation_rows::Answer;
use standing_queries::Unknown;
use std::alloc::AllocError;

impl Session {
    /// Decides the reply to what a line is. What the line changes and is accepted is made here, and then nothing is said.
    pub(crate) fn decide(&mut self, what: &Result<Line<'_>, TextCode>) -> Result<Reply, AllocError>
        requires moments { IfOk what.now (λ line. AsksOfMoments (reading_of line)) }
        requires finds { IfOk what.now (λ line. ¬ IsAtHand self.old (reading_of line)) }
        ensures decides { Decides (TurnOf self.old.limit self.old.machine (read_as what.now)) (WhatWants self.old.machine (read_as what.now)) self.old self.new result }
        ensures suits { IfOk result (λ reply. Suits self.new (line_reply reply)) }
        ensures keeps { IfOk result (λ reply. KeepsReply (line_reply reply) self.new) }
        ensures asked { OnOk result (KeepsAskedSo (read_as what.now) self.old self.new) }
        ensures forgets { OnOk result ((edit : PlainEdit) → read_as what.now ≡ Ok (Changes edit) → Unbroken self.old.machine.graph edit → ForgetsEdit edit self.old self.new) }
        ensures table { LeavesSo (read_as what.now) self.old self.new }
        ensures pins { LeavesPinsSo (read_as what.now) self.old self.new }
        ensures follows { DecidesFollowsSo (read_as what.now) self.old self.new result }
        ensures unmade { OnErr result (LeavesUnmade (read_as what.now) self.old self.new) }
    {
        match what {
            Ok(reading) => self.decide_read(reading),
            Err(code) => Ok(Reply::Bad(*code)),
        }
    }

    // The same of a line that was read.
    fn decide_read(&mut self, line: &Line<'_>) -> Result<Reply, AllocError>
        requires moments { AsksOfMoments (reading_of line.now) }
        requires finds { ¬ IsAtHand self.old (reading_of line.now) }
        ensures decides { Decides (Answers self.old.limit self.old.machine (reading_of line.now)) (WantsMemory self.old.machine (reading_of line.now)) self.old self.new result }
        ensures keeps { IfOk result (λ reply. KeepsReply (line_reply reply) self.new) }
        ensures asked { OnOk result (KeepsAsked (reading_of line.now) self.old self.new) }
        ensures forgets { OnOk result ((edit : PlainEdit) → reading_of line.now ≡ Changes edit → Unbroken self.old.machine.graph edit → ForgetsEdit edit self.old self.new) }
        ensures table { LeavesTable (reading_of line.now) self.old self.new }
        ensures pins { LeavesPins (reading_of line.now) self.old self.new }
        ensures follows { DecidesFollows (reading_of line.now) self.old self.new result }
        ensures unmade { OnErr result (LeavesUnmade (Ok (reading_of line.now)) self.old self.new) }
    {
        match line {
            Line::Blank => Ok(Reply::Silent),
            Line::Edit(edit) => Ok(Reply::of_edit(self.edit(edit)?)),
            Line::Ask(text) => Ok(Reply::from(self.ask(text)?)),
            Line::First(text) => self.reply_wanted(Wanted::First, text),
            Line::Last(text) => self.reply_wanted(Wanted::Last, text),
            Line::Count(text) => self.reply_wanted(Wanted::Count, text),
            Line::Watch(name, text) => self.watch(*name, text),
            Line::Show(name) => self.show(name),
            Line::Unwatch(name) => Ok(self.unwatch(name)),
            Line::Tick => self.tick(),
            Line::OpenPin(name) => self.open(*name),
            Line::ClosePin(name) => Ok(self.close(name)),
            Line::InPin(name, text) => self.ask_in(name, text),
            Line::Follow(name, text) => self.follow(*name, text),
            Line::Near(name, id) => self.near(name, id),
            Line::Unfollow(name) => Ok(self.unfollow(name)),
        }
    }

    // Watches the query of a text from now on.
    fn watch(&mut self, name: Name, text: &[u8]) -> Result<Reply, AllocError>
        ensures decides { Decides (WatchesText self.old.machine name text.now) (Unit {0}) self.old self.new result }
        ensures adds { AddsText text.now self.old.machine.watches self.old.table self.new.table }
        ensures pins { self.new.pins ≡ self.old.pins }
        ensures follows { self.new.follows ≡ self.old.follows }
    {
        match read_query(self.alloc, text) {
            Ok(query) => self.watch_query(name, query),
            Err(QueryFault::Bad(code)) => Ok(Reply::Bad(code)),
            Err(QueryFault::Memory) => Err(AllocError),
        }
    }

    // Watches a query, unless a rule forbids it.
    fn watch_query(&mut self, name: Name, query: Query) -> Result<Reply, AllocError>
        requires in_range { IsPathInRange (path_term query.path) }
        requires terms { path_size (path_term query.path) ≤ MAX_TERMS }
        requires ends { IsTrue (query.first || query.last) }
        ensures decides { Decides (WatchesQuery self.old.machine name (query_term query)) (Unit {0}) self.old self.new result }
        ensures adds { AddsOrRenews (path_term query.path) self.old.machine.watches self.old.table self.new.table }
        ensures pins { self.new.pins ≡ self.old.pins }
        ensures follows { self.new.follows ≡ self.old.follows }
    {
        match broken_by_watch(&self.graph, &self.watches, &name, &query) {
            Some(rule) => Ok(Reply::Refused(rule)),
            None => self.add_watch(name, query),
        }
    }

    // Watches a query that may be watched.
    fn add_watch(&mut self, name: Name, query: Query) -> Result<Reply, AllocError>
        requires in_range { IsPathInRange (path_term query.path) }
        requires terms { path_size (path_term query.path) ≤ MAX_TERMS }
        requires ends { IsTrue (query.first || query.last) }
        requires unbroken { NoneOf (WatchBreaks self.old.machine.graph self.old.machine.watches name (query_term query)) watch_rules }
        ensures decides { Decides (WatchesQuery self.old.machine name (query_term query)) (Unit {0}) self.old self.new result }
        ensures adds { AddsOrRenews (path_term query.path) self.old.machine.watches self.old.table self.new.table }
        ensures pins { self.new.pins ≡ self.old.pins }
        ensures follows { self.new.follows ≡ self.old.follows }
    {
        let no = self.planned(&query)?;
        self.add_planned(name, query, no)
    }

    // The same where its node is known.
    fn add_planned(&mut self, name: Name, query: Query, no: PlanNo) -> Result<Reply, AllocError>
        requires in_range { IsPathInRange (path_term query.path) }
        requires terms { path_size (path_term query.path) ≤ MAX_TERMS }
        requires ends { IsTrue (query.first || query.last) }
        requires unbroken { NoneOf (WatchBreaks self.old.machine.graph self.old.machine.watches name (query_term query)) watch_rules }
        requires planned { IsNodeOf self.old.table.nodes no.0 (narrowed_member (path_term query.path) All All) }
        ensures decides { Decides (WatchesQuery self.old.machine name (query_term query)) (Unit {0}) self.old self.new result }
        ensures table { self.new.table ≡ self.old.table }
        ensures pins { self.new.pins ≡ self.old.pins }
        ensures follows { self.new.follows ≡ self.old.follows }
    {
        let foot = self.plans.foot_of(no).copy(self.alloc)?;
        match self.watches.add(name, query, no, foot) {
            Ok(()) => Ok(Reply::Silent),
            // No rule is broken, so that only memory can be wanting.
            Err(_) => Err(AllocError),
        }
    }

    // Shows what is found for the query of the watch of this name, of which no answer is kept.
    fn show(&mut self, name: &Name) -> Result<Reply, AllocError>
        requires { ¬ IsAtHand self.old (Shows name.now) }
        ensures decides { Decides (ShowsName self.old.limit self.old.machine name.now) (WantsMemory self.old.machine (Shows name.now)) self.old self.new result }
        ensures keeps { IfOk result (λ reply. KeepsReply (line_reply reply) self.new) }
        ensures table { IsWorkedFor (λ w. IsStale self.old.machine.watches w × (w.name ≡ name.now)) self.old.table self.new.table }
        ensures pins { self.new.pins ≡ self.old.pins }
        ensures follows { self.new.follows ≡ self.old.follows }
    {
        match place_of(&self.graph, &self.watches, name) {
            Ok(place) => Ok(Reply::Shown(place, self.find_at(place)?)),
            Err(rule) => Ok(Reply::Refused(rule)),
        }
    }

    // The answer of the watch at a place; none if its query is too wide.
    fn find_at(&mut self, place: usize) -> Result<Option<Answer>, AllocError>
        requires begun { IsSome self.old.machine.graph.begun }
        requires there { place < length self.old.machine.watches }
        ensures found { IfOk result (λ found. IsSomeAnd (slice_get self.old.machine.watches place) (λ w. FindsFor self.old.machine.graph self.old.limit w.query (option_map answered found))) }
        ensures alike { IsAlike self.old self.new }
        ensures worked { IsWorkedFor (λ w. slice_get self.old.machine.watches place ≡ Some w) self.old.table self.new.table }
        ensures keeps { IfOk result (λ found. IsSomeAnd (slice_get self.old.machine.watches place) (λ w. KeepsFound self.old.machine.graph self.new.table w (option_map answered found))) }
        ensures pins { self.new.pins ≡ self.old.pins }
        ensures follows { self.new.follows ≡ self.old.follows }
    {
        match find(
            self.alloc,
            &self.graph,
            &mut self.plans,
            self.watches.plan(place),
            self.limits.max_rows(),
            self.watches.query(place),
        ) {
            Ok(answer) => Ok(Some(answer)),
            Err(EvalFault::Wide) => Ok(None),
            Err(EvalFault::Memory) => Err(AllocError),
        }
    }

    // Watches the query of this name no longer.
    fn unwatch(&mut self, name: &Name) -> Reply
        ensures decides { IsDecided (DropsName self.old.machine name.now) self.old self.new (line_reply result) }
        ensures table { self.new.table ≡ self.old.table }
        ensures pins { self.new.pins ≡ self.old.pins }
        ensures follows { self.new.follows ≡ self.old.follows }
    {
        if let Some(rule) = broken_by_tick(&self.graph) {
            return Reply::Refused(rule);
        }
        match self.watches.remove(name) {
            Ok(()) => Reply::Silent,
            Err(Unknown) => Reply::Refused(RuleCode::Unknown),
        }
    }

    // Finds of each watch what was gained and lost since the tick before, or refuses to.
    fn tick(&mut self) -> Result<Reply, AllocError>
        ensures decides { Decides (TicksOrNot self.old.limit self.old.machine) (NoneOf (TickBreaks self.old.machine.graph) tick_rules) self.old self.new result }
        ensures keeps { IfOk result (λ reply. KeepsReply (line_reply reply) self.new) }
        ensures table { IsWorkedFor (IsStale self.old.machine.watches) self.old.table self.new.table }
        ensures pins { self.new.pins ≡ self.old.pins }
        ensures follows { self.new.follows ≡ self.old.follows }
    {
        if let Some(rule) = broken_by_tick(&self.graph) {
            return Ok(Reply::Refused(rule));
        }
        let found = tick_all(
            self.alloc,
            &self.graph,
            &mut self.plans,
            self.limits.max_rows(),
            &self.watches,
        )?;
        Ok(Reply::PerWatch(found))
    }
}
