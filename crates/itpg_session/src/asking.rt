//! The reply to a question, as a value.
ghost use Rattle.std.specs.Prelude.{◌≡◌, ◌||◌, ◌≤◌, [], IfOk, IsSome, IsTrue, MatchResult};
ghost use Rattle.path_ast.specs.Terms.{query_term, path_term};
ghost use Rattle.path_ast.specs.Sizes.{path_size, IsPathInRange};
ghost use Rattle.path_ast.specs.declared.counts.TheConstants.{MAX_TERMS};
ghost use Rattle.itpg_session.specs.Replies.{Rows, Wide, reply_of, of_pin, line_reply, IsFound, IsReply, IsReplyTo};
ghost use Rattle.itpg_session.specs.Wanting.{HasFewRows};
ghost use Rattle.itpg_session.specs.Steps.{IsAlike};
ghost use Rattle.plan_cache.specs.RightRows.{IsTableRight};
ghost use Rattle.itpg_session.specs.Keeping.{AddsOrRenews, AddsText, KeepsPath, KeepsText};
ghost use Rattle.relation_rows.specs.Answered.{Answered, answered};

use crate::finding::find;
use crate::planning::planned_alone;
use crate::reply::Reply;
use crate::rules::broken_by_ask;
use crate::session::Session;
use itpg_base::{RuleCode, TextCode};
use itpg_graph::Graph;
use match_parser::{QueryFault, law_of_queries, read_query};
use path_ast::Query;
use path_eval::EvalFault;
use plan_cache::Plans;
use relation_rows::Answer;
use std::alloc::{AllocError, Global};

/// The reply to a question, as a value.
#[derive(Drop)]
pub enum Asked {
    /// The rows of the answer.
    Rows(Answer),
    /// Some relation that is worked out on the way has more rows than the limit.
    Wide,
    /// The first fault of the query text.
    Bad(TextCode),
    /// The first rule that the query breaks.
    Refused(RuleCode),
}

impl Asked {
    /// The same as the reply to a question that is asked of the pin at a place.
    pub(crate) fn of_pin(self, place: usize) -> Reply
        ensures { line_reply result ≡ of_pin place (reply_of self) }
    {
        match self {
            Asked::Rows(answer) => Reply::OfPin(place, answer),
            other => Reply::from(other),
        }
    }
}

impl Session {
    /// The reply to a query text.
    pub(crate) fn reply_to(&mut self, text: &[u8]) -> Result<Asked, AllocError>
        ensures reply { IfOk result (λ asked. IsReply self.old.machine.graph self.old.limit text.now (reply_of asked)) }
        ensures alike { IsAlike self.old self.new }
        ensures adds { AddsText text.now self.old.machine.watches self.old.table self.new.table }
        ensures keeps { IfOk result (λ asked. (answer : Answered) → reply_of asked ≡ Rows answer → KeepsText self.new.machine.graph text.now self.new.table) }
        ensures pins { self.new.pins ≡ self.old.pins }
        ensures follows { self.new.follows ≡ self.old.follows }
    {
        law_of_queries();
        match &read_query(self.alloc, text) {
            Ok(query) => self.reply_to_query(query),
            Err(QueryFault::Bad(code)) => Ok(Asked::Bad(*code)),
            Err(QueryFault::Memory) => Err(AllocError),
        }
    }

    /// The reply to a query.
    pub(crate) fn reply_to_query(&mut self, query: &Query) -> Result<Asked, AllocError>
        requires in_range { IsPathInRange (path_term query.now.path) }
        requires terms { path_size (path_term query.now.path) ≤ MAX_TERMS }
        requires ends { IsTrue (query.now.first || query.now.last) }
        ensures reply { IfOk result (λ asked. IsReplyTo self.old.machine.graph self.old.limit (query_term query.now) (reply_of asked)) }
        ensures few { IfOk result (λ asked. HasFewRows self.old.limit (reply_of asked)) }
        ensures alike { IsAlike self.old self.new }
        ensures adds { AddsOrRenews (path_term query.now.path) self.old.machine.watches self.old.table self.new.table }
        ensures keeps { IfOk result (λ asked. (answer : Answered) → reply_of asked ≡ Rows answer → KeepsPath self.new.machine.graph (path_term query.now.path) self.new.table) }
        ensures pins { self.new.pins ≡ self.old.pins }
        ensures follows { self.new.follows ≡ self.old.follows }
    {
        match broken_by_ask(&self.graph, query) {
            Some(rule) => Ok(Asked::Refused(rule)),
            None => self.found(query),
        }
    }

    // What is found for a query that may be asked.
    fn found(&mut self, query: &Query) -> Result<Asked, AllocError>
        requires begun { IsSome self.old.machine.graph.begun }
        requires in_range { IsPathInRange (path_term query.now.path) }
        requires terms { path_size (path_term query.now.path) ≤ MAX_TERMS }
        requires ends { IsTrue (query.now.first || query.now.last) }
        ensures found { IfOk result (λ asked. IsFound self.old.machine.graph self.old.limit (query_term query.now) (reply_of asked)) }
        ensures few { IfOk result (λ asked. HasFewRows self.old.limit (reply_of asked)) }
        ensures alike { IsAlike self.old self.new }
        ensures adds { AddsOrRenews (path_term query.now.path) self.old.machine.watches self.old.table self.new.table }
        ensures keeps { IfOk result (λ asked. (answer : Answered) → reply_of asked ≡ Rows answer → KeepsPath self.new.machine.graph (path_term query.now.path) self.new.table) }
        ensures pins { self.new.pins ≡ self.old.pins }
        ensures follows { self.new.follows ≡ self.old.follows }
    {
        let no = self.planned(query)?;
        asked_of(find(
            self.alloc,
            &self.graph,
            &mut self.plans,
            no,
            self.limits.max_rows(),
            query,
        ))
    }
}

/// The reply to a query on a graph, with a limit of rows, by a table of plans beside which nothing is watched.
pub(crate) fn reply_alone(
    alloc: Global,
    graph: &Graph,
    plans: &mut Plans,
    max_rows: u32,
    query: &Query,
) -> Result<Asked, AllocError>
    requires right { IsTableRight graph.now max_rows plans.old }
    requires in_range { IsPathInRange (path_term query.now.path) }
    requires terms { path_size (path_term query.now.path) ≤ MAX_TERMS }
    requires ends { IsTrue (query.now.first || query.now.last) }
    ensures reply { IfOk result (λ asked. IsReplyTo graph.now max_rows (query_term query.now) (reply_of asked)) }
    ensures still_right { IsTableRight graph.now max_rows plans.new }
    ensures adds { AddsOrRenews (path_term query.now.path) [] plans.old plans.new }
    ensures keeps { IfOk result (λ asked. (answer : Answered) → reply_of asked ≡ Rows answer → KeepsPath graph.now (path_term query.now.path) plans.new) }
{
    match broken_by_ask(graph, query) {
        Some(rule) => Ok(Asked::Refused(rule)),
        None => found_alone(alloc, graph, plans, max_rows, query),
    }
}

// What is found for a query that may be asked there.
fn found_alone(
    alloc: Global,
    graph: &Graph,
    plans: &mut Plans,
    max_rows: u32,
    query: &Query,
) -> Result<Asked, AllocError>
    requires begun { IsSome graph.now.begun }
    requires right { IsTableRight graph.now max_rows plans.old }
    requires in_range { IsPathInRange (path_term query.now.path) }
    requires terms { path_size (path_term query.now.path) ≤ MAX_TERMS }
    requires ends { IsTrue (query.now.first || query.now.last) }
    ensures found { IfOk result (λ asked. IsFound graph.now max_rows (query_term query.now) (reply_of asked)) }
    ensures still_right { IsTableRight graph.now max_rows plans.new }
    ensures adds { AddsOrRenews (path_term query.now.path) [] plans.old plans.new }
    ensures keeps { IfOk result (λ asked. (answer : Answered) → reply_of asked ≡ Rows answer → KeepsPath graph.now (path_term query.now.path) plans.new) }
{
    let no = planned_alone(alloc, plans, query)?;
    asked_of(find(alloc, graph, plans, no, max_rows, query))
}

// The reply that tells what was found.
fn asked_of(found: Result<Answer, EvalFault>) -> Result<Asked, AllocError>
    ensures { IfOk result (λ asked. MatchResult found (λ answer. reply_of asked ≡ Rows (answered answer)) (λ fault. (fault ≡ EvalFault.Wide) × (reply_of asked ≡ Wide))) }
{
    match found {
        Ok(answer) => Ok(Asked::Rows(answer)),
        Err(EvalFault::Wide) => Ok(Asked::Wide),
        Err(EvalFault::Memory) => Err(AllocError),
    }
}
