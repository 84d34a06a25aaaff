//! The reply to a line that wants the first arrivals, the last departures or the counts of a query text.
ghost use Rattle.std.specs.Prelude.{◌≡◌, ◌||◌, ◌≤◌, Some, IfOk, IsTrue, MatchResult};
ghost use Rattle.path_ast.specs.Terms.{query_term, path_term};
ghost use Rattle.path_ast.specs.Sizes.{path_size, IsPathInRange};
ghost use Rattle.path_ast.specs.declared.counts.TheConstants.{MAX_TERMS};
ghost use Rattle.relation_rows.specs.Answered.{answered, pairs, row_number};
ghost use Rattle.itpg_session.specs.Replies.{Reply as PlainReply, Wide, Rows, Counted, line_reply};
ghost use Rattle.itpg_session.specs.Wanting.{Outcome, has_ends as plain_ends, reply_with, IsReplyWanted, IsReplyWantedOf, SuitsWanted, TellsFound};
ghost use Rattle.itpg_session.specs.Steps.{IsAlike};
ghost use Rattle.itpg_session.specs.Keeping.{AddsOrRenews, AddsText, KeepsPath, KeepsText};

use crate::asking::Asked;
use crate::reply::Reply;
use crate::session::Session;
use arrivals::{Counts, count, first, last};
use edit_reader::Wanted;
use itpg_base::TextCode;
use match_parser::{QueryFault, law_of_queries, read_query};
use path_ast::Query;
use relation_rows::{Answer, RelFault, Relation};
use std::alloc::{AllocError, Global};
use std::rc::Rc;

impl Session {
    /// The reply to a query text of which this is wanted.
    pub(crate) fn reply_wanted(&mut self, wanted: Wanted, text: &[u8]) -> Result<Reply, AllocError>
        ensures reply { IfOk result (λ reply. IsReplyWanted self.old.machine.graph self.old.limit wanted text.now (line_reply reply)) }
        ensures only { IfOk result (λ reply. (other : PlainReply) → IsReplyWanted self.old.machine.graph self.old.limit wanted text.now other → line_reply reply ≡ other) }
        ensures alike { IsAlike self.old self.new }
        ensures adds { AddsText text.now self.old.machine.watches self.old.table self.new.table }
        ensures keeps { IfOk result (λ reply. (all : Outcome) → line_reply reply ≡ reply_with (Some all) → KeepsText self.new.machine.graph text.now self.new.table) }
        ensures pins { self.new.pins ≡ self.old.pins }
        ensures follows { self.new.follows ≡ self.old.follows }
    {
        law_of_queries();
        match &read_query(self.alloc, text) {
            Ok(query) => self.reply_wanted_of(wanted, query),
            Err(QueryFault::Bad(code)) => Ok(Reply::Bad(*code)),
            Err(QueryFault::Memory) => Err(AllocError),
        }
    }

    // The reply to a query of which this is wanted.
    fn reply_wanted_of(&mut self, wanted: Wanted, query: &Query) -> Result<Reply, AllocError>
        requires in_range { IsPathInRange (path_term query.now.path) }
        requires terms { path_size (path_term query.now.path) ≤ MAX_TERMS }
        requires ends { IsTrue (query.now.first || query.now.last) }
        ensures reply { IfOk result (λ reply. IsReplyWantedOf self.old.machine.graph self.old.limit wanted (query_term query.now) (line_reply reply)) }
        ensures alike { IsAlike self.old self.new }
        ensures adds { AddsOrRenews (path_term query.now.path) self.old.machine.watches self.old.table self.new.table }
        ensures keeps { IfOk result (λ reply. (all : Outcome) → line_reply reply ≡ reply_with (Some all) → KeepsPath self.new.machine.graph (path_term query.now.path) self.new.table) }
        ensures pins { self.new.pins ≡ self.old.pins }
        ensures follows { self.new.follows ≡ self.old.follows }
    {
        if !has_ends(wanted, query) {
            return Ok(Reply::Bad(TextCode::Names));
        }
        match self.reply_to_query(query)? {
            Asked::Rows(answer) => told(self.alloc, wanted, &answer, self.limits.max_rows()),
            Asked::Wide => Ok(Reply::Wide),
            Asked::Bad(code) => Ok(Reply::Bad(code)),
            Asked::Refused(rule) => Ok(Reply::Refused(rule)),
        }
    }
}

// Whether the query names the ends that are wanted.
fn has_ends(wanted: Wanted, query: &Query) -> bool
    ensures { result ≡ plain_ends wanted (query_term query.now) }
{
    let both = query.first && query.last;
    match wanted {
        Wanted::First | Wanted::Last => both,
        Wanted::Count => !both,
    }
}

// The reply that tells what comes of an answer, or that this is too wide.
fn told(alloc: Global, wanted: Wanted, answer: &Answer, max_rows: u32) -> Result<Reply, AllocError>
    requires suits { SuitsWanted wanted (answered answer.now) }
    requires few { row_number (answered answer.now) ≤ max_rows }
    ensures { IfOk result (λ reply. TellsFound wanted (answered answer.now) max_rows (line_reply reply)) }
{
    match (wanted, answer) {
        (Wanted::First, Answer::Pairs(relation)) => {
            told_rows(alloc, first(alloc, relation, max_rows))
        }
        (Wanted::Last, Answer::Pairs(relation)) => {
            told_rows(alloc, last(alloc, relation, max_rows))
        }
        (Wanted::Count, Answer::Times(times)) => told_counts(count(alloc, times, max_rows)),
        _ => unreachable!(),
    }
}

// The reply that tells rows, or that they are too many.
fn told_rows(alloc: Global, given: Result<Relation, RelFault>) -> Result<Reply, AllocError>
    ensures { IfOk result (λ reply. MatchResult given (λ rows. line_reply reply ≡ Rows (pairs rows)) (λ fault. (fault ≡ RelFault.Wide) × (line_reply reply ≡ Wide))) }
{
    match given {
        Ok(rows) => Ok(Reply::Rows(Answer::Pairs(Rc::new(alloc, rows)?))),
        Err(RelFault::Wide) => Ok(Reply::Wide),
        Err(RelFault::Memory) => Err(AllocError),
    }
}

// The reply that tells counts, or that they are too many.
fn told_counts(given: Result<Counts, RelFault>) -> Result<Reply, AllocError>
    ensures { IfOk result (λ reply. MatchResult given (λ counts. line_reply reply ≡ Counted counts) (λ fault. (fault ≡ RelFault.Wide) × (line_reply reply ≡ Wide))) }
{
    match given {
        Ok(counts) => Ok(Reply::Counted(counts)),
        Err(RelFault::Wide) => Ok(Reply::Wide),
        Err(RelFault::Memory) => Err(AllocError),
    }
}
