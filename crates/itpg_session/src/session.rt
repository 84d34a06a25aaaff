//! The session, and what a step of it does with a line.
//!
//! `Session` has the graph, the watches, the pins, the follows and the limit of rows. A line is read in one of two forms, and what it
//! is then goes one way.
ghost use Rattle.std.specs.Prelude.{◌≡◌, ◌≤◌, [], length, IfOk, OnOk, OnErr, IsErrOf, IsFalse};
ghost use Rattle.std.specs.List.{list_all};
ghost use Rattle.itpg_base.specs.Sinks.{GetsNothing, HasFailed};
ghost use Rattle.script_lex.specs.Bytes.{is_blank};
ghost use Rattle.edit_reader.specs.declared.reading.TheConstants.{MAX_LINE};
ghost use Rattle.edit_reader.specs.Faults.{without_end};
ghost use Rattle.edit_reader.specs.Lines.{LineOf};
ghost use Rattle.relation_rows.specs.Answered.{Answered};
ghost use Rattle.row_printer.specs.declared.form.Form.TheVariants.{Plain, Json};
ghost use Rattle.itpg_session.specs.PlainWatches.{all_plain};
ghost use Rattle.itpg_session.specs.PlainPins.{plain_pins};
ghost use Rattle.itpg_session.specs.PlainFollows.{plain_follows};
ghost use Rattle.itpg_session.specs.Replies.{Reply as PlainReply, Rows, reply_of, IsReply, NamesDeclared};
ghost use Rattle.itpg_session.specs.Lines.{JsonIs};
ghost use Rattle.itpg_session.specs.Machine.{opening, Replies};
ghost use Rattle.plan_cache.specs.RightRows.{IsTableRight};
ghost use Rattle.itpg_session.specs.Keeping.{AddsText, KeepsText, AreWatchesRight, AreFollowsRight};
ghost use Rattle.itpg_session.specs.Steps.{StandsAs, IsAlike, Stepped, StepsWithin, Passed, LineWants, IsLineAtHand};
ghost use Rattle.itpg_session.specs.Steps.{KeepsFresh, KeepsAskedLine, ForgetsLine, LeavesLine, LeavesPinsLine, LeavesUnmadeLine};
ghost use Rattle.itpg_session.specs.Following.{LeavesFollowsLine, HoldsFollowsLine, SparesLine, KeepsNearLine};

use crate::asking::Asked;
use crate::fault::StepFault;
use crate::json::{asked_by, read_object};
use crate::laws::law_of_asked;
use crate::reply::Seen;
use edit_reader::{read_edit, read_line, room};
use itpg_base::{Limits, Sink};
use itpg_edit::Edit;
use itpg_graph::Graph;
use itpg_pins::Pins;
use plan_cache::Plans;
use row_printer::Form;
use source_rows::Follows;
use standing_queries::Watches;
use std::alloc::{AllocError, Global};
use std::marker::Model;

/// A graph, the watches on it, the plan nodes of what was asked with the relations that are kept at them, the pins, the follows with the
/// rows that are kept of single objects, and the limit of rows: what the lines so far have left.
///
/// ```text
///     line 1   graph g 0 100         nothing is written
///     line 2   node a Person         nothing
///     line 3   live b 0 9            line 3 refused unknown
///     line 4   ask MATCH (x)         line 4 rows 0
///     line 5   watch w MATCH (x)     nothing
///     line 6   live a 0 9            nothing
///     line 7   tick                  tick w gained 1 lost 0
///                                    + a 0..9
/// ```
///
/// A contract sees it as a standing machine: the plain machine and its limit of rows, and beside it what is kept, which is right on the
/// graph as it stands.
#[derive(Drop)]
pub struct Session {
    pub(crate) graph: Graph,
    pub(crate) watches: Watches,
    pub(crate) plans: Plans,
    pub(crate) pins: Pins,
    pub(crate) follows: Follows,
    pub(crate) limits: Limits,
    pub(crate) alloc: Global,
}

impl Model for Session {
    ghost use Rattle.std.specs.Coded.{codes};
    ghost use Rattle.path_ast.specs.Codes.{coded_path};
    ghost use Rattle.itpg_session.specs.Machine.{Standing, stood};

    ghost Value = { Standing };

    ghost coded = { Prim.hlevel (codes, coded_path) };

    ghost use Rattle.itpg_session.specs.Keeping.{IsSessionRight};

    ghost view = { λ s. stood s.graph s.limits s.plans s.watches s.pins.pins s.follows };

    ghost invariant = { λ s. IsSessionRight s.graph s.limits s.plans s.watches s.pins s.follows };
}

impl Session {
    /// The session in which no graph is begun, and nothing is watched, pinned or followed. It takes no memory.
    pub fn new(alloc: Global, limits: Limits) -> Session
        ensures stands { StandsAs result opening limits }
        ensures table { result.table ≡ record { nodes = []; kept = [] } }
        ensures watches { result.watches ≡ [] }
        ensures pins { result.pins ≡ [] }
        ensures follows { result.follows ≡ [] }
    {
        Session {
            graph: Graph::new(alloc),
            watches: Watches::new(alloc),
            plans: Plans::new(alloc),
            pins: Pins::new(alloc, limits.max_rows()),
            follows: Follows::new(alloc),
            limits,
            alloc,
        }
    }

    /// The graph as it stands.
    pub fn graph(&self) -> &Graph
        ensures { result.now ≡ self.now.machine.graph }
    {
        &self.graph
    }

    /// The watches that stand, in order of declaration. The plan of each is the node of its query's path, and its footprint is this
    /// path's. A kept answer is the query's answer on the graph as it stands.
    pub fn watches(&self) -> &Watches
        ensures watches { result.now ≡ self.now.watches }
        ensures plain { self.now.machine.watches ≡ all_plain result.now }
        ensures right { AreWatchesRight self.now.machine.graph self.now.limit self.now.table.nodes result.now }
    {
        &self.watches
    }

    /// The plan nodes of what was asked and is watched. Each kept relation is that of its node on the graph as it stands, and each
    /// relation that is worked out for it has at most as many rows as the limit.
    pub fn plans(&self) -> &Plans
        ensures plans { result.now ≡ self.now.table }
        ensures right { IsTableRight self.now.machine.graph self.now.limit result.now }
    {
        &self.plans
    }

    /// The pins that stand, in order of declaration, each with the graph as it stood and a table of plans of its own.
    pub fn pins(&self) -> &Pins
        ensures pins { result.now.pins ≡ self.now.pins }
        ensures plain { self.now.machine.pins ≡ plain_pins result.now.pins }
        ensures limit { result.now.limit ≡ self.now.limit }
    {
        &self.pins
    }

    /// The follows that stand, in order of declaration, each with the rows that are kept of single objects. Such rows are what `near`
    /// tells of the object on the graph as it stands, and with them stand the objects that are reached from it in the steps of the
    /// follow's path.
    pub fn follows(&self) -> &Follows
        ensures follows { result.now ≡ self.now.follows }
        ensures plain { self.now.machine.follows ≡ plain_follows result.now }
        ensures right { AreFollowsRight self.now.machine.graph self.now.limit result.now }
    {
        &self.follows
    }

    /// The reply to a question with this query text, as a value. The session stays as it is, but for the plan nodes and the
    /// relations that it keeps for later questions.
    ///
    /// ```text
    ///     MATCH (x:Person)              Rows: the moments at which each of them exists
    ///     MATCH (x)-/N*/-(y)            Rows: from where and when to where and when
    ///     MATCH (x) ON another          Refused(GraphName)
    ///     MATCH (x                      Bad(Text)
    /// ```
    ///
    /// `Bad` comes exactly with the first fault of the text; the faults of a script line have no part in it. Of a text that
    /// reads as a query, `Refused` comes exactly with the first rule that asking it breaks, `Wide` exactly if the relation
    /// of some worked member of its path has more rows than the limit, and else `Rows` with its answer. Each object of the
    /// rows was declared in the graph.
    ///
    /// # Errors
    ///
    /// If memory runs out.
    pub fn ask(&mut self, text: &[u8]) -> Result<Asked, AllocError>
        ensures reply { IfOk result (λ asked. IsReply self.old.machine.graph self.old.limit text.now (reply_of asked)) }
        ensures only { IfOk result (λ asked. (reply : PlainReply) → IsReply self.old.machine.graph self.old.limit text.now reply → reply_of asked ≡ reply) }
        ensures declared { IfOk result (λ asked. NamesDeclared self.old.machine.graph (reply_of asked)) }
        ensures alike { IsAlike self.old self.new }
        ensures pins { self.new.pins ≡ self.old.pins }
        ensures follows { self.new.follows ≡ self.old.follows }
        ensures adds { AddsText text.now self.old.machine.watches self.old.table self.new.table }
        ensures keeps { IfOk result (λ asked. (answer : Answered) → reply_of asked ≡ Rows answer → KeepsText self.new.machine.graph text.now self.new.table) }
    {
        law_of_asked();
        self.reply_to(text)
    }

    /// Takes a line without its LF, which has the number `no`, and writes its reply. An edit is read into `room`, which serves for all lines.
    ///
    /// Of a line of more than 65,538 bytes the first so many are enough: they have the same reply.
    ///
    /// # Errors
    ///
    /// `Memory` if memory runs out: never for a blank line, a comment, a line that has a fault of its own, an edit that is
    /// refused, `graph`, `extend`, `drop`, `unwatch`, `close`, `unfollow`, a `show`, a `tick`, an `open` or a `near` that is refused, a
    /// `show` of a fresh watch, or a `near` whose rows are kept. `Write` if the sink failed. After either, relations that were worked out
    /// may be kept, query plans may be added, and after `Write` the rows of a `near` may be kept.
    pub fn step<K: Sink>(
        &mut self,
        no: u64,
        line: &[u8],
        room: &mut Edit,
        out: &mut K,
    ) -> Result<Seen, StepFault>
        ensures stepped { IfOk result (λ seen. Stepped K.Sink out.old out.new Plain (Replies self.old.limit self.old.machine (LineOf line.now)) no self.old self.new seen) }
        ensures alike { OnErr result (IsAlike self.old self.new) }
        ensures keeps { OnOk result (KeepsFresh self.old self.new) }
        ensures asked { OnOk result (KeepsAskedLine (LineOf line.now) self.old self.new) }
        ensures forgets { OnOk result (ForgetsLine (LineOf line.now) self.old self.new) }
        ensures table { LeavesLine (LineOf line.now) self.old self.new }
        ensures pins { LeavesPinsLine (LineOf line.now) self.old self.new }
        ensures follows { LeavesFollowsLine (LineOf line.now) self.old self.new }
        ensures spares { OnOk result (SparesLine (LineOf line.now) self.old self.new) }
        ensures near { OnOk result (KeepsNearLine (LineOf line.now) self.old self.new) }
        ensures holds { OnErr result (HoldsFollowsLine (LineOf line.now) self.old self.new) }
        ensures unkept { IsErrOf result StepFault.Memory → self.new.follows ≡ self.old.follows }
        ensures at_hand { IsErrOf result StepFault.Memory → ¬ IsLineAtHand self.old (LineOf line.now) }
        ensures unmade { OnErr result (LeavesUnmadeLine (LineOf line.now) self.old self.new) }
        ensures memory { IsErrOf result StepFault.Memory → GetsNothing K.Sink out.old out.new }
        ensures wanting { IsErrOf result StepFault.Memory → LineWants self.old.machine (LineOf line.now) }
        ensures write { IsErrOf result StepFault.Write → HasFailed K.Sink out.old out.new }
        ensures some { IsErrOf result StepFault.Write → StepsWithin K.Sink out.old out.new Plain (Replies self.old.limit self.old.machine (LineOf line.now)) no self.old }
        ensures later { K.faults out.old ≤ K.faults out.new }
    {
        if read_edit(line, room) {
            return self.take_edit(Form::Plain, no, room, out);
        }
        self.step_read(Form::Plain, no, &read_line(line, room), out)
    }

    /// Takes a line of JSON as `step` takes a plain line, and writes its reply as lines of JSON. The machine is the same one.
    ///
    /// ```text
    ///     line 1   {"op":"graph","name":"g","lo":0,"hi":100}     nothing is written
    ///     line 2   {"op":"live","id":"b","from":0,"to":9}        {"line":2,"refused":"unknown"}
    ///     line 3   {"op":"text","line":"ask MATCH (x)"}          {"line":3,"rows":0}
    /// ```
    ///
    /// # Errors
    ///
    /// `Memory` if memory runs out, which any line may want that is neither blank nor too long, since it is read into values. `Write` if
    /// the sink failed. After either, the session is as it is after `step`.
    pub fn step_json<K: Sink>(
        &mut self,
        no: u64,
        line: &[u8],
        out: &mut K,
    ) -> Result<Seen, StepFault>
        ensures stepped { IfOk result (λ seen. Stepped K.Sink out.old out.new Json (Replies self.old.limit self.old.machine (JsonIs line.now)) no self.old self.new seen) }
        ensures alike { OnErr result (IsAlike self.old self.new) }
        ensures keeps { OnOk result (KeepsFresh self.old self.new) }
        ensures asked { OnOk result (KeepsAskedLine (JsonIs line.now) self.old self.new) }
        ensures forgets { OnOk result (ForgetsLine (JsonIs line.now) self.old self.new) }
        ensures table { LeavesLine (JsonIs line.now) self.old self.new }
        ensures pins { LeavesPinsLine (JsonIs line.now) self.old self.new }
        ensures follows { LeavesFollowsLine (JsonIs line.now) self.old self.new }
        ensures spares { OnOk result (SparesLine (JsonIs line.now) self.old self.new) }
        ensures near { OnOk result (KeepsNearLine (JsonIs line.now) self.old self.new) }
        ensures holds { OnErr result (HoldsFollowsLine (JsonIs line.now) self.old self.new) }
        ensures unkept { IsErrOf result StepFault.Memory → self.new.follows ≡ self.old.follows }
        ensures unmade { OnErr result (LeavesUnmadeLine (JsonIs line.now) self.old self.new) }
        ensures memory { IsErrOf result StepFault.Memory → GetsNothing K.Sink out.old out.new }
        ensures blank { IsErrOf result StepFault.Memory → IsFalse (list_all is_blank (without_end line.now)) }
        ensures fits { IsErrOf result StepFault.Memory → length (without_end line.now) ≤ MAX_LINE }
        ensures write { IsErrOf result StepFault.Write → HasFailed K.Sink out.old out.new }
        ensures some { IsErrOf result StepFault.Write → StepsWithin K.Sink out.old out.new Json (Replies self.old.limit self.old.machine (JsonIs line.now)) no self.old }
        ensures later { K.faults out.old ≤ K.faults out.new }
    {
        let json = read_object(self.alloc, line)?;
        let mut room = room();
        self.step_read(Form::Json, no, &asked_by(&json, &mut room), out)
    }

    /// Takes a line as `step` does, and writes nothing.
    ///
    /// # Errors
    ///
    /// If memory runs out, and only if `step` could give `Memory`.
    pub fn pass(&mut self, line: &[u8]) -> Result<(), AllocError>
        ensures passed { OnOk result (Passed (Replies self.old.limit self.old.machine (LineOf line.now)) self.old self.new) }
        ensures alike { OnErr result (IsAlike self.old self.new) }
        ensures keeps { OnOk result (KeepsFresh self.old self.new) }
        ensures asked { OnOk result (KeepsAskedLine (LineOf line.now) self.old self.new) }
        ensures forgets { OnOk result (ForgetsLine (LineOf line.now) self.old self.new) }
        ensures table { LeavesLine (LineOf line.now) self.old self.new }
        ensures pins { LeavesPinsLine (LineOf line.now) self.old self.new }
        ensures follows { LeavesFollowsLine (LineOf line.now) self.old self.new }
        ensures spares { OnOk result (SparesLine (LineOf line.now) self.old self.new) }
        ensures near { OnOk result (KeepsNearLine (LineOf line.now) self.old self.new) }
        ensures unkept { OnErr result (self.new.follows ≡ self.old.follows) }
        ensures at_hand { OnErr result (¬ IsLineAtHand self.old (LineOf line.now)) }
        ensures wanting { OnErr result (LineWants self.old.machine (LineOf line.now)) }
    {
        let mut room = room();
        let what = &read_line(line, &mut room);
        if self.kept_answer(what).is_some() {
            return Ok(());
        }
        let unsaid = self.decide(what)?;
        self.settle(unsaid);
        Ok(())
    }
}
