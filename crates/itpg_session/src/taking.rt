//! What a step does with what a line is: it decides the reply, and there makes what the line changes and is accepted; it writes the reply
//! to the sink that it is lent; and it settles what a `show` or a tick found. Only what is kept, the answer of a fresh watch or the rows
//! of an object, is written at once; and an edit, as most lines are, is made at once, of which at most a refusal is written.
ghost use Rattle.std.specs.Prelude.{◌≡◌, ◌≢◌, ◌≤◌, Ok, IfOk, OnOk, OnErr, IsErrOf};
ghost use Rattle.itpg_base.specs.Sinks.{Gets, GetsSome, GetsNothing, HasFailed, IsHonest};
ghost use Rattle.itpg_edit.specs.Sites.{HasMoments};
ghost use Rattle.edit_reader.specs.Readings.{reading_of, told as read_as, Changes};
ghost use Rattle.edit_reader.specs.Moments.{AsksOfMoments};
ghost use Rattle.itpg_session.specs.Replies.{Silent, line_reply, edit_reply};
ghost use Rattle.itpg_session.specs.Texts.{text_of, fails};
ghost use Rattle.itpg_session.specs.Lines.{Just};
ghost use Rattle.itpg_session.specs.Machine.{Machine, Replies, after};
ghost use Rattle.itpg_session.specs.Steps.{StandsAs, IsAlike, Sees, Stepped, StepsWithin, LineWants, IsLineAtHand, Suits};
ghost use Rattle.itpg_session.specs.Steps.{KeepsFresh, KeepsAskedLine, ForgetsLine, LeavesLine, LeavesPinsLine, LeavesUnmadeLine};
ghost use Rattle.itpg_session.specs.Following.{LeavesFollowsLine, HoldsFollowsLine, SparesLine, KeepsNearLine};

use crate::fault::StepFault;
use crate::reply::{Reply, Seen};
use crate::session::Session;
use crate::texts::write_found;
use crate::ticking::{move_bases, write_all};
use edit_reader::Line;
use itpg_base::{Failed, RuleCode, Sink, TextCode};
use itpg_edit::Edit;
use reply_text::{write_bad, write_counts, write_refused, write_rows, write_wide};
use row_printer::Form;

impl Session {
    /// Takes a line that is this, and writes its reply in a form.
    pub(crate) fn step_read<K: Sink>(
        &mut self,
        form: Form,
        no: u64,
        what: &Result<Line<'_>, TextCode>,
        out: &mut K,
    ) -> Result<Seen, StepFault>
        requires { IfOk what.now (λ line. AsksOfMoments (reading_of line)) }
        ensures stepped { IfOk result (λ seen. Stepped K.Sink out.old out.new form (Replies self.old.limit self.old.machine (Just (read_as what.now))) no self.old self.new seen) }
        ensures alike { OnErr result (IsAlike self.old self.new) }
        ensures keeps { OnOk result (KeepsFresh self.old self.new) }
        ensures asked { OnOk result (KeepsAskedLine (Just (read_as what.now)) self.old self.new) }
        ensures forgets { OnOk result (ForgetsLine (Just (read_as what.now)) self.old self.new) }
        ensures table { LeavesLine (Just (read_as what.now)) self.old self.new }
        ensures pins { LeavesPinsLine (Just (read_as what.now)) self.old self.new }
        ensures follows { LeavesFollowsLine (Just (read_as what.now)) self.old self.new }
        ensures spares { OnOk result (SparesLine (Just (read_as what.now)) self.old self.new) }
        ensures near { OnOk result (KeepsNearLine (Just (read_as what.now)) self.old self.new) }
        ensures holds { OnErr result (HoldsFollowsLine (Just (read_as what.now)) self.old self.new) }
        ensures unkept { IsErrOf result StepFault.Memory → self.new.follows ≡ self.old.follows }
        ensures at_hand { IsErrOf result StepFault.Memory → ¬ IsLineAtHand self.old (Just (read_as what.now)) }
        ensures unmade { OnErr result (LeavesUnmadeLine (Just (read_as what.now)) self.old self.new) }
        ensures memory { IsErrOf result StepFault.Memory → GetsNothing K.Sink out.old out.new }
        ensures wanting { IsErrOf result StepFault.Memory → LineWants self.old.machine (Just (read_as what.now)) }
        ensures write { IsErrOf result StepFault.Write → HasFailed K.Sink out.old out.new }
        ensures some { IsErrOf result StepFault.Write → StepsWithin K.Sink out.old out.new form (Replies self.old.limit self.old.machine (Just (read_as what.now))) no self.old }
        ensures later { K.faults out.old ≤ K.faults out.new }
    {
        if let Ok(Line::Edit(edit)) = what {
            return self.take_edit(form, no, edit, out);
        }
        if let Some(answer) = self.kept_answer(what) {
            write_rows(form, no, &self.graph, answer, out)?;
            return Ok(Seen::Answered);
        }
        let reply = self.decide(what)?;
        self.write(form, no, &reply, out)?;
        let seen = reply.seen();
        self.settle(reply);
        Ok(seen)
    }

    /// Makes an edit that a line asks for, and writes its reply in a form: that it is refused, or most often nothing.
    pub(crate) fn take_edit<K: Sink>(
        &mut self,
        form: Form,
        no: u64,
        edit: &Edit,
        out: &mut K,
    ) -> Result<Seen, StepFault>
        requires { HasMoments edit.now }
        ensures stepped { IfOk result (λ seen. Stepped K.Sink out.old out.new form (Replies self.old.limit self.old.machine (Just (Ok (Changes edit.now)))) no self.old self.new seen) }
        ensures alike { OnErr result (IsAlike self.old self.new) }
        ensures keeps { OnOk result (KeepsFresh self.old self.new) }
        ensures asked { OnOk result (KeepsAskedLine (Just (Ok (Changes edit.now))) self.old self.new) }
        ensures forgets { OnOk result (ForgetsLine (Just (Ok (Changes edit.now))) self.old self.new) }
        ensures table { LeavesLine (Just (Ok (Changes edit.now))) self.old self.new }
        ensures pins { LeavesPinsLine (Just (Ok (Changes edit.now))) self.old self.new }
        ensures follows { LeavesFollowsLine (Just (Ok (Changes edit.now))) self.old self.new }
        ensures spares { OnOk result (SparesLine (Just (Ok (Changes edit.now))) self.old self.new) }
        ensures near { OnOk result (KeepsNearLine (Just (Ok (Changes edit.now))) self.old self.new) }
        ensures holds { OnErr result (HoldsFollowsLine (Just (Ok (Changes edit.now))) self.old self.new) }
        ensures unkept { IsErrOf result StepFault.Memory → self.new.follows ≡ self.old.follows }
        ensures at_hand { IsErrOf result StepFault.Memory → ¬ IsLineAtHand self.old (Just (Ok (Changes edit.now))) }
        ensures unmade { OnErr result (LeavesUnmadeLine (Just (Ok (Changes edit.now))) self.old self.new) }
        ensures memory { IsErrOf result StepFault.Memory → GetsNothing K.Sink out.old out.new }
        ensures wanting { IsErrOf result StepFault.Memory → LineWants self.old.machine (Just (Ok (Changes edit.now))) }
        ensures write { IsErrOf result StepFault.Write → HasFailed K.Sink out.old out.new }
        ensures some { IsErrOf result StepFault.Write → StepsWithin K.Sink out.old out.new form (Replies self.old.limit self.old.machine (Just (Ok (Changes edit.now)))) no self.old }
        ensures later { K.faults out.old ≤ K.faults out.new }
    {
        let broken = self.edit(edit)?;
        Ok(write_edited(form, no, broken, out)?)
    }

    // Writes the reply to the line of a number.
    fn write<K: Sink>(
        &self,
        form: Form,
        number: u64,
        reply: &Reply,
        out: &mut K,
    ) -> Result<(), Failed>
        requires { Suits self.now (line_reply reply.now) }
        ensures written { OnOk result (Gets K.Sink out.old out.new (text_of form self.now.machine number (line_reply reply.now))) }
        ensures some { OnErr result (GetsSome K.Sink out.old out.new (text_of form self.now.machine number (line_reply reply.now))) }
        ensures cause { IsHonest K.Sink out.old out.new result }
        ensures says { OnErr result (line_reply reply.now ≢ Silent) }
    {
        match reply {
            Reply::Silent => Ok(()),
            Reply::Bad(code) => write_bad(form, number, *code, out),
            Reply::Refused(rule) => write_refused(form, number, *rule, out),
            Reply::Wide => write_wide(form, number, out),
            Reply::Rows(answer) => write_rows(form, number, &self.graph, answer, out),
            Reply::Counted(counts) => write_counts(form, number, counts, out),
            Reply::Shown(_, found) => write_found(form, &self.graph, number, found, out),
            Reply::OfPin(place, answer) => {
                write_rows(form, number, self.pins.graph(*place), answer, out)
            }
            Reply::PerWatch(found) => write_all(form, &self.graph, found, out),
        }
    }

    /// Keeps what was found for a watch that is shown, or moves the bases to what a tick found. No other reply moves anything.
    pub(crate) fn settle(&mut self, reply: Reply)
        requires { Suits self.old (line_reply reply) }
        ensures stands { StandsAs self.new (after self.old.machine (line_reply reply)) self.old.limit }
        ensures table { self.new.table ≡ self.old.table }
        ensures pins { self.new.pins ≡ self.old.pins }
        ensures follows { self.new.follows ≡ self.old.follows }
    {
        match reply {
            Reply::Shown(place, Some(answer)) => self.watches.set_now(place, answer),
            Reply::Shown(place, None) => self.watches.drop_now(place),
            Reply::PerWatch(found) => move_bases(&mut self.watches, found),
            Reply::Silent
            | Reply::Bad(_)
            | Reply::Refused(_)
            | Reply::Wide
            | Reply::Rows(_)
            | Reply::Counted(_)
            | Reply::OfPin(_, _) => {}
        }
    }
}

// Writes the reply to an edit that breaks this rule first, or none, and tells what is seen of it. Of most edits nothing is said.
fn write_edited<K: Sink>(
    form: Form,
    number: u64,
    broken: Option<RuleCode>,
    out: &mut K,
) -> Result<Seen, Failed>
    ensures written { OnOk result ((m : Machine) → Gets K.Sink out.old out.new (text_of form m number (line_reply (edit_reply broken)))) }
    ensures sees { IfOk result (λ seen. (m : Machine) → Sees seen (text_of form m number (line_reply (edit_reply broken))) (fails (line_reply (edit_reply broken)))) }
    ensures some { OnErr result ((m : Machine) → GetsSome K.Sink out.old out.new (text_of form m number (line_reply (edit_reply broken)))) }
    ensures cause { IsHonest K.Sink out.old out.new result }
    ensures says { OnErr result (line_reply (edit_reply broken) ≢ Silent) }
{
    match broken {
        None => Ok(Seen::Quiet),
        Some(rule) => {
            write_refused(form, number, rule, out)?;
            Ok(Seen::Refused)
        }
    }
}
