//! The reply to a line, as a value, and what is seen of it.
ghost use Rattle.std.specs.Prelude.{◌≡◌, ℕ, length, map, is_none, option_map};
ghost use Rattle.itpg_base.specs.Graphs.{Graph};
ghost use Rattle.itpg_session.specs.Machine.{Machine};
ghost use Rattle.itpg_session.specs.Ticks.{ticked_of, some_wide};
ghost use Rattle.itpg_session.specs.Replies.{line_reply, edit_reply};
ghost use Rattle.relation_rows.specs.Answered.{answered};
ghost use Rattle.row_printer.specs.declared.form.Form.{Form};
ghost use Rattle.itpg_session.specs.Texts.{found_text, tick_text, text_of, fails};
ghost use Rattle.itpg_session.specs.Steps.{Sees};

use crate::asking::Asked;
use crate::ticking::{Ticked, is_some_wide};
use arrivals::Counts;
use itpg_base::{RuleCode, TextCode};
use relation_rows::Answer;

/// The reply to a line, as a value.
#[derive(Drop)]
pub(crate) enum Reply {
    /// Nothing is said.
    Silent,
    /// The first fault of the line, or of its query text.
    Bad(TextCode),
    /// The first rule that the line breaks.
    Refused(RuleCode),
    /// The query is too wide.
    Wide,
    /// The rows of its answer, or of what is wanted of it.
    Rows(Answer),
    /// How many objects answer it, moment by moment.
    Counted(Counts),
    /// What was found for the watch at a place: its answer; or none, since its query is too wide.
    Shown(usize, Option<Answer>),
    /// The rows of an answer on the graph of the pin at a place.
    OfPin(usize, Answer),
    /// What a tick found of each watch.
    PerWatch(Vec<Ticked>),
}

impl From<Asked> for Reply {
    ghost use Rattle.std.specs.Prelude.{◌≡◌};
    ghost use Rattle.itpg_session.specs.Replies.{reply_of, line_reply};

    ghost from_gives = { λ asked reply. line_reply reply ≡ reply_of asked };

    fn from(asked: Asked) -> Reply {
        match asked {
            Asked::Rows(answer) => Reply::Rows(answer),
            Asked::Wide => Reply::Wide,
            Asked::Bad(code) => Reply::Bad(code),
            Asked::Refused(rule) => Reply::Refused(rule),
        }
    }
}

impl Reply {
    /// The reply to an edit that breaks this rule first, or none.
    pub(crate) fn of_edit(broken: Option<RuleCode>) -> Reply
        ensures { result ≡ edit_reply broken }
    {
        match broken {
            Some(rule) => Reply::Refused(rule),
            None => Reply::Silent,
        }
    }

    /// What is seen of it.
    pub(crate) fn seen(&self) -> Seen
        ensures { (form : Form) (m : Machine) (number : ℕ) → Sees result (text_of form m number (line_reply self.now)) (fails (line_reply self.now)) }
    {
        match self {
            Reply::Silent => Seen::Quiet,
            Reply::Rows(_) => Seen::Answered,
            Reply::Counted(_) => Seen::Answered,
            Reply::OfPin(_, _) => Seen::Answered,
            Reply::Bad(_) => Seen::Refused,
            Reply::Refused(_) => Seen::Refused,
            Reply::Wide => Seen::Refused,
            Reply::Shown(_, found) => seen_of_found(found),
            Reply::PerWatch(found) => seen_of(found),
        }
    }
}

/// What is seen of a reply.
#[derive(Clone, Copy, Debug, PartialEq, Eq)]
pub enum Seen {
    /// It is empty.
    Quiet,
    /// It isn't empty, and no line of it is bad, refused or wide.
    Answered,
    /// Some line of it is bad, refused or wide.
    Refused,
}

// What is seen of what was found for a watch.
fn seen_of_found(found: &Option<Answer>) -> Seen
    ensures { (form : Form) (g : Graph) (number : ℕ) → Sees result (found_text form g number (option_map answered found.now)) (is_none (option_map answered found.now)) }
{
    match found {
        Some(_) => Seen::Answered,
        None => Seen::Refused,
    }
}

// What is seen of a tick that found this of all watches.
fn seen_of(found: &[Ticked]) -> Seen
    ensures { (form : Form) (g : Graph) → Sees result (tick_text form g (map ticked_of found.now)) (some_wide (map ticked_of found.now)) }
{
    if found.is_empty() {
        return Seen::Quiet;
    }
    if is_some_wide(found) {
        return Seen::Refused;
    }
    Seen::Answered
}
