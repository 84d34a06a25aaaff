//! What is kept and asked for, so that it is written at once.
ghost use Rattle.std.specs.Prelude.{IfOk, IfSome, IsNone, IsOkAnd};
ghost use Rattle.edit_reader.specs.Readings.{reading_of, Shows, Nears};
ghost use Rattle.relation_rows.specs.Answered.{answered};
ghost use Rattle.itpg_session.specs.Steps.{IsAtHand, ShowsKept};

use crate::laws::law_of_graphs;
use crate::rules::{broken_by_tick, place_near};
use crate::session::Session;
use edit_reader::Line;
use itpg_base::{Name, TextCode};
use relation_rows::Answer;

impl Session {
    /// The kept answer that the line asks for, if it breaks no rule: that of a fresh watch, or a follow's rows from an object.
    pub(crate) fn kept_answer(&self, what: &Result<Line<'_>, TextCode>) -> Option<&Answer>
        ensures some { IfSome result (λ answer. IsOkAnd what.now (λ line. ShowsKept self.now (reading_of line) (answered answer.now))) }
        ensures none { IsNone result → IfOk what.now (λ line. ¬ IsAtHand self.now (reading_of line)) }
    {
        match what {
            Ok(Line::Show(name)) => self.fresh_answer(name),
            Ok(Line::Near(name, id)) => self.kept_rows(name, id),
            _ => None,
        }
    }

    // The kept answer of the watch of this name, if it breaks no rule and the watch is fresh.
    fn fresh_answer(&self, name: &Name) -> Option<&Answer>
        ensures some { IfSome result (λ answer. ShowsKept self.now (Shows name.now) (answered answer.now)) }
        ensures none { IsNone result → ¬ IsAtHand self.now (Shows name.now) }
    {
        if let Some(_) = broken_by_tick(&self.graph) {
            return None;
        }
        self.watches.answer(name)
    }

    // The rows that the follow of the one name keeps of the object of the other, if the names break no rule.
    fn kept_rows(&self, name: &Name, id: &Name) -> Option<&Answer>
        ensures some { IfSome result (λ answer. ShowsKept self.now (Nears name.now id.now) (answered answer.now)) }
        ensures none { IsNone result → ¬ IsAtHand self.now (Nears name.now id.now) }
    {
        law_of_graphs(&self.graph);
        match place_near(&self.graph, &self.follows, name, id) {
            Ok((place, object)) => self.follows.rows_of(place, object),
            Err(_rule) => None,
        }
    }
}
