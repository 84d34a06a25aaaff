//! A session whose questions are explained.
ghost use Rattle.std.specs.Prelude.{◌≡◌, ◌⊎◌, ◌≤◌, IsErrOf};
ghost use Rattle.itpg_base.specs.Sinks.{HasFailed};

use crate::advice::meaning;
use crate::head::Head;
use crate::said::said;
use command_words::Status;
use edit_reader::room;
use itpg_base::{Failed, Limits, Sink};
use itpg_session::{Seen, Session, StepFault};
use question_costs::{Clock, Explained};
use std::alloc::{AllocError, Global};

/// A session, the number of its next line, and whether a reply was bad, refused or wide so far.
#[derive(Drop)]
pub(crate) struct Explainer {
    pub(crate) alloc: Global,
    pub(crate) session: Session,
    pub(crate) max_rows: u32,
    number: u64,
    failing: bool,
}

impl Explainer {
    pub(crate) fn new(alloc: Global, limits: Limits) -> Explainer {
        let max_rows = limits.max_rows();
        Explainer {
            alloc,
            session: Session::new(alloc, limits),
            max_rows,
            number: 1,
            failing: false,
        }
    }

    /// Answers a line, and writes what is said of it in one piece.
    ///
    /// # Errors
    ///
    /// `Memory` if memory runs out; `Write` only if the sink failed.
    pub(crate) fn take<K: Sink, C: Clock>(
        &mut self,
        line: &[u8],
        out: &mut K,
        clock: &mut C,
    ) -> Result<(), StepFault>
        ensures write { IsErrOf result StepFault.Write → HasFailed K.Sink out.old out.new }
        ensures later { K.faults out.old ≤ K.faults out.new }
    {
        let text = self.answer(line, clock)?;
        if text.is_empty() {
            return Ok(());
        }
        match out.write(&text) {
            Ok(()) => Ok(()),
            Err(Failed) => Err(StepFault::Write),
        }
    }

    // Answers a line. What is said of it.
    fn answer<C: Clock>(&mut self, line: &[u8], clock: &mut C) -> Result<Vec<u8>, AllocError> {
        let explained = self.explained(line, clock)?;
        let mut head = Head::new();
        let seen = self.step(line, &mut head)?;
        let text = self.text(line, explained, head.line())?;
        self.number = self.number.saturating_add(1);
        self.failing = self.failing || seen == Seen::Refused;
        Ok(text)
    }

    // Has the session answer a line.
    fn step(&mut self, line: &[u8], head: &mut Head) -> Result<Seen, AllocError> {
        let mut room = room();
        match self.session.step(self.number, line, &mut room, head) {
            Ok(seen) => Ok(seen),
            Err(StepFault::Memory) => Err(AllocError),
            Err(StepFault::Write) => unreachable!(),
        }
    }

    // What is said of a line whose reply has this head: of a question all, of another line the head, if it is bad or refused.
    fn text(
        &self,
        line: &[u8],
        explained: Option<Explained>,
        head: &[u8],
    ) -> Result<Vec<u8>, AllocError> {
        let meaning = meaning(head);
        let explained = match explained {
            Some(explained) => explained,
            None if meaning.is_some() => Explained::nothing(self.alloc),
            None => return Ok(Vec::new(self.alloc)),
        };
        said(self.alloc, self.number, line, &explained, head, meaning)
    }

    /// How a run ends in which all lines were answered.
    pub(crate) fn status(&self) -> Status
        ensures { (result ≡ Status.Done) ⊎ (result ≡ Status.DoneRefused) }
    {
        if self.failing {
            Status::DoneRefused
        } else {
            Status::Done
        }
    }
}
