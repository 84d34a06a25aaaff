//! Lines out of bytes.
//!
//! A `Reader` has the session, the form of its lines, the front of the line that is being read, its number, and whether a reply failed
//! so far. It takes bytes as they come, has the session answer each line at its end, and touches no source.
ghost use Rattle.std.specs.Prelude.{◌≡◌, ◌+◌, ◌-◌, ◌^◌, ◌≤◌, ◌<◌, [], ◌∷◌, ◌++◌, ◌||◌};
ghost use Rattle.std.specs.Prelude.{take, length, false, true, IfOk, OnOk, OnErr, IfErr, IsErrOf, ℕ, List};
ghost use Rattle.std.specs.declared.option.Option.{Option};
ghost use Rattle.itpg_base.specs.Sinks.{GetsNothing, HasFailed};
ghost use Rattle.itpg_session.specs.Machine.{opening};
ghost use Rattle.itpg_session.specs.Steps.{StandsAs};

use crate::Status;
use edit_reader::room;
use itpg_base::{Limits, Sink};
use itpg_edit::Edit;
use itpg_session::{Seen, Session, StepFault, law_of_fronts};
use memchr::memchr;
use row_printer::Form;
use std::alloc::{AllocError, Global};

/// How many first bytes of a line are kept. They have the same reply as the whole line.
pub(crate) const KEPT: usize = 65_538;

const LINE_END: u8 = b'\n';

/// A session, and the line that is being read: its form, its number and its first bytes. One room serves for the edits of all lines.
#[derive(Drop)]
pub(crate) struct Reader {
    pub(crate) session: Session,
    pub(crate) form: Form,
    pub(crate) line: Vec<u8>,
    pub(crate) room: Edit,
    pub(crate) number: u64,
    pub(crate) failing: bool,
    ghost short: { length line.items ≤ 65538 },
}

impl Reader {
    pub(crate) fn new(alloc: Global, form: Form, limits: Limits) -> Self
        ensures form { result.form ≡ form }
        ensures session { StandsAs result.session opening limits }
        ensures line { result.line.items ≡ [] }
        ensures number { result.number ≡ 1 }
        ensures failing { result.failing ≡ false }
    {
        Reader {
            session: Session::new(alloc, limits),
            form,
            line: Vec::new(alloc),
            room: room(),
            number: 1,
            failing: false,
        }
    }
}

impl Reader {
    ghost use Rattle.itpg_run.specs.Fed.{AnswersLineTo, AnswersWithinTo, EndsLineTo, EndsLastTo, EndsWithinTo, Feeds, FeedsTo, FinishesTo};
    ghost use Rattle.itpg_run.specs.Fed.{StepsTo, StepsWithinTo, StopsTo, StopsWholeTo, StopsWithinTo};
    ghost use Rattle.itpg_run.specs.Split.{NoEnd};

    // Has the session take what is kept of the line.
    fn step<K: Sink>(&mut self, out: &mut K) -> Result<Seen, StepFault>
        ensures stepped { IfOk result (λ seen. StepsTo K.Sink out.old out.new self.old self.new.session seen) }
        ensures form { self.new.form ≡ self.old.form }
        ensures line { self.new.line.items ≡ self.old.line.items }
        ensures number { self.new.number ≡ self.old.number }
        ensures failing { self.new.failing ≡ self.old.failing }
        ensures memory { IsErrOf result StepFault.Memory → GetsNothing K.Sink out.old out.new }
        ensures write { IsErrOf result StepFault.Write → HasFailed K.Sink out.old out.new }
        ensures some { IsErrOf result StepFault.Write → StepsWithinTo K.Sink out.old out.new self.old }
        ensures later { K.faults out.old ≤ K.faults out.new }
    {
        match self.form {
            Form::Plain => {
                self.session
                    .step(self.number, &self.line, &mut self.room, out)
            }
            Form::Json => self.session.step_json(self.number, &self.line, out),
        }
    }

    // Answers the line of which the front is kept.
    fn answer<K: Sink>(&mut self, out: &mut K) -> Result<Seen, StepFault>
        ensures answers { IfOk result (λ seen. AnswersLineTo K.Sink out.old out.new self.old self.new.session seen) }
        ensures form { self.new.form ≡ self.old.form }
        ensures line { self.new.line.items ≡ self.old.line.items }
        ensures number { self.new.number ≡ self.old.number }
        ensures failing { self.new.failing ≡ self.old.failing }
        ensures memory { IsErrOf result StepFault.Memory → GetsNothing K.Sink out.old out.new }
        ensures write { IsErrOf result StepFault.Write → HasFailed K.Sink out.old out.new }
        ensures some { IsErrOf result StepFault.Write → AnswersWithinTo K.Sink out.old out.new self.old }
        ensures later { K.faults out.old ≤ K.faults out.new }
    {
        law_of_fronts();
        let seen = self.step(out)?;
        Ok(seen)
    }

    /// Answers the line that was read.
    pub(crate) fn end_line<K: Sink>(&mut self, out: &mut K) -> Result<(), StepFault>
        requires { self.old.number < 2 ^ 64 - 1 }
        ensures ended { OnOk result (EndsLineTo K.Sink out.old out.new self.old self.new) }
        ensures memory { IsErrOf result StepFault.Memory → GetsNothing K.Sink out.old out.new }
        ensures write { IsErrOf result StepFault.Write → HasFailed K.Sink out.old out.new }
        ensures some { IsErrOf result StepFault.Write → AnswersWithinTo K.Sink out.old out.new self.old }
        ensures later { K.faults out.old ≤ K.faults out.new }
    {
        let seen = self.answer(out)?;
        self.line.clear();
        self.number += 1;
        if seen == Seen::Refused {
            self.failing = true;
        }
        Ok(())
    }

    /// Takes a piece of a line, and keeps what is to be kept of it.
    pub(crate) fn take_piece(&mut self, piece: &[u8]) -> Result<(), StepFault>
        requires { NoEnd piece.now }
        ensures fed { OnOk result ((held : Option (List ℕ)) → Feeds held held self.old self.new piece.now) }
        ensures number { self.new.number ≡ self.old.number }
        ensures memory { IsErrOf result StepFault.Write → ⊥ }
    {
        let room = KEPT - self.line.len();
        let front = &piece[..piece.len().min(room)];
        match self.line.extend_from_slice(front) {
            Ok(()) => Ok(()),
            Err(AllocError) => Err(StepFault::Memory),
        }
    }

    /// Takes the last piece of a line and its end, and answers the line.
    pub(crate) fn take_line<K: Sink>(&mut self, piece: &[u8], out: &mut K) -> Result<(), StepFault>
        requires piece { NoEnd piece.now }
        requires number { self.old.number < 2 ^ 64 - 1 }
        ensures fed { OnOk result (FeedsTo K.Sink out.old out.new self.old self.new (piece.now ++ LINE_END ∷ [])) }
        ensures number { OnOk result (self.new.number ≤ self.old.number + 1) }
        ensures memory { IsErrOf result StepFault.Memory → StopsWholeTo K.Sink out.old out.new self.old (piece.now ++ LINE_END ∷ []) }
        ensures write { IsErrOf result StepFault.Write → StopsWithinTo K.Sink out.old out.new self.old (piece.now ++ LINE_END ∷ []) }
        ensures rose { IsErrOf result StepFault.Write → HasFailed K.Sink out.old out.new }
        ensures later { K.faults out.old ≤ K.faults out.new }
    {
        self.take_piece(piece)?;
        self.end_line(out)?;
        Ok(())
    }

    /// Takes bytes line by line.
    pub(crate) fn feed<K: Sink>(&mut self, bytes: &[u8], out: &mut K) -> Result<(), StepFault>
        requires { self.old.number + length bytes.now < 2 ^ 64 }
        ensures fed { OnOk result (FeedsTo K.Sink out.old out.new self.old self.new bytes.now) }
        ensures number { OnOk result (self.new.number ≤ self.old.number + length bytes.now) }
        ensures memory { IsErrOf result StepFault.Memory → StopsWholeTo K.Sink out.old out.new self.old bytes.now }
        ensures write { IsErrOf result StepFault.Write → StopsWithinTo K.Sink out.old out.new self.old bytes.now }
        ensures rose { IsErrOf result StepFault.Write → HasFailed K.Sink out.old out.new }
        ensures later { K.faults out.old ≤ K.faults out.new }
    {
        let mut rest = bytes;
        while let Some(end) = memchr(LINE_END, rest) {
            self.take_line(&rest[..end], out)?;
            rest = &rest[end + 1..];
        }
        self.take_piece(rest)?;
        Ok(())
    }

    /// Takes as many bytes as there is room for, and stops where there are more.
    pub(crate) fn take_chunk<K: Sink>(
        &mut self,
        bytes: &[u8],
        room: usize,
        out: &mut K,
    ) -> Result<(), Stop>
        requires { self.old.number + room < 2 ^ 64 }
        ensures fits { OnOk result (length bytes.now ≤ room) }
        ensures fed { OnOk result (FeedsTo K.Sink out.old out.new self.old self.new bytes.now) }
        ensures number { OnOk result (self.new.number ≤ self.old.number + length bytes.now) }
        ensures stops { IfErr result (λ stop. StopsTo K.Sink out.old out.new stop self.old bytes.now room) }
        ensures rose { IsErrOf result Stop.Write → HasFailed K.Sink out.old out.new }
        ensures later { K.faults out.old ≤ K.faults out.new }
    {
        let front = &bytes[..bytes.len().min(room)];
        match self.feed(front, out) {
            Ok(()) if bytes.len() > room => Err(Stop::TooLong),
            Ok(()) => Ok(()),
            Err(StepFault::Memory) => Err(Stop::Memory),
            Err(StepFault::Write) => Err(Stop::Write),
        }
    }

    /// Answers a last line without an end, if it has a byte.
    pub(crate) fn end_last<K: Sink>(&mut self, out: &mut K) -> Result<(), StepFault>
        requires { self.old.number < 2 ^ 64 - 1 }
        ensures ended { OnOk result (EndsLastTo K.Sink out.old out.new self.old self.new) }
        ensures memory { IsErrOf result StepFault.Memory → StopsWholeTo K.Sink out.old out.new self.old [] }
        ensures write { IsErrOf result StepFault.Write → EndsWithinTo K.Sink out.old out.new self.old }
        ensures rose { IsErrOf result StepFault.Write → HasFailed K.Sink out.old out.new }
        ensures later { K.faults out.old ≤ K.faults out.new }
    {
        if self.line.is_empty() {
            return Ok(());
        }
        self.end_line(out)?;
        Ok(())
    }

    /// Answers a last line without an end, if it has a byte, and says how all ended.
    pub(crate) fn finish<K: Sink>(&mut self, out: &mut K) -> Status
        requires { self.old.number < 2 ^ 64 - 1 }
        ensures ends { FinishesTo K.Sink out.old out.new self.old result }
        ensures rose { result ≡ Status.WriteFault → HasFailed K.Sink out.old out.new }
        ensures later { K.faults out.old ≤ K.faults out.new }
    {
        match self.end_last(out) {
            Ok(()) if self.failing => Status::DoneRefused,
            Ok(()) => Status::Done,
            Err(StepFault::Memory) => Status::Memory,
            Err(StepFault::Write) => Status::WriteFault,
        }
    }
}

/// Why a chunk wasn't taken whole.
#[derive(Clone, Copy, Debug, PartialEq, Eq)]
pub(crate) enum Stop {
    Memory,
    Write,
    TooLong,
}
