//! Lines out of bytes.
ghost use Rattle.std.specs.Prelude.{◌≡◌, ◌≤◌, length, IsErrOf};
ghost use Rattle.itpg_base.specs.Sinks.{HasFailed};
ghost use Rattle.explanations.specs.Ends.{EndsLines};

use crate::explainer::Explainer;
use command_words::Status;
use itpg_base::{Limits, Sink};
use itpg_session::StepFault;
use memchr::memchr;
use question_costs::Clock;
use std::alloc::{AllocError, Global};

// How many first bytes of a line are kept. They have the same reply as the whole line.
const KEPT: usize = 65_538;

/// A session whose questions are explained, and the front of the line that is being read.
#[derive(Drop)]
pub(crate) struct Lines {
    explainer: Explainer,
    line: Vec<u8>,
    ghost short: { length line.items ≤ 65538 },
}

impl Lines {
    pub(crate) fn new(alloc: Global, limits: Limits) -> Lines {
        Lines {
            explainer: Explainer::new(alloc, limits),
            line: Vec::new(alloc),
        }
    }

    /// Takes bytes line by line.
    pub(crate) fn feed<K: Sink, C: Clock>(
        &mut self,
        bytes: &[u8],
        out: &mut K,
        clock: &mut C,
    ) -> Result<(), StepFault>
        ensures write { IsErrOf result StepFault.Write → HasFailed K.Sink out.old out.new }
        ensures later { K.faults out.old ≤ K.faults out.new }
    {
        let mut rest = bytes;
        while let Some(end) = memchr(b'\n', rest) {
            self.take_piece(&rest[..end])?;
            self.end_line(out, clock)?;
            rest = &rest[end + 1..];
        }
        self.take_piece(rest)?;
        Ok(())
    }

    // Takes a piece of a line, and keeps what is to be kept of it.
    fn take_piece(&mut self, piece: &[u8]) -> Result<(), AllocError> {
        let room = KEPT - self.line.len();
        self.line.extend_from_slice(&piece[..piece.len().min(room)])
    }

    // Answers the line that was read.
    fn end_line<K: Sink, C: Clock>(&mut self, out: &mut K, clock: &mut C) -> Result<(), StepFault>
        ensures write { IsErrOf result StepFault.Write → HasFailed K.Sink out.old out.new }
        ensures later { K.faults out.old ≤ K.faults out.new }
    {
        self.explainer.take(&self.line, out, clock)?;
        self.line.clear();
        Ok(())
    }

    /// Answers a last line without an end, if it has a byte, and says how all ended.
    pub(crate) fn finish<K: Sink, C: Clock>(&mut self, out: &mut K, clock: &mut C) -> Status
        ensures write { result ≡ Status.WriteFault → HasFailed K.Sink out.old out.new }
        ensures ends { EndsLines result }
    {
        match self.end_last(out, clock) {
            Ok(()) => self.explainer.status(),
            Err(StepFault::Memory) => Status::Memory,
            Err(StepFault::Write) => Status::WriteFault,
        }
    }

    // Answers a last line without an end, if it has a byte.
    fn end_last<K: Sink, C: Clock>(&mut self, out: &mut K, clock: &mut C) -> Result<(), StepFault>
        ensures write { IsErrOf result StepFault.Write → HasFailed K.Sink out.old out.new }
    {
        if self.line.is_empty() {
            return Ok(());
        }
        self.end_line(out, clock)
    }
}
