//! Runs over devices in memory.
use edit_reader::room;
use itpg_base::{Limits, MemSink, Sink};
use itpg_run::Status;
use itpg_session::{Seen, Session, StepFault};
use std::alloc::{AllocError, Global};

// How many bytes more than it must a script may write before the sink is full.
const SPARE_ROOM: usize = 65_536;

/// A sink with room for an output of so many bytes, and for some more.
pub fn sink_for(alloc: Global, length: usize) -> Result<MemSink, AllocError> {
    let room = length.saturating_add(SPARE_ROOM);
    Ok(MemSink::new(Vec::new(alloc), 0, vec![in alloc; 0; room]?))
}

/// A sink with as much room that takes so many bytes of this call's piece and fails.
pub fn failing_sink(
    alloc: Global,
    length: usize,
    call: u64,
    take: usize,
) -> Result<MemSink, AllocError> {
    let room = length.saturating_add(SPARE_ROOM);
    let fail = vec![in alloc; call]?;
    Ok(MemSink::new(fail, take, vec![in alloc; 0; room]?))
}

/// Hands a line to a session over a sink that may fail, and if it does, once more over one that doesn't. Says whether it did.
pub fn step_again(
    session: &mut Session,
    number: u64,
    line: &[u8],
    failing: &mut MemSink,
    sink: &mut MemSink,
) -> Result<bool, StepFault> {
    let mut room = room();
    match session.step(number, line, &mut room, failing) {
        Ok(_) => {
            sink.write(failing.held())?;
            Ok(false)
        }
        Err(StepFault::Write) => {
            session.step(number, line, &mut room, sink)?;
            Ok(true)
        }
        Err(StepFault::Memory) => Err(StepFault::Memory),
    }
}

/// Hands the lines of a script to a session, and says how that ended, as `serve` would.
pub fn step_lines(alloc: Global, limits: Limits, script: &[u8], sink: &mut MemSink) -> Status {
    let mut session = Session::new(alloc, limits);
    let mut room = room();
    let mut status = Status::Done;
    let mut number = 0u64;
    for line in script.split_inclusive(|byte| *byte == b'\n') {
        number = number.saturating_add(1);
        let line = line.strip_suffix(b"\n").unwrap_or(line);
        match session.step(number, line, &mut room, sink) {
            Ok(Seen::Refused) => status = Status::DoneRefused,
            Ok(Seen::Quiet | Seen::Answered) => {}
            Err(StepFault::Memory) => return Status::Memory,
            Err(StepFault::Write) => return Status::WriteFault,
        }
    }
    status
}
