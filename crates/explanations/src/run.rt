//! The top call: reads the words, and then the source to its end, a fault or the limit of the input.
ghost use Rattle.std.specs.Prelude.{◌≡◌, ◌≤◌, ◌<◌, ◌⊎◌, ℕ, map, string_bytes, length, OnOk, IfErr, IsErrOf, IsTrue, IsFalse};
ghost use Rattle.std.specs.List.{list_any};
ghost use Rattle.itpg_base.specs.Outside.{Rose};
ghost use Rattle.itpg_base.specs.Sinks.{Gets, HasFailed};
ghost use Rattle.explanations.specs.Words.{AskForLimit, is_help};
ghost use Rattle.explanations.specs.Ends.{EndsLines, EndsRun, StopsLines, IsTooLong};

use crate::lines::Lines;
use crate::words::{HELP_TEXT, asks_for_help, limits_of};
use command_words::Status;
use itpg_base::{Failed, Limits, Sink, Source};
use itpg_session::StepFault;
use question_costs::Clock;
use std::alloc::Global;

// How many bytes a script may have.
const LONGEST: usize = 268_435_456;

// How many bytes are read at a time, at most.
const CHUNK: usize = 65_536;

/// Does all that the program does: reads a script from the source as itpg does, and writes what its questions cost to the sink.
///
/// `words` are the command line's words without the program's name: `[--max-rows N] [--help]`. [`Status`] says what each status means.
/// Every call returns, on every source.
pub fn explain<S: Source, K: Sink, C: Clock>(
    alloc: Global,
    words: &[String],
    source: &mut S,
    sink: &mut K,
    clock: &mut C,
) -> Status
    // Words that ask for help: nothing is read.
    ensures help { IsTrue (list_any (λ word. is_help (string_bytes word)) words.entry.now) → source.new ≡ source.old }
    ensures helped { IsTrue (list_any (λ word. is_help (string_bytes word)) words.entry.now) → (result ≡ Status.Done) ⊎ (result ≡ Status.WriteFault) }

    // Words that ask for nothing: nothing is read or written.
    ensures alone { IsFalse (list_any (λ word. is_help (string_bytes word)) words.entry.now) →
        ((limit : ℕ) → ¬ AskForLimit (map string_bytes words.entry.now) limit) → (source.new ≡ source.old) × (sink.new ≡ sink.old) }
    ensures told { IsFalse (list_any (λ word. is_help (string_bytes word)) words.entry.now) →
        ((limit : ℕ) → ¬ AskForLimit (map string_bytes words.entry.now) limit) → (result ≡ Status.Usage) ⊎ (result ≡ Status.Memory) }
    ensures usage { result ≡ Status.Usage → (limit : ℕ) → ¬ AskForLimit (map string_bytes words.entry.now) limit }

    // A fault is told only if its device's count rose in this call, and that a script is too long only if it is.
    ensures read { result ≡ Status.ReadFault → Rose (S.faults source.old) (S.faults source.new) }
    ensures write { result ≡ Status.WriteFault → HasFailed K.Sink sink.old sink.new }
    ensures long { result ≡ Status.TooLong → IsTooLong (S.left source.old) }
{
    if asks_for_help(words) {
        return help(sink);
    }
    match limits_of(alloc, words) {
        Ok(limits) => run(alloc, limits, source, sink, clock),
        Err(status) => status,
    }
}

// Writes the text of the help.
fn help<K: Sink>(sink: &mut K) -> Status
    ensures ends { (result ≡ Status.Done) ⊎ (result ≡ Status.WriteFault) }
    ensures write { result ≡ Status.WriteFault → HasFailed K.Sink sink.old sink.new }
{
    match sink.write(HELP_TEXT.as_bytes()) {
        Ok(()) => Status::Done,
        Err(Failed) => Status::WriteFault,
    }
}

// Explains a script.
fn run<S: Source, K: Sink, C: Clock>(
    alloc: Global,
    limits: Limits,
    source: &mut S,
    sink: &mut K,
    clock: &mut C,
) -> Status
    ensures ends { EndsRun result }
    ensures read { result ≡ Status.ReadFault → Rose (S.faults source.old) (S.faults source.new) }
    ensures write { result ≡ Status.WriteFault → HasFailed K.Sink sink.old sink.new }
    ensures long { result ≡ Status.TooLong → IsTooLong (S.left source.old) }
{
    let mut lines = Lines::new(alloc, limits);
    match pump(&mut lines, source, sink, clock) {
        Ok(()) => lines.finish(sink, clock),
        Err(status) => status,
    }
}

// Reads to the end of the input.
fn pump<S: Source, K: Sink, C: Clock>(
    lines: &mut Lines,
    source: &mut S,
    sink: &mut K,
    clock: &mut C,
) -> Result<(), Status>
    ensures stops { IfErr result (λ status. StopsLines status) }
    ensures read { IsErrOf result Status.ReadFault → Rose (S.faults source.old) (S.faults source.new) }
    ensures write { IsErrOf result Status.WriteFault → HasFailed K.Sink sink.old sink.new }
    ensures long { IsErrOf result Status.TooLong → IsTooLong (S.left source.old) }
    ensures later { K.faults sink.old ≤ K.faults sink.new }
{
    let mut chunk = [0; CHUNK];
    let mut taken = 0;
    'chunks: loop {
        match source.read(&mut chunk) {
            Ok(0) => return Ok(()),
            Ok(count) => {
                match take_chunk(lines, &chunk[..count], LONGEST - taken, sink, clock) {
                    Ok(()) => taken += count,
                    Err(stop) => return Err(stop.status()),
                }
            }
            Err(Failed) => return Err(Status::ReadFault),
        }
    }
}

// Takes as many bytes as there is room for, and stops where there are more.
fn take_chunk<K: Sink, C: Clock>(
    lines: &mut Lines,
    bytes: &[u8],
    room: usize,
    sink: &mut K,
    clock: &mut C,
) -> Result<(), Stop>
    ensures fits { OnOk result (length bytes.now ≤ room) }
    ensures long { IsErrOf result Stop.TooLong → room < length bytes.now }
    ensures write { IsErrOf result Stop.Write → HasFailed K.Sink sink.old sink.new }
    ensures later { K.faults sink.old ≤ K.faults sink.new }
{
    let front = &bytes[..bytes.len().min(room)];
    match lines.feed(front, sink, clock) {
        Ok(()) if bytes.len() > room => Err(Stop::TooLong),
        Ok(()) => Ok(()),
        Err(StepFault::Memory) => Err(Stop::Memory),
        Err(StepFault::Write) => Err(Stop::Write),
    }
}

/// Why a chunk wasn't taken whole.
#[derive(Clone, Copy, Debug, PartialEq, Eq)]
enum Stop {
    Memory,
    Write,
    TooLong,
}

impl Stop {
    ghost use Rattle.explanations.specs.Stops.{status_of};

    fn status(self) -> Status
        ensures { result ≡ status_of self }
    {
        match self {
            Stop::Memory => Status::Memory,
            Stop::Write => Status::WriteFault,
            Stop::TooLong => Status::TooLong,
        }
    }
}
