//! The top call: reads the words, and then the source to its end, a fault or the limit of the input; or runs a trial, which reads
//! nothing.
ghost use Rattle.std.specs.Prelude.{◌≡◌, ◌+◌, ◌-◌, ◌^◌, ◌≤◌, ◌<◌, ◌⊎◌, ℕ, List, [], Some, length, map, string_bytes, OnOk, IfErr, IsErrOf};
ghost use Rattle.itpg_base.specs.Outside.{Rose};
ghost use Rattle.itpg_base.specs.Sinks.{HasFailed};
ghost use Rattle.itpg_run.specs.Served.{Serves, BeginsTo, EndsWell, Idles, AskForScript, AskForTrial, AskForSome, is_json, longest};
ghost use Rattle.itpg_run.specs.Out.{Mode, mode_at};
ghost use Rattle.itpg_run.specs.Tried.{Tries, WritesSummaryTo};
ghost use Rattle.itpg_run.specs.Pumped.{PumpsAll, PumpsTo};

use crate::Status;
use crate::reader::{Reader, Stop};
use crate::trial::run_trial;
use command_words::{WordsFault, law_of_one_reading, read_words};
use itpg_base::{Failed, Limits, Sink, Source};
use itpg_session::{StepFault, law_of_replies};
use row_printer::Form;
use std::alloc::Global;
use std::mem::forget;

// How many bytes a script may have.
const LONGEST: usize = 268_435_456;

// How many bytes are read at a time, at most.
const CHUNK: usize = 65_536;

/// What becomes of the memory of a script's graph once all is answered.
#[derive(Clone, Copy, Debug)]
pub enum Ending {
    /// It is freed.
    Free,
    /// It is left to the process, which ends then: freeing a large graph takes a tenth of the time in which it was built.
    Leave,
}

/// Does all that the program does: reads a script from the source and writes the plain machine's output to the sink.
///
/// `words` are the command line's words without the program's name: `[--max-rows N] [--trial NUMBER] [--json]`. The limit of rows that
/// they ask for is the machine's, and the lines and their replies are of JSON if they ask for that. If they ask for a trial, nothing is
/// read, and the summary of the trial is written in place of an output. `ending` says what becomes of the memory then.
///
/// The output over a script is the replies of the plain machine to its lines, numbered from 1 (`docs/PROVED.md`). [`Status`] says what
/// each status means. Whatever it is, what was written begins the output over all that the source had, or the summary. Every call
/// returns, on every source.
pub fn serve<S: Source, K: Sink>(
    alloc: Global,
    words: &[String],
    source: &mut S,
    sink: &mut K,
    ending: Ending,
) -> Status
    // The table of what was taken and written at each status.
    ensures served { (mode : Mode) → AskForScript (map string_bytes words.entry.now) mode → Serves S.Source K.Sink source.old sink.old source.new sink.new result mode }

    // With a trial: the source stays as it is, and what was written of the summary at each status.
    ensures tried { (limit number : ℕ) → AskForTrial (map string_bytes words.entry.now) limit number → Tries S.Source K.Sink source.old sink.old source.new sink.new result limit number }
    ensures unread { (limit number : ℕ) → AskForTrial (map string_bytes words.entry.now) limit number → source.new ≡ source.old }

    // Words that ask for nothing: source and sink stay as they are, so nothing is read or written.
    ensures alone { ¬ AskForSome (map string_bytes words.entry.now) → (source.new ≡ source.old) × (sink.new ≡ sink.old) }
    ensures idle { ¬ AskForSome (map string_bytes words.entry.now) → Idles S.Source K.Sink source.old sink.old source.new sink.new }
    ensures told { ¬ AskForSome (map string_bytes words.entry.now) → (result ≡ Status.Usage) ⊎ (result ≡ Status.Memory) }
    ensures usage { result ≡ Status.Usage → ¬ AskForSome (map string_bytes words.entry.now) }

    // Whatever the status, a front part of the output over all that the source had was written.
    ensures each { (mode : Mode) → AskForScript (map string_bytes words.entry.now) mode → BeginsTo S.Source K.Sink source.old sink.old sink.new mode }

    // A fault is told only if its device's count rose in this call.
    ensures read { result ≡ Status.ReadFault → Rose (S.faults source.old) (S.faults source.new) }
    ensures write { result ≡ Status.WriteFault → HasFailed K.Sink sink.old sink.new }

    // With no fault and a script that fits, all was answered, or memory ran out.
    ensures complete { AskForSome (map string_bytes words.entry.now) → (all : List ℕ) → S.left source.old ≡ Some all → length all ≤ longest
        → ¬ Rose (S.faults source.old) (S.faults source.new) → ¬ HasFailed K.Sink sink.old sink.new → EndsWell result }
{
    law_of_one_reading();
    match read_words(alloc, words) {
        Ok(options) => match options.trial {
            None => {
                let form = form_of(options.json);
                run_script(alloc, form, options.limits, source, sink, ending)
            }
            Some(number) => run_number(alloc, options.limits, number, sink),
        },
        Err(WordsFault::Usage) => Status::Usage,
        Err(WordsFault::Memory) => Status::Memory,
    }
}

// The form of the lines, where the words ask for lines of JSON or don't.
fn form_of(json: bool) -> Form
    ensures { is_json result ≡ json }
{
    if json { Form::Json } else { Form::Plain }
}

// The same for words that ask for a script, with their form and limit.
fn run_script<S: Source, K: Sink>(
    alloc: Global,
    form: Form,
    limits: Limits,
    source: &mut S,
    sink: &mut K,
    ending: Ending,
) -> Status
    ensures served { Serves S.Source K.Sink source.old sink.old source.new sink.new result (mode_at form limits) }
    ensures usage { result ≡ Status.Usage → ⊥ }
    ensures each { BeginsTo S.Source K.Sink source.old sink.old sink.new (mode_at form limits) }
    ensures read { result ≡ Status.ReadFault → Rose (S.faults source.old) (S.faults source.new) }
    ensures write { result ≡ Status.WriteFault → HasFailed K.Sink sink.old sink.new }
    ensures complete { (all : List ℕ) → S.left source.old ≡ Some all → length all ≤ longest
        → ¬ Rose (S.faults source.old) (S.faults source.new) → ¬ HasFailed K.Sink sink.old sink.new → EndsWell result }
{
    law_of_replies();
    let mut reader = Reader::new(alloc, form, limits);
    match pump(&mut reader, source, sink) {
        Ok(()) => {
            let status = reader.finish(sink);
            end(reader, ending);
            status
        }
        Err(status) => {
            end(reader, ending);
            status
        }
    }
}

// Frees the reader's memory or leaves it.
fn end(reader: Reader, ending: Ending) {
    match ending {
        Ending::Free => {}
        Ending::Leave => forget(reader),
    }
}

// Runs the trial of a number.
fn run_number<K: Sink>(alloc: Global, limits: Limits, number: u64, sink: &mut K) -> Status
    ensures summary { WritesSummaryTo K.Sink sink.old sink.new result limits number }
    ensures write { result ≡ Status.WriteFault → HasFailed K.Sink sink.old sink.new }
{
    match run_trial(alloc, limits, number, sink) {
        Ok(true) => Status::DoneRefused,
        Ok(false) => Status::Done,
        Err(StepFault::Memory) => Status::Memory,
        Err(StepFault::Write) => Status::WriteFault,
    }
}

// Reads to the end of the input.
fn pump<S: Source, K: Sink>(reader: &mut Reader, source: &mut S, sink: &mut K) -> Result<(), Status>
    requires { reader.old.number ≤ 1 }
    ensures ended { OnOk result (PumpsAll S.Source K.Sink source.old sink.old source.new sink.new reader.old reader.new) }
    ensures number { OnOk result (reader.new.number < 2 ^ 64 - 1) }
    ensures stopped { IfErr result (λ status. PumpsTo S.Source K.Sink source.old sink.old source.new sink.new reader.old status) }
    ensures read { IsErrOf result Status.ReadFault → Rose (S.faults source.old) (S.faults source.new) }
    ensures write { IsErrOf result Status.WriteFault → HasFailed K.Sink sink.old sink.new }
    ensures later { K.faults sink.old ≤ K.faults sink.new }
    ensures source_later { S.faults source.old ≤ S.faults source.new }
{
    let mut chunk = [0; CHUNK];
    let mut taken = 0;
    'chunks: loop {
        match source.read(&mut chunk) {
            Ok(0) => return Ok(()),
            Ok(count) => {
                match reader.take_chunk(&chunk[..count], LONGEST - taken, sink) {
                    Ok(()) => taken += count,
                    Err(stop) => return Err(stop.status()),
                }
            }
            Err(Failed) => return Err(Status::ReadFault),
        }
    }
}

impl Stop {
    ghost use Rattle.itpg_run.specs.Pumped.{status_of};

    fn status(self) -> Status
        ensures { result ≡ status_of self }
    {
        match self {
            Stop::Memory => Status::Memory,
            Stop::Write => Status::WriteFault,
            Stop::TooLong => Status::TooLong,
        }
    }
}
