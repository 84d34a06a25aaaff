//! The run of a trial.
ghost use Rattle.std.specs.Prelude.{◌≡◌, ◌++◌, ◌-◌, ◌^◌, ◌<◌, ◌≤◌, ◌∷◌, [], false, ℕ, List, MatchOption, IfOk, OnOk, OnErr, IsErrOf};
ghost use Rattle.std.specs.declared.option.Option.{Option};
ghost use Rattle.itpg_base.specs.Sinks.{GetsNothing, HasFailed};
ghost use Rattle.itpg_session.specs.Machine.{opening};
ghost use Rattle.itpg_session.specs.Steps.{StandsAs};
ghost use Rattle.trial_script.specs.Script.{Asks};
ghost use Rattle.itpg_run.specs.Summary.{TellsAllTo, TellsWholeTo, TellsSomeTo};
ghost use Rattle.itpg_run.specs.Underway.{Takes, TakesTo, TakesSomeTo};

use crate::summary::{is_wide, told};
use itpg_base::{Limits, Sink};
use itpg_session::{Session, StepFault, law_of_asked, law_of_replies};
use std::alloc::Global;
use trial_script::{Trial, asked, trial_line};

/// Runs the script that a number generates, and writes its summary: a line for each of its questions, `ask K rows R sum S` or
/// `ask K wide`. It gives whether some question was too wide.
///
/// # Errors
///
/// `Memory` if memory ran out: what the first lines tell was written whole, and nothing of the line that met it. `Write` if the sink
/// failed: a front part of the summary was written.
pub fn run_trial<K: Sink>(
    alloc: Global,
    limits: Limits,
    number: u64,
    out: &mut K,
) -> Result<bool, StepFault>
    ensures told { IfOk result (λ wide. TellsAllTo K.Sink out.old out.new limits number wide) }
    ensures memory { IsErrOf result StepFault.Memory → TellsWholeTo K.Sink out.old out.new limits number }
    ensures some { OnErr result (TellsSomeTo K.Sink out.old out.new limits number) }
    ensures write { IsErrOf result StepFault.Write → HasFailed K.Sink out.old out.new }
    ensures later { K.faults out.old ≤ K.faults out.new }
{
    law_of_asked();
    law_of_replies();
    let mut running = Running::new(alloc, limits);
    let mut trial = Trial::new(number);
    while let Some(line) = next_line(alloc, &mut trial)? {
        running.take(&line, out)?;
    }
    Ok(running.wide)
}

// A session, the number of the next question, and whether a question was too wide.
#[derive(Drop)]
pub(crate) struct Running {
    session: Session,
    question: u64,
    wide: bool,
}

impl Running {
    fn new(alloc: Global, limits: Limits) -> Running
        ensures session { StandsAs result.session opening limits }
        ensures question { result.question ≡ 1 }
        ensures wide { result.wide ≡ false }
    {
        Running {
            session: Session::new(alloc, limits),
            question: 1,
            wide: false,
        }
    }

    // Takes a line: tells the reply to a question, and has the session answer any other.
    fn take<K: Sink>(&mut self, line: &[u8], out: &mut K) -> Result<(), StepFault>
        requires { self.old.question < 2 ^ 64 - 1 }
        ensures takes { OnOk result (TakesTo K.Sink out.old out.new self.old self.new line.now) }
        ensures memory { IsErrOf result StepFault.Memory → GetsNothing K.Sink out.old out.new }
        ensures some { IsErrOf result StepFault.Write → TakesSomeTo K.Sink out.old out.new self.old line.now }
        ensures write { IsErrOf result StepFault.Write → HasFailed K.Sink out.old out.new }
        ensures later { K.faults out.old ≤ K.faults out.new }
    {
        match asked(line) {
            Some(query) => self.ask(query, out),
            None => self.step(line),
        }
    }

    // Takes a line that asks a query text.
    fn ask<K: Sink>(&mut self, query: &[u8], out: &mut K) -> Result<(), StepFault>
        requires { self.old.question < 2 ^ 64 - 1 }
        ensures takes { OnOk result ((line : List ℕ) → Asks line query.now → TakesTo K.Sink out.old out.new self.old self.new line) }
        ensures memory { IsErrOf result StepFault.Memory → GetsNothing K.Sink out.old out.new }
        ensures some { IsErrOf result StepFault.Write → (line : List ℕ) → Asks line query.now → TakesSomeTo K.Sink out.old out.new self.old line }
        ensures write { IsErrOf result StepFault.Write → HasFailed K.Sink out.old out.new }
        ensures later { K.faults out.old ≤ K.faults out.new }
    {
        law_of_asked();
        law_of_replies();
        let reply = self.session.ask(query)?;
        told(self.question, &reply).write(out)?;
        self.question += 1;
        self.wide |= is_wide(&reply);
        Ok(())
    }

    // Takes a line that asks nothing. Nobody sees its reply.
    fn step(&mut self, line: &[u8]) -> Result<(), StepFault>
        requires others { (query : List ℕ) → ¬ Asks line.now query }
        ensures takes { OnOk result ((held : Option (List ℕ)) → Takes held held self.old self.new line.now) }
        ensures write { IsErrOf result StepFault.Write → ⊥ }
    {
        law_of_replies();
        self.session.pass(line)?;
        Ok(())
    }
}

// The next line of a script.
fn next_line(alloc: Global, trial: &mut Trial) -> Result<Option<Vec<u8>>, StepFault>
    ensures taken { IfOk result (λ taken. MatchOption taken ((trial.old ≡ []) × (trial.new ≡ [])) (λ line. trial.old ≡ line.items ∷ trial.new)) }
    ensures same { OnErr result (trial.new ≡ trial.old) }
    ensures memory { IsErrOf result StepFault.Write → ⊥ }
{
    Ok(trial_line(alloc, trial)?)
}
