//! Reads a script on standard input, and writes on standard output what its questions cost.
#![tactic(auto)]

use command_words::Status;
use explanations::explain;
use itpg_base::{StdSink, StdSource};
use question_costs::Clock;
use std::process::ExitCode;
use std::time::Instant;
use std::{env, io};

fn main(rt: HostRuntime) -> ExitCode {
    let status = match words(&rt) {
        Ok(words) => explained(&rt, &words),
        Err(status) => status,
    };
    if !matches!(status, Status::Done | Status::DoneRefused) {
        let _ = tell(&rt, status);
    }
    ExitCode::from(status.code())
}

// Explains the script on standard input.
fn explained(rt: &HostRuntime, words: &[String]) -> Status {
    let mut source = StdSource::new(rt.reader());
    let mut sink = StdSink::new(io::writer(rt));
    let mut clock = HostClock {
        rt,
        start: Instant::now(rt).ok(),
    };
    explain(rt.alloc(), words, &mut source, &mut sink, &mut clock)
}

// Says on standard error how the run ended.
fn tell(rt: &HostRuntime, status: Status) -> io::Result<()> {
    match status {
        Status::Usage => eprintln!(rt;
            "itpg-explain: usage: itpg-explain [--max-rows N] [--help] < SCRIPT"
        ),
        other => eprintln!(rt; "itpg-explain: {other}"),
    }
}

/// The words of the command line without the program's name. A word that isn't UTF-8 is in no sentence.
fn words(rt: &HostRuntime) -> Result<Vec<String>, Status> {
    let all = match env::args(rt) {
        Ok(all) => all,
        Err(error) if error.kind() == io::ErrorKind::OutOfMemory => return Err(Status::Memory),
        Err(_) => return Err(Status::Usage),
    };
    match all.skip(1).collect::<Vec<_>>(rt.alloc()) {
        Ok(words) => Ok(words),
        Err(_) => Err(Status::Memory),
    }
}

// The host's clock, from the start of the run. Where it can't be read, no time passes.
#[derive(Drop)]
struct HostClock<'a> {
    rt: &'a HostRuntime,
    start: Option<Instant>,
}

impl Clock for HostClock<'_> {
    fn micros(&mut self) -> u64 {
        let Some(start) = &self.start else {
            return 0;
        };
        match start.elapsed(self.rt) {
            Ok(passed) => u64::try_from(passed.as_micros()).unwrap_or(u64::MAX),
            Err(_) => 0,
        }
    }
}
