//! Reads a script on standard input and writes the replies on standard output.
#![tactic(auto)]

use itpg_base::{StdSink, StdSource};
use itpg_run::{Ending, Status, serve};
use std::alloc::Global;
use std::process::ExitCode;
use std::{env, io};

// How many bytes the block has that is taken and given back before anything else: 31 MiB. From one of 32 the C library learns nothing.
const BLOCK: usize = 32_505_856;

fn main(rt: HostRuntime) -> ExitCode {
    have_blocks_kept(rt.alloc());
    let status = match words(&rt) {
        Ok(words) => {
            let mut source = StdSource::new(rt.reader());
            let mut sink = StdSink::new(io::writer(&rt));
            serve(rt.alloc(), &words, &mut source, &mut sink, Ending::Leave)
        }
        Err(status) => status,
    };
    if !matches!(status, Status::Done | Status::DoneRefused) {
        let _ = eprintln!(rt; "itpg: {status}");
    }
    ExitCode::from(status.code())
}

// Takes a large block and gives it back. Until the C library has seen one come back, it hands each on to the system, and the memory of
// which answers are made is asked for again and again. Where there is no memory nothing is lost.
fn have_blocks_kept(alloc: Global) {
    let _block = Vec::<u8>::with_capacity(alloc, BLOCK);
}

/// The words of the command line without the program's name. A word that isn't UTF-8 is in no sentence.
fn words(rt: &HostRuntime) -> Result<Vec<String>, Status> {
    let all = match env::args(rt) {
        Ok(all) => all,
        Err(error) if error.kind() == io::ErrorKind::OutOfMemory => return Err(Status::Memory),
        Err(_) => return Err(Status::Usage),
    };
    match all.skip(1).collect::<Vec<_>>(rt.alloc()) {
        Ok(words) => Ok(words),
        Err(_) => Err(Status::Memory),
    }
}
