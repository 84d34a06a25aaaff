//! Runs over devices that fail.

use itpg_base::{MemSink, MemSource};
use itpg_run::{Ending, Status, serve};
use std::alloc::Global;
use std::process::Abort;

const SCRIPT: &[u8] =
    b"graph g 0 100\nnode a Person\nnode b Person\nlive a 0 9\nlive a 10 20\nask MATCH (x:Person)\n";

const OUTPUT: &[u8] = b"line 6 rows 1\na 0..20\n";

// Runs the words, and the script, over a source that gives 16 bytes at a call and a sink that takes 5 at a failing call; the calls of
// these numbers fail, and 0 is no call's number. Whether it ends with this status and these bytes written.
fn ends(
    rt: &impl Abort,
    alloc: Global,
    words: &[String],
    script: &[u8],
    fails: (u64, u64),
    wanted: (Status, &[u8]),
) -> bool {
    let script = script.to_vec(alloc).expect(rt, "memory");
    let failing = vec![in alloc; fails.0].expect(rt, "memory");
    let mut source = MemSource::new(script, 16, failing);
    let failing = vec![in alloc; fails.1].expect(rt, "memory");
    let room = vec![in alloc; 0; 64].expect(rt, "memory");
    let mut sink = MemSink::new(failing, 5, room);
    let status = serve(alloc, words, &mut source, &mut sink, Ending::Free);
    status == wanted.0 && sink.held() == wanted.1
}

#[test]
fn a_failing_device_ends_the_run(rt: HostRuntime) {
    for (fails, wanted) in [
        ((0, 0), (Status::Done, OUTPUT)),
        ((1, 0), (Status::ReadFault, b"")),
        ((2, 0), (Status::ReadFault, b"")),
        ((0, 1), (Status::WriteFault, b"line ")),
    ] {
        assert!(rt; ends(&rt, rt.alloc(), &[], SCRIPT, fails, wanted));
    }
}

// The second write fails, and takes 5 bytes. The summary was worked out by a program apart from this one.
#[test]
fn a_trial_over_a_failing_sink_leaves_a_front_part(rt: HostRuntime) {
    let alloc = rt.alloc();
    let word = String::from_str(alloc, "--trial=7").expect(&rt, "memory");
    let words = vec![in alloc; word].expect(&rt, "memory");
    let told = b"ask 1 rows 20 sum 432580\nask 2".as_slice();
    assert!(rt; ends(&rt, alloc, &words, &[], (0, 2), (Status::WriteFault, told)));
}
