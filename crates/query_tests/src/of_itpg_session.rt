//! What a session keeps after an edit, with the nodes numbered by hand.

use edit_reader::room;
use itpg_base::{Limits, MemSink};
use itpg_session::{Seen, Session};
use plan_cache::PlanNo;
use std::alloc::Global;
use std::process::Abort;

const GRAPH: [&[u8]; 9] = [
    b"graph g 0 100",
    b"node a Person",
    b"node r Room",
    b"live a 0 50",
    b"live r 0 50",
    b"edge v visits a r",
    b"live v 3 4",
    b"edge m meets a a",
    b"live m 0 9",
];

// Its nodes, each behind its children:
//
//     0   (x:Person)                 5   1, 2 and 4               10   0 and 9
//     1   F from Person to visits    6   F from visits to Room    11   (y:Room)
//     2   Exists on visits           7   Exists on Room           12   10 and 11
//     3   1 and 2                    8   6 and 7
//     4   :visits                    9   5 and 8
const ASK: &[u8] = b"ask MATCH (x:Person)-/FWD/:visits/FWD/-(y:Room)";

// Those that don't ask when a visit exists.
const STAYING: [u32; 7] = [0, 1, 4, 6, 7, 8, 11];

fn step(
    rt: &impl Abort,
    session: &mut Session,
    sink: &mut MemSink,
    number: u64,
    line: &[u8],
) -> Seen {
    session
        .step(number, line, &mut room(), sink)
        .ok()
        .expect(rt, "memory and room")
}

// The numbers of the nodes at which a relation is kept.
fn kept(rt: &impl Abort, alloc: Global, session: &Session) -> Vec<u32> {
    let plans = session.plans();
    let mut kept = Vec::new(alloc);
    for no in 0..plans.len() {
        if plans.kept(PlanNo(no)).is_some() {
            kept.push(no).expect(rt, "memory");
        }
    }
    kept
}

#[test]
fn exactly_what_no_edit_meets_stays(rt: HostRuntime) {
    let alloc = rt.alloc();
    let room = vec![in alloc; 0; 64].expect(&rt, "memory");
    let mut sink = MemSink::new(Vec::new(alloc), 0, room);
    let limits = Limits::new(100).expect(&rt, "a limit");
    let mut session = Session::new(alloc, limits);
    for line in GRAPH {
        assert!(rt; step(&rt, &mut session, &mut sink, 1, line) == Seen::Quiet);
    }
    assert!(rt; step(&rt, &mut session, &mut sink, 10, ASK) == Seen::Answered);
    assert!(rt; sink.held() == b"line 10 rows 1\na 3..4 r t..t\n".as_slice());
    let all = [0, 1, 2, 3, 4, 5, 6, 7, 8, 9, 10, 11, 12].as_slice();
    assert!(rt; kept(&rt, alloc, &session).as_slice() == all);
    assert!(rt; step(&rt, &mut session, &mut sink, 11, b"gone m 2 2") == Seen::Quiet);
    assert!(rt; kept(&rt, alloc, &session).as_slice() == all);
    assert!(rt; step(&rt, &mut session, &mut sink, 12, b"gone v 4 4") == Seen::Quiet);
    assert!(rt; kept(&rt, alloc, &session).as_slice() == STAYING.as_slice());
}
