//! What is near a node, and what is kept of it.

use edit_reader::room;
use itpg_base::{Limits, MemSink, Name, ObjNo};
use itpg_session::Session;
use source_rows::near_objects;

// Objects 0 to 4: the nodes a, b, c, an edge from a to b and one from b to c.
const GRAPH: [&[u8]; 6] = [
    b"graph g 0 9",
    b"node a T",
    b"node b T",
    b"node c T",
    b"edge m e a b",
    b"edge n e b c",
];

#[test]
fn in_one_step_an_edge_and_its_ends_are_near(rt: HostRuntime) {
    let alloc = rt.alloc();
    let held = vec![in alloc; 0; 64].expect(&rt, "memory");
    let mut sink = MemSink::new(Vec::new(alloc), 0, held);
    let limits = Limits::new(100).expect(&rt, "a limit");
    let mut session = Session::new(alloc, limits);
    let mut edit = room();
    for line in GRAPH {
        let seen = session.step(1, line, &mut edit, &mut sink);
        assert!(rt; seen.is_ok());
    }
    let name = Name::new(b"a").expect(&rt, "a name");
    let graph = session.graph();
    let start = graph.find(&name).expect(&rt, "a node");
    let near = near_objects(alloc, graph, start, Some(1)).expect(&rt, "memory");
    assert!(rt; near.len() == 3);
    assert!(rt; near[0].0 == 0);
    assert!(rt; near[1].0 == 1);
    assert!(rt; near[2].0 == 3);
}

// The nodes 0 to 2, and the edge 3 from a to b, which lives from 2 to 4; then a query is followed.
const FOLLOWED: [&[u8]; 10] = [
    b"graph g 0 9",
    b"node a T",
    b"node b T",
    b"node c T",
    b"live a 0 9",
    b"live b 0 9",
    b"live c 0 9",
    b"edge m e a b",
    b"live m 2 4",
    b"follow f MATCH (x)-/FWD/:e/FWD/-(y)",
];

#[test]
fn the_rows_of_a_node_stay_until_an_edit_touches_it(rt: HostRuntime) {
    let alloc = rt.alloc();
    let held = vec![in alloc; 0; 64].expect(&rt, "memory");
    let mut sink = MemSink::new(Vec::new(alloc), 0, held);
    let limits = Limits::new(100).expect(&rt, "a limit");
    let mut session = Session::new(alloc, limits);
    let mut edit = room();
    for line in FOLLOWED {
        let seen = session.step(1, line, &mut edit, &mut sink);
        assert!(rt; seen.is_ok());
    }
    let a = ObjNo(0);
    let seen = session.step(11, b"near f a", &mut edit, &mut sink);
    assert!(rt; seen.is_ok());
    assert!(rt; sink.held() == b"line 11 rows 1\na 2..4 b t..t\n".as_slice());
    assert!(rt; session.follows().len() == 1);
    assert!(rt; session.follows().rows_of(0, a).is_some());
    let seen = session.step(12, b"gone c 5 5", &mut edit, &mut sink);
    assert!(rt; seen.is_ok());
    assert!(rt; session.follows().len() == 1);
    assert!(rt; session.follows().rows_of(0, a).is_some());
    let seen = session.step(13, b"edge k e a c", &mut edit, &mut sink);
    assert!(rt; seen.is_ok());
    assert!(rt; session.follows().len() == 1);
    assert!(rt; session.follows().rows_of(0, a).is_none());
}
