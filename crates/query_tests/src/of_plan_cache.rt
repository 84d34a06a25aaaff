//! A query that is interned twice, and a third time in a copy.

use itpg_base::Name;
use path_ast::{Leaf, Path, Query, Test};
use plan_cache::Plans;

#[test]
fn a_query_has_one_node(rt: HostRuntime) {
    let alloc = rt.alloc();
    let meets = Name::new(b"meets").expect(&rt, "a name");
    let test = Box::new(alloc, Test::Leaf(Leaf::Label(meets))).expect(&rt, "memory");
    let step = Box::new(alloc, Path::F).expect(&rt, "memory");
    let label = Box::new(alloc, Path::Test(test)).expect(&rt, "memory");
    let query = Query {
        first: true,
        last: true,
        path: Path::Seq(step, label),
        graph_name: None,
    };
    let mut plans = Plans::new(alloc);
    let first = plans.intern(&query).expect(&rt, "memory");
    assert!(rt; plans.len() == 3);
    let second = plans.intern(&query).expect(&rt, "memory");
    assert!(rt; second == first);
    assert!(rt; plans.len() == 3);
    let mut copy = plans.copy().expect(&rt, "memory");
    let third = copy.intern(&query).expect(&rt, "memory");
    assert!(rt; third == first);
    assert!(rt; copy.len() == 3);
}
