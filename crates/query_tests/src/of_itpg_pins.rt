//! Two pins of one graph.

use itpg_base::Name;
use itpg_graph::Graph;
use itpg_pins::Pins;
use plan_cache::Plans;

#[test]
fn a_pin_stands_until_it_is_removed(rt: HostRuntime) {
    let alloc = rt.alloc();
    let morning = Name::new(b"morning").expect(&rt, "a name");
    let evening = Name::new(b"evening").expect(&rt, "a name");
    let graph = Graph::new(alloc);
    let plans = Plans::new(alloc);
    let mut pins = Pins::new(alloc, 10);
    let added = pins.add(morning, &graph, &plans);
    assert!(rt; added.is_ok());
    let added = pins.add(evening, &graph, &plans);
    assert!(rt; added.is_ok());
    assert!(rt; pins.find(&evening) == Some(1));
    let removed = pins.remove(&morning);
    assert!(rt; removed.is_ok());
    assert!(rt; pins.find(&evening) == Some(0));
    assert!(rt; pins.len() == 1);
}
