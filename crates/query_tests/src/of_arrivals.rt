//! First arrivals, last departures and counts of two objects that stay where they are.

use arrivals::{count, first, last};
use band_normal::{Band, End};
use interval_set::Span;
use itpg_base::ObjNo;
use relation_rows::{RelFault, Relation, Row};

// From the object to itself at each moment from 0 to 9.
fn stays(object: u32) -> Row {
    let band = Band {
        from: 0,
        to: 9,
        low: End::Moving(0),
        high: End::Moving(0),
    };
    Row {
        source: ObjNo(object),
        target: ObjNo(object),
        band,
    }
}

#[test]
fn two_objects_that_stay(rt: HostRuntime) {
    let alloc = rt.alloc();
    let horizon = Span::new(0, 9).expect(&rt, "a span");
    let both = Relation::identity(alloc, &[ObjNo(0), ObjNo(1)], horizon, 2).expect(&rt, "two rows");
    let found = first(alloc, &both, 2).expect(&rt, "two rows");
    assert!(rt; found.rows() == [stays(0), stays(1)].as_slice());
    let found = last(alloc, &both, 2).expect(&rt, "two rows");
    assert!(rt; found.rows() == [stays(0), stays(1)].as_slice());
    assert!(rt; matches!(first(alloc, &both, 1), Err(RelFault::Wide)));
    let times = both.sources().expect(&rt, "memory");
    assert!(rt; times.rows().len() < 3);
    let counts = count(alloc, &times, 1).expect(&rt, "one row");
    assert!(rt; matches!(counts.rows(), [row] if row.span == horizon && row.number == 2));
    assert!(rt; matches!(count(alloc, &times, 0), Err(RelFault::Wide)));
}
