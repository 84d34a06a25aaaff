//! Zones composed, turned round and made, by hand.

use zone_compose::{arrivals, compose, departures, diagonal, flip, shift};
use zone_core::{Bounds, tight};

#[test]
fn a_middle_moment_joins_two_zones(rt: HostRuntime) {
    let first = tight(Bounds {
        a: 5,
        b: 6,
        c: 5,
        d: 20,
        e: 0,
        f: 15,
    })
    .expect(&rt, "a zone");
    let second = tight(Bounds {
        a: 8,
        b: 9,
        c: 8,
        d: 20,
        e: 0,
        f: 12,
    })
    .expect(&rt, "a zone");
    let both = compose(&first, &second).expect(&rt, "a zone");
    assert!(rt;
        both.bounds()
            == (Bounds {
                a: 5,
                b: 6,
                c: 8,
                d: 20,
                e: 2,
                f: 15
            })
    );
    assert!(rt; departures(&both) == (5, 6));
    assert!(rt; arrivals(&both) == (8, 20));
    assert!(rt;
        flip(&both).bounds()
            == (Bounds {
                a: 8,
                b: 20,
                c: 5,
                d: 6,
                e: -15,
                f: -2
            })
    );
    let late = diagonal(30, 40).expect(&rt, "a zone");
    assert!(rt; compose(&both, &late).is_none());
}

#[test]
fn steps_lead_to_the_next_moment(rt: HostRuntime) {
    let next = shift(1, 0, 9).expect(&rt, "a zone");
    assert!(rt;
        next.bounds()
            == (Bounds {
                a: 0,
                b: 8,
                c: 1,
                d: 9,
                e: 1,
                f: 1
            })
    );
    assert!(rt; shift(-1, 7, 7).is_none());
    assert!(rt; diagonal(5, 4).is_none());
}
