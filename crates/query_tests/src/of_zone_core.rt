//! Zones and what is left of them, by hand.

use zone_core::{Bounds, tight};

#[test]
fn bounds_are_drawn_in(rt: HostRuntime) {
    let loose = Bounds {
        a: 0,
        b: 10,
        c: 20,
        d: 30,
        e: 0,
        f: 12,
    };
    let drawn_in = Bounds {
        a: 8,
        b: 10,
        c: 20,
        d: 22,
        e: 10,
        f: 12,
    };
    assert!(rt; tight(loose).expect(&rt, "a zone").bounds() == drawn_in);
    let too_far = Bounds {
        a: 0,
        b: 0,
        c: 5,
        d: 5,
        e: 0,
        f: 4,
    };
    assert!(rt; tight(too_far).is_none());
}

#[test]
fn the_lower_half_is_left_of_a_square(rt: HostRuntime) {
    let square = tight(Bounds {
        a: 0,
        b: 20,
        c: 0,
        d: 20,
        e: -20,
        f: 20,
    })
    .expect(&rt, "a square");
    let upper = tight(Bounds {
        a: 0,
        b: 20,
        c: 0,
        d: 20,
        e: 0,
        f: 20,
    })
    .expect(&rt, "its upper half");
    let lower = tight(Bounds {
        a: 1,
        b: 20,
        c: 0,
        d: 19,
        e: -20,
        f: -1,
    });
    assert!(rt; upper.inside(&square) && !square.inside(&upper));
    assert!(rt; square.meet(&upper) == Some(upper));
    assert!(rt; upper.has(7, 7) && !upper.has(7, 6));
    assert!(rt; square.minus(&upper) == [None, None, None, None, lower, None]);
}
