//! Sets and values: what no query asks for, and values that aren't short.
use interval_set::{IntervalSet, Span, ValuedSet};
use itpg_base::Name;

#[test]
fn moments_are_taken_out(rt: HostRuntime) {
    let mut all = IntervalSet::new(rt.alloc());
    let span = Span::new(0, 20).expect(&rt, "0..20");
    all.join_span(span).expect(&rt, "memory");
    let mut middle = IntervalSet::new(rt.alloc());
    let span = Span::new(3, 8).expect(&rt, "3..8");
    middle.join_span(span).expect(&rt, "memory");
    let rest = all.minus(&middle).expect(&rt, "memory");
    let left = Span::new(0, 2).expect(&rt, "0..2");
    let right = Span::new(9, 20).expect(&rt, "9..20");
    assert!(rt; rest.spans() == [left, right].as_slice());
}

#[test]
fn long_value_stands_among_short_ones(rt: HostRuntime) {
    let short = Name::new("low".as_bytes()).expect(&rt, "a short value");
    let long = Name::new("fifteen letters".as_bytes()).expect(&rt, "a long value");
    let whole = Span::new(0, 9).expect(&rt, "0..9");
    let middle = Span::new(3, 5).expect(&rt, "3..5");
    let mut values = ValuedSet::new(rt.alloc());
    values.put(whole, short).expect(&rt, "memory");
    assert!(rt; values.count_put(middle, long) == 3);
    values.put(middle, long).expect(&rt, "memory");
    assert!(rt; values.count() == 3);
    assert!(rt; values.at(2) == Some(short));
    assert!(rt; values.at(3) == Some(long));
    let left = Span::new(0, 2).expect(&rt, "0..2");
    let right = Span::new(6, 9).expect(&rt, "6..9");
    let places = values.places(short).expect(&rt, "memory");
    assert!(rt; places.spans() == [left, right].as_slice());
    values.clear(middle).expect(&rt, "memory");
    assert!(rt; !values.has(&long));
}
