//! Copies of answers, which no program makes, and spans that are joined.

ghost use Rattle.std.specs.Prelude.{◌≡◌};

use interval_set::Span;
use itpg_base::ObjNo;
use relation_rows::{Answer, OneRow, OneTime, RelFault, Relation};
use std::rc::Rc;

#[test]
fn an_answer_is_copied(rt: HostRuntime) {
    let horizon = Span::new(0, 9).expect(&rt, "a span");
    let relation = Relation::identity(rt.alloc(), &[ObjNo(7)], horizon, 1).expect(&rt, "one row");
    let row = OneRow {
        object: ObjNo(7),
        span: horizon,
    };
    let times = Answer::Times(relation.sources().expect(&rt, "memory"));
    let copy = times.copy().expect(&rt, "memory");
    assert!(rt; matches!(&copy, Answer::Times(rows) if rows.rows() == [row].as_slice()));
    let pairs = Answer::Pairs(Rc::new(rt.alloc(), relation).expect(&rt, "memory"));
    let copy = pairs.copy().expect(&rt, "memory");
    assert!(rt; matches!(&copy, Answer::Pairs(rows) if rows.has(ObjNo(7), 9, ObjNo(7), 9)));
}

fn run(span: Span) -> OneRow
    ensures { result.span ≡ span }
{
    OneRow {
        object: ObjNo(7),
        span,
    }
}

#[test]
fn spans_are_joined_in_whatever_order(rt: HostRuntime) {
    let alloc = rt.alloc();
    let first = Span::new(5, 9).expect(&rt, "a span");
    let second = Span::new(20, 20).expect(&rt, "a span");
    let third = Span::new(0, 4).expect(&rt, "a span");
    let whole = Span::new(0, 9).expect(&rt, "a span");
    let spans = Vec::from_slice(alloc, &[run(first), run(second), run(third)]).expect(
        &rt, "memory",
    );
    let times = OneTime::from_spans(spans).expect(&rt, "memory");
    assert!(rt; times.rows() == [run(whole), run(second)].as_slice());
}

#[test]
fn what_is_known_is_joined_with_where_it_goes_on(rt: HostRuntime) {
    let horizon = Span::new(0, 9).expect(&rt, "a span");
    let known = Relation::identity(rt.alloc(), &[ObjNo(7)], horizon, 1).expect(&rt, "one row");
    let onward = known.onward().expect(&rt, "memory");
    let all = onward
        .union_behind(&known, &known, 1)
        .expect(&rt, "one row");
    assert!(rt; all.same(&known));
    assert!(rt; matches!(onward.union_behind(&known, &known, 0), Err(RelFault::Wide)));
}
