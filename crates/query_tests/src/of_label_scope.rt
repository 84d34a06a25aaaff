//! Scopes and footprints of a path, and scopes met and joined, with labels by hand.

use itpg_base::{LabelSet, Name, Touch};
use label_scope::{Scope, foot, meets, narrow};
use match_parser::read_query;

fn labels(scope: &Scope) -> &[Name] {
    match scope {
        Scope::All => &[],
        Scope::These(labels) => labels.names(),
    }
}

#[test]
fn a_path_starts_and_ends_within_its_labels(rt: HostRuntime) {
    let person = Name::new(b"Person").expect(&rt, "a name");
    let meets = Name::new(b"meets").expect(&rt, "a name");
    let query = read_query(rt.alloc(), b"MATCH (x:Person)-/F/-(y:meets)")
        .ok()
        .expect(&rt, "a query");
    let scopes = narrow(rt.alloc(), &query.path, &Scope::All, &Scope::All).expect(&rt, "memory");
    assert!(rt; labels(&scopes.0) == [person].as_slice());
    assert!(rt; labels(&scopes.1) == [meets].as_slice());
}

#[test]
fn scopes_are_met_and_joined(rt: HostRuntime) {
    let alloc = rt.alloc();
    let person = Name::new(b"Person").expect(&rt, "a name");
    let room = Name::new(b"Room").expect(&rt, "a name");
    let tag = Name::new(b"Tag").expect(&rt, "a name");
    let rooms = Scope::one(alloc, room).expect(&rt, "memory");
    let persons = Scope::one(alloc, person).expect(&rt, "memory");
    let tags = Scope::one(alloc, tag).expect(&rt, "memory");
    let two = rooms.join(alloc, &persons).expect(&rt, "memory");
    let three = two.join(alloc, &tags).expect(&rt, "memory");
    assert!(rt; labels(&three) == [person, room, tag].as_slice());
    let copy = three.copy(alloc).expect(&rt, "memory");
    let first = copy.meet(alloc, &rooms).expect(&rt, "memory");
    assert!(rt; labels(&first) == [person, room, tag].as_slice());
    let other = Scope::All.meet(alloc, &rooms).expect(&rt, "memory");
    assert!(rt; labels(&other) == [room].as_slice());
}

#[test]
fn a_footprint_is_met_by_label_and_property(rt: HostRuntime) {
    let alloc = rt.alloc();
    let person = Name::new(b"Person").expect(&rt, "a name");
    let risk = Name::new(b"risk").expect(&rt, "a name");
    let mood = Name::new(b"mood").expect(&rt, "a name");
    let nurse = Name::new(b"Nurse").expect(&rt, "a name");
    let query = read_query(alloc, b"MATCH (x:Person {risk = 'high'})")
        .ok()
        .expect(&rt, "a query");
    let own = foot(alloc, &query.path, &Scope::All, &Scope::All).expect(&rt, "memory");
    let asked = own.copy(alloc).expect(&rt, "memory");
    assert!(rt; labels(&asked.shape) == [person].as_slice());
    assert!(rt; labels(&asked.live) == [person].as_slice());
    assert!(rt; asked.values.scopes().len() == 1);
    let labels = LabelSet::one(person);
    assert!(rt; meets(&asked, &Touch::Gone(labels)));
    assert!(rt; meets(&asked, &Touch::Value { labels, prop: risk }));
    assert!(rt; !meets(&asked, &Touch::Value { labels, prop: mood }));
    assert!(rt; !meets(&asked, &Touch::Live(LabelSet::one(mood))));
    let two = LabelSet::new([person, nurse].as_slice()).expect(&rt, "a set of labels");
    assert!(rt; meets(&asked, &Touch::Live(two)));
}
